//! Relations that follow from hypotheses whose expressions have the same normal forms, orders also
//! from chains of hypotheses.
//!
//! A chain's search goes from the first word, hypothesis by hypothesis, and visits each normal form
//! once, or once more where it is first reached as less. Errors: out of memory, or the search's
//! limit is reached; each id keeps its tree.

ghost use Rattle.std.specs.Prelude.{IfOk, IfSome, OnOk};
ghost use Rattle.term_table.specs.Table.{IsKnown, Extends};
ghost use Rattle.prover_goals.specs.Search.{IsSearch, IsContext};
ghost use Rattle.auto_facts.specs.Facts.{IsLink, IsKnownRelation};
ghost use Rattle.auto_proofs.specs.Inside.Asked.{IsAsked};

use auto_candidates::known;
use auto_facts::{
    Link, Related, are_alike, at_most, fact_at, from_other, joined, rel_of, to_other,
};
use hereditary_subst::Exhausted;
use lf_signature::numbers::ULE_REFL;
use lf_terms::rule_term;
use prover_goals::{Context, Search, normal_exp, proof_by_words};
use prover_hyps::Hypotheses;
use prover_ids::{FormNode, form_node, relation};
use std::alloc::AllocError;
use std::collections::BTreeMap;
use term_table::{Id, Table};
use word_ops::Rel;

/// The most hypotheses of a chain.
const MOST_LINKS: u32 = 4;

/// As so many steps a hypothesis counts that is tried: it has two normal forms looked up.
const STEPS_A_TRY: u64 = 4;

/// A relation that is asked for.
#[derive(Clone, Copy)]
pub(crate) struct Asked {
    /// Whether steps are counted.
    pub(crate) counted: bool,
    /// How many binders are outside.
    pub(crate) outside: u32,
    pub(crate) rel: Rel,
    pub(crate) a: Id,
    pub(crate) b: Id,
}

/// A normal form's id, as a key.
#[derive(Clone, Copy, PartialEq, Eq, PartialOrd, Ord)]
struct NormalKey {
    form: u64,
}

/// The key of an id.
fn key_of(form: Id) -> NormalKey {
    NormalKey {
        form: form.index() as u64,
    }
}

/// What was reached from the first word.
#[derive(Drop)]
struct Reached {
    // by normal form, the link to a word with that form
    links: BTreeMap<NormalKey, Link>,
    // whether a link came in this pass over the hypotheses
    grew: bool,
    // the place of the hypothesis that is next in this pass
    next: usize,
}

/// The link to a word with this normal form, if one was reached.
fn link_at(table: &Table, reached: &Reached, form: Id) -> Option<Link>
    ensures { IfSome result (IsLink table.now) }
{
    let link = reached.links.get(&key_of(form)).copied()?;
    let to = known(table, link.to)?;
    let proof = known(table, link.proof)?;
    Some(Link {
        strict: link.strict,
        to,
        proof,
    })
}

/// Whether a link to a word with this normal form is better than what was reached.
fn is_better(reached: &Reached, form: Id, strict: bool) -> bool {
    match reached.links.get(&key_of(form)).copied() {
        Some(link) => strict && !link.strict,
        None => true,
    }
}

/// The relation that the hypothesis at place `i` is, if it is one.
fn related_at(table: &Table, hyps: &Hypotheses, i: usize) -> Option<Related>
    ensures { IfSome result (IsKnownRelation table.now) }
{
    let fact = fact_at(table, hyps, i)?;
    match form_node(table, fact.form) {
        FormNode::Relation(rel, a, b) => Some(Related {
            rel,
            a,
            b,
            proof: fact.proof,
        }),
        _ => None,
    }
}

/// The proof of the relation that is asked for by a hypothesis that is the relation of words with
/// the same normal forms.
#[tactic(auto, using(prover_goals::proofs::Kept::rows))]
fn matched(
    table: &mut Table,
    search: &mut Search,
    asked: &Asked,
    given: &Related,
) -> Result<Option<Id>, Exhausted>
    requires asked { IsAsked table.old asked.now }
    requires given { IsKnownRelation table.old given.now }
    requires search { IsSearch table.old search.old }
    ensures known { IfOk result (λ o. IfSome o (IsKnown table.new)) }
    ensures extends { Extends table.old table.new }
    ensures search { OnOk result (IsSearch table.new search.new) }
{
    if given.rel != asked.rel {
        return Ok(None);
    }
    let starts = are_alike(table, search, asked.outside, asked.a, given.a)?;
    if !starts || !are_alike(table, search, asked.outside, asked.b, given.b)? {
        return Ok(None);
    }
    let proof = from_other(table, search, asked.outside, given, asked.a)?;
    let moved = Related {
        rel: given.rel,
        a: asked.a,
        b: given.b,
        proof,
    };
    let whole = to_other(table, search, asked.outside, &moved, asked.b)?;
    Ok(Some(whole))
}

/// The proof of the relation that is asked for by the first hypothesis that matches it.
#[tactic(auto, using(prover_goals::proofs::Kept::rows))]
fn by_match(
    table: &mut Table,
    search: &mut Search,
    context: &Context,
    asked: &Asked,
) -> Result<Option<Id>, Exhausted>
    requires asked { IsAsked table.old asked.now }
    requires search { IsSearch table.old search.old }
    ensures known { IfOk result (λ o. IfSome o (IsKnown table.new)) }
    ensures extends { Extends table.old table.new }
    ensures search { OnOk result (IsSearch table.new search.new) }
{
    let count = context.hyps.as_slice().len();
    search.spend_steps((count as u64).saturating_mul(STEPS_A_TRY))?;
    for i in 0..count {
        if let Some(given) = related_at(table, &context.hyps, i) {
            if let Some(proof) = matched(table, search, asked, &given)? {
                return Ok(Some(proof));
            }
        }
    }
    Ok(None)
}

/// The link that goes on from the end of another, which may be the first word itself.
fn extended(
    table: &mut Table,
    asked: &Asked,
    before: &Link,
    next: &Link,
) -> Result<Link, AllocError>
    requires asked { IsAsked table.old asked.now }
    requires before { IsLink table.old before.now }
    requires next { IsLink table.old next.now }
    ensures link { IfOk result (IsLink table.new) }
    ensures extends { Extends table.old table.new }
{
    if table.same(before.to, asked.a) {
        return Ok(Link {
            strict: next.strict,
            to: next.to,
            proof: next.proof,
        });
    }
    joined(table, asked.a, before, next)
}

/// Adds the word that an order leads to from one that was reached, and returns the link to it; None
/// if it leads from none, or to nothing better.
#[tactic(auto, using(prover_goals::proofs::Kept::rows))]
fn reach(
    table: &mut Table,
    search: &mut Search,
    asked: &Asked,
    reached: &mut Reached,
    given: &Related,
) -> Result<Option<Link>, Exhausted>
    requires asked { IsAsked table.old asked.now }
    requires given { IsKnownRelation table.old given.now }
    requires search { IsSearch table.old search.old }
    ensures link { IfOk result (λ o. IfSome o (IsLink table.new)) }
    ensures extends { Extends table.old table.new }
    ensures search { OnOk result (IsSearch table.new search.new) }
{
    if given.rel != Rel::Ult && given.rel != Rel::Ule {
        return Ok(None);
    }
    let strict = given.rel == Rel::Ult;
    let from = normal_exp(table, search, asked.outside, given.a)?;
    let to = normal_exp(table, search, asked.outside, given.b)?;
    let Some(before) = link_at(table, reached, from) else {
        return Ok(None);
    };
    if !is_better(reached, to, strict || before.strict) {
        return Ok(None);
    }
    let proof = from_other(table, search, asked.outside, given, before.to)?;
    let next = Link {
        strict,
        to: given.b,
        proof,
    };
    let link = extended(table, asked, &before, &next)?;
    reached.links.insert(key_of(to), link)?;
    reached.grew = true;
    Ok(Some(link))
}

/// The proof of the order that is asked for by a link that ends at its second word.
fn weakened(table: &mut Table, asked: &Asked, link: &Link) -> Result<Option<Id>, AllocError>
    requires asked { IsAsked table.old asked.now }
    requires link { IsLink table.old link.now }
    ensures known { IfOk result (λ o. IfSome o (IsKnown table.new)) }
    ensures extends { Extends table.old table.new }
{
    if asked.rel == Rel::Ule {
        let proof = at_most(table, asked.a, link)?;
        return Ok(Some(proof));
    }
    if link.strict {
        Ok(Some(link.proof))
    } else {
        Ok(None)
    }
}

/// The proof of the order that is asked for by a link to a word with the second's normal form.
#[tactic(auto, using(prover_goals::proofs::Kept::rows))]
fn ended(
    table: &mut Table,
    search: &mut Search,
    asked: &Asked,
    link: &Link,
) -> Result<Option<Id>, Exhausted>
    requires asked { IsAsked table.old asked.now }
    requires link { IsLink table.old link.now }
    requires search { IsSearch table.old search.old }
    ensures known { IfOk result (λ o. IfSome o (IsKnown table.new)) }
    ensures extends { Extends table.old table.new }
    ensures search { OnOk result (IsSearch table.new search.new) }
{
    if !are_alike(table, search, asked.outside, link.to, asked.b)? {
        return Ok(None);
    }
    let given = Related {
        rel: rel_of(link.strict),
        a: asked.a,
        b: link.to,
        proof: link.proof,
    };
    let proof = to_other(table, search, asked.outside, &given, asked.b)?;
    let whole = Link {
        strict: link.strict,
        to: asked.b,
        proof,
    };
    Ok(weakened(table, asked, &whole)?)
}

/// The proof of the order that is asked for by a link and `proof`, that its end is at most the second
/// word, or less where the link isn't strict and the order is.
fn by_last(
    table: &mut Table,
    asked: &Asked,
    link: &Link,
    proof: Id,
) -> Result<Option<Id>, AllocError>
    requires asked { IsAsked table.old asked.now }
    requires link { IsLink table.old link.now }
    requires proof { IsKnown table.old proof }
    ensures known { IfOk result (λ o. IfSome o (IsKnown table.new)) }
    ensures extends { Extends table.old table.new }
{
    let last = Link {
        strict: asked.rel == Rel::Ult && !link.strict,
        to: asked.b,
        proof,
    };
    let whole = joined(table, asked.a, link, &last)?;
    weakened(table, asked, &whole)
}

/// The proof of the order that is asked for by a link and what words alone prove of its end.
#[tactic(auto, using(prover_goals::proofs::Kept::rows))]
fn ended_by_words(
    table: &mut Table,
    search: &mut Search,
    context: &mut Context,
    asked: &Asked,
    link: &Link,
) -> Result<Option<Id>, Exhausted>
    requires asked { IsAsked table.old asked.now }
    requires link { IsLink table.old link.now }
    requires search { IsSearch table.old search.old }
    requires context { IsContext table.old context.old }
    ensures known { IfOk result (λ o. IfSome o (IsKnown table.new)) }
    ensures extends { Extends table.old table.new }
    ensures search { OnOk result (IsSearch table.new search.new) }
    ensures context { OnOk result (IsContext table.new context.new) }
{
    let strict = asked.rel == Rel::Ult && !link.strict;
    let goal = relation(table, rel_of(strict), link.to, asked.b)?;
    let found = proof_by_words(table, search, context, asked.counted, goal)?;
    match found {
        Some(proof) => Ok(by_last(table, asked, link, proof)?),
        None => Ok(None),
    }
}

/// The proof of the order that is asked for by a link that is the last of a chain but for what words
/// alone prove.
#[tactic(auto, using(prover_goals::proofs::Kept::rows))]
fn by_link(
    table: &mut Table,
    search: &mut Search,
    context: &mut Context,
    asked: &Asked,
    link: &Link,
) -> Result<Option<Id>, Exhausted>
    requires asked { IsAsked table.old asked.now }
    requires link { IsLink table.old link.now }
    requires search { IsSearch table.old search.old }
    requires context { IsContext table.old context.old }
    ensures known { IfOk result (λ o. IfSome o (IsKnown table.new)) }
    ensures extends { Extends table.old table.new }
    ensures search { OnOk result (IsSearch table.new search.new) }
    ensures context { OnOk result (IsContext table.new context.new) }
{
    match ended(table, search, asked, link)? {
        Some(proof) => Ok(Some(proof)),
        None => ended_by_words(table, search, context, asked, link),
    }
}

/// Follows the next hypothesis, and asks if it is the last of the chain.
#[tactic(auto, using(prover_goals::proofs::Kept::rows))]
fn advance(
    table: &mut Table,
    search: &mut Search,
    context: &mut Context,
    asked: &Asked,
    reached: &mut Reached,
) -> Result<Option<Id>, Exhausted>
    requires asked { IsAsked table.old asked.now }
    requires search { IsSearch table.old search.old }
    requires context { IsContext table.old context.old }
    ensures known { IfOk result (λ o. IfSome o (IsKnown table.new)) }
    ensures extends { Extends table.old table.new }
    ensures search { OnOk result (IsSearch table.new search.new) }
    ensures context { OnOk result (IsContext table.new context.new) }
{
    let i = reached.next;
    reached.next = i.saturating_add(1);
    let Some(given) = related_at(table, &context.hyps, i) else {
        return Ok(None);
    };
    let Some(link) = reach(table, search, asked, reached, &given)? else {
        return Ok(None);
    };
    by_link(table, search, context, asked, &link)
}

/// One pass over the hypotheses.
#[tactic(auto, using(prover_goals::proofs::Kept::rows))]
fn go_round(
    table: &mut Table,
    search: &mut Search,
    context: &mut Context,
    asked: &Asked,
    reached: &mut Reached,
) -> Result<Option<Id>, Exhausted>
    requires asked { IsAsked table.old asked.now }
    requires search { IsSearch table.old search.old }
    requires context { IsContext table.old context.old }
    ensures known { IfOk result (λ o. IfSome o (IsKnown table.new)) }
    ensures extends { Extends table.old table.new }
    ensures search { OnOk result (IsSearch table.new search.new) }
    ensures context { OnOk result (IsContext table.new context.new) }
{
    let count = context.hyps.as_slice().len();
    search.spend_steps((count as u64).saturating_mul(STEPS_A_TRY))?;
    reached.grew = false;
    reached.next = 0;
    for _i in 0..count {
        if let Some(proof) = advance(table, search, context, asked, reached)? {
            return Ok(Some(proof));
        }
    }
    Ok(None)
}

/// The link from the first word to itself.
fn itself(table: &mut Table, asked: &Asked) -> Result<Link, AllocError>
    requires { IsAsked table.old asked.now }
    ensures link { IfOk result (IsLink table.new) }
    ensures extends { Extends table.old table.new }
{
    let proof = rule_term(table, ULE_REFL, &[asked.a])?;
    Ok(Link {
        strict: false,
        to: asked.a,
        proof,
    })
}

/// The proof of the order that is asked for between words with one normal form.
#[tactic(auto, using(prover_goals::proofs::Kept::rows))]
fn by_itself(table: &mut Table, search: &mut Search, asked: &Asked) -> Result<Option<Id>, Exhausted>
    requires asked { IsAsked table.old asked.now }
    requires search { IsSearch table.old search.old }
    ensures known { IfOk result (λ o. IfSome o (IsKnown table.new)) }
    ensures extends { Extends table.old table.new }
    ensures search { OnOk result (IsSearch table.new search.new) }
{
    let start = itself(table, asked)?;
    ended(table, search, asked, &start)
}

/// What is reached before the first pass: the first word.
#[tactic(auto, using(prover_goals::proofs::Kept::rows))]
fn reached_first(
    table: &mut Table,
    search: &mut Search,
    asked: &Asked,
) -> Result<Reached, Exhausted>
    requires asked { IsAsked table.old asked.now }
    requires search { IsSearch table.old search.old }
    ensures extends { Extends table.old table.new }
    ensures search { OnOk result (IsSearch table.new search.new) }
{
    let start = itself(table, asked)?;
    let here = normal_exp(table, search, asked.outside, asked.a)?;
    let mut links = BTreeMap::new(table.allocator());
    links.insert(key_of(here), start)?;
    Ok(Reached {
        links,
        grew: true,
        next: 0,
    })
}

/// The proof of the order that is asked for by passes over the hypotheses.
#[tactic(auto, using(prover_goals::proofs::Kept::rows))]
fn by_passes(
    table: &mut Table,
    search: &mut Search,
    context: &mut Context,
    asked: &Asked,
    reached: &mut Reached,
) -> Result<Option<Id>, Exhausted>
    requires asked { IsAsked table.old asked.now }
    requires search { IsSearch table.old search.old }
    requires context { IsContext table.old context.old }
    ensures known { IfOk result (λ o. IfSome o (IsKnown table.new)) }
    ensures extends { Extends table.old table.new }
    ensures search { OnOk result (IsSearch table.new search.new) }
    ensures context { OnOk result (IsContext table.new context.new) }
{
    for _pass in 0..MOST_LINKS {
        if reached.grew {
            if let Some(proof) = go_round(table, search, context, asked, reached)? {
                return Ok(Some(proof));
            }
        }
    }
    Ok(None)
}

/// The proof of the order that is asked for by a chain of hypotheses from its first word.
#[tactic(auto, using(prover_goals::proofs::Kept::rows))]
fn by_chain(
    table: &mut Table,
    search: &mut Search,
    context: &mut Context,
    asked: &Asked,
) -> Result<Option<Id>, Exhausted>
    requires asked { IsAsked table.old asked.now }
    requires search { IsSearch table.old search.old }
    requires context { IsContext table.old context.old }
    ensures known { IfOk result (λ o. IfSome o (IsKnown table.new)) }
    ensures extends { Extends table.old table.new }
    ensures search { OnOk result (IsSearch table.new search.new) }
    ensures context { OnOk result (IsContext table.new context.new) }
{
    if let Some(proof) = by_itself(table, search, asked)? {
        return Ok(Some(proof));
    }
    let mut reached = reached_first(table, search, asked)?;
    by_passes(table, search, context, asked, &mut reached)
}

/// Returns the proof of the relation that is asked for by hypotheses whose expressions have the
/// same normal forms: by one, or if it is an order by a chain of them, which begins at its first
/// word and ends at its second or at one that words alone prove to be in order with it.
#[tactic(auto, using(prover_goals::proofs::Kept::rows))]
pub(crate) fn related_proof(
    table: &mut Table,
    search: &mut Search,
    context: &mut Context,
    asked: &Asked,
) -> Result<Option<Id>, Exhausted>
    requires asked { IsAsked table.old asked.now }
    requires search { IsSearch table.old search.old }
    requires context { IsContext table.old context.old }
    ensures known { IfOk result (λ o. IfSome o (IsKnown table.new)) }
    ensures extends { Extends table.old table.new }
    ensures search { OnOk result (IsSearch table.new search.new) }
    ensures context { OnOk result (IsContext table.new context.new) }
{
    match asked.rel {
        Rel::Ult | Rel::Ule => by_chain(table, search, context, asked),
        Rel::Eq | Rel::Slt | Rel::Sle => by_match(table, search, context, asked),
    }
}
