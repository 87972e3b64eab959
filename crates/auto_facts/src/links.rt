//! Orders of two words: joined, and moved to other words with the same normal forms.
//!
//! Errors: out of memory, or the search's limit is reached; each id keeps its tree.

ghost use Rattle.std.specs.Prelude.{IfOk, OnOk};
ghost use Rattle.term_table.specs.Table.{IsKnown, Extends};
ghost use Rattle.prover_goals.specs.Search.{IsSearch};
ghost use Rattle.auto_facts.specs.Facts.{IsLink, IsKnownRelation};

use crate::terms::{equality, raise};
use hereditary_subst::Exhausted;
use lf_signature::numbers::{LE_LT, LT_LE, ULE_TRANS, ULT_ULE};
use lf_terms::rule_term;
use prover_goals::Search;
use prover_ids::{moved, relation};
use std::alloc::AllocError;
use term_table::{Id, Node, Table};
use word_ops::Rel;

/// The proof that some word is less than another, or at most that.
#[derive(Clone, Copy)]
pub struct Link {
    /// Whether it is less.
    pub strict: bool,
    /// The other word.
    pub to: Id,
    /// The proof.
    pub proof: Id,
}

/// Returns the relation of a link.
pub fn rel_of(strict: bool) -> Rel {
    if strict { Rel::Ult } else { Rel::Ule }
}

/// Returns the proof that `a` is at most where the link from it goes.
///
/// Errors: out of memory; each id keeps its tree.
pub fn at_most(table: &mut Table, a: Id, link: &Link) -> Result<Id, AllocError>
    requires a { IsKnown table.old a }
    requires link { IsLink table.old link.now }
    ensures known { IfOk result (IsKnown table.new) }
    ensures extends { Extends table.old table.new }
{
    if link.strict {
        rule_term(table, ULT_ULE, &[a, link.to, link.proof])
    } else {
        Ok(link.proof)
    }
}

/// Returns the link from `a` that a link from it and one from its end are.
///
/// Errors: out of memory; each id keeps its tree.
pub fn joined(table: &mut Table, a: Id, first: &Link, second: &Link) -> Result<Link, AllocError>
    requires a { IsKnown table.old a }
    requires first { IsLink table.old first.now }
    requires second { IsLink table.old second.now }
    ensures link { IfOk result (IsLink table.new) }
    ensures extends { Extends table.old table.new }
{
    let (middle, to) = (first.to, second.to);
    let strict = first.strict || second.strict;
    let proof = if first.strict {
        let rest = at_most(table, middle, second)?;
        rule_term(table, LT_LE, &[a, middle, to, first.proof, rest])?
    } else if second.strict {
        rule_term(table, LE_LT, &[a, middle, to, first.proof, second.proof])?
    } else {
        rule_term(
            table,
            ULE_TRANS,
            &[a, middle, to, first.proof, second.proof],
        )?
    };
    Ok(Link { strict, to, proof })
}

/// A relation of two words with its proof.
#[derive(Clone, Copy)]
pub struct Related {
    /// The relation.
    pub rel: Rel,
    /// The first word.
    pub a: Id,
    /// The second word.
    pub b: Id,
    /// The proof.
    pub proof: Id,
}

/// Returns the proof of the relation with `a` in the place of its first word, which has the same
/// normal form.
///
/// Errors: out of memory, or the limit of `search` is reached; each id keeps its tree.
#[tactic(auto, using(prover_goals::proofs::Kept::rows))]
pub fn from_other(
    table: &mut Table,
    search: &mut Search,
    outside: u32,
    given: &Related,
    a: Id,
) -> Result<Id, Exhausted>
    requires given { IsKnownRelation table.old given.now }
    requires a { IsKnown table.old a }
    requires search { IsSearch table.old search.old }
    ensures known { IfOk result (IsKnown table.new) }
    ensures extends { Extends table.old table.new }
    ensures search { OnOk result (IsSearch table.new search.new) }
{
    if table.same(given.a, a) {
        return Ok(given.proof);
    }
    let equal = equality(table, search, outside, given.a, a)?;
    let under = raise(table, search, given.b)?;
    let place = table.intern(Node::Var(0))?;
    let form = relation(table, given.rel, place, under)?;
    Ok(moved(table, form, given.a, a, equal, given.proof)?)
}

/// Returns the proof of the relation with `b` in the place of its second word, which has the same
/// normal form.
///
/// Errors: out of memory, or the limit of `search` is reached; each id keeps its tree.
#[tactic(auto, using(prover_goals::proofs::Kept::rows))]
pub fn to_other(
    table: &mut Table,
    search: &mut Search,
    outside: u32,
    given: &Related,
    b: Id,
) -> Result<Id, Exhausted>
    requires given { IsKnownRelation table.old given.now }
    requires b { IsKnown table.old b }
    requires search { IsSearch table.old search.old }
    ensures known { IfOk result (IsKnown table.new) }
    ensures extends { Extends table.old table.new }
    ensures search { OnOk result (IsSearch table.new search.new) }
{
    if table.same(given.b, b) {
        return Ok(given.proof);
    }
    let equal = equality(table, search, outside, given.b, b)?;
    let under = raise(table, search, given.a)?;
    let place = table.intern(Node::Var(0))?;
    let form = relation(table, given.rel, under, place)?;
    Ok(moved(table, form, given.b, b, equal, given.proof)?)
}
