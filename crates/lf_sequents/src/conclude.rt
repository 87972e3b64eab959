//! Builds the sequent of a rule's conclusion.

ghost use Rattle.std.specs.Prelude.{◌≡◌, ◌↔◌, false, ◌≤◌, ◌<◌, ◌+◌, ◌^◌, IfOk, IsTrue, map, option_map, length};
ghost use Rattle.term_table.specs.Tree.{Tree, apps};
ghost use Rattle.term_table.specs.Table.{IsKnown, AllKnown, tree_at, ctx_of, Extends};
ghost use Rattle.lf_signature.specs.Schemas.{premise_of, rule_of};
ghost use Rattle.lf_signature.specs.Nodes.{IsIdOf};
ghost use Rattle.lf_signature.specs.Terms.{pf};
ghost use Rattle.lf_signature.specs.Typing.{Checks, Synth};
ghost use Rattle.hereditary_subst.specs.Limits.{is_limited, limit_of};
ghost use Rattle.lf_check.specs.Kept.{AreKept};
ghost use Rattle.lf_terms.specs.Instance.{trees_of, by_rule};
ghost use Rattle.lf_sequents.specs.Sequents.{AreOfTable, AreSequents};
ghost use Rattle.lf_sequents.specs.Answers.{proof_taken, proofs_taken, rule_in_signature, IsRuleAnswer};
ghost use Rattle.lf_sequents.specs.Room.{sequents_of, terms_of, AreShallow, HasVarRoom};

use crate::instance::form_id;
use crate::premises::has_form;
use crate::sequent::Sequent;
use lf_check::{Kept, check_term_with, synth_with};
use lf_signature::schema::{Premise, Rule};
use lf_signature::{Known, Signature, declared, pf, rule_at};
use lf_terms::rule_term;
use std::alloc::{AllocError, Global};
use term_table::{Id, Node, Table};

/// A height that none of the terms passes, from one that others have.
fn highest(table: &Table, ids: &[Id], least: u32) -> u32
    requires { AllKnown table.now ids.now }
    ensures least { least ≤ result }
    ensures shallow { result < 4294967295 → AreShallow result (trees_of table.now ids.now) }
{
    match ids {
        [] => least,
        [first, rest @ ..] => highest(table, rest, least.max(table.height(*first))),
    }
}

/// A height that none of the sequents' proofs passes, from one that others have.
fn highest_proof(table: &Table, premises: &[&Sequent], least: u32) -> u32
    requires { AreOfTable table.now (sequents_of premises.now) }
    ensures least { least ≤ result }
    ensures shallow { result < 4294967295
        → AreShallow result (terms_of table.now (sequents_of premises.now)) }
{
    match premises {
        [] => least,
        [first, rest @ ..] => highest_proof(table, rest, least.max(table.height(first.term))),
    }
}

/// Whether the hypotheses are so few, and the terms so low, that no variable of the typing of the
/// rule at them reaches 2^32.
fn has_room(table: &Table, hyps: &[Id], params: &[Id], premises: &[&Sequent]) -> bool
    requires params { AllKnown table.now params.now }
    requires premises { AreOfTable table.now (sequents_of premises.now) }
    ensures { IsTrue result
        → HasVarRoom table.now hyps.now params.now (sequents_of premises.now) }
{
    let height = u64::from(highest_proof(table, premises, highest(table, params, 0)));
    hyps.len() as u64 <= 4_294_967_264 && 3 * height <= 4_294_967_264 - hyps.len() as u64
}

/// A premise's proof as the rule's constant takes it.
fn taken(table: &mut Table, premise: &Premise, term: Id) -> Result<Id, AllocError>
    requires { IsKnown table.old term }
    ensures id { IfOk result
        (IsIdOf table.new (proof_taken (premise_of premise.now) (tree_at table.old term))) }
    ensures extends { Extends table.old table.new }
{
    match premise {
        Premise::Plain(_) => Ok(term),
        _ => table.intern(Node::Lam(term)),
    }
}

/// A term applied to the proofs of premises, the first first.
fn with_proofs(
    table: &mut Table,
    head: Id,
    rows: &[Premise],
    premises: &[&Sequent],
) -> Result<Id, AllocError>
    requires head { IsKnown table.old head }
    requires premises { AreOfTable table.old (sequents_of premises.now) }
    ensures id { let proofs =
        proofs_taken table.old (map premise_of rows.now) (sequents_of premises.now) in
        IfOk result (IsIdOf table.new (apps (tree_at table.old head) proofs)) }
    ensures extends { Extends table.old table.new }
{
    match rows {
        [] => Ok(head),
        [row, rows @ ..] => match premises {
            [] => Ok(head),
            [premise, premises @ ..] => {
                let proof = taken(table, row, premise.term)?;
                let next = table.intern(Node::App(head, proof))?;
                with_proofs(table, next, rows, premises)
            }
        },
    }
}

/// The term of the rule's conclusion: its constant at the parameters and the premises' proofs.
fn conclusion_term(
    table: &mut Table,
    number: u32,
    rule: &Rule,
    params: &[Id],
    premises: &[&Sequent],
) -> Result<Id, AllocError>
    requires params { AllKnown table.old params.now }
    requires premises { AreOfTable table.old (sequents_of premises.now) }
    ensures id { let proofs =
        proofs_taken table.old (rule_of rule.now).premises (sequents_of premises.now) in
        IfOk result
        (IsIdOf table.new (by_rule number (trees_of table.old params.now) proofs)) }
    ensures extends { Extends table.old table.new }
{
    let head = rule_term(table, number, params)?;
    with_proofs(table, head, rule.premises, premises)
}

/// Whether the term may have a type: true if there is room. It has none if a shift or a substitution
/// in that type has no result.
fn may_have_type<S: Signature>(
    table: &mut Table,
    kept: &mut Kept,
    sig: &S,
    hyps: &[Id],
    term: Id,
    room: bool,
) -> Result<bool, AllocError>
    requires holds { S.holds sig.now table.old }
    requires hyps { AllKnown table.old hyps.now }
    requires term { IsKnown table.old term }
    requires kept { AreKept (S.declares sig.now table.old) table.old kept.old }
    requires unlimited { is_limited kept.old.memo ≡ false }
    ensures none { let ctx = ctx_of table.old hyps.now in
        let types = Synth (S.declares sig.now table.old) ctx (tree_at table.old term) in
        IfOk result (λ b. b ≡ false → (a : Tree) → types a → ⊥) }
    ensures extends { Extends table.old table.new }
    ensures kept { AreKept (S.declares sig.now table.new) table.new kept.new }
    ensures unlimited { is_limited kept.new.memo ≡ false }
{
    if room {
        return Ok(true);
    }
    match synth_with(table, kept, sig, hyps, term) {
        Ok(None) => Ok(false),
        Ok(Some(_)) => Ok(true),
        Err(e) => Err(e.memory()),
    }
}

/// Whether the term is a proof of the formula. If there is room, it is one, and isn't checked.
fn is_proof<S: Signature>(
    table: &mut Table,
    kept: &mut Kept,
    sig: &S,
    hyps: &[Id],
    term: Id,
    goal: Id,
    room: bool,
) -> Result<bool, AllocError>
    requires holds { S.holds sig.now table.old }
    requires hyps { AllKnown table.old hyps.now }
    requires term { IsKnown table.old term }
    requires goal { IsKnown table.old goal }
    requires proved { let ctx = ctx_of table.old hyps.now in
        let proofs = pf (tree_at table.old goal) in
        IsTrue room → Checks (S.declares sig.now table.old) ctx (tree_at table.old term) proofs }
    requires kept { AreKept (S.declares sig.now table.old) table.old kept.old }
    requires unlimited { is_limited kept.old.memo ≡ false }
    ensures exact { let ctx = ctx_of table.old hyps.now in
        let proofs = pf (tree_at table.old goal) in
        let holds = Checks (S.declares sig.now table.old) ctx (tree_at table.old term) proofs in
        IfOk result (λ b. IsTrue b ↔ holds) }
    ensures extends { Extends table.old table.new }
    ensures kept { AreKept (S.declares sig.now table.new) table.new kept.new }
{
    if room {
        return Ok(true);
    }
    let proofs = pf(table, goal)?;
    match check_term_with(table, kept, sig, hyps, term, proofs) {
        Ok(proves) => Ok(proves),
        Err(e) => Err(e.memory()),
    }
}

/// The rule of this number, if the signature has it.
fn rule_in_signature<S: Signature>(
    table: &mut Table,
    sig: &S,
    number: u32,
) -> Result<Option<&'static Rule>, AllocError>
    requires { S.holds sig.now table.old }
    ensures rule { let rule = rule_in_signature (S.declares sig.now table.old) number in
        IfOk result (λ o. option_map (λ r. rule_of r.now) o ≡ rule) }
    ensures extends { Extends table.old table.new }
{
    if declared(table, sig, Node::Const(number))?.is_none() {
        return Ok(None);
    }
    Ok(rule_at(number))
}

/// The answer of `by_rule`, with cached results that have no limit. If a variable might reach 2^32,
/// the term is checked: first whether it has a type, before any formula is made.
fn conclude_rule<S: Known>(
    alloc: Global,
    table: &mut Table,
    sig: &S,
    kept: &mut Kept,
    hyps: &[Id],
    number: u32,
    params: &[Id],
    premises: &[&Sequent],
) -> Result<Option<Sequent>, AllocError>
    requires holds { S.Signature.holds sig.now table.old }
    requires hyps { AllKnown table.old hyps.now }
    requires params { AllKnown table.old params.now }
    requires premises { AreSequents (S.Signature.declares sig.now table.old) table.old
        (sequents_of premises.now) }
    requires kept { AreKept (S.Signature.declares sig.now table.old) table.old kept.old }
    requires unlimited { is_limited kept.old.memo ≡ false }
    ensures answer { let sig = S.Signature.declares sig.now table.old in
        IfOk result (IsRuleAnswer number sig table.old table.new hyps.now params.now
        (sequents_of premises.now)) }
    ensures extends { Extends table.old table.new }
    ensures kept { AreKept (S.Signature.declares sig.now table.new) table.new kept.new }
{
    let room = has_room(table, hyps, params, premises);
    let Some(rule) = rule_in_signature(table, sig, number)? else {
        return Ok(None);
    };
    let term = conclusion_term(table, number, rule, params, premises)?;
    if !may_have_type(table, kept, sig, hyps, term, room)? {
        return Ok(None);
    }
    if !has_form(table, kept, sig, hyps, rule, params, premises)? {
        return Ok(None);
    }
    let goal = form_id(table, &mut kept.memo, params, 0, &rule.conclusion)?;
    if !is_proof(table, kept, sig, hyps, term, goal, room)? {
        return Ok(None);
    }
    Ok(Some(Sequent {
        hyps: hyps.to_vec(alloc)?,
        goal,
        term,
    }))
}

/// Returns the sequent of the conclusion of the rule with this number, at these parameters and
/// premises, under the hypotheses `hyps`: None if the signature lacks the rule, if they don't have
/// its form, or if the conclusion's term doesn't check, since a variable would reach 2^32. What it
/// caches doesn't count towards a limit of `kept`.
///
/// Errors: out of memory alone; each id keeps its tree.
pub fn by_rule<S: Known>(
    alloc: Global,
    table: &mut Table,
    sig: &S,
    kept: &mut Kept,
    hyps: &[Id],
    number: u32,
    params: &[Id],
    premises: &[&Sequent],
) -> Result<Option<Sequent>, AllocError>
    requires holds { S.Signature.holds sig.now table.old }
    requires hyps { AllKnown table.old hyps.now }
    requires params { AllKnown table.old params.now }
    requires premises { AreSequents (S.Signature.declares sig.now table.old) table.old
        (sequents_of premises.now) }
    requires kept { AreKept (S.Signature.declares sig.now table.old) table.old kept.old }
    ensures answer { let sig = S.Signature.declares sig.now table.old in
        IfOk result (IsRuleAnswer number sig table.old table.new hyps.now params.now
        (sequents_of premises.now)) }
    ensures extends { Extends table.old table.new }
    ensures kept { AreKept (S.Signature.declares sig.now table.new) table.new kept.new }
    ensures limit { limit_of kept.new.memo ≡ limit_of kept.old.memo }
{
    let limit = kept.memo.lift();
    let answer = conclude_rule(alloc, table, sig, kept, hyps, number, params, premises);
    kept.memo.restore(limit);
    answer
}
