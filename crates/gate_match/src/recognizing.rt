//! Checks whether a formula is the verification condition.
//!
//! The formula is taken apart as the condition would be put together, and compared part by part;
//! the first difference ends the comparison. No part is built: whatever an untrusted producer's
//! code would make of its invariants costs no more than the formula contains of it.

ghost use Rattle.std.specs.Prelude.{◌≡◌, ◌↔◌, ℕ, ◌<◌, ◌≤◌, IfOk, IsTrue, length, drop, map, All};
ghost use Rattle.alpha_cfg.specs.Cuts.{AreFlags};
ghost use Rattle.term_table.specs.Table.{IsKnown, tree_at, Extends, id_trees};
ghost use Rattle.hereditary_subst.specs.Kept.{IsMemo};
ghost use Rattle.hereditary_subst.specs.Limits.{SpendsResults};
ghost use Rattle.lf_signature.specs.Terms.{imp_term};
ghost use Rattle.lf_encode.specs.PutTree.{machine_terms_at};
ghost use Rattle.lf_encode.specs.Contexts.{machine_context, encoding_in};
ghost use Rattle.lf_signature.specs.Constants.{Longest};
ghost use Rattle.vcgen.specs.Encoded.{AreForms};
ghost use Rattle.vcgen.specs.Answers.{AreLowInvs, SpendsVc};
ghost use Rattle.gate_match.specs.Answers.{IsConditionAnswer};
ghost use Rattle.vcgen.specs.WalkTree.{start_terms, entry_terms, closed_term};
ghost use Rattle.vcgen.specs.WalkTree.{walked, walked_from};
ghost use Rattle.vcgen.specs.WalkTree.{part_terms, condition_term};
ghost use Rattle.vcgen.specs.Symbols.{ids_of, IsKnownProgram};
ghost use Rattle.gate_match.specs.Inside.Comparisons.{Compares};

use crate::comparing::{is_walk_entry, is_walk_from};
use crate::comparisons::Comparisons;
use crate::goals::{closed_sides, sides};
use alpha_cfg::{Code, Cut};
use hereditary_subst::{Exhausted, Memo};
use lf_encode::{encode_form, machine_context};
use lf_signature::numbers::{AND, TT};
use policy_set::Policy;
use term_table::{Id, Node, Table};
use vcgen::{MAX_UNFOLDED, Program, Symbols, VcFault};

/// Whether `goal` is the part of the start: that `pre` leads to the walk from index 0.
#[tactic(auto, using(vcgen::proofs::Walking::memos))]
fn is_entry(
    table: &mut Table,
    shifts: &mut Memo,
    kept: &mut Comparisons,
    program: &Program,
    start: &Symbols,
    pre: Id,
    goal: Id,
) -> Result<bool, Exhausted>
    requires walking { Compares table.old program.now start.now shifts.old kept.old }
    requires start { machine_terms_at table.old (ids_of start.now) ≡ start_terms }
    requires pre { IsKnown table.old pre }
    requires goal { IsKnown table.old goal }
    ensures exact { let t = table.old in
        let p = program.now in
        let all = length p.code.now in
        let walk = walked p.bound p.code.now (id_trees t p.invs.now) (tree_at t p.post) all in
        let entry = walk 0 (entry_terms p.bound) in
        let made = closed_term p.bound (imp_term (tree_at t pre) entry) in
        IfOk result (λ b. IsTrue b ↔ (tree_at t goal ≡ made)) }
    ensures extends { Extends table.old table.new }
    ensures walking { Compares table.new program.now start.now shifts.new kept.new }
    ensures spends { SpendsResults table.new shifts.old shifts.new result }
{
    let Some(parts) = closed_sides(table, program.bound, goal) else {
        return Ok(false);
    };
    if !table.same(parts.first, pre) {
        return Ok(false);
    }
    is_walk_entry(table, shifts, kept, program, start, parts.second)
}

/// Whether `goal` is the part of the condition for a cut point: that its invariant implies the walk
/// from there.
#[tactic(auto, using(vcgen::proofs::Walking::memos))]
fn is_inv_part(
    table: &mut Table,
    shifts: &mut Memo,
    kept: &mut Comparisons,
    program: &Program,
    start: &Symbols,
    index: u32,
    inv: Id,
    goal: Id,
) -> Result<bool, Exhausted>
    requires walking { Compares table.old program.now start.now shifts.old kept.old }
    requires start { machine_terms_at table.old (ids_of start.now) ≡ start_terms }
    requires within { index < length program.now.code.now }
    requires inv { IsKnown table.old inv }
    requires goal { IsKnown table.old goal }
    ensures exact { let t = table.old in
        let p = program.now in
        let invs = id_trees t p.invs.now in
        let walk = walked_from p.bound p.code.now invs (tree_at t p.post) index start_terms in
        let made = closed_term p.bound (imp_term (tree_at t inv) walk) in
        IfOk result (λ b. IsTrue b ↔ (tree_at t goal ≡ made)) }
    ensures extends { Extends table.old table.new }
    ensures walking { Compares table.new program.now start.now shifts.new kept.new }
    ensures spends { SpendsResults table.new shifts.old shifts.new result }
{
    let Some(parts) = closed_sides(table, program.bound, goal) else {
        return Ok(false);
    };
    if !table.same(parts.first, inv) {
        return Ok(false);
    }
    let count = program.code.count();
    let rest = parts.second;
    is_walk_from(table, shifts, kept, program, count, index, start, rest)
}

/// Whether `goal` is the parts of the invariants from place `from` on.
#[tactic(auto, using(vcgen::proofs::Walking::memos))]
fn are_inv_parts(
    table: &mut Table,
    shifts: &mut Memo,
    kept: &mut Comparisons,
    program: &Program,
    start: &Symbols,
    from: usize,
    goal: Id,
) -> Result<bool, Exhausted>
    requires walking { Compares table.old program.now start.now shifts.old kept.old }
    requires inside { All (λ p. p.0 < length program.now.code.now) program.now.invs.now }
    requires from { from ≤ length program.now.invs.now }
    requires start { machine_terms_at table.old (ids_of start.now) ≡ start_terms }
    requires goal { IsKnown table.old goal }
    ensures exact { let t = table.old in
        let p = program.now in
        let invs = id_trees t p.invs.now in
        let rest = id_trees t (drop from p.invs.now) in
        let made = part_terms p.bound p.code.now invs (tree_at t p.post) rest in
        IfOk result (λ b. IsTrue b ↔ (tree_at t goal ≡ made)) }
    ensures extends { Extends table.old table.new }
    ensures shifts { IsMemo table.new shifts.new }
    ensures spends { SpendsResults table.new shifts.old shifts.new result }
{
    if from == program.invs.len() {
        let truth = table.intern(Node::Const(TT))?;
        return Ok(table.same(goal, truth));
    }
    let pair = program.invs[from];
    let (index, inv) = pair;
    let Some(parts) = sides(table, AND, goal) else {
        return Ok(false);
    };
    let (here, rest) = (parts.first, parts.second);
    let first = is_inv_part(table, shifts, kept, program, start, index, inv, here)?;
    if !first {
        return Ok(false);
    }
    are_inv_parts(table, shifts, kept, program, start, from + 1, rest)
}

/// Whether `goal` is the condition, from the terms of what holds at the start and of the program.
#[tactic(auto, using(vcgen::proofs::Walking::memos))]
fn is_condition_of(
    table: &mut Table,
    shifts: &mut Memo,
    program: &Program,
    pre: Id,
    goal: Id,
) -> Result<bool, Exhausted>
    requires program { let p = program.now in
        IsKnownProgram table.old p.code.now p.invs.now p.post }
    requires inside { All (λ p. p.0 < length program.now.code.now) program.now.invs.now }
    requires pre { IsKnown table.old pre }
    requires goal { IsKnown table.old goal }
    requires shifts { IsMemo table.old shifts.old }
    ensures exact { let t = table.old in
        let p = program.now in
        let invs = id_trees t p.invs.now in
        let made = condition_term p.bound p.code.now invs (tree_at t pre) (tree_at t p.post) in
        IfOk result (λ b. IsTrue b ↔ (tree_at t goal ≡ made)) }
    ensures extends { Extends table.old table.new }
    ensures shifts { IsMemo table.new shifts.new }
    ensures spends { SpendsResults table.new shifts.old shifts.new result }
{
    let Some(parts) = sides(table, AND, goal) else {
        return Ok(false);
    };
    let (entry, rest) = (parts.first, parts.second);
    let start = Symbols::start(table)?;
    let mut kept = Comparisons::new(table, &start);
    let entered = is_entry(table, shifts, &mut kept, program, &start, pre, entry)?;
    if !entered {
        return Ok(false);
    }
    are_inv_parts(table, shifts, &mut kept, program, &start, 0, rest)
}

/// Whether `goal` is the encoding of the condition of code. The total length of the paths between
/// cut points has to be within its limit.
#[tactic(auto, using(vcgen::proofs::Walking::memos))]
fn is_encoded_condition(
    table: &mut Table,
    shifts: &mut Memo,
    code: &Code,
    policy: &Policy,
    invs: &[(u32, Id)],
    bound: Option<u32>,
    goal: Id,
) -> Result<bool, Exhausted>
    requires invs { AreLowInvs table.old invs.now }
    requires inside { All (λ p. p.0 < length code.now) invs.now }
    requires goal { IsKnown table.old goal }
    requires shifts { IsMemo table.old shifts.old }
    ensures exact { let t = table.old in
        let pre = encoding_in machine_context policy.now.pre in
        let post = encoding_in machine_context policy.now.post in
        let made = condition_term bound code.now (id_trees t invs.now) pre post in
        IfOk result (λ b. IsTrue b ↔ (tree_at t goal ≡ made)) }
    ensures extends { Extends table.old table.new }
    ensures shifts { IsMemo table.new shifts.new }
    ensures spends { SpendsResults table.new shifts.old shifts.new result }
{
    let _ = code.insns(); // tells the prover that this is code
    policy.laws(); // tells the prover what the formulas name, and that they aren't high
    let context = machine_context();
    let pre = encode_form(table, policy.pre(), &context)?;
    let post = encode_form(table, policy.post(), &context)?;
    let program = Program {
        code,
        invs,
        post,
        bound,
    };
    is_condition_of(table, shifts, &program, pre, goal)
}

/// Returns whether `formula` is the encoding of the verification condition of `cut` under `policy`
/// and `bound`: what `vcgen::vc` returns for `cut`, `policy`, `invs` and `bound`, which are as in
/// that call. Doesn't build the condition; the first difference ends the comparison.
///
/// `memo` has the cached results of earlier calls on the table; results that are cached here count
/// in its limit.
///
/// Errors: `UnfoldLimit` names the total length of the paths between cut points exactly if it
/// exceeds `vcgen::MAX_UNFOLDED`, which is tested first. `Memory` says nothing about the condition,
/// nor does `Results`, which comes past the limit of `memo`. Each id keeps its tree.
pub fn is_condition_with(
    table: &mut Table,
    memo: &mut Memo,
    cut: &Cut,
    policy: &Policy,
    invs: &[(u32, Id)],
    bound: Option<u32>,
    formula: Id,
) -> Result<bool, VcFault>
    requires invs { AreLowInvs table.old invs.now }
    requires forms { AreForms Longest bound (id_trees table.old invs.now) }
    requires marks { AreFlags (map (λ p. p.0) invs.now) (length cut.now.code) cut.now.marks }
    requires formula { IsKnown table.old formula }
    requires memo { IsMemo table.old memo.old }
    ensures exact { let trees = id_trees table.old invs.now in
        IsConditionAnswer policy.now bound cut.now trees (tree_at table.old formula) result }
    ensures extends { Extends table.old table.new }
    ensures memo { IsMemo table.new memo.new }
    ensures spends { SpendsVc table.new memo.old memo.new result }
{
    let unfolded = cut.unfolded();
    if unfolded > MAX_UNFOLDED {
        return Err(VcFault::UnfoldLimit(unfolded));
    }
    policy.laws(); // tells the prover what the formulas name
    let equal = is_encoded_condition(table, memo, cut.code(), policy, invs, bound, formula)?;
    Ok(equal)
}
