//! The verification condition.

ghost use Rattle.std.specs.Prelude.{◌≡◌, ℕ, List, ◌<◌, ◌≤◌, IfOk, length, drop, map, All};
ghost use Rattle.alpha_cfg.specs.Cuts.{AreFlags};
ghost use Rattle.term_table.specs.Table.{IsKnown, tree_at, Extends, id_trees};
ghost use Rattle.hereditary_subst.specs.Kept.{IsMemo};
ghost use Rattle.hereditary_subst.specs.Limits.{SpendsResults};
ghost use Rattle.lf_signature.specs.Nodes.{IsIdOf};
ghost use Rattle.lf_signature.specs.Terms.{imp_term};
ghost use Rattle.lf_encode.specs.PutTree.{machine_terms_at};
ghost use Rattle.lf_encode.specs.Contexts.{machine_context, encoding_in};
ghost use Rattle.lf_signature.specs.Constants.{Longest};
ghost use Rattle.vcgen.specs.Encoded.{AreForms};
ghost use Rattle.vcgen.specs.Answers.{IsVcAnswer, AreLowInvs, SpendsVc};
ghost use Rattle.vcgen.specs.WalkTree.{start_terms, all_terms};
ghost use Rattle.vcgen.specs.WalkTree.{machine_term, closed_term};
ghost use Rattle.vcgen.specs.WalkTree.{part_terms, condition_term};
ghost use Rattle.vcgen.specs.Symbols.{ids_of, IsKnownProgram};
ghost use Rattle.vcgen.specs.Inside.Walks.{Walks};

use crate::fault::VcFault;
use crate::symbols::Symbols;
use crate::walk::{Program, walk_entry, walk_from};
use alpha_cfg::{Code, Cut};
use hereditary_subst::{Exhausted, MOST_RESULTS, Memo};
use lf_encode::{PutMemo, encode_form, machine_context, quantified};
use lf_signature::app2;
use lf_signature::numbers::{ALL, ALLM, AND, IMP, TT};
use policy_set::Policy;
use std::alloc::AllocError;
use term_table::{Id, Node, Table};

/// The greatest total length of the paths between cut points for which `vc` builds a condition.
pub const MAX_UNFOLDED: u32 = 65_536;

/// The greatest height of an invariant's term.
pub const MAX_HEIGHT: u32 = 4_096;

/// The formula of a term for all words of `count` variables, the nearest first.
fn all_words(table: &mut Table, count: u32, formula: Id) -> Result<Id, AllocError>
    requires { IsKnown table.old formula }
    ensures id { IfOk result (IsIdOf table.new (all_terms count (tree_at table.old formula))) }
    ensures extends { Extends table.old table.new }
{
    if count == 0 {
        return Ok(formula);
    }
    let body = all_words(table, count - 1, formula)?;
    quantified(table, ALL, body)
}

/// The formula of a term for all memories and registers.
fn whole_machine(table: &mut Table, formula: Id) -> Result<Id, AllocError>
    requires { IsKnown table.old formula }
    ensures id { IfOk result (IsIdOf table.new (machine_term (tree_at table.old formula))) }
    ensures extends { Extends table.old table.new }
{
    let words = all_words(table, 31, formula)?;
    quantified(table, ALLM, words)
}

/// The formula for all memories and registers, and if steps are counted for all numbers of
/// remaining steps.
fn closed(table: &mut Table, bound: Option<u32>, formula: Id) -> Result<Id, AllocError>
    requires { IsKnown table.old formula }
    ensures id { IfOk result (IsIdOf table.new (closed_term bound (tree_at table.old formula))) }
    ensures extends { Extends table.old table.new }
{
    let machine = whole_machine(table, formula)?;
    match bound {
        None => Ok(machine),
        Some(_) => quantified(table, ALL, machine),
    }
}

/// The formula that one formula implies the other, for all memories and registers, and if steps are
/// counted for all numbers of remaining steps.
fn part(table: &mut Table, bound: Option<u32>, from: Id, to: Id) -> Result<Id, AllocError>
    requires from { IsKnown table.old from }
    requires to { IsKnown table.old to }
    ensures id { IfOk result (IsIdOf table.new
        (closed_term bound (imp_term (tree_at table.old from) (tree_at table.old to)))) }
    ensures extends { Extends table.old table.new }
{
    let implied = app2(table, IMP, from, to)?;
    closed(table, bound, implied)
}

/// The parts of the invariants from place `from` on.
#[tactic(auto, using(crate::proofs::Walking::memos))]
fn inv_parts(
    table: &mut Table,
    shifts: &mut Memo,
    kept: &mut PutMemo,
    program: &Program,
    start: &Symbols,
    from: usize,
) -> Result<Id, Exhausted>
    requires walking { Walks table.old program.now start.now shifts.old kept.old }
    requires inside { All (λ p. p.0 < length program.now.code.now) program.now.invs.now }
    requires from { from ≤ length program.now.invs.now }
    requires start { machine_terms_at table.old (ids_of start.now) ≡ start_terms }
    ensures id { let t = table.old in
        let p = program.now in
        let invs = id_trees t p.invs.now in
        let rest = id_trees t (drop from p.invs.now) in
        IfOk result (IsIdOf table.new
        (part_terms p.bound p.code.now invs (tree_at t p.post) rest)) }
    ensures extends { Extends table.old table.new }
    ensures shifts { IsMemo table.new shifts.new }
    ensures spends { SpendsResults table.new shifts.old shifts.new result }
{
    if from == program.invs.len() {
        return Ok(table.intern(Node::Const(TT))?);
    }
    let pair = program.invs[from];
    let (index, inv) = pair;
    let count = program.code.count();
    let walked = walk_from(table, shifts, kept, program, count, index, start)?;
    let here = part(table, program.bound, inv, walked)?;
    let rest = inv_parts(table, shifts, kept, program, start, from + 1)?;
    Ok(app2(table, AND, here, rest)?)
}

/// The condition, from the terms of what holds at the start and of the program.
#[tactic(auto, using(crate::proofs::Walking::memos))]
fn condition_of(
    table: &mut Table,
    shifts: &mut Memo,
    program: &Program,
    pre: Id,
) -> Result<Id, Exhausted>
    requires program { let p = program.now in
        IsKnownProgram table.old p.code.now p.invs.now p.post }
    requires inside { All (λ p. p.0 < length program.now.code.now) program.now.invs.now }
    requires pre { IsKnown table.old pre }
    requires shifts { IsMemo table.old shifts.old }
    ensures id { let t = table.old in
        let p = program.now in
        let invs = id_trees t p.invs.now in
        IfOk result (IsIdOf table.new
        (condition_term p.bound p.code.now invs (tree_at t pre) (tree_at t p.post))) }
    ensures extends { Extends table.old table.new }
    ensures shifts { IsMemo table.new shifts.new }
    ensures spends { SpendsResults table.new shifts.old shifts.new result }
{
    let mut kept = PutMemo::new(table.allocator());
    let start = Symbols::start(table)?;
    let walked = walk_entry(table, shifts, &mut kept, program, &start)?;
    let entry = part(table, program.bound, pre, walked)?;
    let rest = inv_parts(table, shifts, &mut kept, program, &start, 0)?;
    Ok(app2(table, AND, entry, rest)?)
}

/// The encoding of the condition of code. The total length of the paths between cut points has to
/// be within its limit.
#[tactic(auto, using(crate::proofs::Walking::memos))]
fn encoded_condition(
    table: &mut Table,
    shifts: &mut Memo,
    code: &Code,
    policy: &Policy,
    invs: &[(u32, Id)],
    bound: Option<u32>,
) -> Result<Id, Exhausted>
    requires invs { AreLowInvs table.old invs.now }
    requires inside { All (λ p. p.0 < length code.now) invs.now }
    requires shifts { IsMemo table.old shifts.old }
    ensures id { let t = table.old in
        let pre = encoding_in machine_context policy.now.pre in
        let post = encoding_in machine_context policy.now.post in
        IfOk result (IsIdOf table.new
        (condition_term bound code.now (id_trees t invs.now) pre post)) }
    ensures extends { Extends table.old table.new }
    ensures shifts { IsMemo table.new shifts.new }
    ensures spends { SpendsResults table.new shifts.old shifts.new result }
{
    let _ = code.insns(); // tells the prover that this is code
    policy.laws(); // tells the prover what the formulas name, and that they aren't high
    let context = machine_context();
    let pre = encode_form(table, policy.pre(), &context)?;
    let post = encode_form(table, policy.post(), &context)?;
    let program = Program {
        code,
        invs,
        post,
        bound,
    };
    condition_of(table, shifts, &program, pre)
}

/// Builds the encoding of the verification condition of `cut` under `policy` and `bound`. The terms
/// of `invs` encode the invariants: each cut point has a well-typed formula over the longest
/// signature of word arithmetic, at most `MAX_HEIGHT` high, and the indices rise. If `bound` is
/// None, steps aren't counted, and the terms are in the context m, r0 to r30. Else `bound` is the
/// most steps that the code may make, and they are in the context left, m, r0 to r30.
///
/// Errors: `UnfoldLimit` names the total length of the paths between cut points exactly if it
/// exceeds `MAX_UNFOLDED`, which is tested first. `Memory` says nothing about the condition.
/// Neither does `Results`, which comes if more than `MOST_RESULTS` results of substitution would be
/// cached. Each id keeps its tree.
pub fn vc(
    table: &mut Table,
    cut: &Cut,
    policy: &Policy,
    invs: &[(u32, Id)],
    bound: Option<u32>,
) -> Result<Id, VcFault>
    requires invs { AreLowInvs table.old invs.now }
    requires forms { AreForms Longest bound (id_trees table.old invs.now) }
    requires marks { AreFlags (map (λ p. p.0) invs.now) (length cut.now.code) cut.now.marks }
    ensures exact { let trees = id_trees table.old invs.now in
        IsVcAnswer policy.now bound cut.now trees table.new result }
    ensures extends { Extends table.old table.new }
{
    let mut memo = Memo::new(table.allocator(), MOST_RESULTS);
    vc_with(table, &mut memo, cut, policy, invs, bound)
}

/// Builds the encoding of the verification condition, as `vc` does, with the cached results of
/// `memo` and under its limit, if it has one.
///
/// Errors: as `vc`; `Results` only if the limit of `memo` is reached.
pub fn vc_with(
    table: &mut Table,
    memo: &mut Memo,
    cut: &Cut,
    policy: &Policy,
    invs: &[(u32, Id)],
    bound: Option<u32>,
) -> Result<Id, VcFault>
    requires invs { AreLowInvs table.old invs.now }
    requires forms { AreForms Longest bound (id_trees table.old invs.now) }
    requires marks { AreFlags (map (λ p. p.0) invs.now) (length cut.now.code) cut.now.marks }
    requires memo { IsMemo table.old memo.old }
    ensures exact { let trees = id_trees table.old invs.now in
        IsVcAnswer policy.now bound cut.now trees table.new result }
    ensures extends { Extends table.old table.new }
    ensures memo { IsMemo table.new memo.new }
    ensures spends { SpendsVc table.new memo.old memo.new result }
{
    let unfolded = cut.unfolded();
    if unfolded > MAX_UNFOLDED {
        return Err(VcFault::UnfoldLimit(unfolded));
    }
    policy.laws(); // tells the prover what the formulas name
    match encoded_condition(table, memo, cut.code(), policy, invs, bound) {
        Ok(id) => Ok(id),
        Err(Exhausted::Memory) => Err(VcFault::Memory),
        Err(Exhausted::Results) => Err(VcFault::Results),
    }
}
