//! Listing the goals of a container's verification condition.

ghost use Rattle.std.specs.Prelude.{◌≡◌, ◌≤◌, None, IfOk, All, List, map, length};
ghost use Rattle.alpha_cfg.specs.Cuts.{AreFlags, unfolded_of};
ghost use Rattle.term_table.specs.Table.{Extends, id_trees};
ghost use Rattle.lf_signature.specs.Constants.{Longest};
ghost use Rattle.proof_container.specs.Views.{contents_of};
ghost use Rattle.vcgen.specs.Answers.{AreLowInvs};
ghost use Rattle.vcgen.specs.Encoded.{AreForms, annotated};
ghost use Rattle.vcgen.specs.declared.condition.TheConstants.{MAX_UNFOLDED};
ghost use Rattle.pcc_gate.specs.First.{formulas, front_refusal};
ghost use Rattle.pcc_gate.specs.Passing.{Passes};
ghost use Rattle.pcc_gate.specs.Answers.{IsHeld};
ghost use Rattle.view_goals.specs.Rows.{part_view, HasKnownIds};
ghost use Rattle.view_goals.specs.Goals.{PartGoals};
ghost use Rattle.view_goal_text.specs.Listing.{view_of, goal_parts, parts_text, goals_text};
ghost use Rattle.view_goal_text.specs.Answers.{IsGoalsAnswer};
ghost use Rattle.view_goal_text.specs.Styles.{style_view};

use crate::fault::GoalsFault;
use crate::parts::push_parts;
use crate::style::{Manner, Style};
use alpha_cfg::Cut;
use hereditary_subst::Exhausted;
use pcc_gate::{GateFault, Passed, front};
use policy_set::Policy;
use prover_conditions::{MOST_SEARCHED, condition_in};
use prover_goals::Search;
use std::alloc::Global;
use term_table::{Id, Table};
use view_goals::{PartRows, condition_goals, laws};
use view_labels::push_last;
use view_lines::lines_text;

/// The parts of the condition of cut code, with their goals.
fn parts_of(
    table: &mut Table,
    policy: &Policy,
    cut: &Cut,
    invs: &[(u32, Id)],
    bound: Option<u32>,
) -> Result<Vec<PartRows>, Exhausted>
    requires invs { AreLowInvs table.old invs.now }
    requires forms { AreForms Longest bound (id_trees table.old invs.now) }
    requires marks { AreFlags (map (λ p. p.0) invs.now) (length cut.now.code) cut.now.marks }
    requires short { unfolded_of cut.now.code cut.now.marks ≤ MAX_UNFOLDED }
    ensures parts { let invs = formulas (id_trees table.old invs.now) in
        let parts = goal_parts (annotated policy.now bound cut.now.code invs) in
        IfOk result (λ v. map (part_view table.new) v.items ≡ map (view_of bound) parts) }
    ensures known { IfOk result (λ v. All (HasKnownIds table.new) v.items) }
    ensures extends { Extends table.old table.new }
{
    laws();
    let condition = condition_in(table, true, policy, cut, invs, bound)?;
    let parts = condition_goals(table, cut, invs, bound, condition)?;
    Ok(parts)
}

/// The text of the parts.
fn text_of(table: &mut Table, manner: &Manner, parts: &[PartRows]) -> Result<Vec<u8>, Exhausted>
    requires { All (HasKnownIds table.old) parts.now }
    ensures exact { let m = manner.now in (ps : List PartGoals)
        → map (part_view table.old) parts.now ≡ map (view_of m.bound) ps
        → IfOk result (λ v. v.items ≡ parts_text (style_view m.style.now) m.bound ps) }
{
    let mut search = Search::new(table, MOST_SEARCHED);
    let mut lines = Vec::new(table.allocator());
    let hard = push_parts(table, &mut search, manner, &mut lines, parts, 0)?;
    let mut out = lines_text(table, lines.as_slice())?;
    push_last(&mut out, hard)?;
    Ok(out)
}

/// The listing of the goals of what passed the clauses before the proof.
fn listed(
    policy: &Policy,
    bytes: &[u8],
    style: &Style,
    passed: Passed<'_>,
) -> Result<Vec<u8>, Exhausted>
    requires passes { let contents = contents_of passed.container in
        Passes policy.now bytes.now contents passed.cut.code passed.cut.marks }
    requires held { IsHeld passed.container }
    ensures { let c = contents_of passed.entry.container in
        let s = style_view style.now in
        IfOk result (λ v. v.items ≡ goals_text s policy.now c passed.entry.cut.code) }
{
    let _ = bytes; // only the clauses speak of it
    let container = passed.container;
    let cut = passed.cut;
    let bound = container.bound;
    let mut table = container.table;
    let invs = container.invs;
    let parts = parts_of(&mut table, policy, &cut, &invs, bound)?;
    let manner = Manner { bound, style };
    text_of(&mut table, &manner, &parts)
}

/// The answer to bytes of which the clauses before the proof hold.
fn answered(
    policy: &Policy,
    bytes: &[u8],
    style: &Style,
    passed: Passed<'_>,
) -> Result<Vec<u8>, GoalsFault>
    requires passes { let contents = contents_of passed.container in
        Passes policy.now bytes.now contents passed.cut.code passed.cut.marks }
    requires first { front_refusal policy.now bytes.now ≡ None }
    requires held { IsHeld passed.container }
    ensures { IsGoalsAnswer (style_view style.now) policy.now bytes.now result }
{
    match listed(policy, bytes, style, passed) {
        Ok(out) => Ok(out),
        Err(Exhausted::Memory) => Err(GoalsFault::Memory),
        Err(Exhausted::Results) => Err(GoalsFault::Results),
    }
}

/// Lists the goals of the verification condition of the container in `bytes` under `policy`, as
/// text, if the gate's checks before the proof pass (`pcc_gate::front`). The listing has each part
/// of the condition with its number and the index where it begins. It has each goal with the index
/// that asks for it and why, the hypotheses there, and whether the class of easy conditions proves
/// it, by itself or because what it is part of is, or it is false by computing
/// (`view_values::is_false`). After the first goal of a part that isn't easy it says what is missing
/// (`view_marks::missing_parts`, `hint_about`). The last line names the first part with a goal that
/// isn't easy, which is the part that `bounds_prover::prove` names. `style` changes this: each index
/// comes with its line of a source, easy goals are left out, or each goal has all its hints.
///
/// If a formula's term has more than `view_lines::MAX_SHOWN` nodes, or its text more bytes than that, the
/// listing shows the name of its entry, as `e41`. After the parts come the entries that such
/// formulas are made of, a line each and parts first, as `e41 = and e3 e40`. The time depends on
/// the limit and on the number of entries, not on the size of a tree.
///
/// Errors: `Refused` names the first of those checks that fails. `Memory` and `Results` say nothing
/// about `bytes`: there was no memory, or the results that the search caches and the terms that it
/// makes were more than `prover_conditions::MOST_SEARCHED`.
pub fn list_goals(
    alloc: Global,
    policy: &Policy,
    bytes: &[u8],
    style: &Style,
) -> Result<Vec<u8>, GoalsFault>
    ensures exact { IsGoalsAnswer (style_view style.now) policy.now bytes.now result }
{
    match front(alloc, policy, bytes) {
        Err(GateFault::Refused(refusal)) => Err(GoalsFault::Refused(refusal)),
        Err(GateFault::Memory) => Err(GoalsFault::Memory),
        Err(GateFault::Results) => Err(GoalsFault::Results),
        Ok(passed) => answered(policy, bytes, style, passed),
    }
}
