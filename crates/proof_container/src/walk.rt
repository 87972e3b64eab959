//! The walk that orders a container's entries.

ghost use Rattle.std.specs.Prelude.{◌≡◌, ◌<◌, ◌++◌, ◌∷◌, [], List, length, get_or, IfOk, OnOk};
ghost use Rattle.term_table.specs.Tree.{Tree};
ghost use Rattle.term_table.specs.Table.{IsKnown};
ghost use Rattle.lf_lemmas.specs.Tables.{LemmasKnown};
ghost use Rattle.proof_container.specs.Postorder.{entries};
ghost use Rattle.proof_container.specs.Views.{AreKnown};
ghost use Rattle.proof_container.specs.Inside.Walked.{IsUnderWay, IsStep};
ghost use Rattle.proof_container.specs.Walks.{IsLeft, root_trees};
ghost use Rattle.proof_container.specs.Inside.Walked.{lemma_steps, first_steps, part_steps};
ghost use Rattle.proof_container.specs.Inside.Walked.{steps_cost};

use std::alloc::{AllocError, Global};
use term_table::{Id, Node, Table};

/// The ids that a walk has emitted, in order, and for each id of the table its place among them.
#[derive(Drop)]
pub struct Walk {
    pub left: Vec<Id>,
    pub numbers: Vec<Option<u64>>,
}

impl Walk {
    /// Returns the place of an id among the emitted ids, if it was emitted.
    pub fn number(&self, id: Id) -> Option<u64>
        requires { id < length self.now.numbers.items }
        ensures { result ≡ get_or self.now.numbers.items id None }
    {
        self.numbers[id.index()]
    }
}

/// A step that a walk has yet to do.
#[derive(Clone, Copy)]
enum Step {
    /// To leave what the tree is made of, and it, unless it has been left.
    Enter(Id),
    /// To leave the tree, whose parts have been left, unless it has been left.
    Leave(Id),
}

/// Puts the steps that enter lemmas on top, the first lemma's topmost, and in each its formula's.
fn enter_lemmas(steps: &mut Vec<Step>, lemmas: &[(Id, Id)]) -> Result<(), AllocError>
    ensures { OnOk result (steps.new.items ≡ steps.old.items ++ lemma_steps lemmas.now) }
{
    for lemma in lemmas.iter().rev() {
        let (formula, proof) = *lemma;
        steps.push(Step::Enter(proof))?;
        steps.push(Step::Enter(formula))?;
    }
    Ok(())
}

/// The steps that enter the roots, the first root's on top.
fn first_steps(
    alloc: Global,
    invs: &[(u32, Id)],
    lemmas: &[(Id, Id)],
    proof: Option<Id>,
) -> Result<Vec<Step>, AllocError>
    ensures { IfOk result (λ steps. steps.items ≡ first_steps invs.now lemmas.now proof) }
{
    let mut steps = Vec::new(alloc);
    if let Some(id) = proof {
        steps.push(Step::Enter(id))?;
    }
    enter_lemmas(&mut steps, lemmas)?;
    for inv in invs.iter().rev() {
        steps.push(Step::Enter(inv.1))?;
    }
    Ok(steps)
}

/// Puts the steps that enter a node's parts on top, the first part's topmost.
fn enter_parts(steps: &mut Vec<Step>, node: Node) -> Result<(), AllocError>
    ensures { OnOk result (steps.new.items ≡ steps.old.items ++ part_steps node) }
{
    match node {
        Node::App(a, b) | Node::TApp(a, b) | Node::Pi(a, b) => {
            steps.push(Step::Enter(b))?;
            steps.push(Step::Enter(a))?;
            Ok(())
        }
        Node::Lam(b) => {
            steps.push(Step::Enter(b))?;
            Ok(())
        }
        _ => Ok(()),
    }
}

/// Enters a tree: its parts are to be entered before it is left, unless it has been left.
fn enter(table: &Table, walk: &Walk, steps: &mut Vec<Step>, id: Id) -> Result<(), AllocError>
    requires known { IsKnown table.now id }
    requires numbers { length walk.now.numbers.items ≡ length table.now.trees }
    ensures goes { OnOk result ((goal : List Tree) →
        IsUnderWay table.now goal walk.now (steps.old.items ++ Step.Enter id ∷ []) →
        IsUnderWay table.now goal walk.now steps.new.items) }
    ensures falls { OnOk result (steps_cost table.now steps.new.items <
        steps_cost table.now (steps.old.items ++ Step.Enter id ∷ [])) }
{
    if walk.number(id).is_some() {
        return Ok(());
    }
    steps.push(Step::Leave(id))?;
    enter_parts(steps, table.node(id))
}

/// Leaves a tree, unless it has been left.
fn leave(table: &Table, walk: &mut Walk, id: Id) -> Result<(), AllocError>
    requires known { IsKnown table.now id }
    requires numbers { length walk.old.numbers.items ≡ length table.now.trees }
    ensures { OnOk result ((goal : List Tree) (steps : List Step) →
        IsUnderWay table.now goal walk.old (steps ++ Step.Leave id ∷ []) →
        IsUnderWay table.now goal walk.new steps) }
{
    table.laws();
    if walk.number(id).is_some() {
        return Ok(());
    }
    let place = walk.left.len() as u64;
    walk.left.push(id)?;
    walk.numbers[id.index()] = Some(place);
    Ok(())
}

/// Takes a step, which is no longer among the others.
fn take_step(
    table: &Table,
    walk: &mut Walk,
    steps: &mut Vec<Step>,
    step: Step,
) -> Result<(), AllocError>
    requires known { IsStep table.now step }
    requires numbers { length walk.old.numbers.items ≡ length table.now.trees }
    ensures goes { OnOk result ((goal : List Tree) →
        IsUnderWay table.now goal walk.old (steps.old.items ++ step ∷ []) →
        IsUnderWay table.now goal walk.new steps.new.items) }
    ensures falls { OnOk result (steps_cost table.now steps.new.items <
        steps_cost table.now (steps.old.items ++ step ∷ [])) }
{
    match step {
        Step::Enter(id) => enter(table, walk, steps, id),
        Step::Leave(id) => leave(table, walk, id),
    }
}

/// Walks from the invariants in order, then each lemma's formula and proof, and then the proof.
/// Emits each tree once, after its children.
///
/// Errors: out of memory alone.
pub fn walk_from(
    alloc: Global,
    table: &Table,
    invs: &[(u32, Id)],
    lemmas: &[(Id, Id)],
    proof: Option<Id>,
) -> Result<Walk, AllocError>
    requires known { AreKnown table.now invs.now proof }
    requires lemmas { LemmasKnown table.now lemmas.now }
    ensures { let left = entries (root_trees table.now invs.now lemmas.now proof) in
        IfOk result (λ w. IsLeft table.now left w) }
{
    let mut walk = Walk {
        left: Vec::new(alloc),
        numbers: vec![in alloc; None; table.count() as usize]?,
    };
    let mut steps = first_steps(alloc, invs, lemmas, proof)?;
    while let Some(step) = steps.pop() {
        take_step(table, &mut walk, &mut steps, step)?;
    }
    Ok(walk)
}
