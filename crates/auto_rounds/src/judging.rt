//! Whether goals are easy under hypotheses.
//!
//! The variables for the hypotheses' proofs are numbers alone, since no proof is kept. Errors: out
//! of memory, and `Results` past the limit; each id keeps its tree.

ghost use Rattle.std.specs.Prelude.{IfOk, OnOk};
ghost use Rattle.term_table.specs.Table.{IsKnown, Extends};
ghost use Rattle.prover_ids.specs.Hypotheses.{AreKnownHyps};
ghost use Rattle.prover_goals.specs.Search.{IsSearch, IsContext};

use auto_candidates::known;
use auto_facts::add_derived;
use auto_proofs::proof_of;
use hereditary_subst::Exhausted;
use prover_conditions::proof_by_all_means;
use prover_goals::{Context, Search};
use prover_hyps::{Hypotheses, add_split};
use term_table::{Id, Node, Table};
use view_marks::PART_BINDERS;

/// The steps that a goal counts beside its results.
const STEPS_A_GOAL: u64 = 64;

/// Adds what a known formula, which has the number `k`, is split into.
#[tactic(auto, using(prover_goals::proofs::Kept::rows))]
fn add_formula(table: &mut Table, hyps: &mut Hypotheses, k: u32, form: Id) -> Result<(), Exhausted>
    requires hyps { AreKnownHyps table.old hyps.old }
    requires form { IsKnown table.old form }
    ensures known { OnOk result (AreKnownHyps table.new hyps.new) }
    ensures extends { Extends table.old table.new }
{
    let proof = table.intern(Node::Var(k))?;
    add_split(table, hyps, form, proof)?;
    Ok(())
}

/// The hypotheses that formulas of the table are split into.
fn hypotheses_of(table: &mut Table, forms: &[Id]) -> Result<Hypotheses, Exhausted>
    ensures known { IfOk result (AreKnownHyps table.new) }
    ensures extends { Extends table.old table.new }
{
    let mut hyps = Hypotheses::new(table.allocator());
    for i in 0..forms.len() {
        if let (Ok(k), Some(form)) = (u32::try_from(i), known(table, forms[i])) {
            add_formula(table, &mut hyps, k, form)?;
        }
    }
    Ok(hyps)
}

/// Which goals count as easy.
#[derive(Clone, Copy)]
pub(crate) struct Class {
    // whether steps are counted
    pub(crate) counted: bool,
    // whether it is the class of `auto_proofs`, not that of `prove`
    pub(crate) wider: bool,
}

/// The hypotheses of a part with these formulas, and in the wider class what follows from each.
#[tactic(auto, using(prover_goals::proofs::Kept::rows))]
fn hypotheses_in(
    table: &mut Table,
    search: &mut Search,
    class: Class,
    forms: &[Id],
) -> Result<Hypotheses, Exhausted>
    requires search { IsSearch table.old search.old }
    ensures known { IfOk result (AreKnownHyps table.new) }
    ensures extends { Extends table.old table.new }
    ensures search { OnOk result (IsSearch table.new search.new) }
{
    let mut hyps = hypotheses_of(table, forms)?;
    if !class.wider {
        return Ok(hyps);
    }
    add_derived(table, search, &mut hyps, 0)?;
    Ok(hyps)
}

/// Returns the context of a part under these formulas, and in the wider class under what follows
/// from each.
#[tactic(auto, using(prover_goals::proofs::Kept::rows))]
pub(crate) fn context_of(
    table: &mut Table,
    search: &mut Search,
    class: Class,
    forms: &[Id],
) -> Result<Context, Exhausted>
    requires search { IsSearch table.old search.old }
    ensures context { IfOk result (IsContext table.new) }
    ensures extends { Extends table.old table.new }
    ensures search { OnOk result (IsSearch table.new search.new) }
{
    let hyps = hypotheses_in(table, search, class, forms)?;
    let context = Context::new(table, PART_BINDERS, hyps)?;
    Ok(context)
}

/// The proof of the goal in the context, if it is easy.
#[tactic(auto, using(prover_goals::proofs::Kept::rows))]
fn easy_proof(
    table: &mut Table,
    search: &mut Search,
    context: &mut Context,
    class: Class,
    goal: Id,
) -> Result<Option<Id>, Exhausted>
    requires goal { IsKnown table.old goal }
    requires search { IsSearch table.old search.old }
    requires context { IsContext table.old context.old }
    ensures extends { Extends table.old table.new }
    ensures search { OnOk result (IsSearch table.new search.new) }
    ensures context { OnOk result (IsContext table.new context.new) }
{
    if class.wider {
        return proof_of(table, search, context, class.counted, goal);
    }
    let proof = proof_by_all_means(table, search, context, class.counted, goal)?;
    Ok(proof)
}

/// Returns whether the goal is easy in the context.
#[tactic(auto, using(prover_goals::proofs::Kept::rows))]
pub(crate) fn is_easy(
    table: &mut Table,
    search: &mut Search,
    context: &mut Context,
    class: Class,
    goal: Id,
) -> Result<bool, Exhausted>
    requires goal { IsKnown table.old goal }
    requires search { IsSearch table.old search.old }
    requires context { IsContext table.old context.old }
    ensures extends { Extends table.old table.new }
    ensures search { OnOk result (IsSearch table.new search.new) }
    ensures context { OnOk result (IsContext table.new context.new) }
{
    let hyps = context.hyps.as_slice().len() as u64;
    search.spend_steps(hyps.saturating_add(STEPS_A_GOAL))?;
    let proof = easy_proof(table, search, context, class, goal)?;
    Ok(proof.is_some())
}

/// Returns how many results, of at most `most`, the search could still cache, and spends them: that
/// is the way to count them.
pub(crate) fn left_of(search: &mut Search, most: usize) -> usize {
    let mut left: usize = 0;
    let mut part = most;
    for _halving in 0..64 {
        part -= part / 2;
        // `part` results: one for the call, and one for each sixteen steps
        let steps = (part as u64).saturating_sub(1).saturating_mul(16);
        let more = part.saturating_add(left);
        if more <= most && search.spend_steps(steps).is_ok() {
            left = more;
        }
        if part <= 1 {
            return left;
        }
    }
    left
}
