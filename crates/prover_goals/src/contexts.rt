//! Contexts under one more binder.

ghost use Rattle.std.specs.Prelude.{◌≡◌, IfOk, OnOk};
ghost use Rattle.term_table.specs.Table.{IsKnown, Extends};
ghost use Rattle.prover_goals.specs.Search.{IsSearch, IsContext};
ghost use Rattle.prover_goals.specs.Contexts.{IsUnderBinder, IsUnderHypothesis};
ghost use Rattle.hereditary_subst.specs.Limits.{SpendsResults};

use crate::search::{Context, Search};
use hereditary_subst::Exhausted;
use prover_hyps::{add_split, raised_hyps};
use prover_ids::raised;
use term_table::{Id, Node, Table};

/// Returns the context under the binder of a quantifier.
///
/// Errors: the binders outside would be 2^32, out of memory, or the limit of `search` is reached;
/// each id keeps its tree.
#[tactic(auto, using(crate::proofs::Kept::rows))]
pub fn under_binder(
    table: &mut Table,
    search: &mut Search,
    context: &Context,
) -> Result<Context, Exhausted>
    requires search { IsSearch table.old search.old }
    requires context { IsContext table.old context.now }
    ensures under { let c = context.now in
        IfOk result (IsUnderBinder table.old table.new c.hyps c.outside) }
    ensures extends { Extends table.old table.new }
    ensures search { OnOk result (IsSearch table.new search.new) }
    ensures spends { SpendsResults table.new search.old.memo search.new.memo result }
{
    if context.outside == u32::MAX {
        return Err(Exhausted::Memory);
    }
    search.spend_terms(table)?;
    let hyps = raised_hyps(table, &mut search.memo, &context.hyps)?;
    Context::new(table, context.outside + 1, hyps)
}

/// Returns the context under the hypothesis `a`, whose proof is variable 0 there.
///
/// Errors: as `under_binder`; each id keeps its tree.
#[tactic(auto, using(crate::proofs::Kept::rows))]
pub fn under_hypothesis(
    table: &mut Table,
    search: &mut Search,
    context: &Context,
    a: Id,
) -> Result<Context, Exhausted>
    requires search { IsSearch table.old search.old }
    requires context { IsContext table.old context.now }
    requires a { IsKnown table.old a }
    ensures under { let c = context.now in
        IfOk result (IsUnderHypothesis table.old table.new c.hyps c.outside a) }
    ensures extends { Extends table.old table.new }
    ensures search { OnOk result (IsSearch table.new search.new) }
    ensures spends { SpendsResults table.new search.old.memo search.new.memo result }
{
    if context.outside == u32::MAX {
        return Err(Exhausted::Memory);
    }
    search.spend_terms(table)?;
    let mut hyps = raised_hyps(table, &mut search.memo, &context.hyps)?;
    let form = raised(table, &mut search.memo, a)?;
    let proof = table.intern(Node::Var(0))?;
    add_split(table, &mut hyps, form, proof)?;
    Context::new(table, context.outside + 1, hyps)
}
