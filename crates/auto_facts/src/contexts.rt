//! Contexts whose hypotheses have what follows from each.
//!
//! Errors: out of memory, or the search's limit is reached; each id keeps its tree.

ghost use Rattle.std.specs.Prelude.{IfOk, OnOk};
ghost use Rattle.term_table.specs.Table.{IsKnown, Extends};
ghost use Rattle.prover_ids.specs.Hypotheses.{AreKnownHyps};
ghost use Rattle.prover_goals.specs.Search.{IsSearch, IsContext};
ghost use Rattle.auto_facts.specs.Facts.{IsFact};

use crate::derived::{Fact, add_derived, fact_at};
use crate::terms::raise;
use hereditary_subst::Exhausted;
use prover_goals::{Context, Search};
use prover_hyps::{Hypotheses, add_split, raised_hyps};
use std::alloc::AllocError;
use term_table::{Id, Node, Table};

/// Returns the context under the hypothesis `a`, whose proof is variable 0 there, and under what
/// follows from it.
///
/// Errors: the binders outside would be 2^32, out of memory, or the limit of `search` is reached;
/// each id keeps its tree.
#[tactic(auto, using(prover_goals::proofs::Kept::rows))]
pub fn under_hypothesis(
    table: &mut Table,
    search: &mut Search,
    context: &Context,
    a: Id,
) -> Result<Context, Exhausted>
    requires a { IsKnown table.old a }
    requires search { IsSearch table.old search.old }
    requires context { IsContext table.old context.now }
    ensures context { IfOk result (IsContext table.new) }
    ensures extends { Extends table.old table.new }
    ensures search { OnOk result (IsSearch table.new search.new) }
{
    if context.outside == u32::MAX {
        return Err(Exhausted::Memory);
    }
    let form = raise(table, search, a)?;
    let mut hyps = raised_hyps(table, &mut search.memo, &context.hyps)?;
    let proof = table.intern(Node::Var(0))?;
    let count = hyps.as_slice().len();
    add_split(table, &mut hyps, form, proof)?;
    add_derived(table, search, &mut hyps, count)?;
    Context::new(table, context.outside + 1, hyps)
}

/// Adds the hypothesis at place `i` of `from`, if there is one.
fn add_copy(
    table: &mut Table,
    hyps: &mut Hypotheses,
    from: &Hypotheses,
    i: usize,
) -> Result<(), AllocError>
    requires { AreKnownHyps table.old hyps.old }
    ensures known { OnOk result (AreKnownHyps table.new hyps.new) }
    ensures extends { Extends table.old table.new }
{
    match fact_at(table, from, i) {
        Some(fact) => add_split(table, hyps, fact.form, fact.proof),
        None => Ok(()),
    }
}

/// Returns the context with one more hypothesis.
///
/// Errors: out of memory, or the limit of `search` is reached; each id keeps its tree.
#[tactic(auto, using(prover_goals::proofs::Kept::rows))]
pub fn with_fact(
    table: &mut Table,
    search: &mut Search,
    context: &Context,
    fact: Fact,
) -> Result<Context, Exhausted>
    requires fact { IsFact table.old fact }
    requires search { IsSearch table.old search.old }
    requires context { IsContext table.old context.now }
    ensures context { IfOk result (IsContext table.new) }
    ensures extends { Extends table.old table.new }
    ensures search { OnOk result (IsSearch table.new search.new) }
{
    let mut hyps = Hypotheses::new(table.allocator());
    let count = context.hyps.as_slice().len();
    search.spend_steps(count as u64)?;
    for i in 0..count {
        add_copy(table, &mut hyps, &context.hyps, i)?;
    }
    add_split(table, &mut hyps, fact.form, fact.proof)?;
    Context::new(table, context.outside, hyps)
}
