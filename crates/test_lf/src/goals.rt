//! Questions on goals under a hypothesis.

ghost use Rattle.std.specs.Prelude.{IfOk};
ghost use Rattle.term_table.specs.Table.{IsKnown};
ghost use Rattle.prover_goals.specs.Search.{IsContext};

use crate::hypotheses::split;
use hereditary_subst::MOST_RESULTS;
use prover_conditions::proof_by_access;
use prover_goals::{Context, Search, proof_by_words, proof_without_access};
use term_table::{Id, Table};
use test_inputs::faults::{Read, RowFault};
use test_inputs::rows::Answer;
use test_inputs::term_text::known;

/// How many binders stand outside.
const OUTSIDE: u32 = 40;

/// How a goal is to be proved.
#[derive(Clone, Copy)]
pub(crate) enum Way {
    Words,
    Access,
    Connectives,
    /// By connectives, where steps are counted.
    CountedConnectives,
}

/// The context of the hypotheses that a formula is split into.
fn context_of(table: &mut Table, form: Id) -> Read<Context>
    ensures { IfOk result (IsContext table.new) }
{
    let hyps = split(table, form)?;
    match Context::new(table, OUTSIDE, hyps) {
        Ok(context) => Ok(context),
        Err(_) => Err(RowFault::Memory),
    }
}

/// Whether words alone prove the goal.
fn by_words(table: &mut Table, context: &mut Context, goal: Id) -> Answer
    requires context { IsContext table.old context.old }
    requires goal { IsKnown table.old goal }
{
    let mut search = Search::new(table, MOST_RESULTS);
    match proof_by_words(table, &mut search, context, false, goal) {
        Ok(found) => Answer::holds(found.is_some()),
        Err(_) => Answer::Memory,
    }
}

/// Whether the goal is an access that the hypotheses give.
fn by_access(table: &mut Table, context: &mut Context, goal: Id) -> Answer
    requires context { IsContext table.old context.old }
    requires goal { IsKnown table.old goal }
{
    let mut search = Search::new(table, MOST_RESULTS);
    match proof_by_access(table, &mut search, context, false, goal) {
        Ok(found) => Answer::holds(found.is_some()),
        Err(_) => Answer::Memory,
    }
}

/// What proves the goal by connectives and words, where steps are counted or aren't.
fn by_connectives(table: &mut Table, context: &mut Context, counted: bool, goal: Id) -> Answer
    requires context { IsContext table.old context.old }
    requires goal { IsKnown table.old goal }
{
    let mut search = Search::new(table, MOST_RESULTS);
    match proof_without_access(table, &mut search, context, counted, goal) {
        Ok(found) => Answer::tree(found),
        Err(_) => Answer::Memory,
    }
}

/// What proves a goal in this way in a context: whether anything does, or by connectives what.
fn in_context(table: &mut Table, context: &mut Context, way: Way, goal: Id) -> Answer
    requires context { IsContext table.old context.old }
    requires goal { IsKnown table.old goal }
{
    match way {
        Way::Words => by_words(table, context, goal),
        Way::Access => by_access(table, context, goal),
        Way::Connectives => by_connectives(table, context, false, goal),
        Way::CountedConnectives => by_connectives(table, context, true, goal),
    }
}

/// What proves a goal in this way under a hypothesis.
pub(crate) fn proof(table: &mut Table, way: Way, form: Id, goal: Id) -> Read<Answer> {
    let mut context = context_of(table, form)?;
    known(table, goal)?;
    Ok(in_context(table, &mut context, way, goal))
}
