//! Questions on bounds and normal forms of expressions.

ghost use Rattle.term_table.specs.Table.{IsKnown};

use crate::answers::{found, small};
use hereditary_subst::{MOST_RESULTS, Memo};
use prover_bounds::{KeptBounds, lower_bound, upper_bound};
use prover_goals::{Search, normal, normal_exp};
use prover_ids::Hypothesis;
use prover_sums::{NormalForms, Occurrences, eighth, normal_form, occurs, rest_of};
use std::alloc::Global;
use term_table::{Id, Node, Table};
use test_inputs::faults::Read;
use test_inputs::rows::Answer;
use test_inputs::term_text::known;

/// The upper bound of an expression under a hypothesis that variable 1 proves.
fn upper_under(alloc: Global, table: &mut Table, form: Id, proof: Id, e: Id) -> Answer
    requires form { IsKnown table.old form }
    requires proof { IsKnown table.old proof }
    requires e { IsKnown table.old e }
{
    let hyps = [Hypothesis { form, proof }];
    let mut memo = Memo::new(alloc, MOST_RESULTS);
    let mut kept = KeptBounds::new(alloc);
    match upper_bound(table, &mut memo, &mut kept, &hyps, e) {
        Ok(bound) => Answer::Number(bound.value),
        Err(_) => Answer::Memory,
    }
}

/// The lower bound of an expression under a hypothesis, where steps are counted or aren't.
fn lower_under(
    alloc: Global,
    table: &mut Table,
    counted: bool,
    form: Id,
    proof: Id,
    e: Id,
) -> Answer
    requires form { IsKnown table.old form }
    requires proof { IsKnown table.old proof }
    requires e { IsKnown table.old e }
{
    let hyps = [Hypothesis { form, proof }];
    let mut memo = Memo::new(alloc, MOST_RESULTS);
    let mut kept = KeptBounds::new(alloc);
    match lower_bound(table, &mut memo, &mut kept, &hyps, counted, e) {
        Ok(bound) => Answer::Number(bound.value),
        Err(_) => Answer::Memory,
    }
}

/// The upper bound of an expression under a hypothesis that variable 1 proves.
pub(crate) fn upper(table: &mut Table, form: Id, e: Id) -> Read<Answer> {
    let proof = table.intern(Node::Var(1))?;
    known(table, form)?;
    known(table, e)?;
    Ok(upper_under(table.allocator(), table, form, proof, e))
}

/// The lower bound of an expression under a hypothesis that variable 1 proves, where steps are counted
/// or aren't.
pub(crate) fn lower(table: &mut Table, counted: bool, form: Id, e: Id) -> Read<Answer> {
    let proof = table.intern(Node::Var(1))?;
    known(table, form)?;
    known(table, e)?;
    Ok(lower_under(table.allocator(), table, counted, form, proof, e))
}

/// The normal form of an expression under so many binders.
fn form(table: &mut Table, outside: u32, e: Id) -> Answer
    requires { IsKnown table.old e }
{
    let mut memo = Memo::new(table.allocator(), MOST_RESULTS);
    let mut kept = NormalForms::new(table.allocator());
    match normal_form(table, &mut memo, &mut kept, outside, e) {
        Ok(found) => Answer::Tree(found.now),
        Err(_) => Answer::Memory,
    }
}

/// The normal form as the search keeps it.
fn kept_form(table: &mut Table, outside: u32, e: Id) -> Answer
    requires { IsKnown table.old e }
{
    let mut search = Search::new(table, MOST_RESULTS);
    match normal(table, &mut search, outside, e) {
        Ok(found) => Answer::Tree(found.now),
        Err(_) => Answer::Memory,
    }
}

/// The normal form alone, as the search keeps it.
fn plain_form(table: &mut Table, outside: u32, e: Id) -> Answer
    requires { IsKnown table.old e }
{
    let mut search = Search::new(table, MOST_RESULTS);
    match normal_exp(table, &mut search, outside, e) {
        Ok(found) => Answer::Tree(found),
        Err(_) => Answer::Memory,
    }
}

/// The normal form of an expression under as many binders as a term says.
pub(crate) fn normalised(table: &mut Table, outside: Id, e: Id) -> Read<Answer>
    requires outside { IsKnown table.old outside }
    requires e { IsKnown table.old e }
{
    let outside = small(table, outside)?;
    Ok(form(table, outside, e))
}

/// That normal form as the search keeps it.
pub(crate) fn rewritten(table: &mut Table, outside: Id, e: Id) -> Read<Answer>
    requires outside { IsKnown table.old outside }
    requires e { IsKnown table.old e }
{
    let outside = small(table, outside)?;
    Ok(kept_form(table, outside, e))
}

/// That normal form alone, as the search keeps it.
pub(crate) fn plain(table: &mut Table, outside: Id, e: Id) -> Read<Answer>
    requires outside { IsKnown table.old outside }
    requires e { IsKnown table.old e }
{
    let outside = small(table, outside)?;
    Ok(plain_form(table, outside, e))
}

/// What is left of a sum without another.
pub(crate) fn rest(table: &mut Table, a: Id, b: Id) -> Answer
    requires a { IsKnown table.old a }
    requires b { IsKnown table.old b }
{
    found(rest_of(table, a, b))
}

/// The eighth of an expression.
pub(crate) fn eighth_part(table: &mut Table, e: Id) -> Answer
    requires { IsKnown table.old e }
{
    found(eighth(table, e))
}

/// Whether variable 0 stands in an expression.
pub(crate) fn occurrence(table: &Table, e: Id) -> Answer
    requires { IsKnown table.now e }
{
    let mut memo = Memo::new(table.allocator(), MOST_RESULTS);
    let mut kept = Occurrences::new(table.allocator());
    match occurs(table, &mut memo, &mut kept, e) {
        Ok(holds) => Answer::holds(holds),
        Err(_) => Answer::Memory,
    }
}
