//! Substitution of an expression for one variable of a formula, on ids.

ghost use Rattle.std.specs.Prelude.{◌≡◌, ◌<◌, ◌+◌, ◌^◌, ◌≤◌, IfOk, OnOk};
ghost use Rattle.term_table.specs.Table.{IsKnown, tree_at, Extends};
ghost use Rattle.hereditary_subst.specs.Kept.{IsMemo};
ghost use Rattle.hereditary_subst.specs.Limits.{SpendsResults};
ghost use Rattle.prover_ids.specs.Puts.{IsExpPut, IsFormPut};
ghost use Rattle.prover_ids.specs.PutRows.{ArePuts, IsJoinPut, IsUnderPut};

use crate::forms::{FormNode, form_node};
use crate::hypotheses::raised;
use crate::kept::number;
use crate::puts::{Put, Puts, put_exp};
use crate::steps::right;
use hereditary_subst::{Exhausted, Memo};
use lf_signature::numbers::{ALL, ALLM, AND, IMP, OR, rel_constant};
use lf_signature::{app1, app2};
use term_table::{Id, Node, Table};

/// The formula with `arg` for the variable `x`.
#[cycle(formulas)]
#[tactic(auto, using(crate::proofs::PutRows::rows))]
pub(crate) fn put_form(
    table: &mut Table,
    memo: &mut Memo,
    kept: &mut Puts,
    id: Id,
    x: u64,
    arg: Id,
) -> Result<Id, Exhausted>
    requires id { IsKnown table.old id }
    requires arg { IsKnown table.old arg }
    requires room { x + id < 2 ^ 64 }
    requires memo { IsMemo table.old memo.old }
    requires kept { ArePuts table.old kept.old }
    ensures put { IfOk result (IsFormPut table.old table.new id x arg) }
    ensures extends { Extends table.old table.new }
    ensures memo { IsMemo table.new memo.new }
    ensures spends { SpendsResults table.new memo.old memo.new result }
    ensures kept { ArePuts table.new kept.new }
{
    let question = Put::Form(number(id), x, number(arg));
    if let Some(put) = kept.get(table, &[], &question) {
        return Ok(put);
    }
    let put = put_form_parts(table, memo, kept, id, x, arg)?;
    kept.keep(memo, table, &[], question, put)?;
    Ok(put)
}

/// The formula with `arg` for the variable `x`, by the formula's parts.
#[cycle(formulas)]
#[tactic(auto, using(crate::proofs::PutRows::rows))]
fn put_form_parts(
    table: &mut Table,
    memo: &mut Memo,
    kept: &mut Puts,
    id: Id,
    x: u64,
    arg: Id,
) -> Result<Id, Exhausted>
    requires id { IsKnown table.old id }
    requires arg { IsKnown table.old arg }
    requires room { x + id < 2 ^ 64 }
    requires memo { IsMemo table.old memo.old }
    requires kept { ArePuts table.old kept.old }
    ensures put { IfOk result (IsFormPut table.old table.new id x arg) }
    ensures extends { Extends table.old table.new }
    ensures memo { IsMemo table.new memo.new }
    ensures spends { SpendsResults table.new memo.old memo.new result }
    ensures kept { ArePuts table.new kept.new }
{
    match form_node(table, id) {
        FormNode::Relation(rel, a, b) => {
            let left = put_exp(table, memo, kept, a, x, arg)?;
            let right = put_exp(table, memo, kept, b, x, arg)?;
            Ok(app2(table, rel_constant(rel), left, right)?)
        }
        FormNode::Right(access, a) => {
            let address = put_exp(table, memo, kept, a, x, arg)?;
            Ok(right(table, access, address)?)
        }
        FormNode::And(a, b) => put_joined(table, memo, kept, AND, a, b, x, arg),
        FormNode::Or(a, b) => put_joined(table, memo, kept, OR, a, b, x, arg),
        FormNode::Imp(a, b) => put_joined(table, memo, kept, IMP, a, b, x, arg),
        FormNode::All(b) => put_under(table, memo, kept, ALL, b, x, arg),
        FormNode::AllMem(b) => put_under(table, memo, kept, ALLM, b, x, arg),
        _ => Ok(id),
    }
}

/// The connective of both formulas with `arg` for the variable `x`.
#[cycle(formulas)]
#[tactic(auto, using(crate::proofs::PutRows::rows))]
fn put_joined(
    table: &mut Table,
    memo: &mut Memo,
    kept: &mut Puts,
    connective: u32,
    a: Id,
    b: Id,
    x: u64,
    arg: Id,
) -> Result<Id, Exhausted>
    requires a { IsKnown table.old a }
    requires b { IsKnown table.old b }
    requires arg { IsKnown table.old arg }
    requires room_left { x + a < 2 ^ 64 }
    requires room_right { x + b < 2 ^ 64 }
    requires memo { IsMemo table.old memo.old }
    requires kept { ArePuts table.old kept.old }
    ensures put { IfOk result (IsJoinPut table.old table.new connective a b x arg) }
    ensures extends { Extends table.old table.new }
    ensures memo { IsMemo table.new memo.new }
    ensures spends { SpendsResults table.new memo.old memo.new result }
    ensures kept { ArePuts table.new kept.new }
{
    let left = put_form(table, memo, kept, a, x, arg)?;
    let right = put_form(table, memo, kept, b, x, arg)?;
    Ok(app2(table, connective, left, right)?)
}

/// The quantifier over the formula with `arg` for the variable `x`, which is one further out there.
#[cycle(formulas)]
#[tactic(auto, using(crate::proofs::PutRows::rows))]
fn put_under(
    table: &mut Table,
    memo: &mut Memo,
    kept: &mut Puts,
    quantifier: u32,
    body: Id,
    x: u64,
    arg: Id,
) -> Result<Id, Exhausted>
    requires body { IsKnown table.old body }
    requires arg { IsKnown table.old arg }
    requires room { x + 1 + body < 2 ^ 64 }
    requires memo { IsMemo table.old memo.old }
    requires kept { ArePuts table.old kept.old }
    ensures put { IfOk result (IsUnderPut table.old table.new quantifier body x arg) }
    ensures extends { Extends table.old table.new }
    ensures memo { IsMemo table.new memo.new }
    ensures spends { SpendsResults table.new memo.old memo.new result }
    ensures kept { ArePuts table.new kept.new }
{
    let under = raised(table, memo, arg)?;
    let put = put_form(table, memo, kept, body, x + 1, under)?;
    let function = table.intern(Node::Lam(put))?;
    Ok(app1(table, quantifier, function)?)
}

/// Substitutes the expression `arg` for variable 0 in the formula `form`, without capture, and
/// lowers the other variables by one. `kept` has the cached results of earlier calls on the table.
///
/// Errors: out of memory, or the limit of `memo` is reached; each id keeps its tree.
pub fn put_word(
    table: &mut Table,
    memo: &mut Memo,
    kept: &mut Puts,
    form: Id,
    arg: Id,
) -> Result<Id, Exhausted>
    requires form { IsKnown table.old form }
    requires arg { IsKnown table.old arg }
    requires memo { IsMemo table.old memo.old }
    requires kept { ArePuts table.old kept.old }
    ensures put { IfOk result (IsFormPut table.old table.new form 0 arg) }
    ensures extends { Extends table.old table.new }
    ensures memo { IsMemo table.new memo.new }
    ensures spends { SpendsResults table.new memo.old memo.new result }
    ensures kept { ArePuts table.new kept.new }
{
    table.laws();
    put_form(table, memo, kept, form, 0, arg)
}

/// Substitutes the expression `arg` for variable 0 in the expression `exp`, and lowers the other
/// variables by one. `kept` has the cached results of earlier calls on the table.
///
/// Errors: out of memory, or the limit of `memo` is reached; each id keeps its tree.
pub fn put_word_exp(
    table: &mut Table,
    memo: &mut Memo,
    kept: &mut Puts,
    exp: Id,
    arg: Id,
) -> Result<Id, Exhausted>
    requires exp { IsKnown table.old exp }
    requires arg { IsKnown table.old arg }
    requires memo { IsMemo table.old memo.old }
    requires kept { ArePuts table.old kept.old }
    ensures put { IfOk result (IsExpPut table.old table.new exp 0 arg) }
    ensures extends { Extends table.old table.new }
    ensures memo { IsMemo table.new memo.new }
    ensures spends { SpendsResults table.new memo.old memo.new result }
    ensures kept { ArePuts table.new kept.new }
{
    put_exp(table, memo, kept, exp, 0, arg)
}
