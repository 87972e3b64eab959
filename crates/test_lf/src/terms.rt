//! Questions on terms: their measures, the types that constants have, shifts and substitutions.

ghost use Rattle.hereditary_subst.specs.Kept.{IsMemo};
ghost use Rattle.term_table.specs.Table.{IsKnown};

use crate::answers::{found, small, word};
use hereditary_subst::{
    Memo, erase, shift, subst, subst_type, subst_type_with, weaken, weaken_with,
};
use lf_signature::{WordSignature, declared, rule_at};
use term_table::{Id, Table};
use test_inputs::faults::{Read, RowFault};
use test_inputs::rows::Answer;
use test_inputs::term_text::known;

/// The signature of word arithmetic that a number names: 1, 2 or 3.
pub(crate) fn signature_of(number: u32) -> Read<WordSignature> {
    match number {
        1 => Ok(WordSignature::Sigma1),
        2 => Ok(WordSignature::Sigma2),
        3 => Ok(WordSignature::Sigma3),
        _ => Err(RowFault::Number),
    }
}

/// The type that a signature gives a constant.
pub(crate) fn declared_type(table: &mut Table, signature: &WordSignature, constant: Id) -> Answer
    requires { IsKnown table.old constant }
{
    let node = table.node(constant);
    found(declared(table, signature, node))
}

/// The type that the signature of a number gives a constant.
pub(crate) fn declared_in(table: &mut Table, number: Id, constant: Id) -> Read<Answer>
    requires number { IsKnown table.old number }
    requires constant { IsKnown table.old constant }
{
    let signature = signature_of(small(table, number)?)?;
    Ok(declared_type(table, &signature, constant))
}

/// How many parameters the rule of a number has.
pub(crate) fn parameter_count(table: &Table, number: Id) -> Read<Answer>
    requires { IsKnown table.now number }
{
    match rule_at(small(table, number)?) {
        None => Ok(Answer::Nothing),
        Some(rule) => Ok(Answer::Number(rule.parameters.len() as u64)),
    }
}

/// How many premises the rule of a number has.
pub(crate) fn premise_count(table: &Table, number: Id) -> Read<Answer>
    requires { IsKnown table.now number }
{
    match rule_at(small(table, number)?) {
        None => Ok(Answer::Nothing),
        Some(rule) => Ok(Answer::Number(rule.premises.len() as u64)),
    }
}

/// A tree whose variables from one on are raised.
pub(crate) fn shifted(table: &mut Table, by: Id, from: Id, tree: Id) -> Read<Answer>
    requires by { IsKnown table.old by }
    requires from { IsKnown table.old from }
    requires tree { IsKnown table.old tree }
{
    let by = small(table, by)?;
    let from = small(table, from)?;
    Ok(found(shift(table, tree, by, from)))
}

/// A tree whose variables are raised by up to 2^32.
pub(crate) fn weakened(table: &mut Table, by: Id, tree: Id) -> Read<Answer>
    requires by { IsKnown table.old by }
    requires tree { IsKnown table.old tree }
{
    let by = word(table, by)?;
    if by > 4_294_967_296 {
        return Err(RowFault::Number);
    }
    Ok(found(weaken(table, tree, by)))
}

/// A term for variable 0 in a term, at the simple type of a type.
pub(crate) fn substituted(table: &mut Table, ty: Id, body: Id, argument: Id) -> Read<Answer>
    requires ty { IsKnown table.old ty }
    requires body { IsKnown table.old body }
    requires argument { IsKnown table.old argument }
{
    let simple = erase(table.allocator(), table, ty)?;
    Ok(found(subst(table, body, argument, &simple)))
}

/// A term for variable 0 in a type, at the simple type of a type.
pub(crate) fn substituted_in_type(table: &mut Table, ty: Id, body: Id, argument: Id) -> Read<Answer>
    requires ty { IsKnown table.old ty }
    requires body { IsKnown table.old body }
    requires argument { IsKnown table.old argument }
{
    let simple = erase(table.allocator(), table, ty)?;
    Ok(found(subst_type(table, body, argument, &simple)))
}

/// A type under one binder more, keeping results as the memory says.
fn raised(table: &mut Table, memo: &mut Memo, body: Id) -> Answer
    requires body { IsKnown table.old body }
    requires memo { IsMemo table.old memo.old }
{
    match weaken_with(table, memo, body, 1) {
        Ok(found) => Answer::tree(found),
        Err(_) => Answer::Memory,
    }
}

/// A term for variable 0 in a type, and the type that comes out under one binder more, keeping up to
/// so many results.
pub(crate) fn substituted_and_raised(
    table: &mut Table,
    limit: Id,
    ty: Id,
    body: Id,
    argument: Id,
) -> Read<Answer>
    requires limit { IsKnown table.old limit }
    requires ty { IsKnown table.old ty }
    requires body { IsKnown table.old body }
    requires argument { IsKnown table.old argument }
{
    let limit = small(table, limit)?;
    let mut memo = Memo::new(table.allocator(), limit as usize);
    match subst_type_with(table, &mut memo, body, argument, ty) {
        Ok(Some(put)) => Ok(raised(table, &mut memo, put)),
        Ok(None) => Ok(Answer::Nothing),
        Err(_) => Ok(Answer::Memory),
    }
}

/// Whether two types have one simple type.
pub(crate) fn alike(table: &Table, first: Id, second: Id) -> Read<Answer>
    requires first { IsKnown table.now first }
    requires second { IsKnown table.now second }
{
    let first = erase(table.allocator(), table, first)?;
    let second = erase(table.allocator(), table, second)?;
    Ok(Answer::holds(first == second))
}

/// Whether two trees have one id.
pub(crate) fn same(table: &Table, first: Id, second: Id) -> Answer
    requires first { IsKnown table.now first }
    requires second { IsKnown table.now second }
{
    Answer::holds(table.same(first, second))
}
