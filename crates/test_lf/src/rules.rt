//! Questions on the functions of the rules.

ghost use Rattle.std.specs.Prelude.{[], ◌∷◌, OnOk};
ghost use Rattle.term_table.specs.Table.{Extends, IsKnown};
ghost use Rattle.lf_sequents.specs.Sequents.{AreSequents, IsSequent};
ghost use Rattle.lf_signature.specs.Constants.{declared};

use crate::answers::{constant_number, small};
use crate::functions::{KitAnswer, by_number};
use crate::judgements::context;
use crate::terms::signature_of;
use lf_check::{Kept, check_term};
use lf_sequents::{Sequent, by_rule};
use lf_signature::{Sigma1, WordSignature, pf};
use lf_terms::rule_term;
use proof_kit::{calc, cmp_le1, deny, fact};
use std::alloc::Global;
use term_table::{Id, Node, Table};
use test_inputs::cursors::Cursor;
use test_inputs::faults::{Read, RowFault};
use test_inputs::names::Names;
use test_inputs::rows::Answer;
use test_inputs::term_text::{all_known, known, read_tree, read_trees, small_number};

/// Tests that a sequent is one of the table over a signature.
fn tested(alloc: Global, table: &mut Table, sig: &WordSignature, s: &Sequent) -> Read<()>
    ensures extends { Extends table.old table.new }
    ensures sequent { OnOk result (IsSequent (declared sig.now) table.new s.now) }
{
    known(table, s.goal)?;
    let Ok(kind) = pf(table, s.goal) else {
        return Err(RowFault::Memory);
    };
    known(table, s.term)?;
    all_known(table, s.hyps.as_slice())?;
    match check_term(alloc, table, sig, s.hyps.as_slice(), s.term, kind) {
        Ok(true) => Ok(()),
        Ok(false) => Err(RowFault::Unknown),
        Err(_) => Err(RowFault::Memory),
    }
}

/// The sequent behind the next `/`; where there is none, truth without hypotheses.
fn premise(table: &mut Table, names: &Names, cursor: &mut Cursor<'_>) -> Read<Sequent> {
    if !cursor.passes(b"/") {
        return truth(table);
    }
    let hyps = context(table, names, cursor)?;
    let term = read_tree(table, names, cursor)?;
    if !cursor.passes(b":") {
        return Err(RowFault::Word);
    }
    let goal = read_tree(table, names, cursor)?;
    Ok(Sequent { hyps, goal, term })
}

/// Truth without hypotheses, by its rule.
fn truth(table: &mut Table) -> Read<Sequent> {
    let goal = table.intern(Node::Const(13))?;
    let term = table.intern(Node::Const(27))?;
    let hyps = Vec::new(table.allocator());
    Ok(Sequent { hyps, goal, term })
}

/// What a rule's function answers, if it has the room.
fn roomy(answer: KitAnswer) -> Read<Option<Sequent>> {
    match answer {
        Ok(found) => Ok(found),
        Err(_) => Err(RowFault::Memory),
    }
}

/// The goal of an answer, which is tested to be a sequent over a signature under these hypotheses.
fn goal_of(
    alloc: Global,
    table: &mut Table,
    sig: &WordSignature,
    hyps: &[Id],
    answer: Option<Sequent>,
) -> Read<Answer> {
    let Some(found) = answer else {
        return Ok(Answer::Nothing);
    };
    tested(alloc, table, sig, &found)?;
    if found.hyps.as_slice() == hyps {
        Ok(Answer::Tree(found.goal))
    } else {
        Err(RowFault::Unknown)
    }
}

/// The parameter of this place; past the last one the first, or else the other term.
fn parameter(parameters: &[Id], place: usize, other: Id) -> Id {
    match parameters.get(place) {
        Some(found) => *found,
        None => other,
    }
}

/// What the function of the rule of this number answers over a signature at parameters and at
/// premises that were tested.
fn ruled(
    alloc: Global,
    table: &mut Table,
    sig: &WordSignature,
    hyps: &[Id],
    rule: u32,
    params: (Id, Id, Id, Id),
    p: &Sequent,
    q: &Sequent,
    r: &Sequent,
) -> Read<Option<Sequent>>
    requires { AreSequents (declared sig.now) table.old (p.now ∷ q.now ∷ r.now ∷ []) }
{
    let (a, b, c, d) = params;
    all_known(table, hyps)?;
    known(table, a)?;
    known(table, b)?;
    known(table, c)?;
    known(table, d)?;
    let mut kept = Kept::new(alloc, 0); // a rule has no limit
    roomy(by_number(
        alloc, table, sig, &mut kept, hyps, rule, a, b, c, d, p, q, r,
    ))
}

/// What the function of the rule of this number answers over a signature at parameters and
/// premises.
fn answered(
    alloc: Global,
    table: &mut Table,
    sig: &WordSignature,
    hyps: &[Id],
    rule: u32,
    params: (Id, Id, Id, Id),
    p: &Sequent,
    q: &Sequent,
    r: &Sequent,
) -> Read<Option<Sequent>> {
    tested(alloc, table, sig, p)?;
    tested(alloc, table, sig, q)?;
    tested(alloc, table, sig, r)?;
    ruled(alloc, table, sig, hyps, rule, params, p, q, r)
}

/// The goal of what the rule's function answers at the premises behind the parameters.
fn at_premises(
    table: &mut Table,
    names: &Names,
    cursor: &mut Cursor<'_>,
    sig: &WordSignature,
    hyps: &[Id],
    rule: u32,
    params: (Id, Id, Id, Id),
) -> Read<Answer> {
    let alloc = table.allocator();
    let p = premise(table, names, cursor)?;
    let q = premise(table, names, cursor)?;
    let r = premise(table, names, cursor)?;
    let answer = answered(alloc, table, sig, hyps, rule, params, &p, &q, &r)?;
    goal_of(alloc, table, sig, hyps, answer)
}

/// The parameters that terms are, the first one for each that is missing.
fn parameters(table: &mut Table, terms: &[Id]) -> Read<(Id, Id, Id, Id)> {
    let other = table.intern(Node::Const(27))?;
    let a = parameter(terms, 0, other);
    let b = parameter(terms, 1, a);
    let c = parameter(terms, 2, a);
    let d = parameter(terms, 3, a);
    Ok((a, b, c, d))
}

/// The parameters before the next `/` or `=`.
fn read_parameters(
    table: &mut Table,
    names: &Names,
    cursor: &mut Cursor<'_>,
) -> Read<(Id, Id, Id, Id)> {
    let terms = read_trees(table, names, cursor)?;
    parameters(table, terms.as_slice())
}

/// The goal that a rule's function answers over a signature under hypotheses, at the parameters and
/// premises that the cursor stands before.
fn under(
    table: &mut Table,
    names: &Names,
    cursor: &mut Cursor<'_>,
    sig: &WordSignature,
    hyps: &[Id],
    rule: u32,
) -> Read<Answer> {
    let params = read_parameters(table, names, cursor)?;
    at_premises(table, names, cursor, sig, hyps, rule, params)
}

/// The number of the constant that the cursor stands before.
fn read_constant(table: &mut Table, names: &Names, cursor: &mut Cursor<'_>) -> Read<u32> {
    let constant = read_tree(table, names, cursor)?;
    constant_number(table, constant)
}

/// The goal that the function of the rule before which the cursor stands answers over a signature.
fn rule_goal(
    table: &mut Table,
    names: &Names,
    cursor: &mut Cursor<'_>,
    sig: &WordSignature,
) -> Read<Answer> {
    let rule = read_constant(table, names, cursor)?;
    let hyps = context(table, names, cursor)?;
    under(table, names, cursor, sig, hyps.as_slice(), rule)
}

/// That goal over the first signature.
pub(crate) fn goal_in_first(
    table: &mut Table,
    names: &Names,
    cursor: &mut Cursor<'_>,
) -> Read<Answer> {
    rule_goal(table, names, cursor, &Sigma1)
}

/// That goal over the signature of the number that stands before the rule.
pub(crate) fn goal_in(table: &mut Table, names: &Names, cursor: &mut Cursor<'_>) -> Read<Answer> {
    let signature = signature_of(small_number(cursor)?)?;
    rule_goal(table, names, cursor, &signature)
}

/// The sequent of a constant that proves something of two words.
fn constant_sequent(alloc: Global, table: &mut Table, node: Node) -> Read<Option<Sequent>> {
    match node {
        Node::Calc(op, a, b) => roomy(calc(alloc, table, &Sigma1, &[], op, a, b)),
        Node::Fact(rel, a, b) => roomy(fact(alloc, table, &Sigma1, &[], rel, a, b)),
        Node::Deny(rel, a, b) => roomy(deny(alloc, table, &Sigma1, &[], rel, a, b)),
        _ => Err(RowFault::Word),
    }
}

/// The goal that is answered for a constant that proves something of two words.
pub(crate) fn constant_goal(table: &mut Table, constant: Id) -> Read<Answer>
    requires { IsKnown table.old constant }
{
    let alloc = table.allocator();
    let node = table.node(constant);
    let answer = constant_sequent(alloc, table, node)?;
    goal_of(alloc, table, &Sigma1, &[], answer)
}

/// What the rule of a number answers over a signature at parameters, without hypotheses and premises.
fn bare_sequent(
    alloc: Global,
    table: &mut Table,
    sig: &WordSignature,
    number: u32,
    params: &[Id],
) -> Read<Option<Sequent>> {
    all_known(table, params)?;
    let mut kept = Kept::new(alloc, 0); // a rule has no limit
    roomy(by_rule(alloc, table, sig, &mut kept, &[], number, params, &[]))
}

/// What the rule of a number concludes over the signature of a number before it, at the parameters
/// behind it.
pub(crate) fn bare_goal(table: &mut Table, signature: Id, number: Id, params: &[Id]) -> Read<Answer>
    requires signature { IsKnown table.old signature }
    requires number { IsKnown table.old number }
{
    let signature = signature_of(small(table, signature)?)?;
    let number = small(table, number)?;
    match bare_sequent(table.allocator(), table, &signature, number, params)? {
        Some(found) => Ok(Answer::Tree(found.goal)),
        None => Ok(Answer::Nothing),
    }
}

/// What the last family of rules answers at a pair of this number and two terms.
fn pair_sequent(alloc: Global, table: &mut Table, pair: u32, a: Id, b: Id) -> Read<Option<Sequent>>
    requires a { IsKnown table.old a }
    requires b { IsKnown table.old b }
{
    let mut kept = Kept::new(alloc, 0); // a rule has no limit
    roomy(cmp_le1(alloc, table, &Sigma1, &mut kept, &[], pair, a, b))
}

/// The goal of the last family of rules at a pair of this number and two terms.
pub(crate) fn pair_goal(table: &mut Table, pair: Id, a: Id, b: Id) -> Read<Answer>
    requires pair { IsKnown table.old pair }
    requires a { IsKnown table.old a }
    requires b { IsKnown table.old b }
{
    let alloc = table.allocator();
    let pair = small(table, pair)?;
    let answer = pair_sequent(alloc, table, pair, a, b)?;
    goal_of(alloc, table, &Sigma1, &[], answer)
}

/// The term of a rule's constant at terms.
pub(crate) fn applied(table: &mut Table, number: Id, terms: &[Id]) -> Read<Answer>
    requires { IsKnown table.old number }
{
    let number = small(table, number)?;
    all_known(table, terms)?;
    Ok(Answer::Tree(rule_term(table, number, terms)?))
}
