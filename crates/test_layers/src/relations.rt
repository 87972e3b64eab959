//! Proofs of the relations of words in the condition of a loop that counts down: equations of sums,
//! and lower bounds. What the loop's head says is at the place `INVARIANT` among the hypotheses, and
//! the branch's condition behind it.

use crate::answers::Made;
use crate::nodes::{Pair, function, opened, pair_of, raised, term_of, word_of};
use crate::rules::{Rule, Step, Under};
use lf_sequents::Sequent;
use lf_signature::numbers::{EQ, ULE, ULT};
use term_table::{Id, Table};
use word_ops::{Op, Rel, op_of_constant};

/// The place of the invariant among the hypotheses, behind those of the steps that are left, the
/// memory and the registers.
const INVARIANT: usize = 33;

/// The most levels of a term.
const LEVELS: u32 = 64;

// ---- equations

/// The side of a relation.
#[derive(Clone, Copy)]
enum Side {
    Left,
    Right,
}

/// The function that has the relation at `part`, for that part on one side.
fn around(table: &mut Table, side: Side, relation: Id, part: Id) -> Made<Id> {
    let Pair { constant, a, b } = pair_of(table, relation)?;
    let body = match side {
        Side::Left => {
            let a = opened(table, a, part, LEVELS)?;
            let b = raised(table, b, 1)?;
            Pair { constant, a, b }
        }
        Side::Right => {
            let a = raised(table, a, 1)?;
            let b = opened(table, b, part, LEVELS)?;
            Pair { constant, a, b }
        }
    };
    let body = term_of(table, body)?;
    function(table, body)
}

/// The relation with the equation's right side for its left side, on one side.
fn rewritten(
    table: &mut Table,
    under: Under<'_>,
    side: Side,
    equation: &Sequent,
    s: &Sequent,
) -> Made<Sequent> {
    let Pair { a, b, .. } = pair_of(table, equation.goal)?;
    let around = around(table, side, s.goal, a)?;
    let step = Step {
        rule: Rule::EqSub,
        a: around,
        b: a,
        c: b,
    };
    under.from_both(table, step, equation, s)
}

/// The equation with its sides exchanged.
fn turned(table: &mut Table, under: Under<'_>, equation: &Sequent) -> Made<Sequent> {
    let Pair { a, .. } = pair_of(table, equation.goal)?;
    let same = under.by(table, Step::at(Rule::EqRefl, a))?;
    rewritten(table, under, Side::Left, equation, &same)
}

// ---- what the loop's head says

/// What the first conjunct of the invariant says, if it is an equation.
fn head_equation(table: &mut Table, under: Under<'_>) -> Made<Sequent> {
    let head = under.hypothesis(table, INVARIANT)?;
    let Pair { a, b, .. } = pair_of(table, head.goal)?;
    let s = under.from(table, Step::at_both(Rule::AndL, a, b), &head)?;
    match pair_of(table, s.goal)?.constant {
        EQ => Ok(s),
        _ => Err("no equation"),
    }
}

/// What the second conjunct of the invariant says.
fn head_bound(table: &mut Table, under: Under<'_>) -> Made<Sequent> {
    let head = under.hypothesis(table, INVARIANT)?;
    let Pair { a, b, .. } = pair_of(table, head.goal)?;
    under.from(table, Step::at_both(Rule::AndR, a, b), &head)
}

/// What the branch's condition says of the counter, if the comparison gave 0.
fn tested_bound(table: &mut Table, under: Under<'_>) -> Made<Sequent> {
    let tested = under.hypothesis(table, INVARIANT + 1)?;
    let equation = pair_of(table, tested.goal)?;
    if equation.constant != EQ {
        return Err("no comparison");
    }
    let Pair { a, b, .. } = pair_of(table, equation.a)?;
    let not_below = under.from(table, Step::at_both(Rule::UltNo, a, b), &tested)?;
    under.from(table, Step::at_both(Rule::NotLt, a, b), &not_below)
}

// ---- sums

/// That a term equals itself, or if it is an operator at two words what it gives.
fn valued(table: &mut Table, under: Under<'_>, term: Id) -> Made<Sequent> {
    let Ok(parts) = pair_of(table, term) else {
        return under.by(table, Step::at(Rule::EqRefl, term));
    };
    let Some(op) = op_of_constant(parts.constant) else {
        return Err("no operator");
    };
    let a = word_of(table, parts.a)?;
    let b = word_of(table, parts.b)?;
    under.computed(table, op, a, b)
}

/// The equation of a term and a sum, with the words of that sum added up.
fn gathered(table: &mut Table, under: Under<'_>, s: Sequent) -> Made<Sequent> {
    let Pair { b: sum, .. } = pair_of(table, s.goal)?;
    let outer = pair_of(table, sum)?;
    let Ok(inner) = pair_of(table, outer.a) else {
        return Ok(s);
    };
    let step = Step {
        rule: Rule::AddAssoc,
        a: inner.a,
        b: inner.b,
        c: outer.b,
    };
    let moved = under.by(table, step)?;
    let s = rewritten(table, under, Side::Right, &moved, &s)?;
    let first = word_of(table, inner.b)?;
    let second = word_of(table, outer.b)?;
    let value = under.computed(table, Op::Add, first, second)?;
    rewritten(table, under, Side::Right, &value, &s)
}

/// `(eq (sub A W) S)`, S being what A is as a sum, less W.
fn difference(table: &mut Table, under: Under<'_>, a: Id, b: Id, s: &Sequent) -> Made<Sequent> {
    let word = word_of(table, b)?;
    let negated = under.by(table, Step::at_both(Rule::SubNeg, a, b))?;
    let value = under.computed(table, Op::Sub, 0, word)?;
    let negated = rewritten(table, under, Side::Right, &value, &negated)?;
    let summed = rewritten(table, under, Side::Right, s, &negated)?;
    gathered(table, under, summed)
}

/// `(eq E S)`, S being the term E as a word, or as a sum of what it begins with and a word.
fn as_sum(table: &mut Table, under: Under<'_>, term: Id, fuel: u32) -> Made<Sequent> {
    if fuel == 0 {
        return Err("a deep term");
    }
    let Ok(parts) = pair_of(table, term) else {
        return valued(table, under, term);
    };
    if word_of(table, parts.a).is_ok() {
        return valued(table, under, term);
    }
    let s = as_sum(table, under, parts.a, fuel - 1)?;
    difference(table, under, parts.a, parts.b, &s)
}

/// The relation by what the loop's head says its right side is, if that says so.
fn by_head(table: &mut Table, under: Under<'_>, s: Sequent) -> Made<Sequent> {
    match head_equation(table, under) {
        Ok(equation) => rewritten(table, under, Side::Right, &equation, &s),
        Err(_) => Ok(s),
    }
}

/// `(eq A B)`, if both are one sum by what the loop's head says.
fn equal(table: &mut Table, under: Under<'_>, a: Id, b: Id) -> Made<Sequent> {
    let left = as_sum(table, under, a, LEVELS)?;
    let left = by_head(table, under, left)?;
    let right = as_sum(table, under, b, LEVELS)?;
    let right = turned(table, under, &right)?;
    rewritten(table, under, Side::Right, &right, &left)
}

// ---- lower bounds

/// `(ule W X)` of a variable, W being a word.
fn least_of_variable(table: &mut Table, under: Under<'_>, variable: Id) -> Made<Sequent> {
    let s = match tested_bound(table, under) {
        Ok(s) => s,
        Err(_) => head_bound(table, under)?,
    };
    let Pair { b: counter, .. } = pair_of(table, s.goal)?;
    if counter.index() == variable.index() {
        return Ok(s);
    }
    let equation = head_equation(table, under)?;
    let equation = turned(table, under, &equation)?;
    rewritten(table, under, Side::Right, &equation, &s)
}

/// `(ule W E)`, W being the word that E is.
fn least_of_word(table: &mut Table, under: Under<'_>, term: Id) -> Made<Sequent> {
    let value = valued(table, under, term)?;
    let Pair { b, .. } = pair_of(table, value.goal)?;
    let word = word_of(table, b)?;
    let s = under.held(table, Rel::Ule, word, word)?;
    let value = turned(table, under, &value)?;
    rewritten(table, under, Side::Right, &value, &s)
}

/// `(ule (sub V W) (sub A W))` by `(ule V A)`, with what `(sub V W)` is.
fn lowered(table: &mut Table, under: Under<'_>, a: Id, b: Id, s: &Sequent) -> Made<Sequent> {
    let Pair { a: least, .. } = pair_of(table, s.goal)?;
    let from = word_of(table, least)?;
    let word = word_of(table, b)?;
    let below = under.held(table, Rel::Ule, word, from)?;
    let step = Step {
        rule: Rule::SubLo,
        a,
        b: least,
        c: b,
    };
    let s = under.from_both(table, step, s, &below)?;
    let value = under.computed(table, Op::Sub, from, word)?;
    rewritten(table, under, Side::Left, &value, &s)
}

/// `(ule W E)`, W being a word.
fn least(table: &mut Table, under: Under<'_>, term: Id, fuel: u32) -> Made<Sequent> {
    if fuel == 0 {
        return Err("a deep term");
    }
    if word_of(table, term).is_ok() {
        return least_of_word(table, under, term);
    }
    let Ok(parts) = pair_of(table, term) else {
        return least_of_variable(table, under, term);
    };
    if word_of(table, parts.a).is_ok() {
        return least_of_word(table, under, term);
    }
    let s = least(table, under, parts.a, fuel - 1)?;
    lowered(table, under, parts.a, parts.b, &s)
}

/// The relation of a word and a term, of which a rule makes it from that of two words.
fn above(
    table: &mut Table,
    under: Under<'_>,
    rule: Rule,
    relation: Rel,
    goal: Pair,
) -> Made<Sequent> {
    let s = least(table, under, goal.b, LEVELS)?;
    let Pair { a: least, .. } = pair_of(table, s.goal)?;
    let word = word_of(table, goal.a)?;
    let from = word_of(table, least)?;
    let below = under.held(table, relation, word, from)?;
    let step = Step {
        rule,
        a: goal.a,
        b: least,
        c: goal.b,
    };
    under.from_both(table, step, &below, &s)
}

/// Proves the relation: an equation of sums, or that a word is below a term or at most that.
pub fn proved(table: &mut Table, under: Under<'_>, relation: Id) -> Made<Sequent> {
    let goal = pair_of(table, relation)?;
    match goal.constant {
        EQ => equal(table, under, goal.a, goal.b),
        ULE => above(table, under, Rule::UleTrans, Rel::Ule, goal),
        ULT => above(table, under, Rule::LtLe, Rel::Ult, goal),
        _ => Err("another relation"),
    }
}
