//! Chooses the rule by which an operator with two operands is rewritten.

ghost use Rattle.std.specs.Prelude.{◌≡◌};
ghost use Rattle.term_table.specs.Table.{IsKnown, tree_at};
ghost use Rattle.formula_tree.specs.Formulas.{Exp};
ghost use Rattle.lf_terms.specs.Encoding.{exp_encoding};
ghost use Rattle.prover_class.specs.NormalForms.{summand_key};
ghost use Rattle.prover_forms.specs.Rules.{IsRule, IsKnownRule};
ghost use Rattle.prover_forms.specs.Inside.Summands.{
  IsSummand,
  IsKnownSummand,
  applied_summand,
  rule_by_op,
  rule_at_word,
  rule_before,
};

use lf_signature::numbers::{ADD_ZERO, BIS_ZERO, BIS_ZERO_L, S4_DEF, S8_DEF};
use prover_ids::{ExpNode, exp_node};
use term_table::{Id, Node, Table};
use word_ops::Op;

/// An operand, as far as the choice of a rule needs it.
#[derive(Clone, Copy)]
enum Summand {
    /// A word.
    Word(u64),
    /// A sum, by the ids of its parts.
    Sum(Id, Id),
    /// Neither.
    Other,
}

/// The rule by which an operator with two operands is rewritten.
#[derive(Clone, Copy)]
pub enum Rule {
    /// No rule.
    Nothing,
    /// The operands are these words: rewrite to what the operator gives at them.
    Value(u64, u64),
    /// Rewrite the difference to the sum with the negated second operand.
    Negated,
    /// Rewrite to the first operand, by the inference rule with this number.
    First(u32),
    /// Rewrite to the second operand.
    Second(u32),
    /// The first operand is a sum of these: add the second operand to their second.
    Regrouped(Id, Id),
    /// The second operand is a sum of these: rewrite to the sum that begins with their first.
    Turned(Id, Id),
    /// Exchange the operands.
    Swapped,
    /// Rewrite to the sum of the first operand, shifted to the left by this many bits, and the
    /// second; by the inference rule with this number.
    Scaled(u32, u64),
    /// Rewrite cleared bits to the bitwise and with the complement.
    Complemented,
    /// The operands of an exclusive or are equal: rewrite to 0.
    Cancelled,
}

/// The order of summands under `outside` binders, the binder of the remaining steps among them.
fn summand_key(table: &Table, outside: u32, e: Id) -> u32
    requires { IsKnown table.now e }
    ensures { (x : Exp) → tree_at table.now e ≡ exp_encoding x →
        result ≡ summand_key outside x }
{
    match table.node(e) {
        Node::Var(n) => {
            let inward = outside.saturating_sub(n);
            if 3 <= inward && inward <= 33 {
                inward - 3
            } else {
                31
            }
        }
        Node::Calc(register, _, _) => register,
        Node::Lit(_) => 32,
        _ => 31,
    }
}

/// The operator at two operands, as an operand.
fn applied_summand(op: Op, a: Id, b: Id) -> Summand
    ensures { result ≡ applied_summand op a b }
{
    match op {
        Op::Add => Summand::Sum(a, b),
        _ => Summand::Other,
    }
}

/// The kind of an operand.
fn operand(table: &Table, e: Id) -> Summand
    requires { IsKnown table.now e }
    ensures known { IsKnownSummand table.now result }
    ensures is { (x : Exp) → tree_at table.now e ≡ exp_encoding x →
        IsSummand table.now x result }
{
    match exp_node(table, e) {
        ExpNode::Word(w) => Summand::Word(w),
        ExpNode::Apply(op, a, b) => applied_summand(op, a, b),
        ExpNode::Var(_) => Summand::Other,
        ExpNode::Sel(_, _) => Summand::Other,
        ExpNode::Unbound => Summand::Other,
    }
}

/// The rule of an operator that others define, and of an exclusive or; `same` says that the
/// operands are one.
fn rule_by_op(op: Op, same: bool) -> Rule
    ensures { result ≡ rule_by_op op same }
{
    match op {
        Op::S4add => Rule::Scaled(S4_DEF, 2),
        Op::S8add => Rule::Scaled(S8_DEF, 3),
        Op::Bic => Rule::Complemented,
        Op::Xor if same => Rule::Cancelled,
        _ => Rule::Nothing,
    }
}

/// The rule of an operator whose second operand is the word; `same` says that the operands are one.
fn rule_at_word(op: Op, first: Summand, w: u64, comes: bool, same: bool) -> Rule
    ensures { result ≡ rule_at_word op first w comes same }
{
    match first {
        Summand::Word(v) => Rule::Value(v, w),
        Summand::Sum(p, q) => match op {
            Op::Sub => Rule::Negated,
            Op::Add if w == 0 => Rule::First(ADD_ZERO),
            Op::Add => Rule::Regrouped(p, q),
            Op::Bis if w == 0 => Rule::First(BIS_ZERO),
            _ => rule_by_op(op, same),
        },
        Summand::Other => match op {
            Op::Sub => Rule::Negated,
            Op::Add if w == 0 => Rule::First(ADD_ZERO),
            Op::Add if comes => Rule::Swapped,
            Op::Bis if w == 0 => Rule::First(BIS_ZERO),
            _ => rule_by_op(op, same),
        },
    }
}

/// The rule of an operator whose second operand is no word. `turn` has the parts of the second, if
/// it is a sum whose first part comes before the first operand; `same` says that the operands are
/// one.
fn rule_before(op: Op, first: Summand, turn: Option<(Id, Id)>, comes: bool, same: bool) -> Rule
    ensures { result ≡ rule_before op first turn comes same }
{
    match op {
        Op::Add => match first {
            Summand::Sum(p, q) => Rule::Regrouped(p, q),
            _ => match turn {
                Some((p, q)) => Rule::Turned(p, q),
                None if comes => Rule::Swapped,
                None => Rule::Nothing,
            },
        },
        Op::Bis => match first {
            Summand::Word(0) => Rule::Second(BIS_ZERO_L),
            _ => Rule::Nothing,
        },
        _ => rule_by_op(op, same),
    }
}

/// Returns the rule by which the operator `op` at the operands `a` and `b` is rewritten under
/// `outside` binders, the binder of the remaining steps among them.
pub fn rule_at(table: &Table, outside: u32, op: Op, a: Id, b: Id) -> Rule
    requires a { IsKnown table.now a }
    requires b { IsKnown table.now b }
    ensures known { IsKnownRule table.now result }
    ensures is { (x y : Exp) → tree_at table.now a ≡ exp_encoding x
        → tree_at table.now b ≡ exp_encoding y → IsRule table.now outside op x y result }
{
    let key = summand_key(table, outside, a);
    let comes = summand_key(table, outside, b) < key;
    let same = table.same(a, b);
    let first = operand(table, a);
    match operand(table, b) {
        Summand::Word(w) => rule_at_word(op, first, w, comes, same),
        Summand::Sum(p, q) => {
            if summand_key(table, outside, p) < key {
                rule_before(op, first, Some((p, q)), comes, same)
            } else {
                rule_before(op, first, None, comes, same)
            }
        }
        Summand::Other => rule_before(op, first, None, comes, same),
    }
}
