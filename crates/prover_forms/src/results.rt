//! Builds the results of the rewriting rules in a table.
//!
//! Errors: out of memory alone; each id keeps its tree.

ghost use Rattle.std.specs.Prelude.{◌≡◌, IfOk};
ghost use Rattle.term_table.specs.Table.{IsKnown, tree_at, Extends};
ghost use Rattle.word_ops.specs.Words.{word_of};
ghost use Rattle.lf_signature.specs.Nodes.{IsIdOf};
ghost use Rattle.formula_tree.specs.Formulas.{Exp, ELit};
ghost use Rattle.lf_terms.specs.Encoding.{exp_encoding};
ghost use Rattle.prover_forms.specs.Rules.{negated_sum, regrouped_sum, swapped_sum, scaled_sum, cleared_bits};

use prover_ids::oper;
use std::alloc::AllocError;
use term_table::{Id, Node, Table};
use word_ops::{Op, apply};

/// Builds the word that the operator gives at two words.
pub fn value_of(table: &mut Table, op: Op, v: u64, w: u64) -> Result<Id, AllocError>
    ensures exact { IfOk result (IsIdOf table.new (exp_encoding (ELit (word_of op v w)))) }
    ensures extends { Extends table.old table.new }
{
    table.intern(Node::Lit(apply(op, v, w)))
}

/// Builds the word 0.
pub fn zero_word(table: &mut Table) -> Result<Id, AllocError>
    ensures exact { IfOk result (IsIdOf table.new (exp_encoding (ELit 0))) }
    ensures extends { Extends table.old table.new }
{
    table.intern(Node::Lit(0))
}

/// Builds the difference of `a` and `b` as the sum of `a` and the negated `b`.
pub fn negated_sum(table: &mut Table, a: Id, b: Id) -> Result<Id, AllocError>
    requires a { IsKnown table.old a }
    requires b { IsKnown table.old b }
    ensures known { IfOk result (IsKnown table.new) }
    ensures exact { (x y : Exp) → tree_at table.old a ≡ exp_encoding x
        → tree_at table.old b ≡ exp_encoding y
        → IfOk result (IsIdOf table.new (exp_encoding (negated_sum x y))) }
    ensures extends { Extends table.old table.new }
{
    let zero = table.intern(Node::Lit(0))?;
    let negative = oper(table, Op::Sub, zero, b)?;
    oper(table, Op::Add, a, negative)
}

/// Builds the sum of `a` with the sum of `b` and `c`.
pub fn regrouped_sum(table: &mut Table, a: Id, b: Id, c: Id) -> Result<Id, AllocError>
    requires a { IsKnown table.old a }
    requires b { IsKnown table.old b }
    requires c { IsKnown table.old c }
    ensures known { IfOk result (IsKnown table.new) }
    ensures exact { (x y z : Exp) → tree_at table.old a ≡ exp_encoding x
        → tree_at table.old b ≡ exp_encoding y → tree_at table.old c ≡ exp_encoding z
        → IfOk result (IsIdOf table.new (exp_encoding (regrouped_sum x y z))) }
    ensures extends { Extends table.old table.new }
{
    let inner = oper(table, Op::Add, b, c)?;
    oper(table, Op::Add, a, inner)
}

/// Builds the sum of `a` and `b` with its operands exchanged.
pub fn swapped_sum(table: &mut Table, a: Id, b: Id) -> Result<Id, AllocError>
    requires a { IsKnown table.old a }
    requires b { IsKnown table.old b }
    ensures known { IfOk result (IsKnown table.new) }
    ensures exact { (x y : Exp) → tree_at table.old a ≡ exp_encoding x
        → tree_at table.old b ≡ exp_encoding y
        → IfOk result (IsIdOf table.new (exp_encoding (swapped_sum x y))) }
    ensures extends { Extends table.old table.new }
{
    oper(table, Op::Add, b, a)
}

/// Builds the sum of `a`, shifted to the left by `count` bits, and `b`.
pub fn scaled_sum(table: &mut Table, a: Id, b: Id, count: u64) -> Result<Id, AllocError>
    requires a { IsKnown table.old a }
    requires b { IsKnown table.old b }
    ensures known { IfOk result (IsKnown table.new) }
    ensures exact { (x y : Exp) → tree_at table.old a ≡ exp_encoding x
        → tree_at table.old b ≡ exp_encoding y
        → IfOk result (IsIdOf table.new (exp_encoding (scaled_sum count x y))) }
    ensures extends { Extends table.old table.new }
{
    let by = table.intern(Node::Lit(count))?;
    let shifted = oper(table, Op::Sll, a, by)?;
    oper(table, Op::Add, shifted, b)
}

/// Builds `a` with the bits of `b` cleared, as a bitwise and with the complement of `b`.
pub fn cleared_bits(table: &mut Table, a: Id, b: Id) -> Result<Id, AllocError>
    requires a { IsKnown table.old a }
    requires b { IsKnown table.old b }
    ensures known { IfOk result (IsKnown table.new) }
    ensures exact { (x y : Exp) → tree_at table.old a ≡ exp_encoding x
        → tree_at table.old b ≡ exp_encoding y
        → IfOk result (IsIdOf table.new (exp_encoding (cleared_bits x y))) }
    ensures extends { Extends table.old table.new }
{
    let ones = table.intern(Node::Lit(u64::MAX))?;
    let complement = oper(table, Op::Xor, b, ones)?;
    oper(table, Op::Band, a, complement)
}
