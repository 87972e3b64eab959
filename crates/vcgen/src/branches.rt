//! The conditions under which a conditional branch is taken and isn't taken.

ghost use Rattle.std.specs.Prelude.{IfOk};
ghost use Rattle.term_table.specs.Table.{IsKnown, tree_at, Extends};
ghost use Rattle.lf_signature.specs.Nodes.{IsIdOf};
ghost use Rattle.lf_signature.specs.Terms.{lit, rel_term, not_term};
ghost use Rattle.vcgen.specs.WalkTree.{tested_part, tested_term, taken_term, passed_term};

use alpha_words::{Cond, Tested, cond_relation, cond_taken, cond_tested};
use lf_signature::numbers::{FF, IMP};
use lf_signature::{app2, rel_constant};
use std::alloc::AllocError;
use term_table::{Id, Node, Table};
use word_ops::{Op, Rel, op_constant};

/// The formula that the relation holds of the term and 0.
fn against_zero(table: &mut Table, rel: Rel, x: Id) -> Result<Id, AllocError>
    requires { IsKnown table.old x }
    ensures id { IfOk result (IsIdOf table.new (rel_term rel (tree_at table.old x) (lit 0))) }
    ensures extends { Extends table.old table.new }
{
    let zero = table.intern(Node::Lit(0))?;
    app2(table, rel_constant(rel), x, zero)
}

/// What a branch compares with 0, of the register's term `x`.
fn compared(table: &mut Table, part: Tested, x: Id) -> Result<Id, AllocError>
    requires { IsKnown table.old x }
    ensures id { IfOk result (IsIdOf table.new (tested_part part (tree_at table.old x))) }
    ensures extends { Extends table.old table.new }
{
    match part {
        Tested::Word => Ok(x),
        Tested::LowBit => {
            let one = table.intern(Node::Lit(1))?;
            app2(table, op_constant(Op::Band), x, one)
        }
    }
}

/// The formula that the condition tests of the register's term `x`.
pub(crate) fn tested(table: &mut Table, cond: Cond, x: Id) -> Result<Id, AllocError>
    requires { IsKnown table.old x }
    ensures id { IfOk result (IsIdOf table.new (tested_term cond (tree_at table.old x))) }
    ensures extends { Extends table.old table.new }
{
    let part = compared(table, cond_tested(cond), x)?;
    against_zero(table, cond_relation(cond), part)
}

/// The negation of `formula`.
fn negated(table: &mut Table, formula: Id) -> Result<Id, AllocError>
    requires { IsKnown table.old formula }
    ensures id { IfOk result (IsIdOf table.new (not_term (tree_at table.old formula))) }
    ensures extends { Extends table.old table.new }
{
    let falsity = table.intern(Node::Const(FF))?;
    app2(table, IMP, formula, falsity)
}

/// The formula that holds if the branch is taken, by the tested term.
pub(crate) fn taken(table: &mut Table, cond: Cond, tested: Id) -> Result<Id, AllocError>
    requires { IsKnown table.old tested }
    ensures id { IfOk result (IsIdOf table.new (taken_term cond (tree_at table.old tested))) }
    ensures extends { Extends table.old table.new }
{
    if cond_taken(cond) {
        Ok(tested)
    } else {
        negated(table, tested)
    }
}

/// The formula that holds if the branch isn't taken, by the tested term.
pub(crate) fn passed(table: &mut Table, cond: Cond, tested: Id) -> Result<Id, AllocError>
    requires { IsKnown table.old tested }
    ensures id { IfOk result (IsIdOf table.new (passed_term cond (tree_at table.old tested))) }
    ensures extends { Extends table.old table.new }
{
    if cond_taken(cond) {
        negated(table, tested)
    } else {
        Ok(tested)
    }
}
