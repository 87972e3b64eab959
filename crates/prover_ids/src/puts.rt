//! Substitution of an expression for one variable, on ids.
//!
//! Results are cached by the node, the variable and the substituted expression, so no part of a
//! formula is visited twice under as many binders.

ghost use Rattle.std.specs.Prelude.{◌≡◌, ◌≤◌, IfOk, OnOk};
ghost use Rattle.term_table.specs.Tree.{Var, spot};
ghost use Rattle.term_table.specs.Table.{IsKnown, tree_at, Extends};
ghost use Rattle.hereditary_subst.specs.Kept.{IsMemo};
ghost use Rattle.hereditary_subst.specs.Limits.{SpendsResults};
ghost use Rattle.lf_signature.specs.Nodes.{IsIdOf};
ghost use Rattle.formula_tree.specs.Formulas.{Exp};
ghost use Rattle.formula_tree.specs.Variables.{PExp, exp_at, mem_at};
ghost use Rattle.lf_terms.specs.Encoding.{exp_encoding, mem_encoding};
ghost use Rattle.prover_ids.specs.Puts.{IsExpPut, IsMemPut};
ghost use Rattle.prover_ids.specs.PutRows.{ArePuts};

use crate::kept::{Kept, Question, number};
use crate::nodes::{ExpNode, MemNode, exp_node, mem_node};
use hereditary_subst::{Exhausted, Memo};
use lf_signature::numbers::{SEL, UPD};
use lf_signature::{app2, app3};
use std::alloc::AllocError;
use term_table::{Id, Node, Table};
use word_ops::op_constant;

/// A cache key for substitutions: a node, a variable, and the expression to substitute for it.
#[derive(Clone, Copy, PartialEq, Eq, PartialOrd, Ord)]
pub enum Put {
    /// A substitution in an expression.
    Exp(u64, u64, u64),
    /// A substitution in a memory.
    Mem(u64, u64, u64),
    /// A substitution in a formula.
    Form(u64, u64, u64),
}

impl Question for Put {
    ghost use Rattle.std.proofs.Common.{rules};
    ghost use Rattle.prover_ids.specs.PutRows.{IsPutAt};
    ghost use Rattle.prover_ids.specs.Lasting.{put-lasts};

    type Answer = Id;

    ghost is_right = { λ _. IsPutAt };

    ghost same = { Prim.search rules };

    ghost lasts = { λ _ t u q r e _ h. put-lasts t u q r e h };
}

/// Cached results of substitutions on one table.
pub type Puts = Kept<Put>;

/// The word variable `n`, whose id is `id`, with what is put for the variable `x`; variables past
/// it are one less.
fn put_word_variable(table: &mut Table, id: Id, n: u32, x: u64, arg: Id) -> Result<Id, AllocError>
    requires id { IsKnown table.old id }
    requires arg { IsKnown table.old arg }
    ensures known { IfOk result (IsKnown table.new) }
    ensures exact { (o : Exp) → tree_at table.old id ≡ Var n
        → tree_at table.old arg ≡ exp_encoding o
        → IfOk result (IsIdOf table.new (exp_encoding (exp_at (PExp o) (spot x n)))) }
    ensures extends { Extends table.old table.new }
{
    if u64::from(n) == x {
        return Ok(arg);
    }
    if u64::from(n) < x {
        return Ok(id);
    }
    table.intern(Node::Var(n - 1))
}

/// The memory variable `n`, whose id is `id`, with a word put for the variable `x`; variables past
/// it are one less, and itself is read as m.
fn put_memory_variable(table: &mut Table, id: Id, n: u32, x: u64) -> Result<Id, AllocError>
    requires id { IsKnown table.old id }
    ensures known { IfOk result (IsKnown table.new) }
    ensures exact { (o : Exp) → tree_at table.old id ≡ Var n
        → IfOk result (IsIdOf table.new (mem_encoding (mem_at (PExp o) (spot x n)))) }
    ensures extends { Extends table.old table.new }
{
    if u64::from(n) == x {
        return table.intern(Node::Deny(0, 0, 0));
    }
    if u64::from(n) < x {
        return Ok(id);
    }
    table.intern(Node::Var(n - 1))
}

/// The expression with `arg` for the variable `x`.
#[cycle(words)]
#[tactic(auto, using(crate::proofs::PutRows::rows))]
pub(crate) fn put_exp(
    table: &mut Table,
    memo: &mut Memo,
    kept: &mut Puts,
    id: Id,
    x: u64,
    arg: Id,
) -> Result<Id, Exhausted>
    requires id { IsKnown table.old id }
    requires arg { IsKnown table.old arg }
    requires memo { IsMemo table.old memo.old }
    requires kept { ArePuts table.old kept.old }
    ensures put { IfOk result (IsExpPut table.old table.new id x arg) }
    ensures extends { Extends table.old table.new }
    ensures memo { IsMemo table.new memo.new }
    ensures spends { SpendsResults table.new memo.old memo.new result }
    ensures kept { ArePuts table.new kept.new }
{
    let question = Put::Exp(number(id), x, number(arg));
    if let Some(put) = kept.get(table, &[], &question) {
        return Ok(put);
    }
    let put = put_exp_parts(table, memo, kept, id, x, arg)?;
    kept.keep(memo, table, &[], question, put)?;
    Ok(put)
}

/// The expression with `arg` for the variable `x`, by the expression's parts.
#[cycle(words)]
#[tactic(auto, using(crate::proofs::PutRows::rows))]
fn put_exp_parts(
    table: &mut Table,
    memo: &mut Memo,
    kept: &mut Puts,
    id: Id,
    x: u64,
    arg: Id,
) -> Result<Id, Exhausted>
    requires id { IsKnown table.old id }
    requires arg { IsKnown table.old arg }
    requires memo { IsMemo table.old memo.old }
    requires kept { ArePuts table.old kept.old }
    ensures put { IfOk result (IsExpPut table.old table.new id x arg) }
    ensures extends { Extends table.old table.new }
    ensures memo { IsMemo table.new memo.new }
    ensures spends { SpendsResults table.new memo.old memo.new result }
    ensures kept { ArePuts table.new kept.new }
{
    match exp_node(table, id) {
        ExpNode::Var(n) => Ok(put_word_variable(table, id, n, x, arg)?),
        ExpNode::Apply(op, a, b) => {
            let left = put_exp(table, memo, kept, a, x, arg)?;
            let right = put_exp(table, memo, kept, b, x, arg)?;
            Ok(app2(table, op_constant(op), left, right)?)
        }
        ExpNode::Sel(m, a) => {
            let memory = put_mem(table, memo, kept, m, x, arg)?;
            let address = put_exp(table, memo, kept, a, x, arg)?;
            Ok(app2(table, SEL, memory, address)?)
        }
        _ => Ok(id),
    }
}

/// The memory with `arg` for the variable `x`.
#[cycle(words)]
#[tactic(auto, using(crate::proofs::PutRows::rows))]
fn put_mem(
    table: &mut Table,
    memo: &mut Memo,
    kept: &mut Puts,
    id: Id,
    x: u64,
    arg: Id,
) -> Result<Id, Exhausted>
    requires id { IsKnown table.old id }
    requires arg { IsKnown table.old arg }
    requires memo { IsMemo table.old memo.old }
    requires kept { ArePuts table.old kept.old }
    ensures put { IfOk result (IsMemPut table.old table.new id x arg) }
    ensures extends { Extends table.old table.new }
    ensures memo { IsMemo table.new memo.new }
    ensures spends { SpendsResults table.new memo.old memo.new result }
    ensures kept { ArePuts table.new kept.new }
{
    let question = Put::Mem(number(id), x, number(arg));
    if let Some(put) = kept.get(table, &[], &question) {
        return Ok(put);
    }
    let put = put_mem_parts(table, memo, kept, id, x, arg)?;
    kept.keep(memo, table, &[], question, put)?;
    Ok(put)
}

/// The memory with `arg` for the variable `x`, by the memory's parts.
#[cycle(words)]
#[tactic(auto, using(crate::proofs::PutRows::rows))]
fn put_mem_parts(
    table: &mut Table,
    memo: &mut Memo,
    kept: &mut Puts,
    id: Id,
    x: u64,
    arg: Id,
) -> Result<Id, Exhausted>
    requires id { IsKnown table.old id }
    requires arg { IsKnown table.old arg }
    requires memo { IsMemo table.old memo.old }
    requires kept { ArePuts table.old kept.old }
    ensures put { IfOk result (IsMemPut table.old table.new id x arg) }
    ensures extends { Extends table.old table.new }
    ensures memo { IsMemo table.new memo.new }
    ensures spends { SpendsResults table.new memo.old memo.new result }
    ensures kept { ArePuts table.new kept.new }
{
    match mem_node(table, id) {
        MemNode::Var(n) => Ok(put_memory_variable(table, id, n, x)?),
        MemNode::Upd(m, a, v) => {
            let before = put_mem(table, memo, kept, m, x, arg)?;
            let address = put_exp(table, memo, kept, a, x, arg)?;
            let word = put_exp(table, memo, kept, v, x, arg)?;
            Ok(app3(table, UPD, before, address, word)?)
        }
        MemNode::Unbound => Ok(id),
    }
}
