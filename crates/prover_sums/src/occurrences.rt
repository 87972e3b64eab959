//! Whether variable 0 occurs in an expression.

ghost use Rattle.std.specs.Prelude.{◌≡◌, IfOk, OnOk};
ghost use Rattle.term_table.specs.Table.{IsKnown, tree_at};
ghost use Rattle.hereditary_subst.specs.Kept.{IsMemo};
ghost use Rattle.hereditary_subst.specs.Limits.{SpendsResults};
ghost use Rattle.prover_sums.specs.Sums.{OccursInExp, OccursInMem};
ghost use Rattle.prover_sums.specs.Occurrences.{AreOccurrences};

use hereditary_subst::{Exhausted, Memo};
use prover_ids::{ExpNode, Kept, MemNode, Question, exp_node, mem_node, number};
use term_table::{Id, Table};

/// A cache key: a node in which variable 0 may occur.
#[derive(Clone, Copy, PartialEq, Eq, PartialOrd, Ord)]
pub enum Occurring {
    /// An expression.
    Exp(u64),
    /// A memory.
    Mem(u64),
}

impl Question for Occurring {
    ghost use Rattle.std.proofs.Common.{rules};
    ghost use Rattle.prover_sums.specs.Occurrences.{IsOccurrence};
    ghost use Rattle.prover_sums.specs.Lasting.{occurrence-lasts};

    type Answer = bool;

    ghost is_right = { λ _. IsOccurrence };

    ghost same = { Prim.search rules };

    ghost lasts = { λ _ t u q b e _ h. occurrence-lasts t u q b e h };
}

/// Cached answers whether variable 0 occurs, on one table.
pub type Occurrences = Kept<Occurring>;

/// Returns whether variable 0 occurs in the expression `e`. `kept` has the cached answers of
/// earlier calls on the table.
///
/// Errors: out of memory, or the limit of `memo` is reached.
#[cycle(occurring)]
pub fn occurs(
    table: &Table,
    memo: &mut Memo,
    kept: &mut Occurrences,
    e: Id,
) -> Result<bool, Exhausted>
    requires e { IsKnown table.now e }
    requires memo { IsMemo table.now memo.old }
    requires kept { AreOccurrences table.now kept.old }
    ensures exact { IfOk result (OccursInExp table.now e) }
    ensures memo { IsMemo table.now memo.new }
    ensures kept { AreOccurrences table.now kept.new }
    ensures spends { SpendsResults table.now memo.old memo.new result }
{
    let question = Occurring::Exp(number(e));
    if let Some(occurs) = kept.get(table, &[], &question) {
        return Ok(occurs);
    }
    let occurs = occurs_in_parts(table, memo, kept, e)?;
    kept.keep(memo, table, &[], question, occurs)?;
    Ok(occurs)
}

/// Whether variable 0 occurs in the expression, by its parts.
#[cycle(occurring)]
fn occurs_in_parts(
    table: &Table,
    memo: &mut Memo,
    kept: &mut Occurrences,
    e: Id,
) -> Result<bool, Exhausted>
    requires e { IsKnown table.now e }
    requires memo { IsMemo table.now memo.old }
    requires kept { AreOccurrences table.now kept.old }
    ensures exact { IfOk result (OccursInExp table.now e) }
    ensures memo { IsMemo table.now memo.new }
    ensures kept { AreOccurrences table.now kept.new }
    ensures spends { SpendsResults table.now memo.old memo.new result }
{
    match exp_node(table, e) {
        ExpNode::Var(n) => Ok(n == 0),
        ExpNode::Apply(_, a, b) => {
            let left = occurs(table, memo, kept, a)?;
            let right = occurs(table, memo, kept, b)?;
            Ok(left || right)
        }
        ExpNode::Sel(m, a) => {
            let memory = occurs_in_mem(table, memo, kept, m)?;
            let address = occurs(table, memo, kept, a)?;
            Ok(memory || address)
        }
        _ => Ok(false),
    }
}

/// Whether variable 0 occurs in the memory.
#[cycle(occurring)]
fn occurs_in_mem(
    table: &Table,
    memo: &mut Memo,
    kept: &mut Occurrences,
    m: Id,
) -> Result<bool, Exhausted>
    requires m { IsKnown table.now m }
    requires memo { IsMemo table.now memo.old }
    requires kept { AreOccurrences table.now kept.old }
    ensures exact { IfOk result (OccursInMem table.now m) }
    ensures memo { IsMemo table.now memo.new }
    ensures kept { AreOccurrences table.now kept.new }
    ensures spends { SpendsResults table.now memo.old memo.new result }
{
    let question = Occurring::Mem(number(m));
    if let Some(occurs) = kept.get(table, &[], &question) {
        return Ok(occurs);
    }
    let occurs = occurs_in_mem_parts(table, memo, kept, m)?;
    kept.keep(memo, table, &[], question, occurs)?;
    Ok(occurs)
}

/// Whether variable 0 occurs in the memory, by its parts.
#[cycle(occurring)]
fn occurs_in_mem_parts(
    table: &Table,
    memo: &mut Memo,
    kept: &mut Occurrences,
    m: Id,
) -> Result<bool, Exhausted>
    requires m { IsKnown table.now m }
    requires memo { IsMemo table.now memo.old }
    requires kept { AreOccurrences table.now kept.old }
    ensures exact { IfOk result (OccursInMem table.now m) }
    ensures memo { IsMemo table.now memo.new }
    ensures kept { AreOccurrences table.now kept.new }
    ensures spends { SpendsResults table.now memo.old memo.new result }
{
    match mem_node(table, m) {
        MemNode::Var(n) => Ok(n == 0),
        MemNode::Upd(before, a, v) => {
            let memory = occurs_in_mem(table, memo, kept, before)?;
            let address = occurs(table, memo, kept, a)?;
            let word = occurs(table, memo, kept, v)?;
            Ok(memory || address || word)
        }
        MemNode::Unbound => Ok(false),
    }
}
