//! Candidates of an index: templates over the registers that are used there.

ghost use Rattle.std.specs.Prelude.{IfOk};
ghost use Rattle.term_table.specs.Table.{IsKnown, Extends};

use crate::bits::listed;
use crate::facts::Facts;
use crate::policies::PolicyParts;
use prover_ids::{oper, relation};
use std::alloc::AllocError;
use term_table::{Id, Node, Table};
use word_ops::{Op, Rel};

/// The most candidates of a group.
pub const MOST_OF_GROUP: usize = 256;

/// The most registers that are compared with each other.
const MOST_ORDERED: usize = 8;

/// The most registers of other templates.
const MOST_PLAIN: usize = 12;

/// The term of a register.
fn register(table: &mut Table, number: u32) -> Result<Id, AllocError>
    ensures known { IfOk result (IsKnown table.new) }
    ensures extends { Extends table.old table.new }
{
    table.intern(Node::Var(30u32.saturating_sub(number)))
}

/// Adds a relation of two words to the candidates, unless there are enough.
fn add(table: &mut Table, found: &mut Vec<Id>, rel: Rel, a: Id, b: Id) -> Result<(), AllocError>
    requires a { IsKnown table.old a }
    requires b { IsKnown table.old b }
    ensures { Extends table.old table.new }
{
    if found.len() < MOST_OF_GROUP {
        let form = relation(table, rel, a, b)?;
        found.push(form)?;
    }
    Ok(())
}

/// Which registers are multiples of 8.
fn alignments(table: &mut Table, registers: &[u32]) -> Result<Vec<Id>, AllocError>
    ensures { Extends table.old table.new }
{
    let mut found = Vec::new(table.allocator());
    for i in 0..registers.len() {
        let word = register(table, registers[i])?;
        let seven = table.intern(Node::Lit(7))?;
        let zero = table.intern(Node::Lit(0))?;
        let low = oper(table, Op::Band, word, seven)?;
        add(table, &mut found, Rel::Eq, low, zero)?;
    }
    Ok(found)
}

/// Lower bounds of the steps that are left.
fn counts(table: &mut Table, registers: &[u32]) -> Result<Vec<Id>, AllocError>
    ensures { Extends table.old table.new }
{
    let mut found = Vec::new(table.allocator());
    for i in 0..registers.len() {
        let word = register(table, registers[i])?;
        let left = table.intern(Node::Var(32))?;
        let three = table.intern(Node::Lit(3))?;
        let eightfold = oper(table, Op::Sll, word, three)?;
        add(table, &mut found, Rel::Ule, word, left)?;
        add(table, &mut found, Rel::Ult, word, left)?;
        add(table, &mut found, Rel::Ule, eightfold, left)?;
    }
    Ok(found)
}

/// Orders of two registers.
fn orders(table: &mut Table, registers: &[u32]) -> Result<Vec<Id>, AllocError>
    ensures { Extends table.old table.new }
{
    let mut found = Vec::new(table.allocator());
    for i in 0..registers.len() {
        for j in 0..registers.len() {
            if i != j {
                let a = register(table, registers[i])?;
                let b = register(table, registers[j])?;
                add(table, &mut found, Rel::Ult, a, b)?;
                add(table, &mut found, Rel::Ule, a, b)?;
            }
        }
    }
    Ok(found)
}

/// Which registers are equal to those after them, and which are 0 or a constant of the code.
fn equalities(
    table: &mut Table,
    registers: &[u32],
    constants: &[u64],
) -> Result<Vec<Id>, AllocError>
    ensures { Extends table.old table.new }
{
    let mut found = Vec::new(table.allocator());
    for i in 0..registers.len() {
        let word = register(table, registers[i])?;
        let zero = table.intern(Node::Lit(0))?;
        add(table, &mut found, Rel::Eq, word, zero)?;
        for k in 0..constants.len() {
            let a = register(table, registers[i])?;
            let constant = table.intern(Node::Lit(constants[k]))?;
            add(table, &mut found, Rel::Eq, a, constant)?;
        }
        for j in i + 1..registers.len() {
            let a = register(table, registers[i])?;
            let b = register(table, registers[j])?;
            add(table, &mut found, Rel::Eq, a, b)?;
        }
    }
    Ok(found)
}

/// Bounds of registers by constants of the code.
fn bounds(table: &mut Table, registers: &[u32], constants: &[u64]) -> Result<Vec<Id>, AllocError>
    ensures { Extends table.old table.new }
{
    let mut found = Vec::new(table.allocator());
    for i in 0..registers.len() {
        for k in 0..constants.len() {
            let word = register(table, registers[i])?;
            let limit = table.intern(Node::Lit(constants[k]))?;
            add(table, &mut found, Rel::Ult, word, limit)?;
            add(table, &mut found, Rel::Ule, word, limit)?;
            add(table, &mut found, Rel::Ule, limit, word)?;
        }
    }
    Ok(found)
}

/// Copies candidates.
fn copied(table: &Table, forms: &[Id]) -> Result<Vec<Id>, AllocError> {
    let mut copies = Vec::new(table.allocator());
    copies.extend_from_slice(forms)?;
    Ok(copies)
}

/// Makes the candidates of an index, in groups: those that the policy gives, alignments, lower bounds of the steps that are left
/// if they are counted, orders, equalities and bounds.
///
/// Errors: out of memory; each id keeps its tree.
pub fn candidates_at(
    table: &mut Table,
    facts: &Facts,
    policy: &PolicyParts,
    index: u32,
    counted: bool,
) -> Result<Vec<Vec<Id>>, AllocError>
    ensures { Extends table.old table.new }
{
    let alloc = table.allocator();
    let used = facts.live_at(index) | policy.named;
    let words = used & !policy.bases;
    let plain = listed(alloc, words, MOST_PLAIN)?;
    let ordered = listed(alloc, words & (facts.ordered | policy.named), MOST_ORDERED)?;
    let all = listed(alloc, used, MOST_PLAIN)?;
    let constants = facts.constants.as_slice();
    let mut groups = Vec::new(alloc);
    groups.push(copied(table, &policy.forms)?)?;
    groups.push(alignments(table, &plain)?)?;
    if counted {
        groups.push(counts(table, &plain)?)?;
    }
    groups.push(orders(table, &ordered)?)?;
    groups.push(equalities(table, &all, constants)?)?;
    groups.push(bounds(table, &ordered, constants)?)?;
    Ok(groups)
}
