//! The entries of a container, as its fields.

use crate::answers::{Made, made};
use crate::nodes::node_of;
use proof_container::Walk;
use term_table::{Id, Node, Table};

/// The number below 2^32.
pub fn field(number: u64) -> Made<u32> {
    match u32::try_from(number) {
        Ok(field) => Ok(field),
        Err(_) => Err("a large number"),
    }
}

/// The number of an id among those that a walk left.
fn number(walk: &Walk, id: Id) -> Made<u32> {
    let Some(place) = walk.numbers.get(id.index()) else {
        return Err("an unknown id");
    };
    match place {
        Some(place) => field(*place),
        None => Err("an id that wasn't left"),
    }
}

/// Adds a word's halves, the low one first.
fn put_word(fields: &mut Vec<u32>, word: u64) -> Made<()> {
    let low = field(word % 4_294_967_296)?;
    let high = field(word / 4_294_967_296)?;
    made(fields.extend_from_slice(&[low, high]))
}

/// Adds the fields of an evaluation.
fn put_triple(fields: &mut Vec<u32>, kind: u32, number: u32, a: u64, b: u64) -> Made<()> {
    made(fields.extend_from_slice(&[kind, number]))?;
    put_word(fields, a)?;
    put_word(fields, b)
}

/// Adds the fields of an entry.
fn put_entry(fields: &mut Vec<u32>, walk: &Walk, node: Node) -> Made<()> {
    match node {
        Node::Var(n) => made(fields.extend_from_slice(&[0, n])),
        Node::Const(n) => made(fields.extend_from_slice(&[1, n])),
        Node::Lit(word) => {
            made(fields.push(2))?;
            put_word(fields, word)
        }
        Node::Calc(n, a, b) => put_triple(fields, 3, n, a, b),
        Node::Fact(n, a, b) => put_triple(fields, 4, n, a, b),
        Node::App(f, a) => {
            let f = number(walk, f)?;
            let a = number(walk, a)?;
            made(fields.extend_from_slice(&[6, f, a]))
        }
        Node::Lam(body) => {
            let body = number(walk, body)?;
            made(fields.extend_from_slice(&[7, body]))
        }
        Node::Lemma(n) => made(fields.extend_from_slice(&[8, n])),
        _ => Err("another node"),
    }
}

/// Adds the number of an entry.
pub fn put_number(fields: &mut Vec<u32>, walk: &Walk, id: Id) -> Made<()> {
    let number = number(walk, id)?;
    made(fields.push(number))
}

/// Adds the proof's field: one more than its entry's number.
pub fn put_proof(fields: &mut Vec<u32>, walk: &Walk, proof: Id) -> Made<()> {
    let number = number(walk, proof)?;
    made(fields.push(number.saturating_add(1)))
}

/// Adds the count and the fields of the entries that a walk left.
pub fn put_entries(fields: &mut Vec<u32>, table: &Table, walk: &Walk) -> Made<()> {
    let count = field(walk.left.len() as u64)?;
    made(fields.push(count))?;
    for id in &walk.left {
        let node = node_of(table, *id)?;
        put_entry(fields, walk, node)?;
    }
    Ok(())
}
