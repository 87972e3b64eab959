//! Terms of a table, taken apart and made. That ids are the table's is tested at run time.

ghost use Rattle.std.specs.Prelude.{OnOk};
ghost use Rattle.term_table.specs.Table.{AllKnown, IsKnown};

use crate::answers::{Made, made};
use hereditary_subst::weaken;
use lf_signature::app2;
use term_table::{Id, Node, Table};

/// Tests that the id is one of the table.
pub fn known(table: &Table, id: Id) -> Made<()>
    ensures { OnOk result (IsKnown table.now id) }
{
    if (id.index() as u64) < table.count() {
        Ok(())
    } else {
        Err("an unknown id")
    }
}

/// Tests that each id is one of the table.
pub fn all_known(table: &Table, ids: &[Id]) -> Made<()>
    ensures { OnOk result (AllKnown table.now ids.now) }
{
    match ids {
        [] => Ok(()),
        [first, rest @ ..] => {
            known(table, *first)?;
            all_known(table, rest)
        }
    }
}

/// The node of an id.
pub fn node_of(table: &Table, id: Id) -> Made<Node> {
    known(table, id)?;
    Ok(table.node(id))
}

/// A constant at two terms.
#[derive(Clone, Copy)]
pub struct Pair {
    pub constant: u32,
    pub a: Id,
    pub b: Id,
}

/// The constant and the two terms of which a term is made.
pub fn pair_of(table: &Table, id: Id) -> Made<Pair> {
    let Node::App(head, b) = node_of(table, id)? else {
        return Err("no pair");
    };
    let Node::App(head, a) = node_of(table, head)? else {
        return Err("no pair");
    };
    match node_of(table, head)? {
        Node::Const(constant) => Ok(Pair { constant, a, b }),
        _ => Err("no pair"),
    }
}

/// The term that a constant makes of two terms.
pub fn term_of(table: &mut Table, made_of: Pair) -> Made<Id> {
    let Pair { constant, a, b } = made_of;
    known(table, a)?;
    known(table, b)?;
    made(app2(table, constant, a, b))
}

/// The word that a term is.
pub fn word_of(table: &Table, id: Id) -> Made<u64> {
    match node_of(table, id)? {
        Node::Lit(word) => Ok(word),
        _ => Err("no word"),
    }
}

/// The variable with that number.
pub fn variable(table: &mut Table, number: u64) -> Made<Id> {
    match u32::try_from(number) {
        Ok(number) => made(table.intern(Node::Var(number))),
        Err(_) => Err("a high variable"),
    }
}

/// The function whose body is that term.
pub fn function(table: &mut Table, body: Id) -> Made<Id> {
    known(table, body)?;
    made(table.intern(Node::Lam(body)))
}

/// The term under so many more binders.
pub fn raised(table: &mut Table, id: Id, by: u64) -> Made<Id> {
    known(table, id)?;
    if by > 4_294_967_296 {
        return Err("many binders");
    }
    match weaken(table, id, by) {
        Ok(Some(id)) => Ok(id),
        Ok(None) => Err("a high variable"),
        Err(_) => Err("no memory"),
    }
}

/// The term under one more binder, with the binder's variable for each place of `part`. It has no
/// binders itself.
pub fn opened(table: &mut Table, id: Id, part: Id, fuel: u32) -> Made<Id> {
    if fuel == 0 {
        return Err("a deep term");
    }
    if id.index() == part.index() {
        return variable(table, 0);
    }
    let Node::App(f, a) = node_of(table, id)? else {
        return raised(table, id, 1);
    };
    let f = opened(table, f, part, fuel - 1)?;
    let a = opened(table, a, part, fuel - 1)?;
    known(table, f)?;
    known(table, a)?;
    made(table.intern(Node::App(f, a)))
}
