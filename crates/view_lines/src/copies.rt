//! Copies the trees that a walk has left into a table of their own.
//!
//! Errors: out of memory.

ghost use Rattle.std.specs.Prelude.{◌≡◌, ◌++◌, ◌∷◌, [], true, false, IfOk, OnOk};
ghost use Rattle.term_table.specs.Table.{IsKnown, PartsKnown, tree_at, node_tree};
ghost use Rattle.proof_container.specs.Postorder.{is_emitted, HasPartsFirst, ArePostorder};
ghost use Rattle.proof_container.specs.Encoding.{entry_number};
ghost use Rattle.proof_container.specs.Walks.{IsLeft};
ghost use Rattle.proof_container.specs.Inside.Walked.{left_trees};
ghost use Rattle.view_lines.specs.Inside.Copies.{IsBegunCopy};

use lf_signature::LONGEST;
use proof_container::Walk;
use std::alloc::{AllocError, Global};
use term_table::{Id, Node, Table};

/// Returns the number that the walk gave to a tree that it has left.
pub(crate) fn number(table: &Table, walk: &Walk, id: Id) -> u64
    requires left { IsLeft table.now (left_trees table.now walk.now) walk.now }
    requires known { IsKnown table.now id }
    requires listed { is_emitted (tree_at table.now id) (left_trees table.now walk.now) ≡ true }
    ensures { result ≡ entry_number (left_trees table.now walk.now) (tree_at table.now id) }
{
    let _ = table; // only the clauses read it: the walk is over this table
    match walk.number(id) {
        Some(number) => number,
        None => unreachable!(),
    }
}

/// The id in the copy of a tree that it has.
fn copied(table: &Table, walk: &Walk, copy: &Table, part: Id) -> Id
    requires begun { IsBegunCopy table.now walk.now copy.now }
    requires known { IsKnown table.now part }
    requires listed { is_emitted (tree_at table.now part) copy.now.trees ≡ true }
    ensures known { IsKnown copy.now result }
    ensures tree { tree_at copy.now result ≡ tree_at table.now part }
{
    let place = number(table, walk, part);
    copy.id(place)
}

/// The node with the copy's ids of its parts.
fn copied_node(table: &Table, walk: &Walk, copy: &Table, node: Node) -> Node
    requires begun { IsBegunCopy table.now walk.now copy.now }
    requires known { PartsKnown table.now node }
    requires listed { HasPartsFirst copy.now.trees (node_tree table.now node) }
    ensures known { PartsKnown copy.now result }
    ensures tree { node_tree copy.now result ≡ node_tree table.now node }
{
    match node {
        Node::Var(n) => Node::Var(n),
        Node::Const(n) => Node::Const(n),
        Node::Lit(word) => Node::Lit(word),
        Node::Calc(n, a, b) => Node::Calc(n, a, b),
        Node::Fact(n, a, b) => Node::Fact(n, a, b),
        Node::Deny(n, a, b) => Node::Deny(n, a, b),
        Node::Lemma(n) => Node::Lemma(n),
        Node::App(f, a) => {
            let function = copied(table, walk, copy, f);
            let argument = copied(table, walk, copy, a);
            Node::App(function, argument)
        }
        Node::Lam(b) => {
            let body = copied(table, walk, copy, b);
            Node::Lam(body)
        }
        Node::Fam(family) => Node::Fam(family),
        Node::TApp(p, a) => {
            let family = copied(table, walk, copy, p);
            let argument = copied(table, walk, copy, a);
            Node::TApp(family, argument)
        }
        Node::Pi(a, b) => {
            let domain = copied(table, walk, copy, a);
            let range = copied(table, walk, copy, b);
            Node::Pi(domain, range)
        }
    }
}

/// Adds the tree of an id to the copy, which has its parts.
fn copy_tree(table: &Table, walk: &Walk, copy: &mut Table, id: Id) -> Result<(), AllocError>
    requires begun { IsBegunCopy table.now walk.now copy.old }
    requires known { IsKnown table.now id }
    requires parts { HasPartsFirst copy.old.trees (tree_at table.now id) }
    requires new { is_emitted (tree_at table.now id) copy.old.trees ≡ false }
    ensures { OnOk result (copy.new.trees ≡ copy.old.trees ++ tree_at table.now id ∷ []) }
{
    let node = copied_node(table, walk, copy, table.node(id));
    copy.intern(node)?;
    Ok(())
}

/// Returns a table of the trees that the walk has left, in the order of the walk.
pub(crate) fn copy_of(alloc: Global, table: &Table, walk: &Walk) -> Result<Table, AllocError>
    requires left { IsLeft table.now (left_trees table.now walk.now) walk.now }
    requires order { ArePostorder [] (left_trees table.now walk.now) }
    ensures { IfOk result (λ t. t.trees ≡ left_trees table.now walk.now) }
{
    let mut copy = Table::new(alloc, LONGEST.places());
    for index in 0..walk.left.len() {
        let id = walk.left[index];
        copy_tree(table, walk, &mut copy, id)?;
    }
    Ok(copy)
}
