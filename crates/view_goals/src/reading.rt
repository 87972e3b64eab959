//! Takes formulas apart by the shape of their terms. For an id of another shape each function
//! returns the id itself.

ghost use Rattle.std.specs.Prelude.{◌≡◌};
ghost use Rattle.term_table.specs.Table.{IsKnown, tree_at};
ghost use Rattle.view_goals.specs.Inside.Reading.{last_argument, first_argument, lambda_body};
ghost use Rattle.view_goals.specs.Inside.Reading.{body_of, under};

use term_table::{Id, Node, Table};

/// Returns the second side of a connective, or the function that a quantifier is applied to.
pub(crate) fn right(table: &Table, id: Id) -> Id
    requires { IsKnown table.now id }
    ensures is { tree_at table.now result ≡ last_argument (tree_at table.now id) }
    ensures known { IsKnown table.now result }
{
    match table.node(id) {
        Node::App(_, last) => last,
        Node::Var(_) => id,
        Node::Const(_) => id,
        Node::Lit(_) => id,
        Node::Calc(_, _, _) => id,
        Node::Fact(_, _, _) => id,
        Node::Deny(_, _, _) => id,
        Node::Lemma(_) => id,
        Node::Lam(_) => id,
        Node::Fam(_) => id,
        Node::TApp(_, _) => id,
        Node::Pi(_, _) => id,
    }
}

/// Returns the first side of a connective.
pub(crate) fn left(table: &Table, id: Id) -> Id
    requires { IsKnown table.now id }
    ensures is { tree_at table.now result ≡ first_argument (tree_at table.now id) }
    ensures known { IsKnown table.now result }
{
    match table.node(id) {
        Node::App(front, _) => right(table, front),
        Node::Var(_) => id,
        Node::Const(_) => id,
        Node::Lit(_) => id,
        Node::Calc(_, _, _) => id,
        Node::Fact(_, _, _) => id,
        Node::Deny(_, _, _) => id,
        Node::Lemma(_) => id,
        Node::Lam(_) => id,
        Node::Fam(_) => id,
        Node::TApp(_, _) => id,
        Node::Pi(_, _) => id,
    }
}

/// Returns the body of a binder.
fn under_binder(table: &Table, id: Id) -> Id
    requires { IsKnown table.now id }
    ensures is { tree_at table.now result ≡ lambda_body (tree_at table.now id) }
    ensures known { IsKnown table.now result }
{
    match table.node(id) {
        Node::Lam(body) => body,
        Node::App(_, _) => id,
        Node::Var(_) => id,
        Node::Const(_) => id,
        Node::Lit(_) => id,
        Node::Calc(_, _, _) => id,
        Node::Fact(_, _, _) => id,
        Node::Deny(_, _, _) => id,
        Node::Lemma(_) => id,
        Node::Fam(_) => id,
        Node::TApp(_, _) => id,
        Node::Pi(_, _) => id,
    }
}

/// Returns the formula below a quantifier.
fn body(table: &Table, id: Id) -> Id
    requires { IsKnown table.now id }
    ensures is { tree_at table.now result ≡ body_of (tree_at table.now id) }
    ensures known { IsKnown table.now result }
{
    under_binder(table, right(table, id))
}

/// Returns what is below so many quantifiers.
pub(crate) fn under(table: &Table, count: u32, id: Id) -> Id
    requires { IsKnown table.now id }
    ensures is { tree_at table.now result ≡ under count (tree_at table.now id) }
    ensures known { IsKnown table.now result }
{
    if count == 0 {
        return id;
    }
    under(table, count - 1, body(table, id))
}
