//! Printing trees as text.

ghost use Rattle.term_table.specs.Table.{IsKnown};

use crate::term_text::{CONSTANTS, FAMILIES};
use std::alloc::{AllocError, Global};
use term_table::{Id, Node, Table};

/// The maximal depth of a printed tree; deeper parts are printed as `..`.
const DEEPEST: u32 = 24;

/// Appends a word and a number.
fn put_number(text: &mut String, word: &str, number: u64) -> Result<(), AllocError> {
    let part = format!(in *text.allocator(); "{word}{number}")?;
    text.push_str(part.as_str())
}

/// Appends a keyword with three numbers, in parentheses.
fn put_evaluated(
    text: &mut String,
    keyword: &str,
    op: u32,
    a: u64,
    b: u64,
) -> Result<(), AllocError> {
    let part = format!(in *text.allocator(); "({keyword} {op} {a} {b})")?;
    text.push_str(part.as_str())
}

/// Appends a keyword with a number, in parentheses.
fn put_numbered(text: &mut String, keyword: &str, number: u32) -> Result<(), AllocError> {
    let part = format!(in *text.allocator(); "({keyword} {number})")?;
    text.push_str(part.as_str())
}

/// Appends a name of a list, or where it has none there the keyword and the number, in parentheses.
fn put_name(
    text: &mut String,
    names: &[&'static str],
    keyword: &str,
    number: u32,
) -> Result<(), AllocError> {
    match names.get(number as usize) {
        Some(name) => text.push_str(name),
        None => put_numbered(text, keyword, number),
    }
}

/// Appends a node without parts.
fn put_leaf(text: &mut String, node: Node) -> Result<(), AllocError> {
    match node {
        Node::Var(n) => put_number(text, "#", u64::from(n)),
        Node::Const(n) => put_name(text, &CONSTANTS, "const", n),
        Node::Fam(n) => put_name(text, &FAMILIES, "fam", n),
        Node::Lit(word) => put_number(text, "", word),
        Node::Calc(o, a, b) => put_evaluated(text, "calc", o, a, b),
        Node::Fact(o, a, b) => put_evaluated(text, "fact", o, a, b),
        Node::Deny(o, a, b) => put_evaluated(text, "deny", o, a, b),
        Node::Lemma(n) => put_numbered(text, "lemma", n),
        Node::App(_, _) | Node::Lam(_) | Node::TApp(_, _) | Node::Pi(_, _) => Ok(()),
    }
}

/// Appends a tree, down to this depth.
fn put_tree(text: &mut String, table: &Table, tree: Id, depth: u32) -> Result<(), AllocError>
    requires { IsKnown table.now tree }
{
    if depth == 0 {
        return text.push_str("..");
    }
    match table.node(tree) {
        Node::App(f, a) | Node::TApp(f, a) => {
            text.push_str("(")?;
            put_tree(text, table, f, depth - 1)?;
            text.push_str(" ")?;
            put_tree(text, table, a, depth - 1)?;
            text.push_str(")")
        }
        Node::Pi(a, b) => {
            text.push_str("{")?;
            put_tree(text, table, a, depth - 1)?;
            text.push_str("} ")?;
            put_tree(text, table, b, depth - 1)
        }
        Node::Lam(b) => {
            text.push_str("[] ")?;
            put_tree(text, table, b, depth - 1)
        }
        node => put_leaf(text, node),
    }
}

/// Returns the tree as text, in the notation of `term_text`, each application in parentheses of its
/// own.
///
/// Errors: out of memory.
pub fn tree_text(alloc: Global, table: &Table, tree: Id) -> Result<String, AllocError> {
    let mut text = String::new(alloc);
    if (tree.index() as u64) < table.count() {
        put_tree(&mut text, table, tree, DEEPEST)?;
    }
    Ok(text)
}
