//! How large the trees of a table are.

ghost use Rattle.std.specs.Prelude.{◌≡◌, ◌+◌, length, map, IfOk};
ghost use Rattle.term_table.specs.Table.{PartsBelow};
ghost use Rattle.term_table.specs.Measures.{capped};
ghost use Rattle.view_entries.specs.Sizes.{tree_size};
ghost use Rattle.view_entries.specs.Inside.NodeSizes.{node_size};

use std::alloc::{AllocError, Global};
use term_table::{Node, Table};

/// The size of a node of two parts.
fn joined(a: u32, b: u32) -> u32
    ensures { result ≡ capped (1 + (a + b)) }
{
    a.saturating_add(b).saturating_add(1)
}

/// The size of a node, by those of the entries before it.
fn node_size(sizes: &[u32], node: Node) -> u32
    requires { PartsBelow (length sizes.now) node }
    ensures { result ≡ node_size sizes.now node }
{
    match node {
        Node::App(function, argument) => joined(sizes[function.index()], sizes[argument.index()]),
        Node::Lam(body) => sizes[body.index()].saturating_add(1),
        Node::TApp(family, argument) => joined(sizes[family.index()], sizes[argument.index()]),
        Node::Pi(domain, range) => joined(sizes[domain.index()], sizes[range.index()]),
        _ => 1,
    }
}

/// Returns the number of nodes of each entry's tree, in the order of the entries, and 4,294,967,295
/// for a tree that has more. It goes through the table once.
///
/// Errors: out of memory.
pub fn sizes(alloc: Global, table: &Table) -> Result<Vec<u32>, AllocError>
    ensures exact { IfOk result (λ v. v.items ≡ map tree_size table.now.trees) }
{
    let mut sizes = Vec::new(alloc);
    for index in 0..table.count() {
        let node = table.node(table.id(index));
        let size = node_size(sizes.as_slice(), node);
        sizes.push(size)?;
    }
    Ok(sizes)
}
