//! Finds which lemmas the trees of a table cite.

ghost use Rattle.std.specs.Prelude.{◌≡◌, suc, ◌<◌, ◌+◌, ◌^◌, length, map, IfOk};
ghost use Rattle.term_table.specs.Table.{PartsBelow};
ghost use Rattle.lf_lemmas.specs.Tables.{lemmas_in, LemmasBelow, LemmasKnown};
ghost use Rattle.lf_lemma_check.specs.First.{first_failing, cites_before};
ghost use Rattle.lf_lemma_check.specs.Inside.Bounds.{cited, node_cited, late_by};

use std::alloc::{AllocError, Global};
use term_table::{Id, Node, Table};

/// One more than the number of a lemma.
fn past(number: u32) -> u64
    ensures { result ≡ suc number }
{
    u64::from(number) + 1
}

/// How far the lemmas in a node go, by how far those in its parts do.
fn node_bound(bounds: &[u64], node: Node) -> u64
    requires { PartsBelow (length bounds.now) node }
    ensures { result ≡ node_cited bounds.now node }
{
    match node {
        Node::Lemma(number) => past(number),
        Node::App(function, argument) => bounds[function.index()].max(bounds[argument.index()]),
        Node::Lam(body) => bounds[body.index()],
        Node::TApp(family, argument) => bounds[family.index()].max(bounds[argument.index()]),
        Node::Pi(domain, range) => bounds[domain.index()].max(bounds[range.index()]),
        _ => 0,
    }
}

/// How far the lemmas in each tree of a table go: one more than the greatest number, 0 without any.
fn table_bounds(alloc: Global, table: &Table) -> Result<Vec<u64>, AllocError>
    ensures { IfOk result (λ v. v.items ≡ map cited table.now.trees) }
{
    let mut bounds = Vec::new(alloc);
    for index in 0..table.count() {
        let node = table.node(table.id(index));
        let bound = node_bound(bounds.as_slice(), node);
        bounds.push(bound)?;
    }
    Ok(bounds)
}

/// The first lemma, counted from `from`, whose proof cites itself or a later one.
fn late_from(bounds: &[u64], lemmas: &[(Id, Id)], from: u32) -> Option<u32>
    requires known { LemmasBelow (length bounds.now) lemmas.now }
    requires few { from + length lemmas.now < 2 ^ 32 }
    ensures { result ≡ late_by bounds.now from lemmas.now }
{
    match lemmas {
        [] => None,
        [first, rest @ ..] => {
            if bounds[first.1.index()] > u64::from(from) {
                Some(from)
            } else {
                late_from(bounds, rest, from + 1)
            }
        }
    }
}

/// Returns the number of the first lemma whose proof cites itself or a later lemma: None if there
/// is none. A lemma is the id of its formula and of its proof; there are fewer than 2^32. Goes
/// through the table once, and not at all if there are no lemmas.
///
/// Errors: out of memory alone.
pub fn first_late(
    alloc: Global,
    table: &Table,
    lemmas: &[(Id, Id)],
) -> Result<Option<u32>, AllocError>
    requires known { LemmasKnown table.now lemmas.now }
    requires few { length lemmas.now < 2 ^ 32 }
    ensures { IfOk result (λ found.
        found ≡ first_failing cites_before 0 (lemmas_in table.now lemmas.now)) }
{
    if lemmas.is_empty() {
        return Ok(None);
    }
    let bounds = table_bounds(alloc, table)?;
    Ok(late_from(bounds.as_slice(), lemmas, 0))
}
