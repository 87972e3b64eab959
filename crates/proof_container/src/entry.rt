//! Entries: term nodes whose children are earlier entries.

ghost use Rattle.std.specs.Prelude.{◌≡◌, ◌+◌, ◌*◌, ◌≤◌, false, [], length, IfOk, OnOk};
ghost use Rattle.term_table.specs.Table.{IsKnown, PartsKnown, tree_at, node_tree, with_tree};
ghost use Rattle.proof_container.specs.Postorder.{is_emitted};
ghost use Rattle.proof_container.specs.Decoding.{part_at, head_at, application_at};
ghost use Rattle.proof_container.specs.Decoding.{entry_at, entry_size, entries_at, decoded_entries};
ghost use Rattle.proof_container.specs.declared.limits.TheConstants.{MAX_ENTRIES};
ghost use Rattle.proof_container.specs.Inside.Cursor.{IsPast};
ghost use Rattle.proof_container.specs.Views.{Decodes};

use crate::fault::{Flaw, Malformed};
use crate::fields::Fields;
use crate::limits::MAX_ENTRIES;
use crate::versions::has_lemmas;
use std::alloc::AllocError;
use term_table::{Id, Node, Table};

/// Reads the next field as the number of an earlier entry and returns that entry.
pub fn part(fields: &mut Fields<'_>, table: &Table) -> Result<Id, Malformed>
    ensures read { Decodes (tree_at table.now)
        (part_at fields.old.bytes.now fields.old.read table.now.trees) result }
    ensures moves { OnOk result (IsPast fields.old fields.new 1) }
    ensures known { IfOk result (λ id. IsKnown table.now id) }
{
    let offset = fields.offset();
    let number = u64::from(fields.field()?);
    if number < table.count() {
        Ok(table.id(number))
    } else {
        Err(Malformed::At(offset, Flaw::ForwardRef))
    }
}

/// The earlier entry that the next field names as the function of an application, which is no
/// abstraction.
fn head(fields: &mut Fields<'_>, table: &Table) -> Result<Id, Malformed>
    ensures read { Decodes (tree_at table.now)
        (head_at fields.old.bytes.now fields.old.read table.now.trees) result }
    ensures moves { OnOk result (IsPast fields.old fields.new 1) }
    ensures known { IfOk result (λ id. IsKnown table.now id) }
{
    let offset = fields.offset();
    let f = part(fields, table)?;
    match table.node(f) {
        Node::Lam(_) => Err(Malformed::At(offset, Flaw::LambdaHead)),
        _ => Ok(f),
    }
}

/// The application of the two entries that the next two fields name, the first to the second.
fn application(fields: &mut Fields<'_>, table: &Table) -> Result<Node, Malformed>
    ensures read { Decodes (node_tree table.now)
        (application_at fields.old.bytes.now fields.old.read table.now.trees) result }
    ensures moves { OnOk result (IsPast fields.old fields.new 2) }
    ensures parts { IfOk result (λ n. PartsKnown table.now n) }
    ensures size { IfOk result (λ n. entry_size (node_tree table.now n) ≡ 3) }
{
    let f = head(fields, table)?;
    let a = part(fields, table)?;
    Ok(Node::App(f, a))
}

/// The next entry. It may be a lemma if the version has some.
#[tactic(auto, unfolding(crate::specs::Decoding::kind_at))]
fn entry(fields: &mut Fields<'_>, table: &Table, version: u32) -> Result<Node, Malformed>
    ensures read { Decodes (node_tree table.now)
        (entry_at version fields.old.bytes.now fields.old.read table.now.trees) result }
    ensures moves { IfOk result (λ n.
        IsPast fields.old fields.new (entry_size (node_tree table.now n))) }
    ensures parts { IfOk result (λ n. PartsKnown table.now n) }
{
    let offset = fields.offset();
    let kind = fields.field()?;
    match kind {
        0 => Ok(Node::Var(fields.field()?)),
        1 => Ok(Node::Const(fields.field()?)),
        2 => Ok(Node::Lit(fields.word()?)),
        3 => {
            let (operator, a, b) = fields.triple()?;
            Ok(Node::Calc(operator, a, b))
        }
        4 => {
            let (relation, a, b) = fields.triple()?;
            Ok(Node::Fact(relation, a, b))
        }
        5 => {
            let (relation, a, b) = fields.triple()?;
            Ok(Node::Deny(relation, a, b))
        }
        6 => application(fields, table),
        7 => Ok(Node::Lam(part(fields, table)?)),
        8 if has_lemmas(version) => Ok(Node::Lemma(fields.field()?)),
        _ => Err(Malformed::At(offset, Flaw::EntryKind)),
    }
}

/// Returns how many fields the entry of a node has.
pub fn size(table: &Table, node: &Node) -> usize
    ensures value { result ≡ entry_size (node_tree table.now node.now) }
    ensures small { result ≤ 6 }
{
    let _ = table; // only the clause reads it: the node is one of this table
    match node {
        Node::Var(_) | Node::Const(_) | Node::Lemma(_) | Node::Lam(_) => 2,
        Node::Lit(_) | Node::App(_, _) => 3,
        Node::Calc(_, _, _) | Node::Fact(_, _, _) | Node::Deny(_, _, _) => 6,
        Node::Fam(_) | Node::TApp(_, _) | Node::Pi(_, _) => 0,
    }
}

/// Whether the table has the node's tree; else it comes to the table's end.
fn is_double(table: &mut Table, node: Node) -> Result<bool, AllocError>
    requires { PartsKnown table.old node }
    ensures listed { IfOk result (λ b. b ≡ is_emitted (node_tree table.old node) table.old.trees) }
    ensures added { IfOk result (λ b. b ≡ false →
        table.new ≡ with_tree table.old (node_tree table.old node)) }
{
    let known = table.count();
    let id = table.intern(node)?;
    table.laws();
    Ok((id.index() as u64) < known)
}

/// The next `count` entries of a container of the version come to the table.
fn entries_from(
    fields: &mut Fields<'_>,
    version: u32,
    count: u32,
    table: &mut Table,
) -> Result<(), Malformed>
    ensures read { Decodes (λ _. (table.new.trees, fields.new.read))
        (entries_at version count fields.old.bytes.now fields.old.read table.old.trees) result }
    ensures bytes { OnOk result (fields.new.bytes.now ≡ fields.old.bytes.now) }
    ensures places { OnOk result (table.new.places ≡ table.old.places) }
    ensures few { OnOk result (length table.new.trees ≤ length table.old.trees + count) }
{
    for _ in 0..count {
        let offset = fields.offset();
        let node = entry(fields, table, version)?;
        if is_double(table, node)? {
            return Err(Malformed::At(offset, Flaw::DoubleEntry));
        }
    }
    Ok(())
}

/// Reads the entries of a container of the version, whose count is the next field, into the table.
#[tactic(auto, unfolding(crate::specs::Decoding::decoded_entries))]
pub fn entries(fields: &mut Fields<'_>, version: u32, table: &mut Table) -> Result<(), Malformed>
    requires empty { table.old.trees ≡ [] }
    ensures read { Decodes (λ _. (table.new.trees, fields.new.read))
        (decoded_entries version fields.old.bytes.now fields.old.read) result }
    ensures bytes { OnOk result (fields.new.bytes.now ≡ fields.old.bytes.now) }
    ensures places { OnOk result (table.new.places ≡ table.old.places) }
    ensures few { OnOk result (length table.new.trees ≤ MAX_ENTRIES) }
{
    let count = fields.between(0, MAX_ENTRIES, Flaw::Count)?;
    entries_from(fields, version, count, table)
}
