//! Containers with other invariants.

ghost use Rattle.std.specs.Prelude.{◌≡◌, ◌≤◌, true, length, IfOk, IfSome};
ghost use Rattle.term_table.specs.Table.{IsKnown, PartsKnown, Extends, tree_at, node_tree};
ghost use Rattle.lf_lemmas.specs.Tables.{LemmasKnown};
ghost use Rattle.proof_container.specs.Contents.{roots};
ghost use Rattle.proof_container.specs.Postorder.{entries};
ghost use Rattle.proof_container.specs.Encoding.{IsContents, IsEntryTerm};
ghost use Rattle.proof_container.specs.Views.{IsCanonical, AreKnown, IsWritable};
ghost use Rattle.proof_container.specs.Views.{contents_of, view_contents};
ghost use Rattle.proof_container.specs.declared.limits.TheConstants.{MAX_ENTRIES};
ghost use Rattle.auto_search.specs.Inside.Terms.{is_applicable, IsPlain, ArePlain, AreRisingIds};
ghost use Rattle.auto_search.specs.Inside.Terms.{IsEncoded, IsRemade, IsRemadeOf};
ghost use Rattle.auto_search.specs.Inside.Terms.{AreSameBut, IsContainer, IsKeptIfAny, HasInvariants};
ghost use Rattle.auto_search.specs.Outcomes.{IsOf};

use auto_candidates::known;
use auto_rounds::Found;
use lf_signature::LONGEST;
use pcc_gate::MAX_WEIGHT;
use proof_container::{
    Container, MAX_BYTES, MAX_ENTRIES, MAX_INVS, Malformed, View, extent, laws, read, write,
};
use std::alloc::{AllocError, Global};
use term_table::{Id, Node, Table};

/// The most parts that an invariant's term may have, those that it shares counted each time.
const MOST_NODES: u32 = 100_000;

/// Whether the term may stand before an argument.
fn is_applicable(table: &Table, id: Id) -> bool
    requires { IsKnown table.now id }
    ensures { result ≡ is_applicable (tree_at table.now id) }
{
    match table.node(id) {
        Node::Var(_) => true,
        Node::Const(_) => true,
        Node::Lit(_) => true,
        Node::Calc(_, _, _) => true,
        Node::Fact(_, _, _) => true,
        Node::Deny(_, _, _) => true,
        Node::Lemma(_) => true,
        Node::App(_, _) => true,
        Node::Lam(_) => false,
        Node::Fam(_) => false,
        Node::TApp(_, _) => false,
        Node::Pi(_, _) => false,
    }
}

/// Adds the term of a node.
fn added(to: &mut Table, node: Node) -> Result<Option<Id>, AllocError>
    requires parts { PartsKnown to.old node }
    requires plain { IsEntryTerm 1 (node_tree to.old node) }
    ensures plain { IfOk result (λ o. IfSome o (IsPlain to.new)) }
    ensures extends { Extends to.old to.new }
{
    let id = to.intern(node)?;
    Ok(Some(id))
}

/// Applies a term to an argument; None if it is one that no argument stands behind.
fn applied(to: &mut Table, function: Id, argument: Id) -> Result<Option<Id>, AllocError>
    requires function { IsPlain to.old function }
    requires argument { IsPlain to.old argument }
    ensures plain { IfOk result (λ o. IfSome o (IsPlain to.new)) }
    ensures extends { Extends to.old to.new }
{
    if is_applicable(to, function) {
        added(to, Node::App(function, argument))
    } else {
        Ok(None)
    }
}

/// Copies a term into the other table. None if it isn't one that a container of any version may
/// have, or if it has more parts than `left`, which loses those that are copied.
#[tactic(auto, using(crate::proofs::Copies::rows))]
fn copied(from: &Table, to: &mut Table, id: Id, left: &mut u32) -> Result<Option<Id>, AllocError>
    requires { IsKnown from.now id }
    ensures plain { IfOk result (λ o. IfSome o (IsPlain to.new)) }
    ensures extends { Extends to.old to.new }
{
    if *left == 0 {
        return Ok(None);
    }
    *left -= 1;
    match from.node(id) {
        Node::Var(n) => added(to, Node::Var(n)),
        Node::Const(n) => added(to, Node::Const(n)),
        Node::Lit(w) => added(to, Node::Lit(w)),
        Node::Calc(o, a, b) => added(to, Node::Calc(o, a, b)),
        Node::Fact(p, a, b) => added(to, Node::Fact(p, a, b)),
        Node::Deny(p, a, b) => added(to, Node::Deny(p, a, b)),
        Node::App(f, a) => {
            let Some(function) = copied(from, to, f, left)? else {
                return Ok(None);
            };
            let Some(argument) = copied(from, to, a, left)? else {
                return Ok(None);
            };
            applied(to, function, argument)
        }
        Node::Lam(body) => {
            let Some(inner) = copied(from, to, body, left)? else {
                return Ok(None);
            };
            added(to, Node::Lam(inner))
        }
        Node::Lemma(_) | Node::Fam(_) | Node::TApp(_, _) | Node::Pi(_, _) => Ok(None),
    }
}

/// Copies a term into the other table, with at most `most` parts. None if it isn't one of the
/// table's, or not one that a container of any version may have, or has more.
fn copy_within(from: &Table, to: &mut Table, id: Id, most: u32) -> Result<Option<Id>, AllocError>
    ensures plain { IfOk result (λ o. IfSome o (IsPlain to.new)) }
    ensures extends { Extends to.old to.new }
{
    let Some(id) = known(from, id) else {
        return Ok(None);
    };
    let mut left = most;
    copied(from, to, id, &mut left)
}

/// Copies a term into the other table, with at most `MOST_NODES` parts. None if it isn't one of the
/// table's, or not one that a container of any version may have, or has more.
pub(crate) fn copy_of(from: &Table, to: &mut Table, id: Id) -> Result<Option<Id>, AllocError>
    ensures plain { IfOk result (λ o. IfSome o (IsPlain to.new)) }
    ensures extends { Extends to.old to.new }
{
    copy_within(from, to, id, MOST_NODES)
}

/// Copies the terms of invariants into the other table.
fn copies_of(
    alloc: Global,
    from: &Table,
    table: &mut Table,
    invs: &[(u32, Id)],
) -> Result<Option<Vec<(u32, Id)>>, AllocError>
    ensures plain { IfOk result (λ o. IfSome o (λ v. ArePlain table.new v.items)) }
    ensures size { IfOk result (λ o. IfSome o (λ v. length v.items ≡ length invs.now)) }
    ensures extends { Extends table.old table.new }
{
    let mut copies = Vec::new(alloc);
    for i in 0..invs.len() {
        let (index, form) = invs[i];
        match copy_of(from, table, form)? {
            Some(id) => copies.push((index, id))?,
            None => return Ok(None),
        }
    }
    Ok(Some(copies))
}

/// Whether the indices rise from `low` on, and are below `words`.
fn are_rising(invs: &[(u32, Id)], low: usize, words: usize) -> bool
    ensures { result ≡ true → AreRisingIds low words invs.now }
{
    match invs {
        [] => true,
        [first, rest @ ..] => {
            let index = first.0 as usize;
            if index < low {
                return false;
            }
            if words <= index {
                return false;
            }
            are_rising(rest, index + 1, words)
        }
    }
}

/// The bytes of the container that the view shows; None if they would be past a limit.
fn written(alloc: Global, view: &View<'_>) -> Result<Option<Vec<u8>>, AllocError>
    requires roots { AreKnown view.now.table.now view.now.invs.now view.now.proof }
    requires lemmas { LemmasKnown view.now.table.now view.now.lemmas.now }
    requires writable { length (entries (roots (view_contents view.now))) ≤ MAX_ENTRIES
        → IsWritable view.now }
    ensures { IfOk result (λ o. IfSome o (λ out. IsEncoded (view_contents view.now) out.items)) }
{
    let (entries, bytes) = extent(alloc, view)?;
    if entries > u64::from(MAX_ENTRIES) {
        return Ok(None);
    }
    if bytes > u64::from(MAX_BYTES) {
        return Ok(None);
    }
    let out = write(alloc, view)?;
    Ok(Some(out))
}

/// Returns the bytes of the container with these invariants, which are terms of `from`, in the
/// place of its own, and without proof. None if it would be past a limit.
fn remade(
    alloc: Global,
    container: Container<'_>,
    from: &Table,
    invs: &[(u32, Id)],
) -> Result<Option<Vec<u8>>, AllocError>
    requires contents { IsContents (contents_of container) }
    requires canonical { IsCanonical container }
    ensures { let c = contents_of container.entry in let count = length invs.now in
        IfOk result (λ o. IfSome o (λ out. IsRemade c count out.items)) }
{
    let version = container.version;
    let head = container.head;
    let bound = container.bound;
    let code = container.code;
    let mut table = container.table;
    let lemmas = container.lemmas;
    let Some(copies) = copies_of(alloc, from, &mut table, invs)? else {
        return Ok(None);
    };
    if copies.len() > MAX_INVS as usize {
        return Ok(None);
    }
    let rising = are_rising(&copies, 0, code.len() / 4);
    if !rising {
        return Ok(None);
    }
    let view = View {
        version,
        head,
        bound,
        code,
        table: &table,
        invs: &copies,
        lemmas: &lemmas,
        proof: None,
    };
    written(alloc, &view)
}

/// Returns the bytes of the container in `input` with these invariants, terms of `table`, in the
/// place of its own, and without proof. None if there is no container in `input`, or if the
/// container would be past a limit.
///
/// Errors: out of memory.
pub(crate) fn with_invariants(
    alloc: Global,
    input: &[u8],
    table: &Table,
    invs: &[(u32, Id)],
) -> Result<Option<Vec<u8>>, AllocError>
    ensures { let count = length invs.now in
        IfOk result (λ o. IfSome o (λ out. IsRemadeOf input.now count out.items)) }
{
    match read(alloc, input) {
        Ok(container) => remade(alloc, container, table, invs),
        Err(Malformed::At(_, _)) => Ok(None),
        Err(Malformed::Memory) => Err(AllocError),
    }
}

/// The bytes of the container with these invariants and this proof, which are terms of another
/// table. None if it would be past a limit.
fn with_both(
    alloc: Global,
    container: Container<'_>,
    found: &Found,
) -> Result<Option<Vec<u8>>, AllocError>
    requires contents { IsContents (contents_of container) }
    requires canonical { IsCanonical container }
{
    let version = container.version;
    let head = container.head;
    let bound = container.bound;
    let words = container.code;
    let mut table = container.table;
    let lemmas = container.lemmas;
    let Some(proof) = copy_within(&found.table, &mut table, found.proof, MAX_WEIGHT)? else {
        return Ok(None);
    };
    let Some(copies) = copies_of(alloc, &found.table, &mut table, &found.invs)? else {
        return Ok(None);
    };
    if copies.len() > MAX_INVS as usize {
        return Ok(None);
    }
    let rising = are_rising(&copies, 0, words.len() / 4);
    if !rising {
        return Ok(None);
    }
    let view = View {
        version,
        head,
        bound,
        code: words,
        table: &table,
        invs: &copies,
        lemmas: &lemmas,
        proof: Some(proof),
    };
    written(alloc, &view)
}

/// Returns the bytes of the container in `input` with the invariants and the proof that were found
/// for it. None if there is no container in `input`, or if it would be past a limit.
///
/// Errors: out of memory.
pub(crate) fn with_proof(
    alloc: Global,
    input: &[u8],
    found: &Found,
) -> Result<Option<Vec<u8>>, AllocError> {
    match read(alloc, input) {
        Ok(container) => with_both(alloc, container, found),
        Err(Malformed::At(_, _)) => Ok(None),
        Err(Malformed::Memory) => Err(AllocError),
    }
}

/// Returns the bytes of the container in `input` without invariants and proof.
///
/// Errors: out of memory.
pub(crate) fn bare_of(alloc: Global, input: &[u8]) -> Result<Option<Vec<u8>>, AllocError>
    ensures { IfOk result (λ o. IfSome o (λ out. IsRemadeOf input.now 0 out.items)) }
{
    let empty = Table::new(alloc, LONGEST.places());
    let bare = with_invariants(alloc, input, &empty, &[])?;
    Ok(bare)
}

/// Returns the bytes of `input` if they are a container.
///
/// Errors: out of memory.
pub(crate) fn if_container(alloc: Global, input: &[u8]) -> Result<Option<Vec<u8>>, AllocError>
    ensures { IfOk result (λ o. IsKeptIfAny input.now o) }
{
    let mut bytes = Vec::new(alloc);
    bytes.extend_from_slice(input)?;
    match read(alloc, input) {
        Ok(_) => Ok(Some(bytes)),
        Err(Malformed::At(_, _)) => Ok(None),
        Err(Malformed::Memory) => Err(AllocError),
    }
}

/// Whether both are containers that are the same but for invariants and proof.
fn are_same_but(alloc: Global, input: &[u8], out: &[u8]) -> Result<bool, AllocError>
    ensures { IfOk result (λ b. b ≡ true → AreSameBut input.now out.now) }
{
    laws();
    let Some(first) = bare_of(alloc, input)? else {
        return Ok(false);
    };
    let Some(second) = bare_of(alloc, out)? else {
        return Ok(false);
    };
    Ok(first.as_slice() == second.as_slice())
}

/// Returns how many invariants the container in the bytes has.
///
/// Errors: out of memory.
pub(crate) fn invariants_in(alloc: Global, bytes: &[u8]) -> Result<u64, AllocError>
    requires { IsContainer bytes.now }
    ensures { IfOk result (HasInvariants bytes.now) }
{
    match read(alloc, bytes) {
        Ok(container) => Ok(container.invs.len() as u64),
        Err(Malformed::At(_, _)) => unreachable!(),
        Err(Malformed::Memory) => Err(AllocError),
    }
}

/// Returns how many invariants the container in `out` has, if it is the one in `input` but for
/// invariants and proof.
///
/// Errors: out of memory.
pub(crate) fn count_if_same(
    alloc: Global,
    input: &[u8],
    out: &[u8],
) -> Result<Option<u64>, AllocError>
    ensures { IfOk result (λ o. IfSome o (IsOf input.now out.now)) }
{
    let same = are_same_but(alloc, input, out)?;
    if same {
        let count = invariants_in(alloc, out)?;
        Ok(Some(count))
    } else {
        Ok(None)
    }
}
