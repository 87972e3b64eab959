//! Reads a container, from front to back.

ghost use Rattle.std.specs.Prelude.{◌≡◌, [], ◌+◌, ◌*◌, ◌^◌, ◌<◌, ◌≤◌, length, map, ◌↔◌};
ghost use Rattle.std.specs.Prelude.{IfOk, IfErr, IfSome, IsTrue, OnOk};
ghost use Rattle.std.specs.List.{AllByRecursion};
ghost use Rattle.std.specs.Option.{option_map};
ghost use Rattle.term_table.specs.Table.{IsKnown, AllKnown, tree_at, id_trees};
ghost use Rattle.lf_lemmas.specs.Tables.{lemmas_in, LemmasKnown};
ghost use Rattle.proof_container.specs.Versions.{policy_size, bound_size, lemmas_size};
ghost use Rattle.proof_container.specs.Encoding.{EncodesContents};
ghost use Rattle.proof_container.specs.Decoding.{policy_at, step_bound_at, decoded_head};
ghost use Rattle.proof_container.specs.Decoding.{inv_at, invs_at, decoded_invs, decoded_proof};
ghost use Rattle.proof_container.specs.Decoding.{lemmas_at, decoded_lemmas};
ghost use Rattle.proof_container.specs.Decoding.{first_misplaced, entry_offset, decoded_end};
ghost use Rattle.proof_container.specs.Decoding.{decoded_container};
ghost use Rattle.proof_container.specs.declared.limits.TheConstants.{MAX_WORDS};
ghost use Rattle.proof_container.specs.declared.limits.TheConstants.{MAX_ENTRIES, MAX_INVS};
ghost use Rattle.proof_container.specs.declared.limits.TheConstants.{MAX_LEMMAS};
ghost use Rattle.proof_container.specs.Inside.Cursor.{IsPast};
ghost use Rattle.proof_container.specs.Inside.Fronts.{front_of};
ghost use Rattle.proof_container.specs.Inside.Walked.{IsPlaced};
ghost use Rattle.proof_container.specs.Views.{Decodes, IsNone, IsCanonical, AreKnown};
ghost use Rattle.proof_container.specs.Views.{contents_of};

use crate::container::{Container, Head};
use crate::entry::{entries, part, size};
use crate::fault::{Flaw, Malformed};
use crate::fields::{Fields, MAGIC};
use crate::limits::{MAX_BOUND, MAX_INVS, MAX_LEMMAS, MAX_WORDS};
use crate::versions::{has_lemmas, is_bounded, is_numbered, signature_of};
use crate::walk::walk_from;
use lf_signature::MAX_VERSION;
use std::alloc::Global;
use term_table::{Id, Table};

/// The fields before the entries.
#[derive(Clone, Copy)]
struct Start<'b> {
    version: u32,
    head: Head,
    bound: Option<u32>,
    code: &'b [u8],
}

/// The field that names the policy in this version: the next field, or the bytes of the next eight.
#[tactic(auto, unfolding(crate::specs::Decoding::policy_at))]
fn policy(fields: &mut Fields<'_>, version: u32) -> Result<Head, Malformed>
    requires place { fields.old.read ≡ 2 }
    ensures read { Decodes (λ h. h) (policy_at fields.old.bytes.now version) result }
    ensures moves { OnOk result (IsPast fields.old fields.new (policy_size version)) }
{
    if is_numbered(version) {
        return Ok(Head::Number(fields.field()?));
    }
    let mut digest = [0; 32];
    digest.copy_from_slice(fields.raw(8)?);
    Ok(Head::Digest(digest))
}

/// How many steps the code makes at most, if this version bounds them: the next field.
#[tactic(auto, unfolding(crate::specs::Decoding::step_bound_at))]
fn bound(fields: &mut Fields<'_>, version: u32) -> Result<Option<u32>, Malformed>
    requires place { fields.old.read ≡ 2 + policy_size version }
    ensures read { Decodes (λ b. b) (step_bound_at fields.old.bytes.now version) result }
    ensures moves { OnOk result (IsPast fields.old fields.new (bound_size version)) }
{
    if !is_bounded(version) {
        return Ok(None);
    }
    let steps = fields.between(1, MAX_BOUND, Flaw::Count)?;
    Ok(Some(steps))
}

/// The version, the field that names the policy, the step bound and the code; the next field is the
/// one after it.
#[tactic(auto, unfolding(crate::specs::Decoding::decoded_head))]
fn start_of<'b>(fields: &mut Fields<'b>) -> Result<Start<'b>, Malformed>
    requires { fields.old.read ≡ 0 }
    ensures read { Decodes (λ s. front_of s fields.new)
        (decoded_head fields.old.bytes.now) result }
    ensures bytes { OnOk result (fields.new.bytes.now ≡ fields.old.bytes.now) }
    ensures near { OnOk result (fields.new.read < 2 ^ 32) }
    ensures short { IfOk result (λ s. length s.code.now ≤ 4 * MAX_WORDS) }
{
    fields.exact(MAGIC, Flaw::Magic)?;
    let version = fields.between(1, MAX_VERSION, Flaw::Version)?;
    let head = policy(fields, version)?;
    let bound = bound(fields, version)?;
    let words = fields.between(1, MAX_WORDS, Flaw::Count)?;
    let code = fields.raw(words as usize)?;
    Ok(Start {
        version,
        head,
        bound,
        code,
    })
}

/// The next invariant. Its index is at least `low` and below the count of words.
fn inv(
    fields: &mut Fields<'_>,
    table: &Table,
    words: usize,
    low: u32,
) -> Result<(u32, Id), Malformed>
    ensures read { Decodes (λ inv. (inv.0, tree_at table.now inv.1))
        (inv_at fields.old.bytes.now fields.old.read table.now.trees words low) result }
    ensures moves { OnOk result (IsPast fields.old fields.new 2) }
    ensures known { IfOk result (λ inv. IsKnown table.now inv.1) }
    ensures small { IfOk result (λ inv. inv.0 < words) }
{
    let offset = fields.offset();
    let index = fields.field()?;
    if index < low || index as usize >= words {
        return Err(Malformed::At(offset, Flaw::InvOrder));
    }
    Ok((index, part(fields, table)?))
}

/// The next `count` invariants.
fn invs_from(
    alloc: Global,
    fields: &mut Fields<'_>,
    count: u32,
    table: &Table,
    words: usize,
) -> Result<Vec<(u32, Id)>, Malformed>
    requires few { count ≤ MAX_INVS }
    requires short { words ≤ MAX_WORDS }
    ensures read { Decodes (λ v. id_trees table.now v.items)
        (invs_at count fields.old.bytes.now fields.old.read table.now.trees words 0 []) result }
    ensures moves { IfOk result (λ v. IsPast fields.old fields.new (2 * length v.items)) }
    ensures known { IfOk result (λ v. AllByRecursion (λ inv. IsKnown table.now inv.1) v.items) }
    ensures few { IfOk result (λ v. length v.items ≤ MAX_INVS) }
{
    let mut invs = Vec::new(alloc);
    let mut low = 0;
    for _ in 0..count {
        let (index, id) = inv(fields, table, words, low)?;
        invs.push((index, id))?;
        low = index + 1;
    }
    Ok(invs)
}

/// The invariants, whose count is the next field.
#[tactic(auto, unfolding(crate::specs::Decoding::decoded_invs))]
fn invs(
    alloc: Global,
    fields: &mut Fields<'_>,
    table: &Table,
    words: usize,
) -> Result<Vec<(u32, Id)>, Malformed>
    requires { words ≤ MAX_WORDS }
    ensures read { Decodes (λ v. id_trees table.now v.items)
        (decoded_invs fields.old.bytes.now fields.old.read table.now.trees words) result }
    ensures moves { IfOk result (λ v. IsPast fields.old fields.new (1 + 2 * length v.items)) }
    ensures known { IfOk result (λ v. AllByRecursion (λ inv. IsKnown table.now inv.1) v.items) }
    ensures few { IfOk result (λ v. length v.items ≤ MAX_INVS) }
{
    let count = fields.between(0, MAX_INVS, Flaw::Count)?;
    invs_from(alloc, fields, count, table, words)
}

/// The next `count` lemmas.
fn lemmas_from(
    alloc: Global,
    fields: &mut Fields<'_>,
    count: u32,
    table: &Table,
) -> Result<Vec<(Id, Id)>, Malformed>
    requires few { count ≤ MAX_LEMMAS }
    ensures read { Decodes (λ v. lemmas_in table.now v.items)
        (lemmas_at count fields.old.bytes.now fields.old.read table.now.trees []) result }
    ensures moves { IfOk result (λ v. IsPast fields.old fields.new (2 * length v.items)) }
    ensures known { IfOk result (λ v. LemmasKnown table.now v.items) }
    ensures few { IfOk result (λ v. length v.items ≤ MAX_LEMMAS) }
{
    let mut lemmas = Vec::new(alloc);
    for _ in 0..count {
        let formula = part(fields, table)?;
        let proof = part(fields, table)?;
        lemmas.push((formula, proof))?;
    }
    Ok(lemmas)
}

/// The lemmas, if this version has some: the next field is their count.
#[tactic(auto, unfolding(crate::specs::Decoding::decoded_lemmas))]
fn lemmas(
    alloc: Global,
    fields: &mut Fields<'_>,
    version: u32,
    table: &Table,
) -> Result<Vec<(Id, Id)>, Malformed>
    ensures read { Decodes (λ v. lemmas_in table.now v.items)
        (decoded_lemmas version fields.old.bytes.now fields.old.read table.now.trees) result }
    ensures moves { IfOk result
        (λ v. IsPast fields.old fields.new (lemmas_size version (length v.items))) }
    ensures known { IfOk result (λ v. LemmasKnown table.now v.items) }
{
    if !has_lemmas(version) {
        return Ok(Vec::new(alloc));
    }
    let count = fields.between(0, MAX_LEMMAS, Flaw::Count)?;
    lemmas_from(alloc, fields, count, table)
}

/// The proof that the next field names, if it names one.
#[tactic(auto, unfolding(crate::specs::Decoding::decoded_proof))]
fn proof(fields: &mut Fields<'_>, table: &Table) -> Result<Option<Id>, Malformed>
    ensures read { Decodes (λ p. option_map (tree_at table.now) p)
        (decoded_proof fields.old.bytes.now fields.old.read table.now.trees) result }
    ensures moves { OnOk result (IsPast fields.old fields.new 1) }
    ensures known { IfOk result (λ p. IfSome p (λ id. IsKnown table.now id)) }
{
    let offset = fields.offset();
    let number = u64::from(fields.field()?);
    if number == 0 {
        return Ok(None);
    }
    if number > table.count() {
        return Err(Malformed::At(offset, Flaw::ForwardRef));
    }
    Ok(Some(table.id(number - 1)))
}

/// Whether the walk leaves entry e at place e.
fn is_placed(left: &[Id], e: u64) -> bool
    ensures { IsTrue result ↔ IsPlaced left.now e }
{
    let place = e as usize;
    place < left.len() && left[place].index() == place
}

/// The first entry that isn't the one at its place of the walk.
fn misplaced(table: &Table, left: &[Id]) -> Option<u64>
    requires { AllKnown table.now left.now }
    ensures place { result ≡
        first_misplaced table.now.trees (map (λ id. tree_at table.now id) left.now) }
    ensures within { IfSome result (λ e. e < length table.now.trees) }
{
    table.laws();
    for e in 0..table.count() {
        if !is_placed(left, e) {
            return Some(e);
        }
    }
    None
}

/// The byte offset of entry `e`, if the count of entries is the field `at`.
fn offset_of(table: &Table, at: usize, e: u64) -> u64
    requires known { e ≤ length table.now.trees }
    requires few { length table.now.trees ≤ MAX_ENTRIES }
    requires near { at < 2 ^ 32 }
    ensures { result ≡ entry_offset at table.now.trees e }
{
    let mut field = at + 1;
    for k in 0..e {
        field += size(table, &table.node(table.id(k)));
    }
    4 * field as u64
}

/// Whether no byte is left, and the entries, whose count is the field `at`, are in the order of the
/// walk; else the error.
#[tactic(auto, unfolding(crate::specs::Decoding::decoded_end))]
fn end(
    alloc: Global,
    fields: &Fields<'_>,
    at: usize,
    container: &Container<'_>,
) -> Result<(), Malformed>
    requires few { length container.now.table.trees ≤ MAX_ENTRIES }
    requires near { at < 2 ^ 32 }
    requires known { AreKnown container.now.table container.now.invs.items container.now.proof }
    requires lemmas { LemmasKnown container.now.table container.now.lemmas.items }
    ensures { let contents = contents_of container.now in
        let trees = container.now.table.trees in
        Decodes (λ _. contents)
        (decoded_end fields.now.bytes.now fields.now.read at trees contents) result }
{
    if fields.remaining() > 0 {
        return Err(Malformed::At(fields.offset(), Flaw::Trailing));
    }
    let table = &container.table;
    let walk = walk_from(
        alloc,
        table,
        &container.invs,
        &container.lemmas,
        container.proof,
    )?;
    match misplaced(table, &walk.left) {
        Some(e) => Err(Malformed::At(offset_of(table, at, e), Flaw::Order)),
        None => Ok(()),
    }
}

/// The container that the bytes read as; its terms are the entries.
#[tactic(auto, unfolding(crate::specs::Decoding::decoded_container))]
fn parse(alloc: Global, bytes: &[u8]) -> Result<Container<'_>, Malformed>
    ensures exact { Decodes contents_of (decoded_container bytes.now) result }
    ensures canonical { IfOk result (λ c. IsCanonical c) }
{
    let mut fields = Fields::new(bytes);
    let start = start_of(&mut fields)?;
    let words = start.code.len() / 4;
    let at = fields.place();
    let signature = signature_of(start.version);
    let mut table = Table::new(alloc, signature.places());
    entries(&mut fields, start.version, &mut table)?;
    let invs = invs(alloc, &mut fields, &table, words)?;
    let lemmas = lemmas(alloc, &mut fields, start.version, &table)?;
    let proof = proof(&mut fields, &table)?;
    let container = Container {
        version: start.version,
        head: start.head,
        bound: start.bound,
        code: start.code,
        table,
        invs,
        lemmas,
        proof,
    };
    end(alloc, &fields, at, &container)?;
    Ok(container)
}

/// Decodes a container from `bytes`. Its terms are the entries, in the order of the bytes, and its
/// code is a slice of `bytes`.
///
/// Errors: the first error in the bytes with its byte offset: fields are read from the front and
/// each is tested as soon as it is read. `Memory` says nothing about `bytes`. The format is this
/// project's own (`specs/Encoding`).
pub fn read(alloc: Global, bytes: &[u8]) -> Result<Container<'_>, Malformed>
    ensures decodes { IfOk result (λ c. EncodesContents bytes.now (contents_of c)) }
    ensures none { IfErr result (λ e. IsNone bytes.now e) }
    ensures exact { Decodes contents_of (decoded_container bytes.now) result }
    ensures canonical { IfOk result (λ c. IsCanonical c) }
{
    parse(alloc, bytes)
}
