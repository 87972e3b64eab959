//! Writes a container, and computes its size.

ghost use Rattle.std.specs.Prelude.{◌≡◌, ℕ, ◌-◌, ◌+◌, ◌*◌, ◌<◌, ◌≤◌, ◌^◌, ◌++◌, ◌%◌, ◌/◌, min};
ghost use Rattle.std.specs.Prelude.{sum_by, slice_index, length, map, true, None, Ok, [], ◌∷◌};
ghost use Rattle.std.specs.Prelude.{IfOk, IfSome, OnOk};
ghost use Rattle.std.specs.List.{flat_map};
ghost use Rattle.std.specs.Option.{option_map};
ghost use Rattle.term_table.specs.Table.{IsKnown, AllKnown, tree_at, id_trees};
ghost use Rattle.lf_lemmas.specs.Tables.{lemmas_in, LemmasKnown};
ghost use Rattle.proof_container.specs.Versions.{AreLemmasOf, lemmas_size};
ghost use Rattle.proof_container.specs.Contents.{lemma_roots, roots};
ghost use Rattle.proof_container.specs.Postorder.{entries, is_emitted, HasPartsFirst, AreEmitted};
ghost use Rattle.proof_container.specs.Encoding.{field_bytes, entry_number, entry_fields};
ghost use Rattle.proof_container.specs.Encoding.{inv_fields, lemma_fields, lemmas_fields};
ghost use Rattle.proof_container.specs.Encoding.{proof_field, tail_fields};
ghost use Rattle.proof_container.specs.Encoding.{policy_bytes, bound_fields, head_bytes};
ghost use Rattle.proof_container.specs.Encoding.{encoding_of, EncodesContents};
ghost use Rattle.proof_container.specs.declared.limits.TheConstants.{MAX_ENTRIES};
ghost use Rattle.proof_container.specs.Decoding.{entry_size, decoded_container};
ghost use Rattle.proof_container.specs.Inside.Walked.{IsReady, HaveParts, left_trees};
ghost use Rattle.proof_container.specs.Walks.{IsLeft};
ghost use Rattle.proof_container.specs.Views.{AreKnown, IsWritable, view_contents};

use crate::container::{Head, View};
use crate::entry::size;
use crate::fields::MAGIC;
use crate::versions::has_lemmas;
use crate::walk::{Walk, walk_from};
use byteorder::{ByteOrder, LittleEndian};
use std::alloc::{AllocError, Global};
use term_table::{Id, Node, Table};

/// Adds fields at the end.
fn put(out: &mut Vec<u8>, fields: &[u32]) -> Result<(), AllocError>
    ensures { OnOk result (out.new.items ≡ out.old.items ++ field_bytes fields.now) }
{
    let mut bytes = [0; 4];
    for field in fields {
        LittleEndian::write_u32(&mut bytes, *field);
        out.extend_from_slice(&bytes)?;
    }
    Ok(())
}

/// The low half of a word.
fn low(word: u64) -> u32
    ensures { result ≡ word % 2 ^ 32 }
{
    (word % 4_294_967_296) as u32
}

/// The high half of a word.
fn high(word: u64) -> u32
    ensures { result ≡ word / 2 ^ 32 }
{
    (word / 4_294_967_296) as u32
}

/// The number of the entry that the walk left for this id.
fn number(table: &Table, walk: &Walk, id: Id) -> u32
    requires left { IsLeft table.now (left_trees table.now walk.now) walk.now }
    requires known { IsKnown table.now id }
    requires listed { is_emitted (tree_at table.now id) (left_trees table.now walk.now) ≡ true }
    requires few { length walk.now.left.items ≤ MAX_ENTRIES }
    ensures value { result ≡ entry_number (left_trees table.now walk.now) (tree_at table.now id) }
    ensures small { result < MAX_ENTRIES }
{
    let _ = table; // only the clauses read it: the walk is over this table
    match walk.number(id) {
        Some(number) => number as u32,
        None => unreachable!(),
    }
}

/// Adds the entry of an id.
fn put_entry(out: &mut Vec<u8>, table: &Table, walk: &Walk, id: Id) -> Result<(), AllocError>
    requires left { IsLeft table.now (left_trees table.now walk.now) walk.now }
    requires known { IsKnown table.now id }
    requires parts { HasPartsFirst (left_trees table.now walk.now) (tree_at table.now id) }
    requires few { length walk.now.left.items ≤ MAX_ENTRIES }
    ensures { let fields = entry_fields (left_trees table.now walk.now) (tree_at table.now id) in
        OnOk result (out.new.items ≡ out.old.items ++ field_bytes fields) }
{
    match table.node(id) {
        Node::Var(n) => put(out, &[0, n]),
        Node::Const(n) => put(out, &[1, n]),
        Node::Lit(word) => put(out, &[2, low(word), high(word)]),
        Node::Calc(n, a, b) => put(out, &[3, n, low(a), high(a), low(b), high(b)]),
        Node::Fact(n, a, b) => put(out, &[4, n, low(a), high(a), low(b), high(b)]),
        Node::Deny(n, a, b) => put(out, &[5, n, low(a), high(a), low(b), high(b)]),
        Node::App(f, a) => {
            let f = number(table, walk, f);
            let a = number(table, walk, a);
            put(out, &[6, f, a])
        }
        Node::Lam(b) => put(out, &[7, number(table, walk, b)]),
        Node::Lemma(n) => put(out, &[8, n]),
        Node::Fam(_) | Node::TApp(_, _) | Node::Pi(_, _) => Ok(()),
    }
}

/// Adds the entries, in the order of the walk.
fn put_entries(out: &mut Vec<u8>, table: &Table, walk: &Walk) -> Result<(), AllocError>
    requires left { IsLeft table.now (left_trees table.now walk.now) walk.now }
    requires parts { HaveParts (left_trees table.now walk.now) (left_trees table.now walk.now) }
    requires few { length walk.now.left.items ≤ MAX_ENTRIES }
    ensures { let es = left_trees table.now walk.now in
        OnOk result (out.new.items ≡
        out.old.items ++ field_bytes (flat_map (entry_fields es) es)) }
{
    for id in &walk.left {
        put_entry(out, table, walk, *id)?;
    }
    Ok(())
}

/// Adds the invariants.
fn put_invs(
    out: &mut Vec<u8>,
    table: &Table,
    walk: &Walk,
    invs: &[(u32, Id)],
) -> Result<(), AllocError>
    requires left { IsLeft table.now (left_trees table.now walk.now) walk.now }
    requires known { AreKnown table.now invs.now None }
    requires listed { AreEmitted (left_trees table.now walk.now)
        (map (λ inv. tree_at table.now inv.1) invs.now) }
    requires few { length walk.now.left.items ≤ MAX_ENTRIES }
    ensures { let es = left_trees table.now walk.now in
        OnOk result (out.new.items ≡ out.old.items ++
        field_bytes (flat_map (inv_fields es) (id_trees table.now invs.now))) }
{
    for inv in invs {
        let (index, id) = *inv;
        put(out, &[index, number(table, walk, id)])?;
    }
    Ok(())
}

/// Adds lemmas, each the numbers of its formula and its proof.
fn put_pairs(
    out: &mut Vec<u8>,
    table: &Table,
    walk: &Walk,
    lemmas: &[(Id, Id)],
) -> Result<(), AllocError>
    requires left { IsLeft table.now (left_trees table.now walk.now) walk.now }
    requires known { LemmasKnown table.now lemmas.now }
    requires listed { AreEmitted (left_trees table.now walk.now)
        (lemma_roots (lemmas_in table.now lemmas.now)) }
    requires few { length walk.now.left.items ≤ MAX_ENTRIES }
    ensures { let es = left_trees table.now walk.now in
        OnOk result (out.new.items ≡ out.old.items ++
        field_bytes (flat_map (lemma_fields es) (lemmas_in table.now lemmas.now))) }
{
    for lemma in lemmas {
        let (formula, proof) = *lemma;
        let formula = number(table, walk, formula);
        let proof = number(table, walk, proof);
        put(out, &[formula, proof])?;
    }
    Ok(())
}

/// Appends the lemmas after their count, if the version has some.
fn put_lemmas(
    out: &mut Vec<u8>,
    table: &Table,
    walk: &Walk,
    version: u32,
    lemmas: &[(Id, Id)],
) -> Result<(), AllocError>
    requires left { IsLeft table.now (left_trees table.now walk.now) walk.now }
    requires known { LemmasKnown table.now lemmas.now }
    requires listed { AreEmitted (left_trees table.now walk.now)
        (lemma_roots (lemmas_in table.now lemmas.now)) }
    requires few { length walk.now.left.items ≤ MAX_ENTRIES }
    requires few_lemmas { AreLemmasOf version lemmas.now }
    ensures { let es = left_trees table.now walk.now in
        OnOk result (out.new.items ≡ out.old.items ++
        field_bytes (lemmas_fields version es (lemmas_in table.now lemmas.now))) }
{
    if !has_lemmas(version) {
        return Ok(());
    }
    put(out, &[lemmas.len() as u32])?;
    put_pairs(out, table, walk, lemmas)
}

/// The field that names the proof.
fn proof_number(table: &Table, walk: &Walk, proof: Option<Id>) -> u32
    requires left { IsLeft table.now (left_trees table.now walk.now) walk.now }
    requires known { IfSome proof (λ id. IsKnown table.now id) }
    requires listed { IfSome proof (λ id.
        is_emitted (tree_at table.now id) (left_trees table.now walk.now) ≡ true) }
    requires few { length walk.now.left.items ≤ MAX_ENTRIES }
    ensures { let tree = option_map (λ id. tree_at table.now id) proof in
        result ≡ proof_field (left_trees table.now walk.now) tree }
{
    match proof {
        None => 0,
        Some(id) => 1 + number(table, walk, id),
    }
}

/// Appends the fields after the code.
fn put_tail(out: &mut Vec<u8>, view: &View<'_>, walk: &Walk) -> Result<(), AllocError>
    requires { IsReady view.now walk.now }
    ensures { let es = left_trees view.now.table.now walk.now in
        OnOk result (out.new.items ≡
        out.old.items ++ field_bytes (tail_fields es (view_contents view.now))) }
{
    put(out, &[walk.left.len() as u32])?;
    put_entries(out, view.table, walk)?;
    put(out, &[view.invs.len() as u32])?;
    put_invs(out, view.table, walk, view.invs)?;
    put_lemmas(out, view.table, walk, view.version, view.lemmas)?;
    put(out, &[proof_number(view.table, walk, view.proof)])
}

/// What its type says of code.
fn limits(code: &[u8])
    ensures { (i : ℕ) → slice_index code.now i < 256 }
{
    let _ = code; // opens its bytes' range for the prover
}

/// Adds what names the policy.
fn put_policy(out: &mut Vec<u8>, head: &Head) -> Result<(), AllocError>
    ensures { OnOk result (out.new.items ≡ out.old.items ++ policy_bytes head.now) }
{
    match head {
        Head::Number(number) => put(out, &[*number]),
        Head::Digest(digest) => out.extend_from_slice(digest),
    }
}

/// Adds the bound, if there is one, and how many words of code follow.
fn put_counts(out: &mut Vec<u8>, bound: Option<u32>, words: u32) -> Result<(), AllocError>
    ensures { let fields = bound_fields bound ++ words ∷ [] in
        OnOk result (out.new.items ≡ out.old.items ++ field_bytes fields) }
{
    match bound {
        None => put(out, &[words]),
        Some(steps) => put(out, &[steps, words]),
    }
}

/// Appends the fields before the code, which has `words` words.
fn put_head(out: &mut Vec<u8>, view: &View<'_>, words: u32) -> Result<(), AllocError>
    ensures { let held = view_contents view.now in
        OnOk result (out.new.items ≡ out.old.items ++ head_bytes held words) }
{
    put(out, &[MAGIC, view.version])?;
    put_policy(out, &view.head)?;
    put_counts(out, view.bound, words)
}

/// Encodes the contents of `view`. The entries are in the order of the walk from the invariants,
/// then each lemma's formula and proof, and then the proof; other terms of the table aren't
/// written. Except in a version with lemmas, `view` must have no lemmas and its roots must be terms
/// that cite none, since there is no kind of entry for a citation.
///
/// Errors: out of memory alone.
pub fn write(alloc: Global, view: &View<'_>) -> Result<Vec<u8>, AllocError>
    requires { IsWritable view.now }
    ensures encodes { IfOk result (λ v. EncodesContents v.items (view_contents view.now)) }
    ensures round_trip { let c = view_contents view.now in
        IfOk result (λ v. decoded_container v.items ≡ Ok c) }
{
    view.table.laws();
    let code = view.code;
    limits(code);
    let walk = walk_from(alloc, view.table, view.invs, view.lemmas, view.proof)?;
    let mut out = Vec::new(alloc);
    put_head(&mut out, view, (code.len() / 4) as u32)?;
    out.extend_from_slice(code)?;
    put_tail(&mut out, view, &walk)?;
    Ok(out)
}

/// How many fields the entries have that the walk left.
fn entries_len(table: &Table, walk: &Walk) -> u64
    requires { AllKnown table.now walk.now.left.items }
    ensures { result ≡ min (sum_by entry_size (left_trees table.now walk.now)) (2 ^ 64 - 1) }
{
    let mut fields: u64 = 0;
    for id in &walk.left {
        fields = fields.saturating_add(size(table, &table.node(*id)) as u64);
    }
    fields
}

/// How many fields name the policy.
fn policy_len(head: Head) -> u64
    ensures value { 4 * result ≡ length (policy_bytes head) }
    ensures small { result ≤ 8 }
{
    match head {
        Head::Number(_) => 1,
        Head::Digest(digest) => digest.len() as u64 / 4,
    }
}

/// How many fields bound the steps.
fn bound_len(bound: Option<u32>) -> u64
    ensures value { result ≡ length (bound_fields bound) }
    ensures small { result ≤ 1 }
{
    match bound {
        None => 0,
        Some(_) => 1,
    }
}

/// How many fields the lemmas have, with their count, in this version.
fn lemmas_len(version: u32, lemmas: &[(Id, Id)]) -> u64
    ensures { result ≡ min (lemmas_size version (length lemmas.now)) (2 ^ 64 - 1) }
{
    if !has_lemmas(version) {
        return 0;
    }
    (lemmas.len() as u64).saturating_mul(2).saturating_add(1)
}

/// Returns the size of the container of `view`: how many entries it has, and how many bytes. The
/// number of bytes saturates at 18,446,744,073,709,551,615.
///
/// Errors: out of memory alone.
pub fn extent(alloc: Global, view: &View<'_>) -> Result<(u64, u64), AllocError>
    requires known { AreKnown view.now.table.now view.now.invs.now view.now.proof }
    requires lemmas { LemmasKnown view.now.table.now view.now.lemmas.now }
    ensures entries { IfOk result (λ e. e.0 ≡ length (entries (roots (view_contents view.now)))) }
    ensures bytes { let size = length (encoding_of (view_contents view.now)) in
        IfOk result (λ e. e.1 ≡ min size (2 ^ 64 - 1)) }
{
    let walk = walk_from(alloc, view.table, view.invs, view.lemmas, view.proof)?;
    let count = view.invs.len() as u64;
    let fields = entries_len(view.table, &walk)
        .saturating_add(6 + policy_len(view.head) + bound_len(view.bound))
        .saturating_add(2 * count)
        .saturating_add(lemmas_len(view.version, view.lemmas));
    let bytes = fields
        .saturating_mul(4)
        .saturating_add(view.code.len() as u64);
    Ok((walk.left.len() as u64, bytes))
}
