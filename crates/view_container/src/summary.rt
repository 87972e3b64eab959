//! Notes on what a container holds in addition to its code.

ghost use Rattle.std.specs.Prelude.{◌≡◌, ◌+◌, ◌<◌, ◌^◌, ◌++◌, [], ◌∷◌, length, map, IfOk, OnOk};
ghost use Rattle.std.specs.Prelude.{IfSome};
ghost use Rattle.std.specs.Option.{option_map};
ghost use Rattle.term_table.specs.Table.{IsKnown, tree_at};
ghost use Rattle.lf_signature.specs.Constants.{places_of};
ghost use Rattle.lf_lemmas.specs.Tables.{lemmas_in, LemmasKnown};
ghost use Rattle.proof_container.specs.Views.{IsCanonical, contents_of};
ghost use Rattle.view_container.specs.Notes.{named_policy, version_note, bound_notes};
ghost use Rattle.view_container.specs.Notes.{counts_note, measures_text, proof_note};
ghost use Rattle.view_container.specs.Notes.{lemma_note, lemma_notes, notes_of};

use crate::push::push_hex;
use lf_signature::WordSignature;
use proof_container::{Container, Head, signature_of};
use std::alloc::{AllocError, Global};
use term_table::{Id, Table};
use view_entries::push_number;

/// Appends what names the policy.
fn push_policy(alloc: Global, out: &mut Vec<u8>, head: Head) -> Result<(), AllocError>
    ensures { OnOk result (out.new.items ≡ out.old.items ++ named_policy head) }
{
    match head {
        Head::Number(n) => {
            out.extend_from_slice(b"policy number ")?;
            push_number(out, u64::from(n))
        }
        Head::Digest(digest) => {
            out.extend_from_slice(b"policy ")?;
            push_hex(alloc, out, &digest)
        }
    }
}

/// The note of the version and the policy.
fn version_note(alloc: Global, container: &Container<'_>) -> Result<Vec<u8>, AllocError>
    ensures { IfOk result (λ v. v.items ≡ version_note (contents_of container.now)) }
{
    let mut out = Vec::new(alloc);
    out.extend_from_slice(b"version ")?;
    push_number(&mut out, u64::from(container.version))?;
    out.extend_from_slice(b", ")?;
    push_policy(alloc, &mut out, container.head)?;
    Ok(out)
}

/// The note of a bound.
fn bound_note(alloc: Global, bound: u32) -> Result<Vec<u8>, AllocError>
    ensures { IfOk result (λ v. v.items ∷ [] ≡ bound_notes (Some bound)) }
{
    let mut out = Vec::new(alloc);
    out.extend_from_slice(b"bound ")?;
    push_number(&mut out, u64::from(bound))?;
    Ok(out)
}

/// The note of how many invariants and entries there are.
fn counts_note(alloc: Global, container: &Container<'_>) -> Result<Vec<u8>, AllocError>
    requires canonical { IsCanonical container.now }
    ensures { IfOk result (λ v. v.items ≡ counts_note (contents_of container.now)) }
{
    let mut out = Vec::new(alloc);
    push_number(&mut out, container.invs.len() as u64)?;
    out.extend_from_slice(b" invariants, ")?;
    push_number(&mut out, container.table.count())?;
    out.extend_from_slice(b" entries")?;
    Ok(out)
}

/// Appends the measures of a proof.
fn push_measures(
    out: &mut Vec<u8>,
    table: &Table,
    signature: WordSignature,
    id: Id,
) -> Result<(), AllocError>
    requires id { IsKnown table.now id }
    requires places { table.now.places ≡ places_of signature }
    ensures { OnOk result (out.new.items
        ≡ out.old.items ++ measures_text signature (tree_at table.now id)) }
{
    let _ = signature; // only the clauses speak of it
    out.extend_from_slice(b"weight ")?;
    push_number(out, u64::from(table.weight(id)))?;
    out.extend_from_slice(b", height ")?;
    push_number(out, u64::from(table.height(id)))
}

/// The note of the proof.
fn proof_note(
    alloc: Global,
    table: &Table,
    signature: WordSignature,
    proof: Option<Id>,
) -> Result<Vec<u8>, AllocError>
    requires known { IfSome proof (IsKnown table.now) }
    requires places { table.now.places ≡ places_of signature }
    ensures { IfOk result (λ v. v.items
        ≡ proof_note signature (option_map (tree_at table.now) proof)) }
{
    let mut out = Vec::new(alloc);
    match proof {
        None => out.extend_from_slice(b"no proof")?,
        Some(id) => {
            out.extend_from_slice(b"proof: ")?;
            push_measures(&mut out, table, signature, id)?;
        }
    }
    Ok(out)
}

/// The note of a lemma of that number.
fn lemma_note(
    alloc: Global,
    table: &Table,
    signature: WordSignature,
    number: u64,
    proof: Id,
) -> Result<Vec<u8>, AllocError>
    requires proof { IsKnown table.now proof }
    requires places { table.now.places ≡ places_of signature }
    ensures { IfOk result (λ v. v.items
        ≡ lemma_note signature number (tree_at table.now proof)) }
{
    let mut out = Vec::new(alloc);
    out.extend_from_slice(b"lemma ")?;
    push_number(&mut out, number)?;
    out.extend_from_slice(b": ")?;
    push_measures(&mut out, table, signature, proof)?;
    Ok(out)
}

/// Appends the note of each lemma, the first of which has that number.
fn push_lemma_notes(
    alloc: Global,
    notes: &mut Vec<Vec<u8>>,
    table: &Table,
    signature: WordSignature,
    number: u64,
    lemmas: &[(Id, Id)],
) -> Result<(), AllocError>
    requires known { LemmasKnown table.now lemmas.now }
    requires places { table.now.places ≡ places_of signature }
    requires small { number + length lemmas.now < 2 ^ 64 }
    ensures { OnOk result (map (λ v. v.items) notes.new.items ≡ map (λ v. v.items) notes.old.items
        ++ lemma_notes signature number (lemmas_in table.now lemmas.now)) }
{
    match lemmas {
        [] => Ok(()),
        [first, rest @ ..] => {
            let (_, proof) = *first;
            notes.push(lemma_note(alloc, table, signature, number, proof)?)?;
            push_lemma_notes(alloc, notes, table, signature, number + 1, rest)
        }
    }
}

/// Returns the notes on what the container holds. The terms that they name are its entries.
pub fn notes(alloc: Global, container: &Container<'_>) -> Result<Vec<Vec<u8>>, AllocError>
    requires canonical { IsCanonical container.now }
    ensures { IfOk result (λ v. map (λ n. n.items) v.items ≡ notes_of (contents_of container.now)) }
{
    let signature = signature_of(container.version);
    let table = &container.table;
    let mut notes = Vec::new(alloc);
    notes.push(version_note(alloc, container)?)?;
    if let Some(bound) = container.bound {
        notes.push(bound_note(alloc, bound)?)?;
    }
    notes.push(counts_note(alloc, container)?)?;
    notes.push(proof_note(alloc, table, signature, container.proof)?)?;
    push_lemma_notes(alloc, &mut notes, table, signature, 0, &container.lemmas)?;
    Ok(notes)
}
