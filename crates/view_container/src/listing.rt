//! Listing the container that bytes encode.

ghost use Rattle.std.specs.Prelude.{◌<◌, map, IfOk};
ghost use Rattle.alpha_cfg.specs.Flow.{IsCode};
ghost use Rattle.proof_container.specs.Encoding.{IsContents};
ghost use Rattle.proof_container.specs.Views.{IsCanonical, contents_of};
ghost use Rattle.asm_print.specs.Listing.{code_text};
ghost use Rattle.asm_print.specs.Views.{invs_view};
ghost use Rattle.view_container.specs.Sources.{extras_with, if_whole, source_listing};
ghost use Rattle.view_container.specs.Listing.{contents_read, comments_in, listing_of};
ghost use Rattle.view_container.specs.Answers.{Reports, Finds};
ghost use Rattle.view_container.specs.Views.{beside_view};

use crate::beside::{Beside, all_notes};
use crate::forms::short_forms;
use crate::judging::{code_in, formed, low};
use crate::plain::in_comments;
use crate::stop::{ListFault, NoSource, Stop};
use crate::words::{comments, hints};
use alpha_words::Insn;
use asm_print::{Extras, print_source};
use asm_text::MAX_SOURCE;
use formula_tree::Form;
use proof_container::{Container, MAX_BYTES, Malformed, read, signature_of};
use std::alloc::Global;
use view_entries::sizes;

/// The container in the bytes.
fn container_in(alloc: Global, bytes: &[u8]) -> Result<Container<'_>, ListFault>
    ensures exact { Reports contents_of (contents_read bytes.now) result }
    ensures contents { IfOk result (λ c. IsContents (contents_of c)) }
    ensures canonical { IfOk result (λ c. IsCanonical c) }
{
    if bytes.len() > MAX_BYTES as usize {
        return Err(ListFault::TooLong(bytes.len() as u64));
    }
    match read(alloc, bytes) {
        Err(Malformed::At(offset, flaw)) => Err(ListFault::Malformed(offset, flaw)),
        Err(Malformed::Memory) => Err(ListFault::Memory),
        Ok(container) => Ok(container),
    }
}

/// The source of code with these invariants, with the words' comments and the notes.
fn printed(
    alloc: Global,
    words: &[u8],
    lines: &[u32],
    code: &[Insn],
    invs: &[(u32, Form)],
    notes: &[Vec<u8>],
) -> Result<Vec<u8>, Stop>
    requires { IsCode code.now }
    ensures { let notes = map (λ n. n.items) notes.now in
        let extras = extras_with words.now lines.now notes in
        Finds (λ v. v.items) (if_whole (code_text extras code.now (invs_view invs.now))) result }
{
    let comments = comments(alloc, words, lines)?;
    let hints = hints(alloc, words)?;
    let extras = Extras {
        comments: &comments,
        hints: &hints,
        notes,
    };
    let text = print_source(alloc, code, invs, &extras)?;
    if text.len() > MAX_SOURCE {
        return Err(Stop::Not(NoSource::LongText));
    }
    Ok(text)
}

/// The container as a source.
fn source_of(alloc: Global, container: Container<'_>, beside: Beside<'_>) -> Result<Vec<u8>, Stop>
    requires contents { IsContents (contents_of container) }
    requires canonical { IsCanonical container }
    ensures { Finds (λ v. v.items) (source_listing (contents_of container.entry)
        (beside_view beside.entry)) result }
{
    let mut container = container;
    let code = code_in(alloc, &container)?;
    low(&container)?;
    let notes = all_notes(alloc, &container, beside)?;
    let signature = signature_of(container.version);
    let held = &mut container;
    formed(alloc, &mut held.table, signature, held.bound, &held.invs)?;
    let sizes = sizes(alloc, &held.table)?;
    let invs = short_forms(
        alloc,
        &mut held.table,
        signature,
        held.bound,
        &sizes,
        &held.invs,
    )?;
    printed(alloc, held.code, beside.lines, code.insns(), &invs, &notes)
}

/// Returns the container in the bytes as comments, and why it isn't shown as a source.
fn comments_of(alloc: Global, bytes: &[u8], why: NoSource) -> Result<Vec<u8>, ListFault>
    ensures { Reports (λ v. v.items) (comments_in bytes.now why) result }
{
    match container_in(alloc, bytes) {
        Err(fault) => Err(fault),
        Ok(container) => Ok(in_comments(alloc, &container, why)?),
    }
}

/// Returns the listing of the container in `bytes`.
///
/// The listing is a source with the container's code and invariants if the code bytes are code, no
/// term is higher than `vcgen::MAX_HEIGHT`, each invariant is a formula of the version's signature,
/// and no text is too long for a source. Each instruction's comment is its index, its word and, if
/// the source `beside` has so many instructions, their line in it; notes after the code list the
/// rest, and last from which index on that source's code is other code. Otherwise all lines are
/// comments: each word as an instruction, and the entries that the invariants are made of; the last
/// line says why the listing isn't a source.
///
/// Errors: `TooLong` and `Malformed` exactly if `bytes` aren't a container. `Memory`, and `Results`
/// past `lf_check::MOST_RESULTS` judgements of the invariants, say nothing about `bytes`.
pub fn list(alloc: Global, bytes: &[u8], beside: Beside<'_>) -> Result<Vec<u8>, ListFault>
    ensures exact { Reports (λ v. v.items)
        (listing_of bytes.now (beside_view beside.entry)) result }
{
    match container_in(alloc, bytes) {
        Err(fault) => Err(fault),
        Ok(container) => match source_of(alloc, container, beside) {
            Ok(text) => Ok(text),
            Err(Stop::Not(why)) => comments_of(alloc, bytes, why),
            Err(Stop::Memory) => Err(ListFault::Memory),
            Err(Stop::Results) => Err(ListFault::Results),
        },
    }
}
