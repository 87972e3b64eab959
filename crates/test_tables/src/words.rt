//! Rows on a code word and its text.

use crate::bytes::{field, word_of};
use alpha_words::{Insn, decode, lawful};
use asm_text::{LineFault, MAX_SOURCE, Source, SrcInsn, read_source};
use std::alloc::{AllocError, Global};
use word_ops::Profile;

/// An instruction, or why there is none, as text.
fn read_text(alloc: Global, word: u32, profile: Profile) -> Result<String, AllocError> {
    match decode(word, profile) {
        Ok(insn) => format!(in alloc; "{insn:?}"),
        Err(bad) => format!(in alloc; "{bad:?}"),
    }
}

/// The verdict on a word: `Ok`, or why it is no instruction.
fn verdict(alloc: Global, word: u32, profile: Profile) -> Result<String, AllocError> {
    match decode(word, profile) {
        Ok(_) => format!(in alloc; "Ok"),
        Err(bad) => format!(in alloc; "{bad:?}"),
    }
}

/// An instruction that a source says, or why the profile refuses it.
fn insn_text(alloc: Global, insn: Insn, profile: Profile) -> Result<String, AllocError> {
    match lawful(insn, profile) {
        Ok(()) => format!(in alloc; "{insn:?}"),
        Err(bad) => format!(in alloc; "{bad:?}"),
    }
}

/// The first instruction of a source, where it names no label.
fn first_text(alloc: Global, source: &Source, profile: Profile) -> Result<String, AllocError> {
    match source.insns.first() {
        Some((_, SrcInsn::Plain(insn))) => insn_text(alloc, *insn, profile),
        _ => format!(in alloc; "no instruction"),
    }
}

/// What a text is as a source: its instruction, or what is wrong.
fn source_text(alloc: Global, text: &str, profile: Profile) -> Result<String, AllocError> {
    let bytes = text.as_bytes();
    if bytes.len() > MAX_SOURCE {
        return format!(in alloc; "too long");
    }
    match read_source(alloc, bytes, profile, false) {
        Ok(source) => first_text(alloc, &source, profile),
        Err(LineFault::At(_, flaw)) => format!(in alloc; "{flaw:?}"),
        Err(LineFault::Memory) => format!(in alloc; "no memory"),
    }
}

/// `the word`, where a source of the text says the instruction or the refusal that the word is under
/// the second profile; else what it says.
fn compared(alloc: Global, text: &str, word: u32) -> Result<String, AllocError> {
    let said = source_text(alloc, text, Profile::Two)?;
    let read = read_text(alloc, word, Profile::Two)?;
    if said.as_str() == read.as_str() {
        return format!(in alloc; "the word");
    }
    Ok(said)
}

/// Returns how many rows a line has: two on the word, and two on the text if there is one.
pub fn rows(line: &str) -> usize {
    if field(line, 1).is_empty() { 2 } else { 4 }
}

/// Returns the expected answer of a row of a line.
pub fn want(line: &str, row: usize) -> &str {
    match row {
        0 => field(line, 2),
        1 => field(line, 3),
        2 => "the word",
        _ => "Mnemonic",
    }
}

/// The answer to a row on a word and on the text of a line.
fn answer_of(alloc: Global, word: u32, text: &str, row: usize) -> Result<String, AllocError> {
    match row {
        0 => verdict(alloc, word, Profile::Two),
        1 => verdict(alloc, word, Profile::One),
        2 => compared(alloc, text, word),
        _ => source_text(alloc, text, Profile::One),
    }
}

/// Returns the answer to a row of a line.
pub fn answer(alloc: Global, line: &str, row: usize) -> Result<String, AllocError> {
    match word_of(field(line, 0)) {
        None => format!(in alloc; "no word"),
        Some(word) => answer_of(alloc, word, field(line, 1), row),
    }
}
