//! What comments say of instruction words.

ghost use Rattle.std.specs.Prelude.{◌≡◌, ◌+◌, ◌*◌, ◌≤◌, ◌<◌, ◌++◌, length, map, IfOk, OnOk};
ghost use Rattle.alpha_cfg.specs.CodeBytes.{code_word_at};
ghost use Rattle.view_container.specs.Words.{indices_of, indexed_word, word_comment, word_hint};

use crate::push::push_hex;
use std::alloc::{AllocError, Global};
use view_entries::{push_number, push_source_line};

/// Returns the instruction word at index `i` of the code's bytes.
pub fn word_at(code: &[u8], i: usize) -> u32
    requires { 4 * i + 4 ≤ length code.now }
    ensures { result ≡ code_word_at code.now i }
{
    let at = 4 * i;
    u32::from_le_bytes([code[at], code[at + 1], code[at + 2], code[at + 3]])
}

/// Appends the index `i` and the instruction word at it.
pub fn push_word(alloc: Global, out: &mut Vec<u8>, code: &[u8], i: usize) -> Result<(), AllocError>
    requires { 4 * i + 4 ≤ length code.now }
    ensures { OnOk result (out.new.items ≡ out.old.items ++ indexed_word code.now i) }
{
    push_number(out, i as u64)?;
    out.push(b' ')?;
    push_hex(alloc, out, &word_at(code, i).to_be_bytes())
}

/// The comment of the instruction at an index.
fn comment(alloc: Global, code: &[u8], lines: &[u32], i: usize) -> Result<Vec<u8>, AllocError>
    requires { 4 * i + 4 ≤ length code.now }
    ensures { IfOk result (λ v. v.items ≡ word_comment code.now lines.now i) }
{
    let mut out = Vec::new(alloc);
    push_word(alloc, &mut out, code, i)?;
    push_source_line(&mut out, lines, i)?;
    Ok(out)
}

/// Returns the comments of all instructions, in order: index, word, and the member of `lines` at
/// that index if there is one.
pub fn comments(alloc: Global, code: &[u8], lines: &[u32]) -> Result<Vec<Vec<u8>>, AllocError>
    ensures { IfOk result (λ v. map (λ c. c.items) v.items
        ≡ map (word_comment code.now lines.now) (indices_of code.now)) }
{
    let mut comments = Vec::new(alloc);
    for i in 0..code.len() / 4 {
        comments.push(comment(alloc, code, lines, i)?)?;
    }
    Ok(comments)
}

/// The hint of the word at an index, if that is a return.
fn word_hint(code: &[u8], i: usize) -> u32
    requires { 4 * i + 4 ≤ length code.now }
    ensures { result ≡ word_hint code.now i }
{
    word_at(code, i) & 0x3fff
}

/// Returns the hints of all words, in order: the 14 lowest bits of each.
pub fn hints(alloc: Global, code: &[u8]) -> Result<Vec<u32>, AllocError>
    ensures { IfOk result (λ v. v.items ≡ map (word_hint code.now) (indices_of code.now)) }
{
    let mut hints = Vec::new(alloc);
    for i in 0..code.len() / 4 {
        hints.push(word_hint(code, i))?;
    }
    Ok(hints)
}
