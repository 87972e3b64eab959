//! Showing a line with a mark.

ghost use Rattle.std.specs.Prelude.{◌≡◌, ◌++◌, map, take, drop, OnOk};
ghost use Rattle.std.specs.Prelude.{decimal};
ghost use Rattle.std.specs.Option.{option_map};
ghost use Rattle.asm_text.specs.Statements.{is_printable};
ghost use Rattle.view_faults.specs.Marking.{shown_byte, margin_byte, repeated, mark_line};
ghost use Rattle.view_faults.specs.Marking.{least_text, range_text, limits_text};
ghost use Rattle.view_faults.specs.Marking.{mark_lines, marked_line};
ghost use Rattle.view_faults.specs.Views.{span_view, limits_view};

use itoa::Buffer;
use std::alloc::AllocError;

/// A place in a line, and how many bytes from there on the mark repeats.
#[derive(Clone, Copy, Debug, PartialEq, Eq)]
pub struct Span {
    /// The number of bytes before the place.
    pub at: usize,
    /// The number of bytes that the mark repeats.
    pub count: usize,
}

/// What numbers may be: from `-low` on, and below `limit`.
#[derive(Clone, Copy, Debug, PartialEq, Eq)]
pub struct Limits {
    /// How far below 0 the least number is.
    pub low: u64,
    /// The number after the greatest.
    pub limit: u64,
}

/// Returns whether the byte is a tab, or printable ASCII (from blank to tilde).
pub fn is_printable(byte: u8) -> bool
    ensures { result ≡ is_printable byte }
{
    byte == b'\t' || (b' ' <= byte && byte <= b'~')
}

fn shown_byte(byte: u8) -> u8
    ensures { result ≡ shown_byte byte }
{
    if is_printable(byte) { byte } else { b'?' }
}

fn margin_byte(byte: u8) -> u8
    ensures { result ≡ margin_byte byte }
{
    if byte == b'\t' { b'\t' } else { b' ' }
}

/// Adds bytes as they are shown.
fn push_shown(out: &mut Vec<u8>, bytes: &[u8]) -> Result<(), AllocError>
    ensures { OnOk result (out.new.items ≡ out.old.items ++ map shown_byte bytes.now) }
{
    for i in 0..bytes.len() {
        out.push(shown_byte(bytes[i]))?;
    }
    Ok(())
}

/// Appends the margin below the bytes before the mark.
fn push_margin(out: &mut Vec<u8>, bytes: &[u8]) -> Result<(), AllocError>
    ensures { OnOk result (out.new.items ≡ out.old.items ++ map margin_byte bytes.now) }
{
    for i in 0..bytes.len() {
        out.push(margin_byte(bytes[i]))?;
    }
    Ok(())
}

/// Appends the bytes that are repeated after the mark, if there are any.
fn push_repeated(out: &mut Vec<u8>, bytes: &[u8]) -> Result<(), AllocError>
    ensures { OnOk result (out.new.items ≡ out.old.items ++ repeated bytes.now) }
{
    if bytes.is_empty() {
        return Ok(());
    }
    out.push(b' ')?;
    push_shown(out, bytes)
}

/// As many bytes from the front as there are, and no more than `count`.
fn front(bytes: &[u8], count: usize) -> &[u8]
    ensures { result.now ≡ take count bytes.now }
{
    if count < bytes.len() {
        &bytes[..count]
    } else {
        bytes
    }
}

/// Returns the bytes after the first `count`, if there are any.
fn behind(bytes: &[u8], count: usize) -> &[u8]
    ensures { result.now ≡ drop count bytes.now }
{
    if count < bytes.len() {
        &bytes[count..]
    } else {
        &bytes[bytes.len()..]
    }
}

/// Appends the least of the numbers from `-low` on.
fn push_least(out: &mut Vec<u8>, low: u64) -> Result<(), AllocError>
    ensures { OnOk result (out.new.items ≡ out.old.items ++ least_text low) }
{
    if low == 0 {
        return push_number(out, low);
    }
    out.push(b'-')?;
    push_number(out, low)
}

/// Appends the least and the greatest of the numbers within limits.
#[tactic(auto, unfolding(crate::specs::Marking::range_text))]
fn push_range(out: &mut Vec<u8>, limits: Limits) -> Result<(), AllocError>
    ensures { OnOk result (out.new.items
        ≡ out.old.items ++ range_text limits.low limits.limit) }
{
    out.extend_from_slice(b" (")?;
    push_least(out, limits.low)?;
    out.extend_from_slice(b" to ")?;
    push_number(out, limits.limit.saturating_sub(1))?;
    out.push(b')')?;
    Ok(())
}

/// Appends which numbers are allowed, if that is given.
fn push_limits(out: &mut Vec<u8>, limits: Option<Limits>) -> Result<(), AllocError>
    ensures { OnOk result (out.new.items
        ≡ out.old.items ++ limits_text (option_map limits_view limits)) }
{
    match limits {
        None => Ok(()),
        Some(limits) => push_range(out, limits),
    }
}

/// Adds the mark under a place of the line.
fn push_mark(
    out: &mut Vec<u8>,
    line: &[u8],
    span: Span,
    limits: Option<Limits>,
) -> Result<(), AllocError>
    ensures { OnOk result (out.new.items ≡ out.old.items
        ++ mark_line line.now (span_view span) (option_map limits_view limits)) }
{
    push_margin(out, front(line, span.at))?;
    out.push(b'^')?;
    push_repeated(out, front(behind(line, span.at), span.count))?;
    push_limits(out, limits)?;
    out.push(b'\n')?;
    Ok(())
}

/// Appends the line of the mark, if there is one.
fn push_mark_line(
    out: &mut Vec<u8>,
    line: &[u8],
    span: Option<Span>,
    limits: Option<Limits>,
) -> Result<(), AllocError>
    ensures { OnOk result (out.new.items ≡ out.old.items
        ++ mark_lines line.now (option_map span_view span) (option_map limits_view limits)) }
{
    match span {
        None => Ok(()),
        Some(span) => push_mark(out, line, span, limits),
    }
}

/// Appends the line as it is shown, and the mark under it if `span` is given, with the numbers that
/// are allowed there if `limits` is given.
///
/// Errors: out of memory.
pub fn push_marked_line(
    out: &mut Vec<u8>,
    line: &[u8],
    span: Option<Span>,
    limits: Option<Limits>,
) -> Result<(), AllocError>
    ensures { OnOk result (out.new.items ≡ out.old.items
        ++ marked_line line.now (option_map span_view span) (option_map limits_view limits)) }
{
    push_shown(out, line)?;
    out.push(b'\n')?;
    push_mark_line(out, line, span, limits)
}

/// Appends `number` in decimal.
///
/// Errors: out of memory.
pub fn push_number(out: &mut Vec<u8>, number: u64) -> Result<(), AllocError>
    ensures { OnOk result (out.new.items ≡ out.old.items ++ decimal number) }
{
    let mut buffer = Buffer::new();
    out.extend_from_slice(buffer.format(number).as_bytes())
}
