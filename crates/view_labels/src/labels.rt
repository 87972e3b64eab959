//! What lines print before a formula, and the last line.
//!
//! Errors: out of memory.

ghost use Rattle.std.specs.Prelude.{◌≡◌, ◌++◌, IfOk, OnOk};
ghost use Rattle.view_labels.specs.Labels.{numbered, indexed, part_title, why_text};
ghost use Rattle.view_labels.specs.Labels.{mark_text, taken_text, goal_label, known_label};
ghost use Rattle.view_labels.specs.Labels.{negative_text, worded, bounds_label, verdict_line};

use crate::limits::LEAST_NEGATIVE;
use crate::marks::{GoalName, Mark};
use std::alloc::{AllocError, Global};
use view_entries::{push_number, push_source_line};
use view_goals::Why;

/// Appends a word and the number after it.
fn push_numbered(out: &mut Vec<u8>, word: &str, n: u64) -> Result<(), AllocError>
    ensures { OnOk result (out.new.items ≡ out.old.items ++ numbered word.now n) }
{
    out.extend_from_slice(word.as_bytes())?;
    push_number(out, n)
}

/// Appends a word and the index after it, with its line of the source if that is known.
fn push_indexed(out: &mut Vec<u8>, lines: &[u32], word: &str, index: u32) -> Result<(), AllocError>
    ensures { OnOk result (out.new.items ≡ out.old.items ++ indexed lines.now word.now index) }
{
    push_numbered(out, word, u64::from(index))?;
    push_source_line(out, lines, index as usize)
}

/// Appends a word as a number below 0, if it is near 2^64.
#[tactic(auto, unfolding(crate::specs::Labels::negative_text))]
fn push_negative(out: &mut Vec<u8>, n: u64) -> Result<(), AllocError>
    ensures { OnOk result (out.new.items ≡ out.old.items ++ negative_text n) }
{
    if n < LEAST_NEGATIVE {
        return Ok(());
    }
    out.extend_from_slice(b" (-")?;
    push_number(out, u64::MAX - n + 1)?;
    out.extend_from_slice(b")")?;
    Ok(())
}

/// Appends a text and a word after it, as both numbers.
fn push_worded(out: &mut Vec<u8>, text: &str, n: u64) -> Result<(), AllocError>
    ensures { OnOk result (out.new.items ≡ out.old.items ++ worded text.now n) }
{
    out.extend_from_slice(text.as_bytes())?;
    push_number(out, n)?;
    push_negative(out, n)?;
    Ok(())
}

/// The title of the part of a number.
fn push_title(out: &mut Vec<u8>, lines: &[u32], number: usize, at: u32) -> Result<(), AllocError>
    ensures { OnOk result (out.new.items ≡ out.old.items ++ part_title lines.now number at) }
{
    if number == 0 {
        return out.extend_from_slice(b"part 0, from the start");
    }
    push_numbered(out, "part ", number as u64)?;
    push_indexed(out, lines, ", from index ", at)?;
    Ok(())
}

/// Why a goal is asked.
fn push_why(out: &mut Vec<u8>, lines: &[u32], why: Why) -> Result<(), AllocError>
    ensures { OnOk result (out.new.items ≡ out.old.items ++ why_text lines.now why) }
{
    match why {
        Why::Load => out.extend_from_slice(b" load"),
        Why::Store => out.extend_from_slice(b" store"),
        Why::Step => out.extend_from_slice(b" step"),
        Why::Return => out.extend_from_slice(b" return"),
        Why::Reach(index) => push_indexed(out, lines, " index ", index),
        Why::Leave => out.extend_from_slice(b" nowhere"),
    }
}

/// How a goal is marked.
fn push_mark(out: &mut Vec<u8>, mark: Mark) -> Result<(), AllocError>
    ensures { OnOk result (out.new.items ≡ out.old.items ++ mark_text mark) }
{
    match mark {
        Mark::Easy => out.extend_from_slice(b", easy: "),
        Mark::False => out.extend_from_slice(b", false: "),
        Mark::Hard => out.extend_from_slice(b", not easy: "),
    }
}

/// Whether a branch is taken.
fn push_taken(out: &mut Vec<u8>, taken: bool) -> Result<(), AllocError>
    ensures { OnOk result (out.new.items ≡ out.old.items ++ taken_text taken) }
{
    if taken {
        out.extend_from_slice(b" taken: ")
    } else {
        out.extend_from_slice(b" not taken: ")
    }
}

/// The line of a goal up to its formula.
fn push_goal_label(
    out: &mut Vec<u8>,
    lines: &[u32],
    at: u32,
    why: Why,
    depth: u32,
    mark: Mark,
) -> Result<(), AllocError>
    ensures { OnOk result
        (out.new.items ≡ out.old.items ++ goal_label lines.now at why depth mark) }
{
    push_indexed(out, lines, "goal ", at)?;
    push_why(out, lines, why)?;
    push_numbered(out, ", known 0 to ", u64::from(depth))?;
    push_mark(out, mark)?;
    Ok(())
}

/// Returns the title of a part, from its number and the index where it begins. `lines` are the lines
/// of the source that the instructions are in, or none.
///
/// Errors: out of memory.
pub fn title_label(
    alloc: Global,
    lines: &[u32],
    number: usize,
    at: u32,
) -> Result<Vec<u8>, AllocError>
    ensures { IfOk result (λ v. v.items ≡ part_title lines.now number at) }
{
    let mut label = Vec::new(alloc);
    push_title(&mut label, lines, number, at)?;
    Ok(label)
}

/// Returns a text as a label.
///
/// Errors: out of memory.
pub fn label_of(alloc: Global, text: &str) -> Result<Vec<u8>, AllocError>
    ensures { IfOk result (λ v. v.items ≡ text.now) }
{
    let mut label = Vec::new(alloc);
    label.extend_from_slice(text.as_bytes())?;
    Ok(label)
}

/// Returns the label with the bounds of both sides of a comparison.
///
/// Errors: out of memory.
pub fn bounds_label(alloc: Global, upper: u64, lower: u64) -> Result<Vec<u8>, AllocError>
    ensures { IfOk result (λ v. v.items ≡ bounds_label upper lower) }
{
    let mut label = Vec::new(alloc);
    push_worded(&mut label, "  the left side is at most ", upper)?;
    push_worded(&mut label, ", the right side at least ", lower)?;
    Ok(label)
}

/// Returns the line of a goal up to its formula. `lines` are as for `title_label`.
///
/// Errors: out of memory.
pub fn goal_label(alloc: Global, lines: &[u32], goal: &GoalName) -> Result<Vec<u8>, AllocError>
    ensures { let g = goal.now in
        IfOk result (λ v. v.items ≡ goal_label lines.now g.at g.why g.depth g.mark) }
{
    let mut label = Vec::new(alloc);
    push_goal_label(&mut label, lines, goal.at, goal.why, goal.depth, goal.mark)?;
    Ok(label)
}

/// Returns the line of the hypothesis that the branch at `at` adds as known `number`, up to its
/// formula. `lines` are as for `title_label`.
///
/// Errors: out of memory.
pub fn known_label(
    alloc: Global,
    lines: &[u32],
    number: u64,
    at: u32,
    taken: bool,
) -> Result<Vec<u8>, AllocError>
    ensures { IfOk result (λ v. v.items ≡ known_label lines.now number at taken) }
{
    let mut label = Vec::new(alloc);
    push_numbered(&mut label, "known ", number)?;
    push_indexed(&mut label, lines, ", ", at)?;
    push_taken(&mut label, taken)?;
    Ok(label)
}

/// Appends the last line: the number of the first part with a goal that isn't easy, or that there is
/// none.
///
/// Errors: out of memory.
pub fn push_last(out: &mut Vec<u8>, hard: Option<usize>) -> Result<(), AllocError>
    ensures { OnOk result (out.new.items ≡ out.old.items ++ verdict_line hard) }
{
    match hard {
        None => out.extend_from_slice(b"every goal is easy\n"),
        Some(number) => {
            push_numbered(out, "not easy ", number as u64)?;
            out.push(b'\n')?;
            Ok(())
        }
    }
}
