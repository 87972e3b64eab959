//! The report on the text of a formula.

ghost use Rattle.std.specs.Prelude.{◌≡◌, ◌+◌, ◌-◌, ◌≤◌, ◌++◌, length, reverse};
ghost use Rattle.std.specs.Prelude.{OnOk, IfOk, Some, None};
ghost use Rattle.formula_tree.specs.Views.{form_view};
ghost use Rattle.view_faults.specs.FormReports.{before_lf, column_of, line_around, without_lf};
ghost use Rattle.view_faults.specs.FormReports.{form_fault_line, formula_line, form_fault_text};
ghost use Rattle.view_faults.specs.FormReports.{formula_report};
ghost use Rattle.view_faults.specs.Marking.{marked_line};

use crate::marking::{Span, push_marked_line, push_number};
use crate::parsing::form_in;
use crate::report::Report;
use formula_text::{TextFault, TextFlaw, print_form};
use formula_tree::Form;
use std::alloc::{AllocError, Global};
use word_ops::Profile;

/// The maximal length of a formula's text in bytes. A formula has at least six bytes for each level
/// of its height, so it is at most 4,096 high, as high as a stack of 8 MiB surely holds.
pub const MAX_FORMULA_TEXT: usize = 24_576;

/// Returns the number of bytes before the first LF, or before the end.
fn before_lf(text: &[u8]) -> usize
    ensures exact { result ≡ before_lf text.now }
    ensures within { result ≤ length text.now }
{
    for i in 0..text.len() {
        if text[i] == b'\n' {
            return i;
        }
    }
    text.len()
}

/// Returns where the last line begins: after the last LF, or at the beginning.
fn line_start(text: &[u8]) -> usize
    ensures exact { result ≡ length text.now - before_lf (reverse text.now) }
    ensures column { length text.now - result ≡ before_lf (reverse text.now) }
    ensures within { result ≤ length text.now }
{
    let mut start = text.len();
    'back: while start > 0 {
        if text[start - 1] == b'\n' {
            return start;
        }
        start -= 1;
    }
    0
}

/// The text without the LF at its end, if there is one.
fn without_lf(text: &[u8]) -> &[u8]
    ensures { result.now ≡ without_lf text.now }
{
    if text.is_empty() {
        return text;
    }
    let last = text.len() - 1;
    if text[last] == b'\n' {
        &text[..last]
    } else {
        text
    }
}

/// Adds the position of what is wrong, and its kind.
#[tactic(auto, unfolding(crate::specs::FormReports::form_fault_line))]
fn push_fault(out: &mut Vec<u8>, position: usize, kind: &str) -> Result<(), AllocError>
    ensures { OnOk result (out.new.items ≡ out.old.items ++ form_fault_line position kind.now) }
{
    out.extend_from_slice(b"form ")?;
    push_number(out, position as u64)?;
    out.push(b' ')?;
    out.extend_from_slice(kind.as_bytes())?;
    out.push(b'\n')?;
    Ok(())
}

/// Adds the line in which the place lies, with a mark under it.
#[tactic(auto, using(crate::proofs::Backwards::parted))]
fn push_place(out: &mut Vec<u8>, text: &[u8], at: usize) -> Result<(), AllocError>
    requires { at ≤ length text.now }
    ensures { OnOk result (out.new.items ≡ out.old.items
        ++ marked_line (line_around text.now at) (Some (column_of text.now at, 0)) None) }
{
    let start = line_start(&text[..at]);
    let end = at + before_lf(&text[at..]);
    let span = Span {
        at: at - start,
        count: 0,
    };
    push_marked_line(out, &text[start..end], Some(span), None)
}

/// What is said of a text that spells no formula.
fn fault_lines(alloc: Global, text: &[u8], at: usize, flaw: TextFlaw) -> Result<Vec<u8>, AllocError>
    requires { at ≤ length text.now }
    ensures { IfOk result (λ v. v.items ≡ form_fault_text text.now (at, flaw)) }
{
    let mut out = Vec::new(alloc);
    push_fault(&mut out, at, flaw.name())?;
    push_place(&mut out, text, at)?;
    Ok(out)
}

/// The formula as it is printed.
#[tactic(auto, unfolding(crate::specs::FormReports::formula_line))]
fn form_line(alloc: Global, form: &Form) -> Result<Vec<u8>, AllocError>
    ensures { IfOk result (λ v. v.items ≡ formula_line (form_view form.now)) }
{
    let text = print_form(alloc, form)?;
    let mut out = Vec::new(alloc);
    out.extend_from_slice(b"formula ")?;
    out.extend_from_slice(&text)?;
    out.push(b'\n')?;
    Ok(out)
}

/// Returns a report that prints the formula that `text` is, or else where it is wrong: `form`, the
/// position in bytes from 0 of the first token that may not come where it does, or of the end, and
/// the kind of the fault; the line in which that place lies, without its LF; and a mark under the
/// place. A byte that is neither a tab nor printable is shown as `?`. The report is right if the
/// text is a formula. An LF at the end of `text` doesn't count. The formula may use the operators
/// of `profile`, and may name the remaining steps if `left` says so.
///
/// `text` has at most `MAX_FORMULA_TEXT` bytes, since printing recurses. The grammar is that of
/// `formula_text::read_form`.
///
/// Errors: out of memory.
#[tactic(auto, unfolding(crate::specs::FormReports::formula_report))]
pub fn formula_lines(
    alloc: Global,
    profile: Profile,
    left: bool,
    text: &[u8],
) -> Result<Report, AllocError>
    requires short { length text.now ≤ MAX_FORMULA_TEXT }
    ensures exact { IfOk result
        (λ r. (r.right, r.text.items) ≡ formula_report profile left text.now) }
{
    let text = without_lf(text);
    match form_in(alloc, text, profile, left) {
        Ok(form) => {
            let text = form_line(alloc, &form)?;
            Ok(Report { right: true, text })
        }
        Err(TextFault::At(at, flaw)) => {
            let text = fault_lines(alloc, text, at, flaw)?;
            Ok(Report { right: false, text })
        }
        Err(TextFault::Memory) => Err(AllocError),
    }
}
