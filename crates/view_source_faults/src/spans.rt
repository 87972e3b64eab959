//! Where the mark of a fault goes in its line.

ghost use Rattle.std.specs.Prelude.{◌≡◌, ◌+◌, ◌^◌, ◌<◌, ◌≤◌, length, drop, IfOk, IfSome, Some};
ghost use Rattle.std.specs.Prelude.{option_and_then};
ghost use Rattle.std.specs.Option.{option_map};
ghost use Rattle.text_tokens.specs.Tokens.{tokens_at};
ghost use Rattle.formula_text.specs.Parsing.{parsed_form};
ghost use Rattle.asm_text.specs.Marks.{source_class};
ghost use Rattle.view_faults.specs.Views.{span_view, limits_view};
ghost use Rattle.view_source_faults.specs.Spans.{blanks_before, printable_before, first_token, last_token};
ghost use Rattle.view_source_faults.specs.Spans.{fault_behind, wrong_formula, span_in_line};
ghost use Rattle.view_source_faults.specs.Spans.{flaw_span, asm_flaw_span, flaw_limits};
ghost use Rattle.view_source_faults.specs.SourceLines.{statement_text, statement_tokens};
ghost use Rattle.view_source_faults.specs.WrongOperands.{wrong_operand, missed_operand, wanted_limits};

use crate::operands::{wanted_limits, wrong_operand};
use crate::statements::statement_of;
use crate::tokens::token_from;
use asm_text::LineFlaw;
use formula_text::TextFault;
use pcc_asm::AsmFlaw;
use std::alloc::{AllocError, Global};
use view_faults::{Limits, Span, form_in, is_printable};
use word_ops::Profile;

/// How many blanks and tabs a line begins with.
fn blanks_before(line: &[u8]) -> usize
    ensures { result ≡ blanks_before line.now }
{
    for i in 0..line.len() {
        if !(line[i] == b' ' || line[i] == b'\t') {
            return i;
        }
    }
    line.len()
}

/// Returns the number of bytes before the first that isn't printable.
fn printable_before(line: &[u8]) -> usize
    ensures { result ≡ printable_before line.now }
{
    for i in 0..line.len() {
        if !is_printable(line[i]) {
            return i;
        }
    }
    line.len()
}

/// Returns a mark at a place that repeats nothing.
fn mark_at(at: usize) -> Option<Span>
    ensures { option_map span_view result ≡ Some (at, 0) }
{
    Some(Span { at, count: 0 })
}

/// The first token of a statement.
fn first_token(text: &[u8]) -> Option<Span>
    ensures exact { option_map span_view result
        ≡ first_token (tokens_at source_class 0 text.now) }
    ensures within { IfSome result (λ s. s.at ≤ length text.now) }
{
    match token_from(text, 0) {
        None => None,
        Some(placed) => Some(Span {
            at: placed.at,
            count: placed.next - placed.at,
        }),
    }
}

/// The place of the last token of a statement.
fn last_token(text: &[u8]) -> Option<Span>
    ensures exact { option_map span_view result ≡ last_token (tokens_at source_class 0 text.now) }
    ensures within { IfSome result (λ s. s.at ≤ length text.now) }
{
    let Some(first) = token_from(text, 0) else {
        return None;
    };
    let mut last = first.at;
    let mut at = first.next;
    while let Some(placed) = token_from(text, at) {
        last = placed.at;
        at = placed.next;
    }
    Some(Span { at: last, count: 0 })
}

/// Returns the place at which the formula that begins at `from` is wrong, if it is.
fn fault_behind(
    alloc: Global,
    profile: Profile,
    left: bool,
    text: &[u8],
    from: usize,
) -> Result<Option<Span>, AllocError>
    requires { from ≤ length text.now }
    ensures exact { IfOk result (λ s. option_map span_view s
        ≡ fault_behind from (parsed_form profile left (drop from text.now))) }
    ensures within { IfOk result (λ s. IfSome s (λ k. k.at ≤ length text.now)) }
{
    match form_in(alloc, &text[from..], profile, left) {
        Ok(_) => Ok(None),
        Err(TextFault::At(at, _)) => Ok(Some(Span {
            at: from + at,
            count: 0,
        })),
        Err(TextFault::Memory) => Err(AllocError),
    }
}

/// Returns the place in an invariant at which its formula is wrong, if it is.
fn wrong_formula(
    alloc: Global,
    profile: Profile,
    left: bool,
    text: &[u8],
) -> Result<Option<Span>, AllocError>
    ensures exact { IfOk result (λ s. option_map span_view s
        ≡ wrong_formula profile left text.now (tokens_at source_class 0 text.now)) }
    ensures within { IfOk result (λ s. IfSome s (λ k. k.at ≤ length text.now)) }
{
    match token_from(text, 0) {
        None => Ok(None),
        Some(first) => fault_behind(alloc, profile, left, text, first.next),
    }
}

/// A span of a statement that begins at `place` as one of its line.
fn in_line(place: usize, span: Option<Span>) -> Option<Span>
    requires { IfSome span (λ s. place + s.at < 2 ^ 64) }
    ensures { option_map span_view result
        ≡ option_map (λ s. (place + s.0, s.1)) (option_map span_view span) }
{
    match span {
        None => None,
        Some(span) => Some(Span {
            at: place + span.at,
            count: span.count,
        }),
    }
}

/// The mark of a statement that begins with no mnemonic.
fn mnemonic_span(line: &[u8]) -> Option<Span>
    ensures { option_map span_view result
        ≡ span_in_line line.now (first_token (statement_tokens line.now)) }
{
    let (place, text) = statement_of(line);
    in_line(place, first_token(text))
}

/// The mark of a statement with a wrong operand.
fn operand_span(profile: Profile, line: &[u8]) -> Option<Span>
    ensures { option_map span_view result
        ≡ span_in_line line.now (wrong_operand profile (statement_tokens line.now)) }
{
    let (place, text) = statement_of(line);
    match wrong_operand(profile, text) {
        None => None,
        Some(wrong) => in_line(place, Some(wrong.span)),
    }
}

/// The numbers that are allowed in the place of a statement's wrong operand, if some are.
fn operand_limits(profile: Profile, line: &[u8]) -> Option<Limits>
    ensures { option_map limits_view result ≡ option_and_then wanted_limits
        (missed_operand profile (statement_tokens line.now)) }
{
    let (_, text) = statement_of(line);
    match wrong_operand(profile, text) {
        None => None,
        Some(wrong) => wanted_limits(wrong.wanted),
    }
}

/// Returns the mark of an invariant that isn't a formula.
fn formula_span(
    alloc: Global,
    profile: Profile,
    left: bool,
    line: &[u8],
) -> Result<Option<Span>, AllocError>
    ensures { IfOk result (λ s. option_map span_view s ≡ span_in_line line.now
        (wrong_formula profile left (statement_text line.now) (statement_tokens line.now))) }
{
    let (place, text) = statement_of(line);
    match wrong_formula(alloc, profile, left, text) {
        Ok(span) => Ok(in_line(place, span)),
        Err(_) => Err(AllocError),
    }
}

/// The mark of a branch whose label is wrong.
fn label_span(line: &[u8]) -> Option<Span>
    ensures { option_map span_view result
        ≡ span_in_line line.now (last_token (statement_tokens line.now)) }
{
    let (place, text) = statement_of(line);
    in_line(place, last_token(text))
}

/// Returns the place of what is wrong with a line of a source, or None if the line gets no mark.
///
/// Errors: out of memory.
pub fn flaw_span(
    alloc: Global,
    profile: Profile,
    left: bool,
    flaw: LineFlaw,
    line: &[u8],
) -> Result<Option<Span>, AllocError>
    ensures { IfOk result (λ s. option_map span_view s ≡ flaw_span profile left flaw line.now) }
{
    match flaw {
        LineFlaw::Character => Ok(mark_at(printable_before(line))),
        LineFlaw::Mnemonic => Ok(mnemonic_span(line)),
        LineFlaw::Register => Ok(operand_span(profile, line)),
        LineFlaw::Range => Ok(operand_span(profile, line)),
        LineFlaw::Formula => formula_span(alloc, profile, left, line),
        LineFlaw::Operand => Ok(mark_at(blanks_before(line))),
        LineFlaw::DoubleLabel => Ok(mark_at(blanks_before(line))),
        LineFlaw::DoubleInvariant => Ok(mark_at(blanks_before(line))),
        LineFlaw::LooseInvariant => Ok(mark_at(blanks_before(line))),
        LineFlaw::Length => Ok(mark_at(blanks_before(line))),
    }
}

/// Returns the numbers that are allowed in the place of what is wrong with a line of a source, if it
/// is a number out of its range.
pub fn flaw_limits(profile: Profile, flaw: LineFlaw, line: &[u8]) -> Option<Limits>
    ensures { option_map limits_view result ≡ flaw_limits profile flaw line.now }
{
    match flaw {
        LineFlaw::Range => operand_limits(profile, line),
        LineFlaw::Character => None,
        LineFlaw::Mnemonic => None,
        LineFlaw::Register => None,
        LineFlaw::Formula => None,
        LineFlaw::Operand => None,
        LineFlaw::DoubleLabel => None,
        LineFlaw::DoubleInvariant => None,
        LineFlaw::LooseInvariant => None,
        LineFlaw::Length => None,
    }
}

/// Returns the place of what is wrong with a line when it is assembled, or None if the line gets no
/// mark.
pub fn asm_flaw_span(flaw: AsmFlaw, line: &[u8]) -> Option<Span>
    ensures { option_map span_view result ≡ asm_flaw_span flaw line.now }
{
    match flaw {
        AsmFlaw::NoLabel(_) => label_span(line),
        AsmFlaw::Target(_) => label_span(line),
        AsmFlaw::Word(_, _) => mark_at(blanks_before(line)),
        AsmFlaw::FallsOff(_) => mark_at(blanks_before(line)),
    }
}
