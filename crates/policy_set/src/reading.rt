//! Reading of policies from files.

ghost use Rattle.std.specs.Prelude.{◌≡◌, ◌≤◌, length, Ok, Err, IfOk, IfErr, MatchResult};
ghost use Rattle.text_tokens.specs.Lines.{lines_of};
ghost use Rattle.formula_tree.specs.Views.{form_view};
ghost use Rattle.policy_set.specs.Views.{IsPolicyForm};
ghost use Rattle.policy_set.specs.PolicyText.{form_lines, line_form, policy_read, IsPolicyAnswer};
ghost use Rattle.policy_set.specs.PolicyText.{SpellsPolicy, SpellsNoPolicy, IsPolicyFault};

use crate::fault::{PolicyFault, PolicyFlaw};
use crate::limits::MAX_FORM_LINE;
use crate::policy::Policy;
use formula_text::{TextFault, read_form};
use formula_tree::Form;
use std::alloc::Global;
use text_tokens::{line_count, split_line};
use word_ops::Profile;

/// Returns the two lines of formulas. Errors: `Lines` and `Length`.
fn form_lines(bytes: &[u8]) -> Result<(&[u8], &[u8]), PolicyFlaw>
    ensures exact { MatchResult result
        (λ lines. form_lines (lines_of bytes.now) ≡ Ok (lines.0.now, lines.1.now))
        (λ e. form_lines (lines_of bytes.now) ≡ Err e) }
    ensures short { IfOk result (λ lines.
        (length lines.0.now ≤ MAX_FORM_LINE) × (length lines.1.now ≤ MAX_FORM_LINE)) }
{
    let count = line_count(bytes);
    if count != 2 {
        return Err(PolicyFlaw::Lines(count));
    }
    let (first, behind) = split_line(bytes);
    let (second, _) = split_line(behind);
    if first.len() > MAX_FORM_LINE {
        return Err(PolicyFlaw::Length(1));
    }
    if second.len() > MAX_FORM_LINE {
        return Err(PolicyFlaw::Length(2));
    }
    Ok((first, second))
}

/// Parses a line as a formula that any policy may have; it doesn't name the remaining steps.
/// Errors: `Form` with the line's number, and `Memory`.
fn line_form(alloc: Global, number: u32, line: &[u8]) -> Result<Form, PolicyFault>
    requires short { length line.now ≤ MAX_FORM_LINE }
    ensures form { IfOk result (λ form. IsPolicyForm (form_view form)) }
    ensures exact { IsPolicyAnswer form_view (line_form number line.now) result }
{
    match read_form(alloc, line, Profile::Two, false) {
        Ok(form) => Ok(form),
        Err(TextFault::At(position, flaw)) => {
            Err(PolicyFault::At(PolicyFlaw::Form(number, position, flaw)))
        }
        Err(TextFault::Memory) => Err(PolicyFault::Memory),
    }
}

/// Parses the bytes as a policy. Errors: the first error, or out of memory.
fn parse(alloc: Global, bytes: &[u8]) -> Result<Policy, PolicyFault>
    ensures { IsPolicyAnswer (λ policy. policy) (policy_read bytes.now) result }
{
    let (asked, promised) = form_lines(bytes)?;
    let pre = line_form(alloc, 1, asked)?;
    let post = line_form(alloc, 2, promised)?;
    match Policy::from_file(alloc, pre, post) {
        Ok(policy) => Ok(policy),
        Err(_) => Err(PolicyFault::Memory),
    }
}

/// Parses the bytes of a file as a policy without a kind: two lines, the precondition and the
/// postcondition as formula text over the operators of both profiles. LF ends a line, one CR before
/// it is dropped, and the last LF may be missing.
///
/// Errors: `At` the first of these: `Lines` if there aren't two lines; `Length` of line 1, then of line
/// 2, if it has more than `MAX_FORM_LINE` bytes; `Form` of line 1, then of line 2, if it is no
/// formula. `Memory` says nothing about the file.
pub fn read_policy(alloc: Global, bytes: &[u8]) -> Result<Policy, PolicyFault>
    ensures spells { IfOk result (λ policy. SpellsPolicy bytes.now policy) }
    ensures none { IfErr result (λ e. SpellsNoPolicy bytes.now e) }
    ensures first { IfErr result (λ e. IsPolicyFault bytes.now e) }
    ensures exact { IsPolicyAnswer (λ policy. policy) (policy_read bytes.now) result }
{
    parse(alloc, bytes)
}
