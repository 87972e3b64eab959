//! The report on the text of a policy.

ghost use Rattle.std.specs.Prelude.{◌≡◌, ◌++◌, OnOk, IfOk, Some, None};
ghost use Rattle.std.specs.Option.{option_map};
ghost use Rattle.formula_tree.specs.Views.{form_view};
ghost use Rattle.formula_text.specs.Names.{text_flaw_name};
ghost use Rattle.policy_set.specs.declared.fault.PolicyFlaw.TheVariants.{Form as FormFlaw};
ghost use Rattle.pcc_lines.specs.Policies.{policy_lines_line, policy_length_line, policy_form_line};
ghost use Rattle.view_faults.specs.Views.{span_view};
ghost use Rattle.view_faults.specs.Marking.{marked_line};
ghost use Rattle.view_faults.specs.PolicyReports.{form_behind, policy_forms, policy_fault_text};
ghost use Rattle.view_faults.specs.PolicyReports.{policy_report};

use crate::lines::numbered_line;
use crate::marking::{Span, push_marked_line, push_number};
use crate::report::Report;
use formula_text::{TextFlaw, print_form};
use formula_tree::Form;
use policy_set::{Policy, PolicyFault, PolicyFlaw, read_policy};
use std::alloc::{AllocError, Global};

/// Appends how many lines there are instead of two.
#[tactic(auto, unfolding(pcc_lines::specs::Policies::policy_lines_line))]
fn push_lines_fault(out: &mut Vec<u8>, count: usize) -> Result<(), AllocError>
    ensures { OnOk result (out.new.items ≡ out.old.items ++ policy_lines_line count) }
{
    out.extend_from_slice(b"policy Lines ")?;
    push_number(out, count as u64)?;
    out.push(b'\n')?;
    Ok(())
}

/// Appends which line is too long.
#[tactic(auto, unfolding(pcc_lines::specs::Policies::policy_length_line))]
fn push_length_fault(out: &mut Vec<u8>, number: u32) -> Result<(), AllocError>
    ensures { OnOk result (out.new.items ≡ out.old.items ++ policy_length_line number) }
{
    out.extend_from_slice(b"policy ")?;
    push_number(out, u64::from(number))?;
    out.extend_from_slice(b" Length\n")?;
    Ok(())
}

/// Appends which line isn't a formula, where, and why.
#[tactic(auto, unfolding(pcc_lines::specs::Policies::policy_form_line))]
fn push_form_fault(out: &mut Vec<u8>, number: u32, at: usize, kind: &str) -> Result<(), AllocError>
    ensures { OnOk result
        (out.new.items ≡ out.old.items ++ policy_form_line number at kind.now) }
{
    out.extend_from_slice(b"policy ")?;
    push_number(out, u64::from(number))?;
    out.push(b' ')?;
    push_number(out, at as u64)?;
    out.push(b' ')?;
    out.extend_from_slice(kind.as_bytes())?;
    out.push(b'\n')?;
    Ok(())
}

/// What is said of a file with another number of lines than two.
fn lines_fault(alloc: Global, count: usize) -> Result<Vec<u8>, AllocError>
    ensures { IfOk result (λ v. v.items ≡ policy_lines_line count) }
{
    let mut out = Vec::new(alloc);
    push_lines_fault(&mut out, count)?;
    Ok(out)
}

/// What is said of a line that is too long.
fn length_fault(alloc: Global, number: u32) -> Result<Vec<u8>, AllocError>
    ensures { IfOk result (λ v. v.items ≡ policy_length_line number) }
{
    let mut out = Vec::new(alloc);
    push_length_fault(&mut out, number)?;
    Ok(out)
}

/// What is said of a line that isn't a formula, if it isn't there.
fn bare_fault(alloc: Global, number: u32, at: usize, flaw: TextFlaw) -> Result<Vec<u8>, AllocError>
    ensures { IfOk result (λ v. v.items ≡ policy_form_line number at (text_flaw_name flaw)) }
{
    let mut out = Vec::new(alloc);
    push_form_fault(&mut out, number, at, flaw.name())?;
    Ok(out)
}

/// What is said of a line that isn't a formula, and its mark.
fn marked_fault(
    alloc: Global,
    number: u32,
    at: usize,
    flaw: TextFlaw,
    line: &[u8],
) -> Result<Vec<u8>, AllocError>
    ensures { IfOk result (λ v. v.items ≡ policy_form_line number at (text_flaw_name flaw)
        ++ marked_line line.now (Some (at, 0)) None) }
{
    let mut out = Vec::new(alloc);
    push_form_fault(&mut out, number, at, flaw.name())?;
    push_marked_line(&mut out, line, Some(Span { at, count: 0 }), None)?;
    Ok(out)
}

/// What is said of a text of which a line isn't a formula.
#[tactic(auto, using(crate::proofs::PolicySaid::no_line, crate::proofs::PolicySaid::some_line))]
fn form_fault(
    alloc: Global,
    text: &[u8],
    number: u32,
    at: usize,
    flaw: TextFlaw,
) -> Result<Vec<u8>, AllocError>
    ensures { IfOk result (λ v. v.items ≡ policy_fault_text text.now (FormFlaw number at flaw)) }
{
    match numbered_line(text, number) {
        None => {
            let lines = bare_fault(alloc, number, at, flaw)?;
            Ok(lines)
        }
        Some(line) => {
            let lines = marked_fault(alloc, number, at, flaw, line)?;
            Ok(lines)
        }
    }
}

/// What is said of a text that isn't a policy.
fn fault_text(alloc: Global, text: &[u8], flaw: PolicyFlaw) -> Result<Vec<u8>, AllocError>
    ensures { IfOk result (λ v. v.items ≡ policy_fault_text text.now flaw) }
{
    match flaw {
        PolicyFlaw::Lines(count) => lines_fault(alloc, count),
        PolicyFlaw::Length(number) => length_fault(alloc, number),
        PolicyFlaw::Form(number, at, what) => form_fault(alloc, text, number, at, what),
    }
}

/// Appends a formula after a word, as a line.
fn push_named_form(
    alloc: Global,
    out: &mut Vec<u8>,
    word: &str,
    form: &Form,
) -> Result<(), AllocError>
    ensures { OnOk result (out.new.items
        ≡ out.old.items ++ form_behind word.now (form_view form.now)) }
{
    let text = print_form(alloc, form)?;
    out.extend_from_slice(word.as_bytes())?;
    out.extend_from_slice(&text)?;
    out.push(b'\n')?;
    Ok(())
}

/// The precondition and the postcondition as they are printed.
fn policy_forms(alloc: Global, policy: &Policy) -> Result<Vec<u8>, AllocError>
    ensures { IfOk result (λ v. v.items ≡ policy_forms policy.now) }
{
    let mut out = Vec::new(alloc);
    push_named_form(alloc, &mut out, "pre ", policy.pre())?;
    push_named_form(alloc, &mut out, "post ", policy.post())?;
    Ok(out)
}

/// Returns a report that prints the precondition and the postcondition of the policy that `text`
/// is, a line each, or else its first fault as `pcc check` prints it. If a line isn't a formula, the
/// report shows it, with a mark under the place that is wrong. The report is right if the text is a
/// policy.
///
/// The grammar and the order of faults are those of `policy_set::read_policy`.
///
/// Errors: out of memory.
#[tactic(auto, unfolding(crate::specs::PolicyReports::policy_report))]
pub fn policy_lines(alloc: Global, text: &[u8]) -> Result<Report, AllocError>
    ensures exact { IfOk result (λ r. (r.right, r.text.items) ≡ policy_report text.now) }
{
    match read_policy(alloc, text) {
        Ok(policy) => {
            let text = policy_forms(alloc, &policy)?;
            Ok(Report { right: true, text })
        }
        Err(PolicyFault::At(flaw)) => {
            let text = fault_text(alloc, text, flaw)?;
            Ok(Report { right: false, text })
        }
        Err(PolicyFault::Memory) => Err(AllocError),
    }
}
