//! Rows on policies from files, on policies' texts and on their digests.

use crate::bytes::{field, file_bytes};
use formula_text::{TextFault, print_form};
use formula_tree::Form;
use packet_store::start_at;
use policy_set::{Policy, PolicyFault, PolicyFlaw, by_name, digest, read_policy};
use std::alloc::{AllocError, Global};

/// Why there is no policy.
fn fault_text(alloc: Global, fault: PolicyFault) -> Result<String, AllocError> {
    match fault {
        PolicyFault::At(PolicyFlaw::Lines(count)) => format!(in alloc; "Lines {count}"),
        PolicyFault::At(PolicyFlaw::Length(line)) => format!(in alloc; "Length {line}"),
        PolicyFault::At(PolicyFlaw::Form(line, position, flaw)) => {
            let name = flaw.name();
            format!(in alloc; "Form {line} {position} {name}")
        }
        PolicyFault::Memory => format!(in alloc; "no memory"),
    }
}

/// Appends a formula as it is printed, with `\n` for LF.
fn push_printed(text: &mut String, printed: &[u8]) -> Result<(), AllocError> {
    text.push_str(str::from_utf8(printed).unwrap_or("no text"))?;
    text.push_str("\\n")
}

/// Appends a formula with `\n` behind it.
fn push_form(alloc: Global, text: &mut String, form: &Form) -> Result<(), AllocError> {
    let printed = print_form(alloc, form)?;
    push_printed(text, &printed)
}

/// Both formulas as they are printed, with `\n` for each LF.
fn policy_text(alloc: Global, policy: &Policy) -> Result<String, AllocError> {
    let mut text = String::new(alloc);
    push_form(alloc, &mut text, policy.pre())?;
    push_form(alloc, &mut text, policy.post())?;
    Ok(text)
}

/// The digest in hexadecimal.
fn digest_text(alloc: Global, policy: &Policy) -> Result<String, AllocError> {
    let bytes = digest(alloc, policy)?;
    hex::encode(alloc, bytes.as_slice())
}

/// Register 16 at the start of a policy on 64 zeros, in the arena of the second of several agents.
fn second_start(policy: &Policy) -> u64 {
    let packet = [0; 64];
    match start_at(policy, &packet, 131_088) {
        Some(start) => start.r16,
        None => 0,
    }
}

/// Appends a number behind a blank.
fn push_number(alloc: Global, text: &mut String, number: u32) -> Result<(), AllocError> {
    let number = format!(in alloc; " {number}")?;
    text.push_str(number.as_str())
}

/// Which of some numbers a container for the policy may have.
fn taken(alloc: Global, policy: &Policy) -> Result<String, AllocError> {
    let mut text = String::new(alloc);
    for number in [0, 1, 2, 3, u32::MAX] {
        if policy.has_number(number) {
            push_number(alloc, &mut text, number)?;
        }
    }
    Ok(text)
}

/// The number of a policy, how high its formulas are, where a second agent starts, and which of some
/// numbers a container for it may have.
fn measures_of(alloc: Global, policy: &Policy) -> Result<String, AllocError> {
    let number = policy.number();
    let pre = policy.pre().height();
    let post = policy.post().height();
    let start = second_start(policy);
    let taken = taken(alloc, policy)?;
    format!(in alloc; "{number} {pre} {post} starts {start} takes{taken}")
}

/// The measures of a policy's copy.
fn measures(alloc: Global, policy: &Policy) -> Result<String, AllocError> {
    let copy = policy.copy(alloc)?;
    measures_of(alloc, &copy)
}

/// The answer to a row on a policy: its text, its digest or its measures.
fn policy_answer(alloc: Global, policy: &Policy, row: usize) -> Result<String, AllocError> {
    match row {
        0 => policy_text(alloc, policy),
        1 => digest_text(alloc, policy),
        _ => measures(alloc, policy),
    }
}

/// The answer to a row on a file: why it is no policy, or the policy's text or digest.
fn read_answer(alloc: Global, bytes: &[u8], row: usize) -> Result<String, AllocError> {
    match read_policy(alloc, bytes) {
        Err(fault) => fault_text(alloc, fault),
        Ok(policy) => policy_answer(alloc, &policy, row),
    }
}

/// Returns how many rows a line on a file has: one on a fault, two on a policy.
pub fn file_rows(line: &str) -> usize {
    if field(line, 1) == "policy" { 2 } else { 1 }
}

/// Returns the expected answer of a row of a line on a file.
pub fn file_want(line: &str, row: usize) -> &str {
    match (field(line, 1), row) {
        ("policy", 0) => field(line, 2),
        ("policy", _) => field(line, 3),
        (fault, _) => fault,
    }
}

/// Returns the answer to a row of a line on a file.
pub fn file_answer(alloc: Global, line: &str, row: usize) -> Result<String, AllocError> {
    match file_bytes(alloc, field(line, 0))? {
        None => format!(in alloc; "no file"),
        Some(bytes) => read_answer(alloc, &bytes, row),
    }
}

/// Returns how many rows a line on a built-in policy has: three, or one if it names none.
pub fn built_in_rows(line: &str) -> usize {
    if field(line, 1) == "no policy" { 1 } else { 3 }
}

/// Returns the answer to a row of a line on a built-in policy: its text, its digest or its
/// measures, or that it names none.
pub fn built_in_answer(alloc: Global, line: &str, row: usize) -> Result<String, AllocError> {
    match by_name(alloc, field(line, 0))? {
        None => format!(in alloc; "no policy"),
        Some(policy) => policy_answer(alloc, &policy, row),
    }
}
