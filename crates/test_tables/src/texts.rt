//! Rows on lexemes, on texts of formulas, and on sources with invariants.

use crate::bytes::{pieces, question, text_of};
use asm_text::{LineFault, MAX_SOURCE, Source, read_source};
use formula_text::{TextFault, print_form, read_form};
use formula_tree::Form;
use std::alloc::{AllocError, Global};
use text_tokens::{begins_with_digit, read_decimal, read_number, register};
use word_ops::Profile;

/// How a text is read: under which profile, and whether it may name the steps that are left.
#[derive(Clone, Copy)]
struct Reading {
    profile: Profile,
    left: bool,
}

/// The reading of this name.
fn reading_of(name: &str) -> Option<Reading> {
    let (profile, left) = match name {
        "One" => (Profile::One, false),
        "OneLeft" => (Profile::One, true),
        "Two" => (Profile::Two, false),
        "TwoLeft" => (Profile::Two, true),
        _ => return None,
    };
    Some(Reading { profile, left })
}

/// Why a text spells no formula: the position and the kind.
fn fault_text(alloc: Global, fault: TextFault) -> Result<String, AllocError> {
    match fault {
        TextFault::At(position, flaw) => {
            let name = flaw.name();
            format!(in alloc; "{position} {name}")
        }
        TextFault::Memory => format!(in alloc; "no memory"),
    }
}

/// Whether a text is read as the formula.
fn is_read_as(alloc: Global, text: &[u8], form: &Form, reading: Reading) -> bool {
    match read_form(alloc, text, reading.profile, reading.left) {
        Ok(again) => again == *form,
        Err(_) => false,
    }
}

/// What is printed of a formula, where that is read as the same formula.
fn printed(alloc: Global, form: &Form, reading: Reading) -> Result<String, AllocError> {
    let text = print_form(alloc, form)?;
    if is_read_as(alloc, &text, form, reading) {
        return text_of(alloc, &text);
    }
    format!(in alloc; "another formula")
}

/// Whether what is printed of a formula is read as the same formula.
fn is_read_back(alloc: Global, form: &Form, reading: Reading) -> Result<bool, AllocError> {
    let text = print_form(alloc, form)?;
    Ok(is_read_as(alloc, &text, form, reading))
}

/// How long the text of a formula is and how high that is, where what is printed of it is read back.
fn measures_of(
    alloc: Global,
    text: &[u8],
    form: &Form,
    reading: Reading,
) -> Result<String, AllocError> {
    if !is_read_back(alloc, form, reading)? {
        return format!(in alloc; "another formula");
    }
    let length = text.len();
    let height = form.height();
    format!(in alloc; "{length} {height}")
}

/// The measures of a formula's copy, where that is the same.
fn measures(
    alloc: Global,
    text: &[u8],
    form: &Form,
    reading: Reading,
) -> Result<String, AllocError> {
    let copy = form.copy(alloc)?;
    if copy != *form {
        return format!(in alloc; "another formula");
    }
    measures_of(alloc, text, &copy, reading)
}

/// What is asked of the formula that a text spells, or why it spells none.
fn form_answer(
    alloc: Global,
    question: &str,
    text: &[u8],
    reading: Reading,
) -> Result<String, AllocError> {
    match read_form(alloc, text, reading.profile, reading.left) {
        Err(fault) => fault_text(alloc, fault),
        Ok(form) => match question {
            "form" => printed(alloc, &form, reading),
            "tree" => format!(in alloc; "{form:?}"),
            "high" => measures(alloc, text, &form, reading),
            _ => format!(in alloc; "no question"),
        },
    }
}

/// An invariant behind the index of its instruction.
fn inv_text(alloc: Global, index: u32, printed: &[u8]) -> Result<String, AllocError> {
    let printed = str::from_utf8(printed).unwrap_or("no text");
    format!(in alloc; "{index} {printed}")
}

/// Appends an invariant as text.
fn push_inv(alloc: Global, text: &mut String, index: u32, form: &Form) -> Result<(), AllocError> {
    let printed = print_form(alloc, form)?;
    let inv = inv_text(alloc, index, &printed)?;
    text.push_str(inv.as_str())
}

/// The invariants of a source, each behind the index of its instruction, parted by semicolons.
fn invs_text(alloc: Global, source: &Source) -> Result<String, AllocError> {
    let mut text = String::new(alloc);
    for (index, form) in source.invs.iter() {
        if !text.is_empty() {
            text.push_str("; ")?;
        }
        push_inv(alloc, &mut text, *index, form)?;
    }
    Ok(text)
}

/// The invariants of a source, or its first fault: the line and the kind.
fn source_answer(alloc: Global, text: &[u8], reading: Reading) -> Result<String, AllocError> {
    if text.len() > MAX_SOURCE {
        return format!(in alloc; "too long");
    }
    match read_source(alloc, text, reading.profile, reading.left) {
        Ok(source) => invs_text(alloc, &source),
        Err(LineFault::At(line, flaw)) => {
            let name = flaw.name();
            format!(in alloc; "{line} {name}")
        }
        Err(LineFault::Memory) => format!(in alloc; "no memory"),
    }
}

/// The answer to a question on a text that is read in a way that stands before it.
fn reading_answer(alloc: Global, question: &str, rest: &str) -> Result<String, AllocError> {
    let Some((name, text)) = rest.split_once(' ') else {
        return format!(in alloc; "no question");
    };
    let Some(reading) = reading_of(name) else {
        return format!(in alloc; "no reading");
    };
    match pieces(alloc, text)? {
        None => format!(in alloc; "no text"),
        Some(text) => match question {
            "source" => source_answer(alloc, &text, reading),
            _ => form_answer(alloc, question, &text, reading),
        },
    }
}

/// Returns the answer to the question of a line.
pub fn answer(alloc: Global, line: &str) -> Result<String, AllocError> {
    let Some((question, rest)) = question(line).split_once(' ') else {
        return format!(in alloc; "no question");
    };
    let lexeme = rest.as_bytes();
    match question {
        "register" => {
            let number = register(lexeme);
            format!(in alloc; "{number:?}")
        }
        "number" => {
            let number = read_number(lexeme);
            format!(in alloc; "{number:?}")
        }
        "decimal" => {
            let number = read_decimal(lexeme);
            format!(in alloc; "{number:?}")
        }
        "digit" => {
            let begins = begins_with_digit(lexeme);
            format!(in alloc; "{begins}")
        }
        _ => reading_answer(alloc, question, rest),
    }
}
