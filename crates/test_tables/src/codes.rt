//! Rows on what is printed of code words, and on the marks and the length of cut code.

ghost use Rattle.std.specs.Prelude.{◌≡◌, ◌^◌, true, IsTrue};
ghost use Rattle.std.specs.List.Sorted.{IsStrictlyIncreasing};
ghost use Rattle.alpha_cfg.specs.Flow.{InsideOf};
ghost use Rattle.alpha_words.specs.Lawful.{target_of};

use crate::bytes::{question, text_of, word_of};
use crate::runs::code_in;
use alpha_cfg::Cut;
use alpha_words::{Insn, decode, target};
use asm_print::push_insn;
use std::alloc::{AllocError, Global};
use word_ops::Profile;

/// Whether the instruction at the index, if it is a branch, leads to an index.
fn leads_to_index(index: u32, insn: &Insn) -> bool
    ensures { result ≡ true → InsideOf (2 ^ 32) (target_of index insn.now) }
{
    match target(index, *insn) {
        Some(at) => 0 <= at && at < 0x1_0000_0000,
        None => true,
    }
}

/// What is printed of an instruction.
fn insn_text(alloc: Global, index: u32, insn: Insn) -> Result<String, AllocError>
    requires { InsideOf (2 ^ 32) (target_of index insn) }
{
    let mut out = Vec::new(alloc);
    push_insn(&mut out, index, insn)?;
    text_of(alloc, &out)
}

/// What is printed of the word at an index, or why it is no instruction.
fn word_text(alloc: Global, index: u32, word: u32, profile: Profile) -> Result<String, AllocError> {
    match decode(word, profile) {
        Err(bad) => {
            let name = bad.name();
            format!(in alloc; "{name}")
        }
        Ok(insn) => {
            if !leads_to_index(index, &insn) {
                return format!(in alloc; "outside");
            }
            insn_text(alloc, index, insn)
        }
    }
}

/// The answer to `insn`: a profile, an index and a word.
fn insn_answer(alloc: Global, text: &str) -> Result<String, AllocError> {
    let Some((name, rest)) = text.split_once(' ') else {
        return format!(in alloc; "no question");
    };
    let profile = match name {
        "One" => Profile::One,
        _ => Profile::Two,
    };
    let Some((index, word)) = rest.split_once(' ') else {
        return format!(in alloc; "no question");
    };
    match (index.parse::<u32>(), word_of(word)) {
        (Ok(index), Some(word)) => word_text(alloc, index, word, profile),
        _ => format!(in alloc; "no word"),
    }
}

/// Appends the numbers of a text, `N` or `N-M`; false where it is neither.
fn push_numbers(numbers: &mut Vec<u32>, text: &str) -> Result<bool, AllocError> {
    let (first, last) = match text.split_once('-') {
        Some(both) => both,
        None => (text, text),
    };
    let (Ok(first), Ok(last)) = (first.parse::<u32>(), last.parse::<u32>()) else {
        return Ok(false);
    };
    for number in first..last.saturating_add(1) {
        numbers.push(number)?;
    }
    Ok(true)
}

/// Whether each is above the one before it.
fn is_rising(marks: &[u32]) -> bool
    ensures { IsTrue result → IsStrictlyIncreasing marks.now }
{
    for i in 1..marks.len() {
        if marks[i - 1] >= marks[i] {
            return false;
        }
    }
    true
}

/// The code of words, cut at indices; None where it can't be cut there.
fn cut_words(alloc: Global, words: &str, marks: &[u32]) -> Result<Option<Cut>, AllocError> {
    let Some(code) = code_in(alloc, words)? else {
        return Ok(None);
    };
    if !is_rising(marks) || !marks.iter().all(|mark| *mark < code.count()) {
        return Ok(None);
    }
    Ok(code.cut(alloc, marks).ok())
}

/// The indices of a text; None where it has others.
fn indices_of(alloc: Global, text: &str) -> Result<Option<Vec<u32>>, AllocError> {
    let mut marks = Vec::new(alloc);
    for part in text.split_whitespace() {
        if !push_numbers(&mut marks, part)? {
            return Ok(None);
        }
    }
    Ok(Some(marks))
}

/// The code of a text: the indices where it is cut, `/` and its words.
fn cut_of(alloc: Global, text: &str) -> Result<Option<Cut>, AllocError> {
    let Some((indices, words)) = text.split_once('/') else {
        return Ok(None);
    };
    match indices_of(alloc, indices)? {
        None => Ok(None),
        Some(marks) => cut_words(alloc, words.trim(), &marks),
    }
}

/// The answer to `cut`: how many instructions there are, and the unfolded length.
fn cut_answer(alloc: Global, text: &str) -> Result<String, AllocError> {
    match cut_of(alloc, text)? {
        None => format!(in alloc; "no cut"),
        Some(cut) => {
            let count = cut.code().count();
            let unfolded = cut.unfolded();
            format!(in alloc; "{count} {unfolded}")
        }
    }
}

/// The answer to `marked`: whether the index before the cut is marked.
fn marked_answer(alloc: Global, text: &str) -> Result<String, AllocError> {
    let Some((index, rest)) = text.split_once(' ') else {
        return format!(in alloc; "no question");
    };
    match (index.parse::<u32>(), cut_of(alloc, rest)?) {
        (Ok(index), Some(cut)) => {
            let marked = cut.marked(index);
            format!(in alloc; "{marked}")
        }
        _ => format!(in alloc; "no cut"),
    }
}

/// Returns the answer to the question of a line.
pub fn answer(alloc: Global, line: &str) -> Result<String, AllocError> {
    match question(line).split_once(' ') {
        Some(("insn", rest)) => insn_answer(alloc, rest),
        Some(("cut", rest)) => cut_answer(alloc, rest),
        Some(("marked", rest)) => marked_answer(alloc, rest),
        _ => format!(in alloc; "no question"),
    }
}
