//! Rows on the bytes of x86-64 instructions, and on what one does.

use crate::bytes::{field, hex_bytes};
use crate::x86_text::insn_text;
use std::alloc::{AllocError, Global};
use x86_machine::{Flags, X86Machine, X86Step};
use x86_words::{X86Insn, decode};

/// The address of the first quadword of a row.
const MEMORY: u64 = 1 << 40;

/// The most quadwords that a row has.
const MOST: usize = 8;

/// Checks whether the bytes are the instruction's, and no more.
fn has_bytes(alloc: Global, insn: &X86Insn, bytes: &[u8]) -> Result<bool, AllocError> {
    let mut own = Vec::new(alloc);
    insn.encode(&mut own)?;
    Ok(own.as_slice() == bytes && insn.length() == bytes.len())
}

/// An instruction as text, if the bytes are its own.
fn own_text(alloc: Global, insn: &X86Insn, bytes: &[u8]) -> Result<String, AllocError> {
    if has_bytes(alloc, insn, bytes)? {
        insn_text(alloc, *insn)
    } else {
        format!(in alloc; "other bytes")
    }
}

/// What bytes are as an instruction.
fn bytes_text(alloc: Global, bytes: &[u8]) -> Result<String, AllocError> {
    match decode(bytes) {
        Some(insn) => own_text(alloc, &insn, bytes),
        None => format!(in alloc; "no instruction"),
    }
}

/// Returns the instruction that the bytes of a line are, as text.
pub fn bytes_answer(alloc: Global, line: &str) -> Result<String, AllocError> {
    match hex_bytes(alloc, field(line, 0))? {
        Some(bytes) => bytes_text(alloc, &bytes),
        None => format!(in alloc; "no bytes"),
    }
}

/// The words of a text in hexadecimal; None if it has another.
fn words_of(alloc: Global, text: &str) -> Result<Option<Vec<u64>>, AllocError> {
    let mut words = Vec::new(alloc);
    for digits in text.split_whitespace() {
        let Ok(word) = u64::from_str_radix(digits, 16) else {
            return Ok(None);
        };
        words.push(word)?;
    }
    Ok(Some(words))
}

/// The flags of a number.
fn flags_of(number: u8) -> Flags {
    Flags {
        carry: number % 2 == 1,
        zero: number / 2 % 2 == 1,
        sign: number / 4 % 2 == 1,
        overflow: number / 8 % 2 == 1,
    }
}

/// 1 if the flag is set, else 0, so many times.
fn times(flag: bool, weight: u8) -> u8 {
    if flag { weight } else { 0 }
}

/// The number of flags.
fn number_of(flags: Flags) -> u32 {
    u32::from(times(flags.carry, 1))
        + u32::from(times(flags.zero, 2))
        + u32::from(times(flags.sign, 4))
        + u32::from(times(flags.overflow, 8))
}

/// The registers that aren't the words before, or `-`.
fn changed_text(
    alloc: Global,
    before: &[u64; 16],
    after: &[u64; 16],
) -> Result<String, AllocError> {
    let mut text = String::new(alloc);
    for number in 0..16 {
        let word = after[number];
        if before[number] != word {
            let changed = format!(in alloc; " {number}={word:x}")?;
            text.push_str(changed.as_str())?;
        }
    }
    if text.is_empty() {
        text.push_str(" -")?;
    }
    Ok(text)
}

/// The quadwords from `MEMORY` on.
fn quadwords_text(alloc: Global, machine: &X86Machine, count: usize) -> Result<String, AllocError> {
    let mut text = String::new(alloc);
    for place in 0..count {
        let addr = MEMORY.wrapping_add((place as u64).wrapping_mul(8));
        let word = machine.word_at(addr).unwrap_or(0);
        let quadword = format!(in alloc; " {word:x}")?;
        text.push_str(quadword.as_str())?;
    }
    Ok(text)
}

/// The number of flags, or `-` if they are undefined.
fn flags_text(alloc: Global, flags: Option<Flags>) -> Result<String, AllocError> {
    match flags {
        Some(flags) => {
            let number = number_of(flags);
            format!(in alloc; "{number}")
        }
        None => format!(in alloc; "-"),
    }
}

/// A state after a step: its offset, the registers that changed, its flags and its quadwords.
fn state_text(
    alloc: Global,
    machine: &X86Machine,
    before: &[u64; 16],
    count: usize,
) -> Result<String, AllocError> {
    let at = machine.at();
    let changed = changed_text(alloc, before, &machine.regs())?;
    let flags = flags_text(alloc, machine.flags())?;
    let quadwords = quadwords_text(alloc, machine, count)?;
    format!(in alloc; "{at} /{changed} / {flags} /{quadwords}")
}

/// What a step of the code comes to.
fn step_text(
    alloc: Global,
    code: &[u8],
    regs: [u64; 16],
    flags: u8,
    words: Vec<u64>,
) -> Result<String, AllocError> {
    let count = words.len();
    if count > MOST {
        return format!(in alloc; "too many quadwords");
    }
    let mut machine = X86Machine::new(regs, Some(flags_of(flags)), MEMORY, words);
    match machine.step(code) {
        X86Step::Moved => state_text(alloc, &machine, &regs, count),
        X86Step::Left => format!(in alloc; "left"),
        X86Step::Stuck => format!(in alloc; "stuck"),
    }
}

/// The first sixteen words, and 0 where there are fewer.
fn registers_of(words: &[u64]) -> [u64; 16] {
    let mut regs = [0; 16];
    for (reg, word) in regs.iter_mut().zip(words) {
        *reg = *word;
    }
    regs
}

/// What a step of the code comes to, with registers and quadwords as text.
fn code_text(alloc: Global, code: &[u8], line: &str) -> Result<String, AllocError> {
    let flags = field(line, 2).parse::<u8>().unwrap_or(0);
    match (
        words_of(alloc, field(line, 1))?,
        words_of(alloc, field(line, 3))?,
    ) {
        (Some(regs), Some(words)) => step_text(alloc, code, registers_of(&regs), flags, words),
        _ => format!(in alloc; "no words"),
    }
}

/// Returns what a step of the instruction of a line comes to.
pub fn steps_answer(alloc: Global, line: &str) -> Result<String, AllocError> {
    match hex_bytes(alloc, field(line, 0))? {
        Some(code) => code_text(alloc, &code, line),
        None => format!(in alloc; "no bytes"),
    }
}
