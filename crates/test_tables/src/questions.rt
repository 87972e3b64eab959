//! Rows on questions about programs of classic BPF, and the answers as text.

ghost use Rattle.bpf_words.specs.Programs.{IsProgram};

use crate::blocks::words_text;
use crate::bytes::{hex_bytes, question};
use bpf_code::bpf_code;
use bpf_words::{Bpf, BpfFault, LOADABLE, bpf_value, read_bpf};
use std::alloc::{AllocError, Global};

/// What is asked of a program.
#[derive(Clone, Copy)]
enum Asked {
    /// How many instructions are read.
    Read,
    /// The fields of the instruction at an index.
    Insn(u32),
    /// How many words its code has.
    Code,
    /// The words of the block at an index.
    Block(u32),
}

/// Returns the answer to a text that isn't a question.
pub fn no_question(alloc: Global) -> Result<String, AllocError> {
    format!(in alloc; "no question")
}

/// Why there is no program.
fn fault_text(alloc: Global, fault: BpfFault) -> Result<String, AllocError> {
    match fault {
        BpfFault::At(flaw) => {
            let name = flaw.name();
            let number = flaw.number();
            format!(in alloc; "{name} {number}")
        }
        BpfFault::Memory => format!(in alloc; "no memory"),
    }
}

/// The value of a program on a packet that bytes are.
fn value_text(alloc: Global, bytes: &[u8], packet: &[u8]) -> Result<String, AllocError> {
    if packet.len() < LOADABLE {
        return format!(in alloc; "a short packet");
    }
    match read_bpf(alloc, bytes) {
        Err(fault) => fault_text(alloc, fault),
        Ok(program) => {
            let value = bpf_value(&program, packet);
            format!(in alloc; "{value}")
        }
    }
}

/// Returns the value, as text, of the program in the bytes on a packet in hexadecimal.
pub fn packet_text(alloc: Global, program: &[u8], packet: &str) -> Result<String, AllocError> {
    match hex_bytes(alloc, packet)? {
        None => no_question(alloc),
        Some(packet) => value_text(alloc, program, &packet),
    }
}

/// The fields of an instruction.
fn fields_text(alloc: Global, insn: &Bpf) -> Result<String, AllocError> {
    let code = insn.code;
    let jt = insn.jt;
    let jf = insn.jf;
    let k = insn.k;
    format!(in alloc; "{code} {jt} {jf} {k}")
}

/// The fields of the instruction at an index.
fn insn_text(alloc: Global, program: &[Bpf], index: u32) -> Result<String, AllocError> {
    match program.get(index as usize) {
        Some(insn) => fields_text(alloc, insn),
        None => format!(in alloc; "no instruction"),
    }
}

/// How many instructions a program has.
fn length_text(alloc: Global, program: &[Bpf]) -> Result<String, AllocError> {
    let count = program.len();
    format!(in alloc; "program {count}")
}

/// How many words the code of a program has.
fn count_text(alloc: Global, program: &[Bpf]) -> Result<String, AllocError>
    requires { IsProgram program.now }
{
    let count = bpf_code(alloc, program)?.len();
    format!(in alloc; "{count} words")
}

/// The words of the block at an index of a program.
fn block_text(alloc: Global, program: &[Bpf], index: u32) -> Result<String, AllocError>
    requires { IsProgram program.now }
{
    let code = bpf_code(alloc, program)?;
    words_text(alloc, &code, index as usize)
}

/// What is asked of a program.
fn program_text(alloc: Global, asked: Asked, program: &[Bpf]) -> Result<String, AllocError>
    requires { IsProgram program.now }
{
    match asked {
        Asked::Read => length_text(alloc, program),
        Asked::Insn(index) => insn_text(alloc, program, index),
        Asked::Code => count_text(alloc, program),
        Asked::Block(index) => block_text(alloc, program, index),
    }
}

/// What is asked of the program that bytes are, or why they are none.
fn bytes_text(alloc: Global, asked: Asked, bytes: &[u8]) -> Result<String, AllocError> {
    match read_bpf(alloc, bytes) {
        Err(fault) => fault_text(alloc, fault),
        Ok(program) => program_text(alloc, asked, &program),
    }
}

/// The index in front of bytes.
fn indexed(text: &str) -> Option<(u32, &str)> {
    let (index, digits) = text.split_once(' ')?;
    Some((index.parse::<u32>().ok()?, digits))
}

/// What a text asks of a program, and its bytes; None where it asks nothing.
fn asked_of(text: &str) -> Option<(Asked, &str)> {
    let (word, rest) = text.split_once(' ')?;
    match word {
        "read" => Some((Asked::Read, rest)),
        "code" => Some((Asked::Code, rest)),
        "insn" => {
            let (index, digits) = indexed(rest)?;
            Some((Asked::Insn(index), digits))
        }
        "block" => {
            let (index, digits) = indexed(rest)?;
            Some((Asked::Block(index), digits))
        }
        _ => None,
    }
}

/// The answer to `value`: a program, `/` and a packet.
fn value_answer(alloc: Global, text: &str) -> Result<String, AllocError> {
    let Some((program, packet)) = text.split_once('/') else {
        return no_question(alloc);
    };
    match hex_bytes(alloc, program)? {
        None => no_question(alloc),
        Some(program) => packet_text(alloc, &program, packet),
    }
}

/// The answer to a question on a program.
fn asked_answer(alloc: Global, text: &str) -> Result<String, AllocError> {
    let Some((asked, digits)) = asked_of(text) else {
        return no_question(alloc);
    };
    match hex_bytes(alloc, digits)? {
        None => no_question(alloc),
        Some(bytes) => bytes_text(alloc, asked, &bytes),
    }
}

/// Returns the answer to the question of a line.
pub fn answer(alloc: Global, line: &str) -> Result<String, AllocError> {
    let text = question(line);
    match text.strip_prefix("value ") {
        Some(rest) => value_answer(alloc, rest),
        None => asked_answer(alloc, text),
    }
}
