//! Test runner for code words, runs, policies, texts, BPF programs, containers, x86-64, native code.
//!
//! Each file of `data` is a table. An empty line of it, or one that begins with `#`, has no row
//! (test case). The fields of the other lines are separated by tabs, except in the files whose
//! names end in `.txt`.
//!
//! `words.tsv`, on code words of both profiles: a code word, a text of the assembler (or nothing),
//! and the verdicts of the second and of the first profile. The rows of a line are how both
//! profiles read the word, and, for a text, what a source with it is in both: the instruction that
//! the word is, or the refusal, and a mnemonic that the first profile hasn't. Words and texts come
//! from an assembler, the verdicts from an independent implementation.
//!
//! `runs.tsv`, on runs of code of the second profile: a policy, the words of code, a packet, the
//! packet's result and its number of steps. The rows are that the run has this result, and that
//! with one step less it is out of steps. The results come from another machine.
//!
//! `files.tsv`, on policies from files: a file, in which `\n` is LF, `\r` is CR and `\N;` is N
//! blanks, and the result of reading it: `Lines N`, `Length L`, `Form L POSITION KIND`, or `policy`
//! with its text and its digest. `built_in.tsv`: the name of a built-in policy, its text, its
//! digest, and its number, the heights of its formulas, register 16 at the start of a second agent,
//! and the numbers that its containers may have; or a name and `no policy`. The digests are what
//! `sha256sum` prints for the texts.
//!
//! `texts.txt`, on texts: a question, `=` and the expected answer. A text has parts separated by
//! `|`, `N*PART` is a part N times, and blanks and line ends are written as in `files.tsv`. P says
//! how the text is read: `One` or `Two` for the profile, followed by `Left` if the text may name
//! the remaining steps. The questions are
//!
//! - `form P TEXT`: what is printed of the formula, which is read back, or `POSITION KIND`;
//! - `tree P TEXT`: the formula as a tree; `high P TEXT`: the length of the text and the height of
//!   the formula, which is copied, printed and read back;
//! - `source P TEXT`: the invariants of a source with their indices, or `LINE KIND`;
//! - `register LEXEME`, `number LEXEME`, `decimal LEXEME`: which one it is; `digit LEXEME`: whether
//!   it begins with a digit.
//!
//! `codes.txt`, on code words, with questions as in `texts.txt`:
//!
//! - `insn P INDEX WORD`: what is printed of the word at an index, `outside` if it leads to no
//!   index, or why the profile has no such word;
//! - `cut INDICES / WORDS`: how many words the code has that is cut at these indices, and its
//!   unfolded length; `marked I INDICES / WORDS`: whether it is marked at I. `N-M` are the indices
//!   from N to M, and `N*WORD` is a word N times.
//!
//! `rows.txt`, on programs of classic BPF: a question, `=` and the expected answer. Bytes are
//! written in hexadecimal, in groups separated by blanks, and `N*GROUP` is a group N times. The
//! questions are
//!
//! - `read BYTES`: `program N`, N being how many instructions are read, or the kind of what is
//!   wrong with its number;
//! - `insn I BYTES`: the fields of the instruction at an index, code, jt, jf and k;
//! - `value BYTES / PACKET`: the value of the program on the packet;
//! - `code BYTES`: how many words its code has; `block I BYTES`: the words of a block, each as what
//!   it does, what it reads and what it writes.
//!
//! `programs.tsv`, on programs of classic BPF with packets and their values by libpcap: a number,
//! where the program is from, its bytes, the packets, the values and what it is for. Each packet is
//! a row.
//!
//! `x86_bytes.tsv`, on x86-64 instructions: bytes, and their text as GNU objdump prints it, with a
//! jump's displacement behind `.+`. The row is that the bytes are decoded as this instruction, and
//! that it is encoded as these bytes.
//!
//! `x86_steps.tsv`, on what an x86-64 instruction does: its bytes; the registers, the flags and the
//! quadwords from 2^40 on before it; and, on a processor after it, the offset, the registers that
//! changed, the flags and the quadwords, or `left`. `bench/x86_rows` makes both tables.
//!
//! `native.tsv`, on translations: `plain`, or `fuel` if fuel is counted; the words of code of the second
//! profile; and the bytes of its native code. `objects.tsv`, on object files: a function's name, its
//! text, and the bytes of the file. `bench/x86_rows/native` makes both tables.
//!
//! `containers.txt`, on containers: a question, `=` and the expected answer. The bytes are pieces
//! separated by blanks: `PCCA`; `#` before bytes in hexadecimal; a group of fields separated by
//! commas, each a number, little-endian; `N*GROUP`, a group N times, in which a field `A+B` is A
//! the first time and B more each time; and `balanced*N`, the entries of the balanced tree over N
//! literals, the words 2^32 * k + k. The questions are
//!
//! - `read PIECES`: the offset and the kind of the first fault; or `N terms, weight W`, N being how
//!   many terms are read and W the proof's weight, 0 if there is none, if the container is written
//!   again byte for byte and `extent` gives these terms and its length;
//! - `fields PIECES`: its version, what names the policy, the step bound, the code, the invariants,
//!   the lemmas and the proof, the terms by their ids; `term N PIECES`: the term of id N;
//! - `cuts PIECES`: how many bytes there are, each shorter part being cut at the field that isn't
//!   complete.
#![tactic(auto)]

mod blocks;
mod bytes;
mod codes;
mod containers;
mod native_rows;
mod pieces;
mod policies;
mod programs;
mod questions;
mod runs;
mod texts;
mod words;
mod x86_rows;
mod x86_text;

use anyhow::Result;
use bytes::{field, wanted};
use std::alloc::{AllocError, Global};
use std::fs;

/// A table of rows.
#[derive(Clone, Copy)]
enum Table {
    Words,
    Runs,
    Files,
    BuiltIn,
    Texts,
    Codes,
    Questions,
    Programs,
    Containers,
    X86Bytes,
    X86Steps,
    Native,
    Objects,
}

/// Every table.
const TABLES: [Table; 13] = [
    Table::Words,
    Table::Runs,
    Table::Files,
    Table::BuiltIn,
    Table::Texts,
    Table::Codes,
    Table::Questions,
    Table::Programs,
    Table::Containers,
    Table::X86Bytes,
    Table::X86Steps,
    Table::Native,
    Table::Objects,
];

impl Table {
    /// The name of its file.
    fn name(self) -> &'static str {
        match self {
            Table::Words => "words.tsv",
            Table::Runs => "runs.tsv",
            Table::Files => "files.tsv",
            Table::BuiltIn => "built_in.tsv",
            Table::Texts => "texts.txt",
            Table::Codes => "codes.txt",
            Table::Questions => "rows.txt",
            Table::Programs => "programs.tsv",
            Table::Containers => "containers.txt",
            Table::X86Bytes => "x86_bytes.tsv",
            Table::X86Steps => "x86_steps.tsv",
            Table::Native => "native.tsv",
            Table::Objects => "objects.tsv",
        }
    }

    /// How many rows a line of it has.
    fn rows(self, line: &str) -> usize {
        match self {
            Table::Words => words::rows(line),
            Table::Runs => 2,
            Table::Files => policies::file_rows(line),
            Table::BuiltIn => policies::built_in_rows(line),
            Table::Programs => programs::rows(line),
            Table::Texts | Table::Codes | Table::Questions | Table::Containers => 1,
            Table::X86Bytes | Table::X86Steps | Table::Native | Table::Objects => 1,
        }
    }

    /// The answer that a row of a line wants.
    fn want(self, line: &str, row: usize) -> &str {
        match self {
            Table::Words => words::want(line, row),
            Table::Runs => runs::want(line, row),
            Table::Files => policies::file_want(line, row),
            Table::BuiltIn => field(line, row.saturating_add(1)),
            Table::Programs => programs::want(line, row),
            Table::Texts | Table::Codes | Table::Questions | Table::Containers => wanted(line),
            Table::X86Bytes => field(line, 1),
            Table::X86Steps => field(line, 4),
            Table::Native | Table::Objects => field(line, 2),
        }
    }

    /// The answer to a row of a line.
    fn answer(self, alloc: Global, line: &str, row: usize) -> Result<String, AllocError> {
        match self {
            Table::Words => words::answer(alloc, line, row),
            Table::Runs => runs::answer(alloc, line, row),
            Table::Files => policies::file_answer(alloc, line, row),
            Table::BuiltIn => policies::built_in_answer(alloc, line, row),
            Table::Texts => texts::answer(alloc, line),
            Table::Codes => codes::answer(alloc, line),
            Table::Questions => questions::answer(alloc, line),
            Table::Programs => programs::answer(alloc, line, row),
            Table::Containers => containers::answer(alloc, line),
            Table::X86Bytes => x86_rows::bytes_answer(alloc, line),
            Table::X86Steps => x86_rows::steps_answer(alloc, line),
            Table::Native => native_rows::code_answer(alloc, line),
            Table::Objects => native_rows::object_answer(alloc, line),
        }
    }
}

/// How many rows there were, and how many of them differ.
#[derive(Drop)]
struct Counts {
    rows: u64,
    differ: u64,
}

impl Counts {
    /// Counts one row more.
    fn count(&mut self, differs: bool) {
        self.rows = self.rows.saturating_add(1);
        if differs {
            self.differ = self.differ.saturating_add(1);
        }
    }
}

/// Counts a row, and prints it with its line and the answer that was got, where that isn't the
/// wanted one.
fn report(rt: &HostRuntime, counts: &mut Counts, line: &str, got: &str, want: &str) -> Result<()> {
    let differs = got != want;
    counts.count(differs);
    if differs {
        println!(rt; "{line}: {got} in place of {want}")?;
    }
    Ok(())
}

/// Asks a row of a line.
fn ask_row(
    rt: &HostRuntime,
    counts: &mut Counts,
    table: Table,
    line: &str,
    row: usize,
) -> Result<()> {
    let got = table.answer(rt.alloc(), line, row)?;
    report(rt, counts, line, got.as_str(), table.want(line, row))
}

/// Asks the rows of a line, where it has some.
fn ask_line(rt: &HostRuntime, counts: &mut Counts, table: Table, line: &str) -> Result<()> {
    if line.is_empty() || line.starts_with('#') {
        return Ok(());
    }
    for row in 0..table.rows(line) {
        ask_row(rt, counts, table, line, row)?;
    }
    Ok(())
}

/// Asks the rows of each line of a table.
fn ask(rt: &HostRuntime, counts: &mut Counts, table: Table) -> Result<()> {
    let text = fs::read_to_string(rt, table.name())?;
    for line in text.lines() {
        ask_line(rt, counts, table, line)?;
    }
    Ok(())
}

/// Asks the rows of every table, prints those that differ, and their count.
fn main(rt: HostRuntime) -> Result<()> {
    let mut counts = Counts { rows: 0, differ: 0 };
    for table in TABLES {
        ask(&rt, &mut counts, table)?;
    }
    let rows = counts.rows;
    let differ = counts.differ;
    println!(rt; "{rows} rows, {differ} differ")?;
    Ok(())
}
