//! Locates parse errors in sources, with the faulty line and a caret, and assembles their code.
//!
//! `source_code` returns the code that a text spells as a source (`specs/SourceCode`, and
//! `specs/Answers` for the call's result). `source_lines` reports what a source is made of, or else
//! the first fault with its line and a mark under the place. `specs/SourceReports` defines the
//! report, `specs/Spans` where the mark of a fault is, and `specs/WrongOperands` which operand is
//! wrong. asm_text and pcc_asm alone define what a fault is, and which is the first. view_faults
//! shows a line with its mark.
#![tactic(auto)]

mod code;
mod forms;
mod operands;
mod sources;
mod spans;
mod statements;
mod theorems;
mod tokens;

pub use code::{CodeFault, SourceCode, source_code};
pub use sources::source_lines;
pub use theorems::laws;
