//! Parser of assembler sources with labels and loop invariants, reporting the first wrong line.
//!
//! The layer above relies on this: `read_source` returns the instructions, labels and invariants of
//! the source that a text spells, or else the first wrong line. `mnemonic_named` returns the
//! mnemonic of a profile that a lexeme is.
//!
//! The definitions are in `specs/`:
//!
//! - `Sources`, `Statements` and `Insns`: the grammar of a source, of a line and of an instruction;
//! - `Faults` and `Operands`: the meaning of errors;
//! - `SourceParsing` and `InsnParsing`: the parser's tests, in their order.
//!
//! Lines, which other texts have too, are in text_tokens. The format is this project's own; the
//! mnemonics come from the Alpha Architecture Handbook.
#![tactic(auto)]

mod fault;
mod insns;
mod integers;
mod labels;
mod limits;
mod marks;
mod mnemonics;
mod progress;
mod reading;
mod registers;
mod sources;
mod statements;
mod theorems;

pub use fault::{LineFault, LineFlaw, MAX_KIND};
pub use insns::SrcInsn;
pub use labels::Label;
pub use limits::{MAX_INSNS, MAX_INVS, MAX_LINE, MAX_SOURCE};
pub use mnemonics::{Mnemonic, mnemonic_named};
pub use reading::read_source;
pub use sources::Source;
pub use theorems::laws;
