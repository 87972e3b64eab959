//! x86-64 instructions of a subset of 24 forms: their bytes, each form of one length, and the decoder.
//!
//! The definitions are in `specs/`:
//!
//! - `Codes`: the codes of operators, shifts, conditions and scales;
//! - `Encoding`: the bytes of each instruction, and which values are instructions;
//! - `Decoding`: the instruction at the front of bytes, as a relation and as a function.
//!
//! The layers above rely on this: no instruction's bytes begin with another's, and `decode` finds
//! the instruction at the front of bytes, if any (`laws`).
//!
//! Source: Intel 64 and IA-32 Architectures Software Developer's Manual, volume 2.
#![tactic(auto)]

mod bytes;
mod decoding;
mod encoding;
mod insn;
mod operators;
mod reg;
mod theorems;

pub use bytes::{InsnBytes, MAX_LENGTH};
pub use decoding::decode;
pub use insn::X86Insn;
pub use operators::{AluOp, Scale, ShiftOp, X86Cond};
pub use reg::X86Reg;
pub use theorems::laws;
