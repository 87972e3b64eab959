//! Verified compiler from classic BPF to containers accepted under the policy `filter`.
//!
//! `compile` returns a container that the checker accepts and whose code returns 0 if the program's
//! value is 0, else 1 (`specs/Compiled`). `specs/Compilation` says which bytes it has, as a
//! function of the program: the words that the assembler writes for its code, the terms of its
//! invariants, and the proof that the class of easy conditions gives.
//!
//! Two theorems are below it:
//!
//! - A program's code and invariants are the contents of a container without a proof
//!   (`specs/Contents`), which passes all checks before the proof. `prove` makes of it the
//!   container with the class's proof, which is accepted (`laws`).
//! - The bytes that the assembler writes for any code encode that code and decode to it
//!   (`written_laws`).
//!
//! pcc_gate's `specs/Passing` and `specs/Accepted` say what the checker checks, bounds_prover's
//! `specs/Proving` what `prove` makes.
//!
//! Sources: McCanne and Jacobson, The BSD Packet Filter, USENIX 1993, for the programs; Alpha
//! Architecture Handbook, "Instruction Formats", for code bytes; the container is this project's
//! own.
#![tactic(auto)]

mod compiling;
mod invariants;
mod theorems;
mod words;

pub use compiling::compile;
pub use theorems::{laws, written_laws};
