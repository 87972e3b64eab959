//! x86-64 machine: states, what each instruction of x86_words does, steps and runs, with every access checked.
//!
//! The definitions are in `specs/`:
//!
//! - `Flags`: what operators give, and when conditions hold;
//! - `Machine`: states, what an instruction does, steps and runs;
//! - `States`: states whose memory is one span.
//!
//! The layers above rely on this: `X86Machine::step` is exactly the definition, which takes the
//! instruction that stands at the offset (`laws`). After a compare, conditions are relations between
//! the words (`flag_laws`).
//!
//! Source: Intel 64 and IA-32 Architectures Software Developer's Manual, volumes 1 and 2.
#![tactic(auto)]

mod flags;
mod machine;
mod outcome;
mod theorems;

pub use flags::{Flags, alu_flags, alu_word, cond_holds, shift_word};
pub use machine::{X86Machine, fetch};
pub use outcome::{X86Outcome, X86Step};
pub use theorems::{flag_laws, laws};
