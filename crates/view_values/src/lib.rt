//! Evaluates closed expressions, and recognizes formulas that are false by computing.
//!
//! `is_false` returns whether a formula is `ff`, a relation between literals or what operators
//! compute from them that doesn't hold, or a conjunction with such a part (`specs/Values`). No state
//! makes such a formula true (`laws`).
#![tactic(auto)]

mod theorems;
mod values;

pub use theorems::laws;
pub use values::is_false;
