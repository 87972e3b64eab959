//! Assembler from parsed sources to container contents, reporting the first wrong line.
//!
//! Labels become displacements; code and invariants become what a container holds. The layer above
//! relies on this: `assemble` returns what a container of the source for a policy holds, or else
//! the first wrong line.
//!
//! The definitions are in `specs/`:
//!
//! - `Assembling`: the contents, as a relation and as the tests in their order;
//! - `Faults`: the meaning of errors;
//! - `Words`: the words written;
//! - `Views`: the results;
//! - `Limits`: the limits that all assembled contents keep to;
//! - `Names`: the names of the kinds of errors.
#![tactic(auto)]

mod assembled;
mod assembling;
mod checking;
mod fault;
mod invariants;
mod labels;
mod resolving;
mod theorems;
mod words;

pub use assembled::Assembled;
pub use assembling::assemble;
pub use fault::{AsmFault, AsmFlaw, MAX_KIND};
pub use theorems::laws;
