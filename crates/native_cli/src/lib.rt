//! The verified program pcc_native: translates accepted code into an object file for x86-64.
//!
//! The top call is `pcc_native`; the program, native_main, calls it over the real files and output.
//! `specs/Invocations` says what arguments ask for, `specs/Tasks` what a run reads, refuses and
//! writes, and `specs/Headline` what it has to do with the container. What calls of the code do that
//! was written, `native_gate::call_laws` says, and `laws` how a run ends.
#![tactic(auto)]

mod arguments;
mod builders;
mod report;
mod texts;
mod theorems;
mod top_call;
mod translating;

pub use arguments::{NativeArgs, read_args};
pub use report::Report;
pub use theorems::laws;
pub use top_call::pcc_native;
