//! The program pcc_auto, with its command line: finds invariants and a proof for a source or a
//! container.
//!
//! The top call is `pcc_auto`; the program, auto_main, calls it over the real files and standard
//! output. `specs/Tasks` says what arguments ask for, with what the search comes to as a parameter;
//! `auto_search` says what that keeps (`specs/Outcomes`).
#![tactic(auto)]

mod arguments;
mod drafts;
mod finding;
mod report;
mod texts;
mod top_call;

pub use arguments::{AutoArgs, FILE_POLICY_VERSION, UNFLAGGED_VERSION, read_args};
pub use report::Report;
pub use top_call::{laws, pcc_auto};
