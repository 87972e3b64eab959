//! Parser for test files whose test cases contain LF terms, shared by the test runners.
//!
//! The contracts promise only what the tests' proofs need: each function checks at run time what it
//! requires of ids, so that tests carry no facts. Text is read as trees of the table, and ids of
//! the table keep their trees (`term_text`).
#![tactic(auto)]

pub mod cursors;
pub mod faults;
pub mod names;
pub mod printing;
pub mod rows;
pub mod term_text;
