//! Test runner: reads files of test cases, runs each command, and reports what differs.
//!
//! A crate above supplies the program that the commands belong to (`Program`). docs/ADDING ("A
//! row") describes what a row looks like. `scene` holds the state while a file is read, `lines`
//! does what a line says, `pieces` makes the bytes of files, and `running` runs a row.
#![tactic(auto)]

mod codes;
mod details;
mod files;
mod goals;
mod lines;
mod numbers;
mod pieces;
mod program;
mod row;
mod running;
mod scene;
mod shapes;
mod tally;

pub use lines::take_data;
pub use numbers::number;
pub use program::Program;
pub use scene::Scene;
pub use tally::Tally;
