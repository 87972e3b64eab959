//! Parser for scripts that load agents and then give them time slices (turns).
//!
//! A script has lines `load POLICY FILE PACKETS`, which number the agents from 0, and then lines
//! `turn A N`. `read_script` returns the script that a text holds, or its first fault: the first
//! line that is wrong, and the first test that it fails. `specs/Lines` defines lines and words,
//! `specs/Statements` what a line says, `specs/Scripts` what a script says, `specs/Names` the names
//! of the kinds of faults; a turn is alpha_turns'. `specs/Texts` says, without an order of reading,
//! which text is a script, and which of its lines is the first that is wrong; `laws` says that
//! `read_script` agrees with it. The format is this project's own.
#![tactic(auto)]

mod fault;
mod line;
mod reader;
mod script;
mod statement;
mod theorems;

pub use alpha_turns::Turn;
pub use fault::{MAX_KIND, ScriptFault, ScriptFlaw};
pub use reader::read_script;
pub use script::{Load, MAX_LOADS, MAX_SCRIPT, MAX_TURN, Script};
pub use theorems::laws;
