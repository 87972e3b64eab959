//! Implements each command of pcc: what it reads, refuses, writes and prints.
//!
//! Each command, over any files, reads and writes what its stage says (`Decides` of `stage_of`),
//! and a `Report` prints its lines. `specs/Tasks` says what arguments ask for, over the stages in
//! `specs/Stages` and a file for each command in `specs/Commands`.
#![tactic(auto)]

mod commands;
mod report;
mod stages;
mod turning;
mod turns;

pub use commands::{
    asm_command, bpf_command, check_command, demo_command, host_command, prove_command,
    ref_command, run_command, upgrade_command,
};
pub use report::Report;
pub use stages::{MAX_PROGRAM_FILE, assembled_in};
