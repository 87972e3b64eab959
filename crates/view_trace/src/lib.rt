//! Prints a run of code on a packet step by step, with accesses and register changes.
//!
//! A `Tracer` prints a packet: a line for each step of the testing machine, with the instruction,
//! what it loads or stores, and the register that changes; the packet's result line follows them.
//! `specs/Traces` defines what is printed, `specs/Accesses` what a step asks of memory,
//! `specs/Changes` which register changes. The texts of the instructions are made before the first
//! line, so printing takes no memory.
#![tactic(auto)]

mod accesses;
mod changes;
mod steps;
mod texts;
mod tracer;

pub use tracer::Tracer;
