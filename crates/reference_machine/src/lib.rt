//! The reference interpreter: runs code step by step and checks every memory access.
//!
//! An `Agent` is a machine state in an arena of 8,194 quadwords. The layers above rely on this: its
//! `load`, `step`, `run` and `sum` compute exactly the definitions' start state, step, run and sum.
//!
//! States, steps and runs are defined in alpha_cfg's `specs/Machine`, memories and access rights in
//! word_ops, and the state that a start gives in `specs/Starts`.
//!
//! Source: Alpha Architecture Handbook, the instruction descriptions.
#![tactic(auto)]

mod agent;
mod layout;
mod loading;
mod parts;
mod start;
mod theorems;

pub use agent::Agent;
pub use alpha_cfg::{Kind, Outcome, Step};
pub use layout::{ARENA, QUADWORDS};
pub use loading::{fill, reach, refill};
pub use parts::{
    address_of, aligned, far_address_of, is_allowed, read_reg, rhs_word, takes, write_reg,
};
pub use start::Start;
pub use theorems::laws;
