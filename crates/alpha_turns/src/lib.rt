//! Theorems about time-sliced agents: each ends as if it ran alone, whatever the schedule.
//!
//! A turn is a run with a step limit (a budget); it continues the agent's last run if that was out
//! of steps. The layers above rely on two facts:
//!
//! - Whatever the turns, each agent is in the state that one run alone gives it, with the sum of
//!   its own budgets (`laws`).
//! - Agents that share one memory, each with rights only in its own part, behave as if each had a
//!   memory of its own (`part_laws`).
//!
//! So a host of many agents specifies what one turn does to one agent, and that it is such a memory
//! (`agent_host::world_laws`). Turns are defined in `specs/Turns`, parts in `specs/Parts`, and runs in
//! alpha_cfg's `specs/Machine`.
//!
//! Source: Necula and Lee, Safe Kernel Extensions Without Run-Time Checking, OSDI 1996, for code of
//! several producers in one address space; turns and parts are this project's own.
#![tactic(auto)]

mod theorems;
mod turns;

pub use theorems::{laws, part_laws};
pub use turns::{Turn, own_budget};
