//! Time-shared interpreter for several accepted programs, each in memory of its own, without access
//! tests.
//!
//! Each agent has a part: 8,194 quadwords, at addresses from `part_base` of its number on. No two
//! parts have an address in common. An `AgentHost` holds neither access rights nor counts of steps. `load` brings one agent to the
//! start state of its policy in its part, and the rights of that start then fit the agent. Under
//! all rights that fit, `turn` is the run of the machine that tests each access; if the agent has a
//! step bound, a turn with at least that budget ends with a return. Both leave every other agent
//! unchanged: their clauses say that the list of agents is the old one with one member replaced.
//! What any order of turns results in is said in alpha_turns over the machine's definition.
//! `world_laws` joins both: a host is one of alpha_turns' worlds, in which all agents share one
//! memory, before and after each list of turns. `specs/Agents` defines what a host holds of an
//! agent, `specs/Hosts` loading, `specs/Turns` turns, `specs/Worlds` the world; steps, and runs in a
//! part, are those of host_steps.
//!
//! Source: Necula and Lee, Safe Kernel Extensions Without Run-Time Checking, OSDI 1996; turns and
//! parts are this project's own.
#![tactic(auto)]

mod agent;
mod host;
mod phase;
mod theorems;
mod turned;

pub use host::{AgentHost, MAX_AGENTS, part_base};
pub use phase::Phase;
pub use theorems::world_laws;
pub use turned::Turned;
