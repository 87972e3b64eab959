//! Interpreter host that runs accepted code on packets without testing memory accesses.
//!
//! A `Host` holds accepted code and an arena; it holds neither access rights nor a count of steps.
//! `load` begins at the policy's start state on a packet, and the rights of that start then fit the
//! host. Under all rights that fit, `run` is the run of the machine that tests each access; if the
//! code has a step bound, a run with at least that budget ends with a return. `run_counted` also
//! counts the steps (`specs/Counts`; `count_laws` says what such a count is). `HostRunner` turns
//! packets into the results that the testing machine gives. `specs/Hosts` defines what a host holds
//! and which rights fit it, `specs/Runs` loading and running, `specs/Runners` runs on packets;
//! steps are those of the crate host_steps.
//!
//! Source: Necula and Lee, Safe Kernel Extensions Without Run-Time Checking, OSDI 1996.
#![tactic(auto)]

mod ended;
mod host;
mod reloading;
mod runner;
#[cfg(test)]
mod tests;
mod theorems;

pub use ended::Counted;
pub use host::Host;
pub use host_steps::Ended;
pub use runner::HostRunner;
pub use theorems::count_laws;
