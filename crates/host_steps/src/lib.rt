//! A predecoded interpreter for Alpha code that tests no memory access, and when none needs a test.
//!
//! `operations_of` predecodes code once: an `Operation` has its operator and its kind of operand in
//! one tag, holds the index that it branches to, and fits 16 bytes. `Slots` holds the registers in
//! 32 places, of which the last stays 0, so no register number is tested. `run_steps` makes the
//! steps; if none of the accesses would be blocked, its run equals the run of the machine that
//! tests each access. The base of the arena is a parameter. Steps are those of alpha_cfg's
//! `specs/Machine`. `specs/Operations` says which operation belongs to which instruction,
//! `specs/Stepping` what a run is that tests no access, and `specs/RunEnds` how it ends.
//!
//! `laws` says when no test is needed. Take annotated code whose verification condition is true.
//! The access rights of a start fit the code's part of the arena. Under rights that fit, a run that
//! tests no access is never blocked, and equals the run of the machine that tests each access. If
//! steps are bounded, a run of as many steps as are left returns. Parts and rights that fit are
//! defined in `specs/Parts`. Rights fit together with a number of remaining steps. No run-time
//! value holds that number: it is the step bound at a start, and each step takes one. No theorem
//! mentions a container, so a host of one agent and a host of many rest on one set of theorems.
//!
//! A step, its parts and the calls of `Slots` are inlined (`#[inline(always)]`), so a run is one
//! loop over one jump table. The operator of an arm is a constant there, and `apply` and `takes`
//! fold to it.
//!
//! Source: Necula and Lee, Safe Kernel Extensions Without Run-Time Checking, OSDI 1996; parts are
//! this project's own.
#![tactic(auto)]

mod ended;
mod operations;
mod slots;
mod stepping;
mod theorems;

pub use ended::Ended;
pub use operations::{Operation, operations_of};
pub use slots::Slots;
pub use stepping::run_steps;
pub use theorems::laws;
