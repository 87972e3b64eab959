//! Searches for invariants of a container's code and a proof of its verification condition.
//!
//! `search` first asks the prover about the container as it stands. Else it supposes many formulas
//! at each loop, drops those that aren't easy where the loop goes round, until none is left to drop
//! (Houdini), and leaves out what isn't needed. `specs/Outcomes` says what the outcome keeps,
//! however it was found: what is found is accepted by the checker, which is asked about it, and has
//! the container's version, policy, bound, code and lemmas.
//!
//! Source: Flanagan and Leino, Houdini, FME 2001.
#![tactic(auto)]

mod containers;
mod heads;
mod houdini;
mod outcome;
mod searching;
mod shrinking;

pub use outcome::{Outcome, SearchFault};
pub use searching::{MOST_STEPS, search};
