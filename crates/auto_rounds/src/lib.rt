//! Which goals of a container's verification condition aren't easy, for a search.
//!
//! `ask_round` asks about each goal of a container under a policy, and says which conjuncts of the
//! invariants aren't easy where they are reached, and whether any other goal isn't. Easy is what
//! `prove` proves, or in the wider class what `auto_proofs` does; `find_proof` returns the proof
//! that this finds. Nothing is claimed of the answers: whoever uses them asks the checker about what
//! it makes of them.
//!
//! Source: Flanagan and Leino, Houdini, FME 2001.
#![tactic(auto)]

mod fault;
mod judging;
mod proving;
mod rounds;

pub use fault::RoundFault;
pub use proving::{Found, find_proof};
pub use rounds::{Manner, Missing, Round, ask_round};
