//! The command `prove` as a library: puts a proof of its verification condition into a container.
//!
//! The layer above uses that `prove` returns the container in the bytes with a proof of its
//! verification condition in place of its own, if the prover finds one (`prover_conditions`,
//! `prover_class`). Else it returns the first reason why not (`specs/Proving`). The container
//! checker accepts the result (`specs/ProvedLaws`). Source: Necula, Proof-Carrying Code, POPL 1997
//! (the rules); the search is this project's own.
#![tactic(auto)]

mod fault;
mod proving;
mod theorems;

pub use fault::{Measure, ProveFault, ProveFlaw};
pub use proving::{prove, prove_within};
pub use theorems::prove_laws;
