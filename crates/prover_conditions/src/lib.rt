//! Proves the verification condition of annotated code, or names the first part that it can't
//! prove.
//!
//! The layer above uses that `prove_condition` returns the proof that `prover_class` defines for
//! the verification condition of code under a policy, or the first part that isn't easy
//! (`specs/Conditions`). Every cycle of the code has to contain a cut point. The proof checks
//! against the condition. Below it, `proof_by_all_means` and `proof_by_access` return what the
//! definitions give for any hypotheses and goal that the ids stand for: the first for any goal, the
//! second for the right to load or store. The result is a proof term, or None. Source: Necula,
//! Proof-Carrying Code, POPL 1997 (the rules); the search is this project's own.
#![tactic(auto)]

mod access;
mod access_grants;
mod access_instances;
mod access_moves;
mod access_walks;
mod all_means;
mod conditions;
mod parts;

pub use access::proof_by_access;
pub use all_means::proof_by_all_means;
pub use conditions::{MOST_SEARCHED, condition_in, prove_condition};
pub use parts::{ConditionProof, outside_part};
