//! Proofs of goals that `prove` has no proof of, by more means.
//!
//! `proof_of` proves a goal under hypotheses, and `condition_proof` a verification condition, by
//! the prover's own search, and where that has no proof by three means more. First, facts that
//! follow from a hypothesis are hypotheses too (`auto_facts`): what isn't at most is less, and
//! what isn't 0 is above it. Second, an order of two words follows from a chain of hypotheses, of
//! which expressions count as equal if their normal forms are. Third, the premise of a hypothesis
//! that gives access is proved by these means too, and then is a hypothesis itself.
//!
//! Nothing is claimed of which goals these are, or of what is returned, but that it is a term of the
//! table: whoever uses it asks the checker about the proof.
//!
//! Source: Necula, Proof-Carrying Code, POPL 1997 (the rules); the search is this project's own.
#![tactic(auto)]

mod chains;
mod conditions;
mod goals;
mod leaves;

pub use conditions::condition_proof;
pub use goals::proof_of;
