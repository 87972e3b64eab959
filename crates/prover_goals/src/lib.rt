//! Searches for proofs of goals, by their connectives and by arithmetic on words.
//!
//! The layer above uses that `goal_proof` returns a proof term, or None, for the hypotheses and the
//! goal that the ids stand for. The result is that of the search of `prover_class` by connectives
//! (`specs/Goals`), with a `Leaf` for goals that have no connective; `proof_by_words` is such a
//! leaf. Results for all contexts are cached in `Search`, results for one context in its `Context`.
//! Source: Necula, Proof-Carrying Code, POPL 1997 (the rules); the search is this project's own.
#![tactic(auto)]

mod answers;
mod connectives;
mod contexts;
mod introductions;
mod leaf;
mod search;
mod theorems;
mod words;

pub use answers::{Answers, Goal, Means};
pub use connectives::{goal_proof, proof_without_access};
pub use contexts::{under_binder, under_hypothesis};
pub use leaf::Leaf;
pub use search::{Context, Search};
pub use theorems::round_laws;
pub use words::{normal, normal_exp, proof_by_words};
