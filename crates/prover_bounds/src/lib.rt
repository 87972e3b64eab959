//! Finds upper and lower bounds of expressions, with their proofs.
//!
//! The best bound is chosen by words alone (`Choice`: by a hypothesis, by an operator's parts, as
//! the expression is a word, by the limit of words); its proof is built only on demand. Choices are
//! cached by the expression's id, and so are the proofs, so each is found once for a shared
//! expression.
//!
//! The layer above uses that `upper_bound` and `lower_bound` return what the definitions of
//! `prover_class` give (`specs/Bounds`): the value, and the id of the proof term. `bound_words`
//! returns the values alone. Source: Necula, Proof-Carrying Code, POPL 1997 (the rules of
//! arithmetic).
#![tactic(auto)]

mod asked_bounds;
mod best_bounds;
mod bounds;
mod choices;
mod kept_bounds;
mod parts;
mod relations;

pub use asked_bounds::{BoundWords, bound_words, lower_bound, upper_bound};
pub use bounds::Bound;
pub use kept_bounds::KeptBounds;
