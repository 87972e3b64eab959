//! Facts that follow from hypotheses, with their proofs, for a search.
//!
//! `add_derived` adds to hypotheses what follows from one of them: what isn't at most is less, and
//! what isn't 0 is above it. `premise_of` returns the premise under which a hypothesis gives access
//! to an address. `joined`, `from_other` and `to_other` make orders of two words from others. The
//! proofs are terms; nothing is claimed of them but that they are the table's, since whoever uses
//! them asks the checker.
//!
//! Source: Necula, Proof-Carrying Code, POPL 1997 (the rules); the search is this project's own.
#![tactic(auto)]

mod contexts;
mod derived;
mod instances;
mod links;
mod terms;

pub use contexts::{under_hypothesis, with_fact};
pub use derived::{Fact, add_derived, fact_at};
pub use instances::{Wanted, premise_of};
pub use links::{Link, Related, at_most, from_other, joined, rel_of, to_other};
pub use terms::{are_alike, raise};
