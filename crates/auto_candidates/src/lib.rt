//! Formulas that invariants of code may be made of, as terms.
//!
//! `facts_of` finds what the code compares, steps and keeps; `policy_parts` splits a policy's
//! formulas; `candidates_at` makes the candidates of an index, in groups, those first that
//! invariants most often have. Nothing is claimed of which formulas they are: a search tries them,
//! and the checker judges what it makes of them. An id may be of another table: `known` tells.
//!
//! Source: Flanagan and Leino, Houdini, FME 2001 (candidates from templates).
#![tactic(auto)]

mod bits;
mod facts;
mod policies;
mod templates;

pub use facts::{Facts, facts_of};
pub use policies::{PolicyParts, known, policy_parts, split};
pub use templates::{MOST_OF_GROUP, candidates_at};
