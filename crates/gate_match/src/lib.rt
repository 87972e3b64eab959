//! Checks whether a formula is the verification condition of annotated code, without building the
//! condition.
//!
//! The layers above use that `is_condition_with` tells the condition's encoding from other
//! formulas. It takes the formula apart in the order in which the walk of `vcgen` would put the
//! condition together. `vcgen` computes the effect of each instruction on the terms for both
//! crates; its `specs/Conditions` defines the condition.
#![tactic(auto)]

mod comparing;
mod comparisons;
mod goals;
mod recognizing;
mod uses;

pub use recognizing::is_condition_with;
