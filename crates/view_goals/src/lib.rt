//! Splits a verification condition into goals, each with its instruction, reason, formula and
//! enclosing branches.
//!
//! `condition_goals` lists the goals of each part of a condition, in the order of the code. Each
//! goal has the index that asks for it and why, its formula as an id of the condition's own term,
//! and the branches that it is under. `specs/Goals` defines goals, `specs/Rows` rows. `laws` says
//! that the goals, conjoined as the code asks for them, are the condition of `vcgen`.
//!
//! Source: Necula, Proof-Carrying Code, POPL 1997, section 3.
#![tactic(auto)]

mod parts;
mod reading;
mod rows;
mod theorems;
mod walk;

pub use parts::condition_goals;
pub use rows::{PartRows, Row, Why};
pub use theorems::laws;
