//! Marks each goal of a verification condition as provable by `prove` or not, and finds what's
//! missing.
//!
//! `marks_of` returns one mark for each goal of a part, in order: true if the class of easy
//! conditions proves the goal, or what it is part of, under the goal's hypotheses (`specs/Marks`).
//! A part has a proof in the class exactly if all its marks are true (`mark_laws`).
//!
//! `missing_parts` returns, for whatever formulas the ids encode, the conjuncts of the goal that
//! aren't easy under the hypotheses, or the first of them. `hint_about` returns a hint about one
//! (`specs/Hints`): the bounds of both sides of a comparison, or the hypotheses that give rights to
//! addresses with equal summands. `half_of` returns which half of such a hypothesis isn't easy
//! (`specs/Halves`). `hint_laws` says what hints mean. `is_row_left` tells which rows are left if
//! easy goals are left out (`specs/Looking`).
//!
//! Source: Necula, Proof-Carrying Code, POPL 1997 (the rules); the search and the hints are this
//! project's own.
#![tactic(auto)]

mod halves;
mod hints;
mod looking;
mod marking;
mod nearness;
mod reached;
mod sums;
mod theorems;

pub use halves::{Half, half_of};
pub use hints::{Hint, Wanted, hint_about, missing_parts};
pub use looking::{Place, goal_count, is_hard, is_row_left, mark_at};
pub use marking::{PART_BINDERS, marks_of};
pub use theorems::{hint_laws, mark_laws};
