//! Prints what the lines of goals say beside formulas: parts, indices, reasons, marks and bounds.
//!
//! A label is what a line prints before its formula, or all of a line without one. If the lines of a
//! source are given, each index comes with the line of its instruction. `specs/Labels` defines the
//! texts, which are this project's own.
#![tactic(auto)]

mod labels;
mod limits;
mod marks;

pub use labels::{bounds_label, goal_label, known_label, label_of, push_last, title_label};
pub use limits::LEAST_NEGATIVE;
pub use marks::{GoalName, Mark};
