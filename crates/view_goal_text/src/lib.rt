//! Prints the goals of a container's verification condition in columns, with hypotheses and hints.
//!
//! `list_goals` returns, for a container's bytes under a policy, the listing of the goals of its
//! condition (`goals_of_bytes` in `specs/Listing`), exactly if the gate's checks before the proof
//! pass. Each goal comes with the hypotheses at its place and whether the class of easy conditions
//! proves it. `specs/Styles` says how goals are listed: beside the lines of a source, without
//! what is easy, with all that is missing. `specs/Hints` defines the hints after a goal that isn't
//! easy, `specs/Listing` the lines of rows and parts, and `specs/Answers` the call's result. Lines
//! are those of view_lines. The last line names the
//! part at which a proof fails (`laws`). The text is this project's own.
#![tactic(auto)]

mod fault;
mod hints;
mod listing;
mod parts;
mod rows;
mod style;
mod theorems;

pub use fault::GoalsFault;
pub use listing::list_goals;
pub use style::Style;
pub use theorems::laws;
