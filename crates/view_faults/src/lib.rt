//! Locates parse errors in formulas and policies, and prints the faulty line with a caret.
//!
//! `formula_lines` reports which formula a text is, and `policy_lines` which policy, or else the first
//! fault with its line and a mark under the place. `specs/FormReports` and `specs/PolicyReports`
//! define the reports, `specs/Marking` how a line is shown with its mark, `specs/Lines` which line a
//! number names, and `specs/Views` spans and limits as definitions see them. formula_text and
//! policy_set alone define what a fault is, and which is the first. view_source_faults reports on
//! sources.
#![tactic(auto)]

mod formulas;
mod lines;
mod marking;
mod parsing;
mod policies;
mod report;

pub use formulas::{MAX_FORMULA_TEXT, formula_lines};
pub use lines::numbered_line;
pub use marking::{Limits, Span, is_printable, push_marked_line, push_number};
pub use parsing::form_in;
pub use policies::policy_lines;
pub use report::Report;
