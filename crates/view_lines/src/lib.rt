//! Collects lines that end with formulas, and prints them with the term-table entries that they name.
//!
//! `push_formula` and `push_words` add a line, and `lines_text` returns the text of all. A formula is
//! shown by its text if that is short (`specs/Formulas`), else by the name of its entry; the lines of
//! these entries come after the others (`specs/Texts`). `is_false_term` says whether a short formula
//! is false by computing. `specs/Lines` has a line as it is listed, `specs/Shown` as it is stored. The
//! text is this project's own.
#![tactic(auto)]

mod copies;
mod formulas;
mod limits;
mod lines;
mod texts;

pub use formulas::is_false_term;
pub use limits::MAX_SHOWN;
pub use lines::{ShownLine, push_formula, push_words};
pub use texts::lines_text;
