//! Prints term-table entries as text, counts tree nodes, and decodes formulas whose text is short.
//!
//! `push_entry` appends an entry as a line that names its parts, and `push_name` an entry's name
//! (`specs/Entries`). `push_number` appends a number, and `push_source_line` an instruction's line in
//! a source (`specs/SourceLines`). `sizes` counts the nodes of each tree in one pass over the table
//! (`specs/Sizes`). `short_form` returns the formula of a term if the formula's text is short
//! (`specs/Short`), and never reads a tree that is too large for that: entries share their parts, so
//! a few hundred of them can hold a formula of 2^30 leaves.
#![tactic(auto)]

mod entries;
mod forms;
mod source_lines;
mod tree_sizes;

pub use entries::{push_entry, push_name, push_number};
pub use forms::short_form;
pub use source_lines::push_source_line;
pub use tree_sizes::sizes;
