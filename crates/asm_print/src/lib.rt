//! Printer of code with invariants, comments and notes as a source that assembles back.
//!
//! The layers above rely on two theorems. What `print_source` prints spells a source with the
//! code's instructions and its invariants, whatever comments, hints and notes are printed with them
//! (`laws`). What `push_insn` prints is a statement of a source, and `push_label` prints different
//! labels for different indices (`insn_laws`).
//!
//! The printed lines are defined in `specs/Listing`, an instruction and a label in
//! `specs/Printing`, the indices with labels in `specs/Targets`, and the requirements on code,
//! invariants and the rest in `specs/Laws`. Formulas are printed by formula_text; asm_text says
//! what spells a source.
#![tactic(auto)]

mod insns;
mod limits;
mod printing;
mod targets;
mod theorems;

pub use insns::{push_insn, push_label};
pub use limits::{MAX_COMMENT, MAX_FORM_TEXT, MAX_HINT, MAX_INSN_TEXT, USUAL_HINT};
pub use printing::{Extras, print_source};
pub use theorems::{insn_laws, laws};
