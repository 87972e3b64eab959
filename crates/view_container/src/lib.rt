//! Disassembler: prints a container as source that assembles back into it, or else as comments.
//!
//! `list` returns the listing of the container in the bytes: a source if the container holds
//! well-formed code and formulas, else its contents in comments. Such a source assembles into the
//! container again, but for lemmas and proof (`laws`). `specs/Listing` says which of the two it is,
//! `specs/Sources` defines the source, `specs/Plain` the comments, `specs/Words` what comments say
//! of instruction words, `specs/Notes` the notes, and `specs/Laws` what a source assembles into.
//!
//! The theorem below it (`assembly_laws`): the text of code with invariants (asm_print) parses as
//! one source, whatever comments, hints and notes are printed with them. That source assembles
//! (pcc_asm) into the code, and for a policy into what a container with that code and those
//! invariants holds (`specs/Containers`).
//!
//! asm_print defines how code and an instruction are printed, view_entries an entry; pcc_gate
//! defines when a term is too high or isn't a formula.
#![tactic(auto)]

mod beside;
mod forms;
mod judging;
mod listing;
mod plain;
mod push;
mod stop;
mod summary;
mod theorems;
mod words;

pub use beside::Beside;
pub use listing::list;
pub use stop::{ListFault, NoSource};
pub use theorems::{assembly_laws, laws};
