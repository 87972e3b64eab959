//! Object files: relocatable ELF for x86-64, with one function.
//!
//! `object` returns exactly the bytes that `specs/Object` defines: `.text`, aligned to 32, has the
//! function; a symbol table names it; `.note.GNU-stack` asks for no executable stack. There are no
//! relocations. `laws` says that each part stands where the headers say.
//!
//! Sources: System V Application Binary Interface, chapter 4, "Object Files"; its AMD64 Architecture
//! Processor Supplement, section 4.1.
#![tactic(auto)]

mod fields;
mod file;
mod sections;
mod theorems;

pub use file::object;
pub use sections::Section;
pub use theorems::laws;
