//! The container format: header fields, code, invariants, lemmas and proof as bytes, read and
//! written.
//!
//! The layers above use that `read` returns the contents that the bytes encode, or else the first
//! error with its byte offset; that `write` returns the one encoding of its view's contents; how
//! long that encoding is; and which ids a walk emits, in order (`walk_from`). `specs/Contents`
//! defines the contents, `specs/Postorder` the order of the entries, `specs/Encoding` the grammar
//! (as a relation between bytes and contents), `specs/Decoding` the tests in their order, and
//! `specs/Versions` the differences between the versions, by the table of editions. The format is
//! this project's own.
#![tactic(auto)]

mod container;
mod entry;
mod fault;
mod fields;
mod limits;
mod reading;
mod theorems;
mod versions;
mod walk;
mod writing;

pub use container::{Container, Head, View};
pub use fault::{Flaw, MAX_KIND, Malformed};
pub use lf_signature::MAX_VERSION;
pub use limits::{MAX_BOUND, MAX_BYTES, MAX_ENTRIES, MAX_INVS, MAX_LEMMAS, MAX_WORDS};
pub use reading::read;
pub use theorems::laws;
pub use versions::{has_lemmas, is_bounded, is_numbered, profile_of, signature_of};
pub use walk::{Walk, walk_from};
pub use writing::{extent, write};
