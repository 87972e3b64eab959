//! Translator from Alpha code to native code.
//!
//! `translate` returns exactly the bytes that `native_code` defines, for some lawful places
//! (`exact`). So `native_code::laws` says what calls of them do. It assigns the registers that the
//! code reads to registers of the processor, in the order in which they are first read, while one is
//! free, and the others to the area.
//!
//! The definitions are in `specs/`: `Translation` has what a translation is.
#![tactic(auto)]

mod blocks;
mod choosing;
mod ends;
mod heads;
mod layout;
mod plan;
mod translation;

pub use translation::translate;
