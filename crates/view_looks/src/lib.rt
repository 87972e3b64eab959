//! Recognizes what a file looks like that is no container.
//!
//! `look_of` tells a text, packets, a capture, a program of classic BPF and an ELF file apart, and
//! `print_no_container` prints the refusal of such a file and what it looks like. `specs/Looks`
//! defines both.
#![tactic(auto)]

mod looks;

pub use looks::{Look, look_of, print_no_container};
