//! Theorems: the verification condition of every compiled BPF program is provable by `prove`.
//!
//! The code of a program of classic BPF (`bpf_code`) has two invariants in each block
//! (`specs/Invariants`): at its first word and at the word that ends it. The second one comes
//! before the branch, so no part of the condition contains a constant of the program, and each part
//! is one of 22 closed formulas (`specs/PartForms`). `laws` says that the code is annotated, cut
//! and short enough, that each part of its condition is easy, and that the class's proof of all
//! parts keeps to the limits of weight and height (`specs/Condition`).
//!
//! The container of a program also stays below the limit on entries (`limit_laws`). A container has
//! an entry for each different tree that occurs in its roots. So a list that holds the roots and
//! the parts of each of its trees has at least as many members (`entry_laws`, `specs/Parts`): here
//! all that occurs in the 22 formulas and in their proofs, with six trees for each part of one
//! condition.
//!
//! Source: McCanne and Jacobson, The BSD Packet Filter, USENIX 1993, for the programs; invariants,
//! condition and bounds are this project's own.
#![tactic(auto)]

mod limits;
mod theorems;

pub use limits::MOST_ENTRIES;
pub use theorems::{entry_laws, laws, limit_laws};
