//! Generates Alpha code for classic BPF programs, proved to return whether a program's value is
//! nonzero.
//!
//! Each instruction becomes a block of twenty words (`specs/Blocks`). The crate's main theorem is
//! the simulation: from each state before the first word that satisfies `StartsOn`
//! (`specs/Simulation`), the code returns 0 if the program's value on the packet is 0, else 1
//! (`laws`). The policy `filter` starts in such a state on each packet of 64 bytes or more
//! (`start_laws`). The code is well formed, any invariants cut it, and its unfolded length is small
//! (`code_laws`).
//!
//! bpf_words defines programs and their values, packet_store's `specs/PolicyStarts` starts and
//! `specs/Results` the results of packets, and alpha_cfg's `specs/Flow` and `specs/Cuts`
//! well-formed code and cuts.
//!
//! Source: McCanne and Jacobson, The BSD Packet Filter, USENIX 1993, section 3.
#![tactic(auto)]

mod blocks;
mod theorems;
mod words;

pub use blocks::{BLOCK, bpf_code};
pub use theorems::{code_laws, laws, start_laws};
