//! Classic BPF: reads bytes as a program of instructions, and computes a program's value on a packet.
//!
//! Source: McCanne and Jacobson, The BSD Packet Filter, USENIX 1993, section 3; without its index
//! register and scratch memory. `read_bpf` returns the program that bytes encode, or the first
//! thing that is wrong with them; `bpf_value` is the program's value on a packet. `specs/Programs`
//! defines programs, `specs/Reading` which bytes are one and their first flaw, `specs/Flaws` what
//! flaws mean, `specs/Values` values, and `specs/Names` the names of the kinds of flaws.
#![tactic(auto)]

mod fault;
mod insn;
mod reader;
mod theorems;
mod values;

pub use fault::{BpfFault, BpfFlaw, MAX_KIND};
pub use insn::{Bpf, BpfOp, BpfTest, LOADABLE, MAX_PROGRAM, bpf_op};
pub use reader::read_bpf;
pub use theorems::laws;
pub use values::{BpfEffect, bpf_value};
