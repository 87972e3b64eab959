//! The native sequences of Alpha instructions: x86-64 instructions that do what an Alpha instruction
//! does, but for jumps.
//!
//! An Alpha register is in a register of the processor, in a quadword of an area that the caller
//! lends, or nowhere, if the code never reads it: the places. A sequence reads an operand in its place
//! if that is a register, else in rax or rcx, to which it brings it. It computes in the result's place
//! if that is a register, else in rax. The definitions are in `specs/`:
//!
//! - `Places`: places, and the registers with other tasks;
//! - `Sequences`: the sequence of each instruction;
//! - `Straight`: instructions that are done one after the other;
//! - `Agreement`: when a state agrees with one of the Alpha machine, and what is proved.
//!
//! The layers above rely on this: sequences keep states in agreement, whatever the places, and tests
//! leave flags that decide their branches (`laws`). `Places::append` appends exactly the sequence.
//!
//! Sources: Alpha Architecture Handbook; Intel 64 and IA-32 Architectures Software Developer's Manual,
//! volume 2; System V Application Binary Interface, AMD64 Architecture Processor Supplement.
#![tactic(auto)]

mod places;
mod sequences;
mod theorems;

pub use places::{Place, Places, is_callee_saved, is_free};
pub use sequences::branch_cond;
pub use theorems::laws;
