//! Native code of Alpha code: its blocks, their layout in bytes, and what calls of it do.
//!
//! Native code is a function of the System V calling convention:
//!
//! - rdi, rsi, rdx have r16, r17, r18; rcx has the address of the area, 31 quadwords that the caller
//!   lends; r8 has the fuel. All other Alpha registers begin as 0.
//! - It returns r0 in rax and 0 in rdx; if it ran out of fuel, 0 in rax and 1 in rdx.
//! - No instruction writes rsp. Registers that the caller wants back are saved in the area.
//! - A loop head is an index that is the target of a jump from itself or a later index. Each arrival
//!   at one takes a unit of fuel, if fuel is counted. Its block begins at a multiple of 32.
//! - What writes only a register that is dead may be left out, and a compare and the branch behind it
//!   may be one. A certificate says where.
//!
//! The definitions are in `specs/`:
//!
//! - `Heads`: loop heads, and how often a run arrives at one;
//! - `Lives`: certificates of what is left out, and when they are right;
//! - `Blocks`: the entry, the blocks and the end;
//! - `Layout`: where they begin, how far jumps lead, and the bytes;
//! - `Calls`: calls, and how they follow Alpha runs;
//! - `Ends`: how calls end.
//!
//! Sources: System V Application Binary Interface, AMD64 Architecture Processor Supplement; Intel 64
//! and IA-32 Architectures Software Developer's Manual, volume 2.
#![tactic(auto)]

mod insn;
mod theorems;

pub use insn::{Form, NativeInsn};
pub use theorems::{head_laws, laws, layout_laws};
