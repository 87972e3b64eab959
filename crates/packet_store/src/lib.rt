//! Packet files, each policy's start state on a packet, and the checked runner of packets.
//!
//! The layers above rely on these:
//!
//! - `packets` returns exactly the packets of a file in order, or its first error.
//! - `start_at` returns a policy's start on a packet in an arena from a base address on, and
//!   `start` the start of an agent that is alone; both return None exactly if the packet is too
//!   short.
//! - The trait `PacketRunner` has one call, which runs a packet.
//!
//! The definitions are in `specs/`:
//!
//! - `Packets` (a relation) and `PacketDecoding` (a function): the grammar of packet files;
//! - `PolicyStarts`: the start states;
//! - `Results`: the result of a packet;
//! - `Names`: the names of errors.
#![tactic(auto)]

mod fault;
mod reader;
mod results;
mod starting;
mod testing;
mod theorems;

pub use fault::{MAX_KIND, PacketFault};
pub use reader::{MAX_PACKET, PacketFile, PacketIter, packets};
pub use results::{PacketResult, PacketRunner};
pub use starting::{start, start_at};
pub use testing::TestingRunner;
pub use theorems::laws;
