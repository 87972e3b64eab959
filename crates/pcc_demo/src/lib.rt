//! Generates the input of `demo N`: a source with N loads, and sixteen packets.
//!
//! Source and packets are what `specs/Sources` and `specs/Packets` define; the layer above
//! assembles the source and runs its code on the packets.
#![tactic(auto)]

mod packets;
mod sources;

pub use packets::{PACKETS, demo_packet};
pub use sources::{MAX_DEMO, MAX_DEMO_SOURCE, demo_source};
