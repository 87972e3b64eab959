//! Results of packets, and runners of packets.

ghost use Rattle.std.specs.Prelude.{◌≡◌, ℕ, ◌≤◌, List, length};
ghost use Rattle.packet_store.specs.declared.results.PacketResult.{PacketResult};

use crate::reader::MAX_PACKET;
use reference_machine::Outcome;

/// The result of running code on a packet.
#[derive(Clone, Copy, Debug, PartialEq, Eq)]
pub enum PacketResult {
    /// The packet is too short for the policy, so nothing was run.
    Short,
    /// How the run ended, and the sum of the region's quadwords at its end, modulo 2^64.
    Ran(Outcome, u64),
}

/// A runner of packets, one after another, which allocates no memory.
pub trait PacketRunner {
    /// The result of each packet.
    ghost results: { Self → List ℕ → PacketResult };

    /// Runs a packet of at most `MAX_PACKET` bytes and returns its result. The results of all
    /// packets stay as they were.
    fn run_packet(&mut self, packet: &[u8]) -> PacketResult
        requires { length packet.now ≤ MAX_PACKET }
        ensures exact { result ≡ results self.old packet.now }
        ensures unchanged { results self.new ≡ results self.old };
}
