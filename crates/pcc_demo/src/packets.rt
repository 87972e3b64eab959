//! Generating the packets of `demo`.

ghost use Rattle.std.specs.Prelude.{◌≡◌, ◌≤◌, ◌<◌, ◌+◌, IfOk, length};
ghost use Rattle.pcc_demo.specs.Packets as definition;

use crate::sources::MAX_DEMO;
use std::alloc::{AllocError, Global};

/// The number of packets that `demo` runs.
pub const PACKETS: u32 = 16;

/// Returns packet number `k` of `demo n`, of 64 to 65,535 bytes.
///
/// Errors: out of memory.
pub fn demo_packet(alloc: Global, n: u32, k: u32) -> Result<Vec<u8>, AllocError>
    requires loads { n ≤ MAX_DEMO }
    requires number { k < PACKETS }
    ensures exact { IfOk result (λ packet. packet.items ≡ definition.demo_packet n k) }
    ensures short { IfOk result (λ packet. length packet.items ≤ 65535) }
{
    let count = 64 + k * n % 65_472;
    let mut packet = Vec::new(alloc);
    for j in 0..count {
        packet.push(((n + k + j) % 256) as u8)?;
    }
    Ok(packet)
}
