//! The packets of a file.

ghost use Rattle.std.specs.Prelude.{◌≡◌, ◌++◌, ◌+◌, ◌<◌, ◌≤◌, MatchResult, IfOk, IfErr, length, ◌^◌};
ghost use Rattle.packet_store.specs.Packets as file;
ghost use Rattle.packet_store.specs.PacketDecoding.{decoded_packets};

use crate::fault::PacketFault;
use std::marker::Model;

/// The maximum length of a packet, in bytes.
pub const MAX_PACKET: u32 = 65_535;

/// Returns the length that the next packet claims, in bytes.
fn claimed(bytes: &[u8]) -> u32
    requires { 4 ≤ length bytes.now }
    ensures { result ≡ file.claimed_length bytes.now }
{
    u32::from_le_bytes([bytes[0], bytes[1], bytes[2], bytes[3]])
}

/// Returns the first packet and the bytes after it. Errors carry the given `offset`.
fn first(bytes: &[u8], offset: u64) -> Result<(&[u8], &[u8]), PacketFault>
    requires { 0 < length bytes.now }
    ensures { MatchResult result
        (λ r. (bytes.now ≡ file.packet_encoding r.0.now ++ r.1.now) × (length r.0.now ≤ MAX_PACKET))
        (λ e. file.IsBadFront bytes.now e × (file.offset_of e ≡ offset)) }
{
    if bytes.len() < 4 {
        return Err(PacketFault::Cut(offset));
    }
    let count = claimed(bytes);
    if count > MAX_PACKET {
        return Err(PacketFault::TooLong(offset));
    }
    let (_, body) = bytes.split_at(4);
    if body.len() < count as usize {
        return Err(PacketFault::Cut(offset));
    }
    Ok(body.split_at(count as usize))
}

/// The packets of a file without an error, as slices of its bytes. Contracts see the list of the
/// remaining packets.
#[derive(Drop)]
pub struct PacketIter<'b> {
    rest: &'b [u8],
}

impl<'b> Model for PacketIter<'b> {
    ghost use Rattle.std.specs.Prelude.{ℕ, List};
    ghost use Rattle.packet_store.specs.PacketDecoding.{whole_packets};
    ghost use Rattle.packet_store.specs.Packets.{IsWhole};

    ghost Value = { List (List ℕ) };

    ghost view = { λ it. whole_packets it.rest.now };

    ghost invariant = { λ it. IsWhole it.rest.now };
}

/// Scans the file for its first error.
fn find_fault(bytes: &[u8]) -> Result<(), PacketFault>
    requires { length bytes.now < 2 ^ 63 }
    ensures whole { IfOk result (λ _. file.IsWhole bytes.now) }
    ensures fault { IfErr result (λ e. file.IsFirstFault bytes.now e) }
{
    let mut rest = bytes;
    let mut offset: u64 = 0;
    while !rest.is_empty() {
        let (packet, after) = first(rest, offset)?;
        offset += 4 + packet.len() as u64;
        rest = after;
    }
    Ok(())
}

/// Returns the packets of the file in order. Scans the whole file first. Errors: the file's first
/// error.
pub fn packets(bytes: &[u8]) -> Result<PacketIter<'_>, PacketFault>
    requires { length bytes.now < 2 ^ 63 }
    ensures decodes { IfOk result (λ p. file.AreShort p × (bytes.now ≡ file.packets_encoding p)) }
    ensures fault { IfErr result (λ e. file.IsFirstFault bytes.now e) }
    ensures exact { result ≡ decoded_packets bytes.now }
{
    match find_fault(bytes) {
        Ok(()) => Ok(PacketIter { rest: bytes }),
        Err(fault) => Err(fault),
    }
}

/// The bytes of a packet file without an error. Contracts see the list of its packets.
#[derive(Drop)]
pub struct PacketFile {
    bytes: Vec<u8>,
}

impl Model for PacketFile {
    ghost use Rattle.std.specs.Prelude.{ℕ, List};
    ghost use Rattle.packet_store.specs.PacketDecoding.{whole_packets};
    ghost use Rattle.packet_store.specs.Packets.{IsWhole};

    ghost Value = { List (List ℕ) };

    ghost view = { λ f. whole_packets f.bytes.items };

    ghost invariant = { λ f. IsWhole f.bytes.items };
}

impl PacketFile {
    /// Creates a packet file from these bytes. Errors: the file's first error.
    pub fn new(bytes: Vec<u8>) -> Result<PacketFile, PacketFault>
        ensures { result ≡ decoded_packets bytes.items }
    {
        match find_fault(&bytes) {
            Ok(()) => Ok(PacketFile { bytes }),
            Err(fault) => Err(fault),
        }
    }

    /// Returns the packets in order.
    pub fn packets(&self) -> PacketIter<'_>
        ensures value { result ≡ self.now }
        ensures short { file.AreShort result }
        ensures few { length result < 2 ^ 63 }
    {
        PacketIter {
            rest: self.bytes.as_slice(),
        }
    }
}

impl<'b> Iterator for PacketIter<'b> {
    type Item = &'b [u8];

    ghost use Rattle.std.specs.Prelude.{length};
    ghost use Rattle.std.specs.Iterator.{at_most};
    ghost use Rattle.packet_store.specs.Yields.{YieldsPacket};

    ghost next_gives = { YieldsPacket };

    ghost remaining = { λ packets. at_most (length packets) };

    fn next(&mut self) -> Option<&'b [u8]> {
        if self.rest.is_empty() {
            return None;
        }
        match first(self.rest, 0) {
            Ok((packet, after)) => {
                self.rest = after;
                Some(packet)
            }
            Err(_) => None,
        }
    }
}
