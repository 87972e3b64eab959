//! Errors of packet files.

ghost use Rattle.std.specs.Prelude.{◌≡◌, ◌≤◌, length};
ghost use Rattle.packet_store.specs.Packets.{offset_of};
ghost use Rattle.packet_store.specs.Names.{packet_fault_name};

use thiserror::Error;

/// The maximum length of a kind's name, in bytes.
pub const MAX_KIND: usize = 13;

/// The first error of a packet file, with the offset of the packet's length field, in bytes.
#[derive(Clone, Copy, Debug, PartialEq, Eq, Error)]
pub enum PacketFault {
    /// The packet is truncated: fewer than four bytes of length are left, or fewer bytes than the
    /// length.
    #[error("the packet at offset {0} is truncated")]
    Cut(u64),
    /// The packet's length is above `MAX_PACKET`.
    #[error("the packet at offset {0} is longer than 65,535 bytes")]
    TooLong(u64),
}

impl PacketFault {
    /// Returns the kind's name, of at most `MAX_KIND` bytes, as the printed line of the error shows
    /// it.
    pub fn name(self) -> &'static str
        ensures exact { result.now ≡ packet_fault_name self }
        ensures short { length result.now ≤ MAX_KIND }
    {
        match self {
            PacketFault::Cut(_) => "CutPacket",
            PacketFault::TooLong(_) => "PacketTooLong",
        }
    }

    /// Returns the offset of the packet's length field, in bytes from the start of the file.
    pub fn offset(self) -> u64
        ensures { result ≡ offset_of self }
    {
        match self {
            PacketFault::Cut(offset) | PacketFault::TooLong(offset) => offset,
        }
    }
}
