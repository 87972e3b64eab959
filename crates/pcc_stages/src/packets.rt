//! Stages that read a packet file.

ghost use Rattle.pcc_stages.specs.Stages.Packets as packets;
ghost use Rattle.pcc_stages.specs.Answers.{Gives, GivesPure};

use crate::files::{MAX_FILE, bytes_of};
use crate::refused_line::RefusedLine;
use crate::stops::Stop;
use file_port::Files;
use packet_store::PacketFile;
use std::alloc::Global;

/// The packets that the bytes are.
fn packets_in<'a>(bytes: Vec<u8>) -> Result<PacketFile, Stop<'a>>
    ensures { GivesPure (λ packets. packets) (packets.packets_in bytes.items) result }
{
    match PacketFile::new(bytes) {
        Ok(packets) => Ok(packets),
        Err(fault) => Err(Stop::Refused(RefusedLine::BadPackets(fault))),
    }
}

/// Reads the packets in the file with this name.
pub fn packets_of<'a, F: Files>(
    alloc: Global,
    name: &'a str,
    files: &mut F,
) -> Result<PacketFile, Stop<'a>>
    ensures { Gives (λ packets. packets) (packets.packets_of name.entry.now)
        (F.log files.old) (F.log files.new) (F.state files.old) (F.state files.new) result }
{
    let bytes = bytes_of(alloc, name, MAX_FILE, RefusedLine::PacketsTooLong, files)?;
    packets_in(bytes)
}
