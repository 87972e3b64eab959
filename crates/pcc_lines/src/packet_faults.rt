//! Faults of packet files.

ghost use Rattle.file_port.specs.Sink.{Puts};
ghost use Rattle.pcc_lines.specs.PacketFaults.{packet_fault_line};

use crate::line::{Line, push_decimal, push_text};
use arrayvec::ArrayVec;
use file_port::{Put, Sink};
use packet_store::PacketFault;

/// Prints the first fault of a packet file, as one piece.
#[tactic(auto, unfolding(crate::specs::PacketFaults::packet_fault_line))]
pub fn print_packet_fault<S: Sink>(fault: PacketFault, out: &mut S) -> Put
    ensures { Puts (packet_fault_line fault) (S.state out.old) (S.state out.new) result }
{
    let mut line: Line = ArrayVec::new();
    push_text(&mut line, "packets ");
    push_text(&mut line, fault.name());
    push_text(&mut line, " ");
    push_decimal(&mut line, fault.offset());
    push_text(&mut line, "\n");
    out.put(line.as_slice())
}
