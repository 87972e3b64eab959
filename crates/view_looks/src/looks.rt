//! What bytes look like that aren't a container.

ghost use Rattle.std.specs.Prelude.{◌≡◌, ◌≤◌, length, is_ok, IfOk};
ghost use Rattle.file_port.specs.Sink.{Puts};
ghost use Rattle.packet_store.specs.PacketDecoding.{decoded_packets};
ghost use Rattle.bpf_words.specs.Reading.{program_of};
ghost use Rattle.pcc_stages.specs.declared.files.TheConstants.{MAX_FILE};
ghost use Rattle.view_looks.specs.Looks.{begins_with, is_pcap, is_text_byte, is_text};
ghost use Rattle.view_looks.specs.Looks.{look_of, look_line};
ghost use Rattle.view_looks.specs.Looks.{no_container_text};

use bpf_words::{BpfFault, read_bpf};
use file_port::{Put, Sink};
use packet_store::packets;
use pcc_gate::Refusal;
use pcc_lines::print_refusal;
use proof_container::Flaw;
use std::alloc::{AllocError, Global};
use view_faults::is_printable;

/// What bytes look like that aren't a container.
#[derive(Clone, Copy, Debug, PartialEq, Eq)]
pub enum Look {
    /// Nothing: there are no bytes.
    Empty,
    /// An ELF file.
    Elf,
    /// A capture of libpcap.
    Pcap,
    /// A capture of the next generation's format.
    Pcapng,
    /// A program of classic BPF.
    Bpf,
    /// A packet file.
    Packets,
    /// A text.
    Text,
    /// None of these, or a container that is spoiled.
    Unknown,
}

/// Whether the bytes begin with these.
fn begins_with(wanted: &[u8], bytes: &[u8]) -> bool
    ensures { result ≡ begins_with wanted.now bytes.now }
{
    bytes.starts_with(wanted)
}

/// Whether the bytes begin as a capture of libpcap does.
fn is_pcap(bytes: &[u8]) -> bool
    ensures { result ≡ is_pcap bytes.now }
{
    begins_with(b"\xd4\xc3\xb2\xa1", bytes)
        || begins_with(b"\xa1\xb2\xc3\xd4", bytes)
        || begins_with(b"\x4d\x3c\xb2\xa1", bytes)
        || begins_with(b"\xa1\xb2\x3c\x4d", bytes)
}

/// Whether the bytes are a program of classic BPF. Errors: out of memory.
fn is_program(alloc: Global, bytes: &[u8]) -> Result<bool, AllocError>
    ensures { IfOk result (λ b. b ≡ is_ok (program_of bytes.now)) }
{
    match read_bpf(alloc, bytes) {
        Ok(_) => Ok(true),
        Err(BpfFault::At(_)) => Ok(false),
        Err(BpfFault::Memory) => Err(AllocError),
    }
}

/// Whether the bytes are a packet file.
fn is_packet_file(bytes: &[u8]) -> bool
    requires { length bytes.now ≤ MAX_FILE }
    ensures { result ≡ is_ok (decoded_packets bytes.now) }
{
    packets(bytes).is_ok()
}

/// Whether the byte is printable ASCII, a tab, or one of a line's end.
fn is_text_byte(byte: u8) -> bool
    ensures { result ≡ is_text_byte byte }
{
    is_printable(byte) || byte == b'\n' || byte == b'\r'
}

/// Whether the bytes are such ones alone.
fn is_text(bytes: &[u8]) -> bool
    ensures { result ≡ is_text bytes.now }
{
    for i in 0..bytes.len() {
        if !is_text_byte(bytes[i]) {
            return false;
        }
    }
    true
}

/// Returns what the bytes look like that aren't a container. Errors: out of memory.
#[tactic(auto, unfolding(crate::specs::Looks::look_of))]
pub fn look_of(alloc: Global, bytes: &[u8]) -> Result<Look, AllocError>
    requires { length bytes.now ≤ MAX_FILE }
    ensures { IfOk result (λ look. look ≡ look_of bytes.now) }
{
    if begins_with(b"PCCA", bytes) {
        return Ok(Look::Unknown);
    }
    if bytes.is_empty() {
        return Ok(Look::Empty);
    }
    if begins_with(b"\x7fELF", bytes) {
        return Ok(Look::Elf);
    }
    if is_pcap(bytes) {
        return Ok(Look::Pcap);
    }
    if begins_with(b"\n\r\r\n", bytes) {
        return Ok(Look::Pcapng);
    }
    if is_program(alloc, bytes)? {
        return Ok(Look::Bpf);
    }
    if is_packet_file(bytes) {
        return Ok(Look::Packets);
    }
    Ok(if is_text(bytes) {
        Look::Text
    } else {
        Look::Unknown
    })
}

/// Prints the line on what bytes look like, if there is one.
#[tactic(auto, unfolding(crate::specs::Looks::look_line))]
fn print_look<S: Sink>(look: Look, out: &mut S) -> Put
    ensures { Puts (look_line look) (S.state out.old) (S.state out.new) result }
{
    match look {
        Look::Empty => out.put(b"FILE is empty\n"),
        Look::Elf => out.put(b"FILE looks like an ELF file\n"),
        Look::Pcap => out.put(
            b"FILE looks like a capture (pcap); examples/from_pcap makes packets of it\n",
        ),
        Look::Pcapng => out.put(
            b"FILE looks like a capture (pcapng); examples/from_pcap makes packets of it\n",
        ),
        Look::Bpf => out.put(
            b"FILE looks like a program of classic BPF; pcc bpf makes a container of it\n",
        ),
        Look::Packets => out.put(b"FILE looks like a packet file\n"),
        Look::Text => out.put(b"FILE looks like a text; pcc asm makes a container of a source\n"),
        Look::Unknown => out.put(b""),
    }
}

/// Prints that bytes aren't a container, at which offset, and why, and what they look like.
pub fn print_no_container<S: Sink>(offset: u64, flaw: Flaw, look: Look, out: &mut S) -> Put
    ensures { Puts (no_container_text offset flaw look)
        (S.state out.old) (S.state out.new) result }
{
    match print_refusal(Refusal::Malformed(offset, flaw), out) {
        Put::Done => print_look(look, out),
        Put::Failed => Put::Failed,
    }
}
