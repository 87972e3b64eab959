//! `packet POLICY FILE PACKETS K [--steps N]`: shows the run on a packet step by step.

ghost use Rattle.std.specs.Prelude.{◌≡◌, ◌≤◌, length, slice_get, option_map, IfSome};
ghost use Rattle.packet_store.specs.declared.reader.TheConstants.{MAX_PACKET};
ghost use Rattle.pcc_words.specs.Commands.{word_view};
ghost use Rattle.pcc_stages.specs.Stage.{gives};
ghost use Rattle.pcc_stages.specs.Answers.{Gives, GivesPure};
ghost use Rattle.view_cli.specs.Commands.Packet.{traced_exit, packet_exit, packet_command};
ghost use Rattle.view_cli.specs.Reports.{exit_of_report};

use crate::PacketArgs;
use crate::report::Report;
use crate::trace_job::TraceJob;
use alpha_cfg::Code;
use file_port::Files;
use packet_store::PacketFile;
use pcc_stages::{Stop, code_of, packets_of, policy_told};
use policy_set::Policy;
use std::alloc::Global;
use view_trace::Tracer;

/// The packet of a number, if there is one.
fn packet_at(packets: &PacketFile, number: u64) -> Option<&[u8]>
    ensures exact { option_map (λ p. p.now) result ≡ slice_get packets.now number }
    ensures short { IfSome result (λ p. length p.now ≤ MAX_PACKET) }
{
    let mut left = packets.packets();
    let mut ahead = number;
    while let Some(packet) = left.next() {
        if ahead == 0 {
            return Some(packet);
        }
        ahead -= 1;
    }
    None
}

/// The run on the packet of a number, if there is one. All memory that it needs is reserved.
fn traced<'a>(
    alloc: Global,
    policy: Policy,
    code: Code,
    steps: u64,
    number: u64,
    packets: &PacketFile,
) -> Result<Report, Stop<'a>>
    ensures { GivesPure exit_of_report
        (gives (traced_exit policy code steps number (slice_get packets.now number))) result }
{
    let Some(packet) = packet_at(packets, number) else {
        return Ok(Report::NoPacket(number));
    };
    let Ok(packet) = Vec::from_slice(alloc, packet) else {
        return Err(Stop::Memory);
    };
    match Tracer::new(alloc, policy, code, steps) {
        Ok(tracer) => Ok(Report::Traced(TraceJob {
            tracer,
            number,
            packet,
        })),
        Err(_) => Err(Stop::Memory),
    }
}

/// The run on the packet of a number, if the policy has a start.
fn started<'a>(
    alloc: Global,
    policy: Policy,
    code: Code,
    steps: u64,
    number: u64,
    packets: &PacketFile,
) -> Result<Report, Stop<'a>>
    ensures { GivesPure exit_of_report
        (gives (packet_exit policy code steps number (slice_get packets.now number))) result }
{
    match policy.kind() {
        None => Ok(Report::NoStart),
        Some(_) => traced(alloc, policy, code, steps, number, packets),
    }
}

/// Reads the container and the packets, and reserves all memory that the run needs.
pub fn packet_command<'a, F: Files>(
    alloc: Global,
    args: PacketArgs<'a>,
    files: &mut F,
) -> Result<Report, Stop<'a>>
    ensures { let a = args.entry in Gives exit_of_report
        (packet_command (word_view a.policy) a.file.now a.packets.now a.number a.steps)
        (F.log files.old) (F.log files.new) (F.state files.old) (F.state files.new) result }
{
    let policy = policy_told(alloc, args.policy, files)?;
    let code = code_of(alloc, &policy, args.file, files)?;
    let packets = packets_of(alloc, args.packets, files)?;
    started(alloc, policy, code, args.steps, args.number, &packets)
}
