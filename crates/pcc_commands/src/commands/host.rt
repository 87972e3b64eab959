//! `host SCRIPT`: runs agents by turns, by the host that tests no access.

ghost use Rattle.std.specs.Prelude.{◌≡◌, ◌<◌, ◌≤◌, IfOk, Some, length, map, option_map, string_bytes, []};
ghost use Rattle.packet_store.specs.declared.reader.TheConstants.{MAX_PACKET};
ghost use Rattle.packet_store.specs.PolicyStarts.{start_from};
ghost use Rattle.agent_host.specs.declared.host.TheConstants.{MAX_AGENTS};
ghost use Rattle.agent_host.specs.Agents.{base_of};
ghost use Rattle.agent_script.specs.Scripts.{load_view};
ghost use Rattle.pcc_lines.specs.Agents.{agent_line};
ghost use Rattle.pcc_stages.specs.Stage.{reads, gives};
ghost use Rattle.pcc_words.specs.Invocations.{host};
ghost use Rattle.pcc_stages.specs.Stages.Common.{refused, policy_named};
ghost use Rattle.pcc_stages.specs.declared.stops.Stop.TheVariants as stops;
ghost use Rattle.pcc_stages.specs.Decisions.{Decides};
ghost use Rattle.pcc_stages.specs.Stops.{agent_text, refused_text, end_of};
ghost use Rattle.pcc_stages.specs.Answers.{Gives, GivesPure};
ghost use Rattle.pcc_commands.specs.Stages.Hosting as hosting;
ghost use Rattle.pcc_commands.specs.Stages.Judging as judging;
ghost use Rattle.pcc_commands.specs.Commands.Host.{turn_lines};
ghost use Rattle.pcc_commands.specs.Tasks.{stage_of};
ghost use Rattle.pcc_commands.specs.Reports.{report_exit};
ghost use Rattle.pcc_commands.specs.Inside.Behind.{load_under};
ghost use Rattle.pcc_commands.specs.Inside.Shows.{IsOfGate};
ghost use Rattle.pcc_commands.specs.Inside.Standing.{HasStart, AreTurnsOf};
ghost use Rattle.pcc_commands.specs.Reports.{job_lines};
ghost use Rattle.pcc_commands.specs.Inside.Turning.{AreReadyFrom, member_view, members_view};

use crate::report::Report;
use crate::stages::{accepted_in, script_of};
use crate::turns::TurnJob;
use agent_host::{AgentHost, part_base};
use agent_script::{Load, Script, Turn};
use file_port::{Files, Got};
use packet_store::{PacketFile, start_at};
use pcc_gate::Accepted;
use pcc_stages::{AgentStop, MAX_FILE, RefusedLine, Stop, octets};
use policy_set::{Policy, by_name};
use std::alloc::{AllocError, Global};

/// Accepted code, and the packet that it is to be loaded with.
#[derive(Drop)]
struct Admitted {
    accepted: Accepted,
    packet: Vec<u8>,
}

/// The policy of the name that a script has for the agent.
fn agent_policy<'a>(alloc: Global, agent: u32, name: &str) -> Result<Policy, Stop<'a>>
    ensures { GivesPure (λ policy. policy)
        (hosting.for_agent agent (policy_named name.now)) result }
{
    match by_name(alloc, name) {
        Ok(Some(policy)) => Ok(policy),
        Ok(None) => Err(Stop::Refused(RefusedLine::OfAgent(agent, AgentStop::UnknownPolicy))),
        Err(_) => Err(Stop::Memory),
    }
}

/// Reads the bytes of the file that a script names for the agent; stops with `too_long` if it has
/// more than `MAX_FILE`.
fn agent_bytes<'a, F: Files>(
    alloc: Global,
    agent: u32,
    name: String,
    too_long: AgentStop,
    files: &mut F,
) -> Result<Vec<u8>, Stop<'a>>
    ensures { Gives (λ bytes. bytes.items)
        (reads (string_bytes name) MAX_FILE
        (refused (agent_line agent (agent_text too_long))) gives)
        (F.log files.old) (F.log files.new) (F.state files.old) (F.state files.new) result }
{
    match files.read(alloc, name.as_str(), MAX_FILE) {
        Got::Bytes(bytes) => {
            octets(&bytes);
            Ok(bytes)
        }
        Got::Missing => Err(Stop::MissingOfScript(name)),
        Got::TooLong => Err(Stop::Refused(RefusedLine::OfAgent(agent, too_long))),
        Got::Failed => Err(Stop::ReadFaultOfScript(name)),
        Got::Memory => Err(Stop::Memory),
    }
}

/// Returns a refusal by the gate as a stop for the agent.
fn line_of<'a>(agent: u32, line: RefusedLine) -> Stop<'a>
    requires { IsOfGate (stops.Refused line) }
    ensures { end_of result ≡ Some (hosting.told_of agent (refused (refused_text line))) }
{
    match line {
        RefusedLine::Container(refusal) => {
            Stop::Refused(RefusedLine::OfAgent(agent, AgentStop::Refused(refusal)))
        }
        _ => Stop::Memory,
    }
}

/// Returns a stop by the gate as a stop for the agent.
fn told_of<'a>(agent: u32, stop: &Stop<'_>) -> Stop<'a>
    requires { IsOfGate stop.now }
    ensures { end_of result ≡ option_map (hosting.told_of agent) (end_of stop.now) }
{
    match stop {
        Stop::Refused(line) => line_of(agent, *line),
        _ => Stop::Memory,
    }
}

/// Checks the agent's container under the policy, and returns what was accepted.
fn agent_code<'a, F: Files>(
    alloc: Global,
    agent: u32,
    policy: &Policy,
    name: String,
    files: &mut F,
) -> Result<Accepted, Stop<'a>>
    ensures code { Gives (λ a. a.code)
        (hosting.for_agent agent (judging.accepted_code_of policy.now (string_bytes name)))
        (F.log files.old) (F.log files.new) (F.state files.old) (F.state files.new) result }
    ensures policy { IfOk result (λ a. a.policy ≡ policy.now) }
{
    let bytes = agent_bytes(alloc, agent, name, AgentStop::ContainerTooLong, files)?;
    match accepted_in(alloc, policy, &bytes) {
        Ok(accepted) => Ok(accepted),
        Err(stop) => Err(told_of(agent, &stop)),
    }
}

/// Returns the packet if it isn't too short for the policy.
fn whole_packet<'a>(
    alloc: Global,
    agent: u32,
    policy: &Policy,
    packet: &[u8],
) -> Result<Vec<u8>, Stop<'a>>
    requires agent { agent < MAX_AGENTS }
    requires packet { length packet.now ≤ MAX_PACKET }
    ensures exact { GivesPure (λ packet. packet.items) (hosting.for_agent agent
        (hosting.unless_short packet.now (start_from (base_of agent) policy.now.kind packet.now)))
        result }
    ensures start { IfOk result (λ packet. HasStart agent policy.now packet.items) }
{
    match start_at(policy, packet, part_base(agent)) {
        None => Err(Stop::Refused(RefusedLine::OfAgent(agent, AgentStop::Short))),
        Some(_) => match Vec::from_slice(alloc, packet) {
            Ok(packet) => Ok(packet),
            Err(_) => Err(Stop::Memory),
        },
    }
}

/// Returns the first packet of the file if it isn't too short for the policy.
fn first_packet<'a>(
    alloc: Global,
    agent: u32,
    policy: &Policy,
    file: &PacketFile,
) -> Result<Vec<u8>, Stop<'a>>
    requires { agent < MAX_AGENTS }
    ensures exact { GivesPure (λ packet. packet.items)
        (hosting.for_agent agent (hosting.first_packet agent policy.now file.now)) result }
    ensures start { IfOk result (λ packet. HasStart agent policy.now packet.items) }
{
    let mut packets = file.packets();
    match packets.next() {
        Some(packet) => whole_packet(alloc, agent, policy, packet),
        None => Err(Stop::Refused(RefusedLine::OfAgent(agent, AgentStop::NoPacket))),
    }
}

/// The agent's packet: the first of its packet file.
fn agent_packet<'a, F: Files>(
    alloc: Global,
    agent: u32,
    policy: &Policy,
    name: String,
    files: &mut F,
) -> Result<Vec<u8>, Stop<'a>>
    requires { agent < MAX_AGENTS }
    ensures exact { Gives (λ packet. packet.items)
        (hosting.for_agent agent (hosting.packet_of agent policy.now (string_bytes name)))
        (F.log files.old) (F.log files.new) (F.state files.old) (F.state files.new) result }
    ensures start { IfOk result (λ packet. HasStart agent policy.now packet.items) }
{
    let bytes = agent_bytes(alloc, agent, name, AgentStop::PacketsTooLong, files)?;
    match PacketFile::new(bytes) {
        Ok(file) => first_packet(alloc, agent, policy, &file),
        Err(fault) => Err(Stop::Refused(RefusedLine::OfAgent(agent, AgentStop::BadPackets(fault)))),
    }
}

/// Reads the files that the load names after its policy, and checks them.
fn member_under<'a, F: Files>(
    alloc: Global,
    agent: u32,
    policy: &Policy,
    load: Load,
    files: &mut F,
) -> Result<Admitted, Stop<'a>>
    requires { agent < MAX_AGENTS }
    ensures exact { Gives member_view (load_under agent (load_view load) policy.now)
        (F.log files.old) (F.log files.new) (F.state files.old) (F.state files.new) result }
    ensures start { IfOk result (λ m. HasStart agent m.accepted.policy m.packet.items) }
{
    let accepted = agent_code(alloc, agent, policy, load.file, files)?;
    match agent_packet(alloc, agent, policy, load.packets, files) {
        Ok(packet) => Ok(Admitted { accepted, packet }),
        Err(stop) => {
            drop(accepted);
            Err(stop)
        }
    }
}

/// Reads what the load of the agent names, and judges it.
fn member_of<'a, F: Files>(
    alloc: Global,
    agent: u32,
    load: Load,
    files: &mut F,
) -> Result<Admitted, Stop<'a>>
    requires { agent < MAX_AGENTS }
    ensures exact { Gives member_view
        (hosting.for_agent agent (hosting.load_of agent (load_view load)))
        (F.log files.old) (F.log files.new) (F.state files.old) (F.state files.new) result }
    ensures start { IfOk result (λ m. HasStart agent m.accepted.policy m.packet.items) }
{
    let policy = agent_policy(alloc, agent, load.policy.as_str())?;
    member_under(alloc, agent, &policy, load, files)
}

/// The agents of the loads, each read and judged before the next.
fn members_of<'a, F: Files>(
    alloc: Global,
    loads: Vec<Load>,
    files: &mut F,
) -> Result<Vec<Admitted>, Stop<'a>>
    requires { length loads.items ≤ MAX_AGENTS }
    ensures exact { Gives members_view (hosting.agents_from 0 (map load_view loads.items))
        (F.log files.old) (F.log files.new) (F.state files.old) (F.state files.new) result }
    ensures ready { IfOk result (λ members. AreReadyFrom 0 members.items) }
    ensures all { IfOk result (λ members. length members.items ≡ length loads.items) }
{
    let mut members = Vec::new(alloc);
    for load in loads {
        let agent = members.len() as u32;
        let member = member_of(alloc, agent, load, files)?;
        match members.push(member) {
            Ok(()) => {}
            Err(_) => return Err(Stop::Memory),
        }
    }
    Ok(members)
}

/// The accepted codes, and the packets that they are loaded with.
fn parted(
    alloc: Global,
    members: Vec<Admitted>,
) -> Result<(Vec<Accepted>, Vec<Vec<u8>>), AllocError>
    ensures codes { IfOk result (λ r. r.0.items ≡ map (λ m. m.accepted) members.items) }
    ensures packets { IfOk result (λ r. map (λ p. p.items) r.1.items
        ≡ map (λ m. m.packet.items) members.items) }
{
    let mut codes = Vec::new(alloc);
    let mut packets = Vec::new(alloc);
    for member in members {
        let Admitted { accepted, packet } = member;
        codes.push(accepted)?;
        packets.push(packet)?;
    }
    Ok((codes, packets))
}

/// The agents' host, their packets and their turns, with all memory that the runs need.
fn job_of(alloc: Global, members: Vec<Admitted>, turns: Vec<Turn>) -> Result<TurnJob, AllocError>
    requires some { 0 < length members.items }
    requires few { length members.items ≤ MAX_AGENTS }
    requires ready { AreReadyFrom 0 members.items }
    requires turns { AreTurnsOf (length members.items) turns.items }
    ensures { IfOk result (λ job. job_lines job
        ≡ turn_lines (map member_view members.items) 0 [] turns.items) }
{
    let both = parted(alloc, members)?;
    let (codes, packets) = both;
    let host = AgentHost::new(alloc, codes)?;
    Ok(TurnJob {
        host,
        packets,
        turns,
    })
}

/// Reads the script, then the files that each load names; takes all memory before the first line.
pub fn host_command<'a, F: Files>(
    alloc: Global,
    script: &'a str,
    files: &mut F,
) -> Result<Report, Stop<'a>>
    ensures { Decides report_exit (stage_of (host script.entry.now))
        (F.log files.old) (F.log files.new) (F.state files.old) (F.state files.new) result }
{
    let said = script_of(alloc, script, files)?;
    let Script { loads, turns } = said;
    let members = members_of(alloc, loads, files)?;
    match job_of(alloc, members, turns) {
        Ok(job) => Ok(Report::Turns(job)),
        Err(_) => Err(Stop::Memory),
    }
}
