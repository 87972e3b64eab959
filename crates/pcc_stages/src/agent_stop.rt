//! Why an agent of a host isn't loaded.

ghost use Rattle.file_port.specs.Sink.{Puts};
ghost use Rattle.pcc_lines.specs.Agents.{agent_line};
ghost use Rattle.pcc_stages.specs.Stops.{agent_text};

use file_port::{Put, Sink};
use packet_store::PacketFault;
use pcc_gate::Refusal;
use pcc_lines::{
    print_agent_no_packet, print_agent_packet_fault, print_agent_packets_too_long,
    print_agent_refusal, print_agent_short, print_agent_too_long, print_agent_unknown_policy,
};

/// Why an agent of a host isn't loaded; each reason has a line of the agent.
#[derive(Clone, Copy)]
pub enum AgentStop {
    /// No policy has the name given.
    UnknownPolicy,
    /// The container's file is longer than a file may be.
    ContainerTooLong,
    /// The container is refused.
    Refused(Refusal),
    /// The packet file is longer than a file may be.
    PacketsTooLong,
    /// The packet file has a fault.
    BadPackets(PacketFault),
    /// The packet file has no packet.
    NoPacket,
    /// The first packet is too short for the policy.
    Short,
}

impl AgentStop {
    /// Prints the line of the agent that says why.
    pub fn print<S: Sink>(self, agent: u32, out: &mut S) -> Put
        ensures { Puts (agent_line agent (agent_text self))
            (S.state out.old) (S.state out.new) result }
    {
        match self {
            AgentStop::UnknownPolicy => print_agent_unknown_policy(agent, out),
            AgentStop::ContainerTooLong => print_agent_too_long(agent, out),
            AgentStop::Refused(refusal) => print_agent_refusal(agent, refusal, out),
            AgentStop::PacketsTooLong => print_agent_packets_too_long(agent, out),
            AgentStop::BadPackets(fault) => print_agent_packet_fault(agent, fault, out),
            AgentStop::NoPacket => print_agent_no_packet(agent, out),
            AgentStop::Short => print_agent_short(agent, out),
        }
    }
}
