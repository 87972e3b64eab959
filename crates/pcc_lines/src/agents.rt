//! Lines of the agents of a host.

ghost use Rattle.std.specs.Prelude.{◌≡◌, ◌+◌, ◌≤◌, ◌++◌, codes, decimal, length};
ghost use Rattle.arrayvec.specs.ArrayVec.{array_vec_len};
ghost use Rattle.file_port.specs.Sink.{Puts};
ghost use Rattle.pcc_lines.specs.Agents.{agent_line, no_packet_line, short_line};
ghost use Rattle.pcc_lines.specs.Agents.{turn_line, turn_text};
ghost use Rattle.pcc_lines.specs.Fixed.{unknown_policy_line, container_too_long_line};
ghost use Rattle.pcc_lines.specs.Fixed.{packets_too_long_line};
ghost use Rattle.pcc_lines.specs.PacketFaults.{packet_fault_line};
ghost use Rattle.pcc_lines.specs.Refusals.{refusal_line};

use crate::line::{LINE, Line, push_decimal, push_text};
use crate::refusals::push_refusal;
use crate::results::{RESULT, push_outcome};
use alpha_cfg::Outcome;
use arrayvec::ArrayVec;
use file_port::{Put, Sink};
use packet_store::PacketFault;
use pcc_gate::Refusal;
use policy_set::PolicyKind;

/// The maximal length in bytes of the fixed text that follows the agent in a line.
const FIXED: usize = 18;

/// Begins a line of an agent.
fn push_agent(line: &mut Line, agent: u32)
    requires { array_vec_len line.old ≡ 0 }
    ensures items { line.new.items
        ≡ line.old.items ++ (codes "agent " ++ (decimal agent ++ codes " ")) }
    ensures len { array_vec_len line.new ≤ 27 }
{
    push_text(line, "agent ");
    push_decimal(line, u64::from(agent));
    push_text(line, " ");
}

/// Prints a line of an agent that has no number else, as one piece.
fn print_agent<S: Sink>(agent: u32, text: &str, out: &mut S) -> Put
    requires { length text.now ≤ FIXED }
    ensures { Puts (agent_line agent text.now) (S.state out.old) (S.state out.new) result }
{
    let mut line: Line = ArrayVec::new();
    push_agent(&mut line, agent);
    push_text(&mut line, text);
    out.put(line.as_slice())
}

/// Prints that no policy has the name given for the agent.
pub fn print_agent_unknown_policy<S: Sink>(agent: u32, out: &mut S) -> Put
    ensures { Puts (agent_line agent unknown_policy_line)
        (S.state out.old) (S.state out.new) result }
{
    print_agent(agent, "unknown policy\n", out)
}

/// Prints that the agent's container file is longer than a file may be.
pub fn print_agent_too_long<S: Sink>(agent: u32, out: &mut S) -> Put
    ensures { Puts (agent_line agent container_too_long_line)
        (S.state out.old) (S.state out.new) result }
{
    print_agent(agent, "refused 1 TooLong\n", out)
}

/// Prints that the agent's packet file is longer than a file may be.
pub fn print_agent_packets_too_long<S: Sink>(agent: u32, out: &mut S) -> Put
    ensures { Puts (agent_line agent packets_too_long_line)
        (S.state out.old) (S.state out.new) result }
{
    print_agent(agent, "packets TooLong\n", out)
}

/// Prints that the agent's packet file has no packet.
pub fn print_agent_no_packet<S: Sink>(agent: u32, out: &mut S) -> Put
    ensures { Puts (agent_line agent no_packet_line) (S.state out.old) (S.state out.new) result }
{
    print_agent(agent, "no packet\n", out)
}

/// Prints that the agent's packet is too short for its policy.
pub fn print_agent_short<S: Sink>(agent: u32, out: &mut S) -> Put
    ensures { Puts (agent_line agent short_line) (S.state out.old) (S.state out.new) result }
{
    print_agent(agent, "short\n", out)
}

/// Prints why the agent's container is refused, as one piece.
#[tactic(auto, unfolding(crate::specs::Refusals::refusal_line))]
pub fn print_agent_refusal<S: Sink>(agent: u32, refusal: Refusal, out: &mut S) -> Put
    ensures { Puts (agent_line agent (refusal_line refusal))
        (S.state out.old) (S.state out.new) result }
{
    let mut line: Line = ArrayVec::new();
    push_agent(&mut line, agent);
    push_refusal(&mut line, refusal);
    push_text(&mut line, "\n");
    out.put(line.as_slice())
}

/// Prints the first fault of the agent's packet file, as one piece.
#[tactic(auto, unfolding(crate::specs::PacketFaults::packet_fault_line))]
pub fn print_agent_packet_fault<S: Sink>(agent: u32, fault: PacketFault, out: &mut S) -> Put
    ensures { Puts (agent_line agent (packet_fault_line fault))
        (S.state out.old) (S.state out.new) result }
{
    let mut line: Line = ArrayVec::new();
    push_agent(&mut line, agent);
    push_text(&mut line, "packets ");
    push_text(&mut line, fault.name());
    push_text(&mut line, " ");
    push_decimal(&mut line, fault.offset());
    push_text(&mut line, "\n");
    out.put(line.as_slice())
}

/// Appends the result of a turn.
fn push_turn(line: &mut Line, kind: Option<PolicyKind>, outcome: Option<Outcome>, sum: u64)
    requires { array_vec_len line.old + RESULT ≤ LINE }
    ensures items { line.new.items ≡ line.old.items ++ turn_text kind outcome sum }
    ensures len { array_vec_len line.new ≤ array_vec_len line.old + RESULT }
{
    match outcome {
        Some(outcome) => push_outcome(line, kind, outcome, sum),
        None => push_text(line, "done"),
    }
}

/// Prints the result of turn `number`, as one piece: how its run ended, followed by the sum of the
/// agent's region; no outcome if the agent had returned before. `kind` is the kind of the agent's
/// policy.
#[tactic(auto, unfolding(crate::specs::Agents::turn_line))]
pub fn print_turn<S: Sink>(
    kind: Option<PolicyKind>,
    number: u64,
    agent: u32,
    outcome: Option<Outcome>,
    sum: u64,
    out: &mut S,
) -> Put
    ensures { Puts (turn_line kind number agent outcome sum)
        (S.state out.old) (S.state out.new) result }
{
    let mut line: Line = ArrayVec::new();
    push_text(&mut line, "turn ");
    push_decimal(&mut line, number);
    push_text(&mut line, " ");
    push_decimal(&mut line, u64::from(agent));
    push_text(&mut line, ": ");
    push_turn(&mut line, kind, outcome, sum);
    push_text(&mut line, "\n");
    out.put(line.as_slice())
}
