//! Loading agents and making turns.

ghost use Rattle.std.specs.Prelude.{◌≡◌, ◌<◌, ◌≤◌, ◌++◌, ◌∷◌, [], List, length, slice_get};
ghost use Rattle.file_port.specs.Sink.{Puts};
ghost use Rattle.alpha_turns.specs.declared.turns.Turn as turns;
ghost use Rattle.alpha_turns.specs.Turns.{budget_of};
ghost use Rattle.agent_host.specs.declared.host.TheConstants.{MAX_AGENTS};
ghost use Rattle.agent_host.specs.Hosts.{IsLoadedAt};
ghost use Rattle.pcc_commands.specs.Stages.Hosting.{Member};
ghost use Rattle.pcc_commands.specs.Commands.Host.{agent_turn_line};
ghost use Rattle.pcc_commands.specs.Turns.{members_with};
ghost use Rattle.pcc_commands.specs.Inside.Standing.{HaveStarts, AreWhereTurnsLead};

use agent_host::AgentHost;
use agent_script::Turn;
use file_port::{Put, Sink};
use pcc_lines::print_turn;

/// Loads each agent with its packet, none of which is too short.
pub fn load_all(host: &mut AgentHost, packets: &[Vec<u8>])
    requires few { length host.old ≤ MAX_AGENTS }
    requires count { length packets.now ≡ length host.old }
    requires ready { HaveStarts host.old packets.now }
    ensures after { AreWhereTurnsLead (members_with host.old packets.now) [] host.new }
    ensures all { length host.new ≡ length host.old }
{
    for a in 0..packets.len() {
        let agent = a as u32;
        host.laws(agent); // tells the prover where its part begins
        let _ = host.load(agent, &packets[a]);
    }
}

/// Makes the turn, whose number is `number`, and prints its line.
pub fn make_turn<S: Sink>(host: &mut AgentHost, number: u64, turn: Turn, out: &mut S) -> Put
    requires agent { turn.agent < length host.old }
    requires loaded { IsLoadedAt host.old turn.agent }
    ensures line { (agents : List Member) (before : List turns.Turn)
        → AreWhereTurnsLead agents before host.old → turn.agent < length agents
        → Puts (agent_turn_line number turn (budget_of turn.agent before)
        (slice_get agents turn.agent)) (S.state out.old) (S.state out.new) result }
    ensures after { (agents : List Member) (before : List turns.Turn)
        → AreWhereTurnsLead agents before host.old
        → AreWhereTurnsLead agents (before ++ turn ∷ []) host.new }
    ensures all { length host.new ≡ length host.old }
{
    let turned = host.turn(turn.agent, turn.budget);
    let sum = host.sum(turn.agent);
    let kind = host.accepted(turn.agent).policy().kind();
    print_turn(kind, number, turn.agent, turned.outcome(), sum, out)
}
