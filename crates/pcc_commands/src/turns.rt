//! Agents to be loaded, and their turns.

ghost use Rattle.std.specs.Prelude.{◌≡◌, ◌≤◌, length};
ghost use Rattle.agent_host.specs.declared.host.TheConstants.{MAX_AGENTS};
ghost use Rattle.pcc_commands.specs.Inside.Standing.{HaveStarts, AreTurnsOf};

use crate::turning::{load_all, make_turn};
use agent_host::AgentHost;
use agent_script::Turn;
use file_port::{Put, Sink};

/// Agents, a packet for each, none too short, and turns. All memory that the runs need is reserved.
#[derive(Drop)]
pub struct TurnJob {
    pub host: AgentHost,
    pub packets: Vec<Vec<u8>>,
    pub turns: Vec<Turn>,
    ghost few: { length host ≤ MAX_AGENTS },
    ghost packet_count: { length packets.items ≡ length host },
    ghost ready: { HaveStarts host packets.items },
    ghost own_turns: { AreTurnsOf (length host) turns.items },
}

impl TurnJob {
    ghost use Rattle.file_port.specs.Sink.{Puts};
    ghost use Rattle.pcc_commands.specs.Reports.{job_lines};

    /// Loads the agents, makes the turns in order, and prints the line of each before the next is
    /// made; stops at the first write that fails.
    pub fn print<S: Sink>(self, out: &mut S) -> Put
        ensures { Puts (job_lines self) (S.state out.old) (S.state out.new) result }
    {
        let TurnJob {
            host,
            packets,
            turns,
        } = self;
        let mut host = host;
        load_all(&mut host, &packets);
        for i in 0..turns.len() {
            let turn = turns[i];
            match make_turn(&mut host, i as u64, turn, out) {
                Put::Done => {}
                Put::Failed => return Put::Failed,
            }
        }
        Put::Done
    }
}
