//! A host of several agents, each in a part of its own.

ghost use Rattle.std.specs.Prelude.{◌≡◌, ◌≢◌, ◌≤◌, ◌<◌, ◌%◌, ◌^◌, IfOk, Some, length, map};
ghost use Rattle.std.specs.Prelude.{slice_get, All};
ghost use Rattle.reference_machine.specs.Arena.{sum_of, map_of};
ghost use Rattle.packet_store.specs.declared.reader.TheConstants.{MAX_PACKET};
ghost use Rattle.agent_host.specs.Agents.{HostedView, base_of};
ghost use Rattle.agent_host.specs.Hosts.{Replaces, LoadsPacket, IsHostedAt, IsLoadedAt, SumsTo};
ghost use Rattle.agent_host.specs.Turns.{TurnsTo};
ghost use Rattle.agent_host.specs.Worlds.{TurnsWorlds};

use crate::agent::Hosted;
use crate::phase::Phase;
use crate::turned::Turned;
use pcc_gate::Accepted;
use reference_machine::{ARENA, QUADWORDS};
use std::alloc::{AllocError, Global};
use std::marker::Model;

/// The maximal number of agents of a host.
pub const MAX_AGENTS: usize = 16;

/// The bytes of an agent's part of the arena.
const PART: u64 = 65_552;

/// Returns the address at which the part of agent `a` begins.
pub fn part_base(a: u32) -> u64
    requires { a < MAX_AGENTS }
    ensures exact { result ≡ base_of a }
    ensures aligned { result % 8 ≡ 0 }
    ensures low { result < 2 ^ 32 }
{
    ARENA + PART * u64::from(a)
}

/// Agents, numbered from 0, each with a part of memory of its own. Contracts see the list of agents.
#[derive(Drop)]
pub struct AgentHost {
    pub(crate) agents: Vec<Hosted>,
}

impl Model for AgentHost {
    ghost use Rattle.std.specs.Prelude.{List};
    ghost use Rattle.agent_host.specs.Agents.{HostedView};

    ghost Value = { List HostedView };

    ghost use Rattle.std.specs.Coded.{codes};
    ghost use Rattle.term_table.specs.Table.{table_view_code};
    ghost use Rattle.policy_set.specs.Inside.Code.{form_code};

    ghost coded = { Prim.hlevel (codes, table_view_code, form_code) };

    ghost use Rattle.agent_host.specs.Inside.Fields.{IsAgentHost};

    ghost view = { λ host. host.agents.items };

    ghost invariant = { IsAgentHost };
}

impl AgentHost {
    /// Creates a host of 1 to `MAX_AGENTS` accepted codes, in this order: predecodes their code and
    /// reserves all parts. No packet is loaded.
    ///
    /// Errors: out of memory.
    pub fn new(alloc: Global, agents: Vec<Accepted>) -> Result<AgentHost, AllocError>
        requires some { 0 < length agents.items }
        requires few { length agents.items ≤ MAX_AGENTS }
        ensures accepted { IfOk result (λ host. map (λ m. m.accepted) host ≡ agents.items) }
        ensures unloaded { IfOk result (λ host. All (λ m. m.phase ≡ Phase.Unloaded) host) }
    {
        let mut hosted = Vec::new(alloc);
        for accepted in agents {
            let base = part_base(hosted.len() as u32);
            let agent = Hosted::new(alloc, accepted, base)?;
            hosted.push(agent)?;
        }
        Ok(AgentHost { agents: hosted })
    }

    /// Loads `packet`, of at most `MAX_PACKET` bytes, for agent `a`, in its part of the arena, at
    /// the start state of its policy, and returns true. Nothing of the agent's earlier runs is
    /// left. Every other agent is unchanged. Takes no memory.
    ///
    /// Returns false exactly if the packet is too short for the policy; nothing then changes.
    pub fn load(&mut self, a: u32, packet: &[u8]) -> bool
        requires agent { a < length self.old }
        requires packet { length packet.now ≤ MAX_PACKET }
        ensures { Replaces (LoadsPacket packet.now result) a self.old self.new }
    {
        self.agents[a as usize].load(packet)
    }

    /// Runs agent `a`, which is loaded, for at most `budget` steps (a return counts), and returns
    /// how its turn ended. Runs nothing if the agent has returned since its last load. Tests no
    /// access. If the agent's steps are bounded, a budget of at least the bound ends with a return.
    /// Every other agent is unchanged (`replaces`). Seen as a world of alpha_turns, all agents in one
    /// memory, the host is the world after this turn (`world`). Takes no memory.
    pub fn turn(&mut self, a: u32, budget: u64) -> Turned
        requires agent { a < length self.old }
        requires loaded { IsLoadedAt self.old a }
        ensures replaces { Replaces (TurnsTo budget result) a self.old self.new }
        ensures world { TurnsWorlds (record { agent = a; budget = budget }) self.old self.new }
    {
        self.agents[a as usize].turn(budget)
    }

    /// Returns the sum of the quadwords of the region of agent `a`, which is loaded, modulo 2^64.
    /// Takes no memory.
    pub fn sum(&self, a: u32) -> u64
        requires agent { a < length self.now }
        requires loaded { IsLoadedAt self.now a }
        ensures { SumsTo self.now a result }
    {
        self.agents[a as usize].sum()
    }

    /// Returns the accepted code of agent `a`, with its policy.
    pub fn accepted(&self, a: u32) -> &Accepted
        requires { a < length self.now }
        ensures { (m : HostedView) → slice_get self.now a ≡ Some m → result.now ≡ m.accepted }
    {
        self.agents[a as usize].accepted()
    }

    /// States the theorems about agent `a`; nothing is run. They say where its part begins, how
    /// many quadwords it has, and that some rights fit the agent while it may run.
    pub fn laws(&self, a: u32)
        requires { a < length self.now }
        ensures { (m : HostedView) → slice_get self.now a ≡ Some m → IsHostedAt a m }
    {
        self.agents[a as usize].laws();
    }
}
