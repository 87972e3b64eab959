//! An agent of a host: accepted code and its part of the arena.

ghost use Rattle.std.specs.Prelude.{◌≡◌, ◌≢◌, ◌≤◌, ◌<◌, ◌+◌, ◌%◌, ◌^◌, IfOk, length};
ghost use Rattle.reference_machine.specs.declared.layout.TheConstants.{QUADWORDS};
ghost use Rattle.reference_machine.specs.Arena.{sum_of, map_of};
ghost use Rattle.packet_store.specs.declared.reader.TheConstants.{MAX_PACKET};
ghost use Rattle.agent_host.specs.Agents.{SomeRightsFit};
ghost use Rattle.agent_host.specs.Hosts.{LoadsPacket};
ghost use Rattle.agent_host.specs.Turns.{TurnsTo, RunsTo};

use crate::phase::Phase;
use crate::turned::Turned;
use host_steps::{Ended, Operation, Slots, operations_of, run_steps};
use packet_store::start_at;
use pcc_gate::Accepted;
use reference_machine::{QUADWORDS, fill};
use std::alloc::{AllocError, Global};
use std::marker::Model;

/// Accepted code with its predecoded operations, its registers, and its part of the arena, which
/// begins at address `base`. An agent holds no rights: while it is `Ready`, some rights fit it,
/// under which the code accesses nothing that isn't allowed.
#[derive(Drop)]
pub struct Hosted {
    pub(crate) accepted: Accepted,
    pub(crate) operations: Vec<Operation>,
    pub(crate) base: u64,
    pub(crate) index: u32,
    pub(crate) slots: Slots,
    pub(crate) words: Vec<u64>,
    pub(crate) region: u64,
    pub(crate) phase: Phase,
}

impl Model for Hosted {
    ghost use Rattle.agent_host.specs.Agents.{HostedView};

    ghost Value = { HostedView };

    ghost use Rattle.std.specs.Coded.{codes};
    ghost use Rattle.term_table.specs.Table.{table_view_code};
    ghost use Rattle.policy_set.specs.Inside.Code.{form_code};

    ghost coded = { Prim.hlevel (codes, table_view_code, form_code) };

    ghost use Rattle.agent_host.specs.Inside.Fields.{hosted_view, IsHosted};

    ghost view = { hosted_view };

    ghost invariant = { IsHosted };
}

impl Hosted {
    /// Creates an agent of the accepted code, whose part begins at address `base`: predecodes the
    /// code and reserves the part. No packet is loaded.
    ///
    /// Errors: out of memory.
    pub fn new(alloc: Global, accepted: Accepted, base: u64) -> Result<Hosted, AllocError>
        requires aligned { base % 8 ≡ 0 }
        requires low { base < 2 ^ 32 }
        ensures accepted { IfOk result (λ agent. agent.accepted ≡ accepted) }
        ensures base { IfOk result (λ agent. agent.base ≡ base) }
        ensures phase { IfOk result (λ agent. agent.phase ≡ Phase.Unloaded) }
    {
        let operations = operations_of(alloc, accepted.cut().code())?;
        let words = vec![in alloc; 0; QUADWORDS]?;
        Ok(Hosted {
            accepted,
            operations,
            base,
            index: 0,
            slots: Slots::new(0, 0, 0),
            words,
            region: 0,
            phase: Phase::Unloaded,
        })
    }

    /// Loads `packet`, of at most `MAX_PACKET` bytes, at the policy's start state, and returns
    /// true. The part then holds the packet's bytes, every other quadword of it is 0, and nothing
    /// of an earlier run is left. The rights of the start then fit, with all steps of the bound
    /// left. Takes no memory.
    ///
    /// Returns false exactly if the packet is too short for the policy; the agent is then
    /// unchanged.
    pub fn load(&mut self, packet: &[u8]) -> bool
        requires { length packet.now ≤ MAX_PACKET }
        ensures { LoadsPacket packet.now result self.old self.new }
    {
        self.accepted.laws(); // tells the prover that the condition is true
        let Some(begin) = start_at(self.accepted.policy(), packet, self.base) else {
            return false;
        };
        let place = ((begin.at - self.base) / 8) as usize;
        self.index = 0;
        self.slots = Slots::new(begin.r16, begin.r17, begin.r18);
        fill(&mut self.words, place, begin.bytes);
        self.region = begin.region;
        self.phase = Phase::Ready;
        true
    }

    /// Runs at most `budget` steps (a return counts), and returns how the run ended. Tests no
    /// access. If steps are bounded, a budget of at least the bound ends with a return.
    fn run(&mut self, budget: u64) -> Ended
        requires { self.old.phase ≡ Phase.Ready }
        ensures { RunsTo budget result self.old self.new }
    {
        self.accepted.laws(); // tells the prover that the condition is true
        let code = self.accepted.cut().code();
        let ended = run_steps(
            code,
            &self.operations,
            &mut self.index,
            &mut self.slots,
            self.base,
            &mut self.words,
            budget,
        );
        self.phase = Phase::after(ended);
        ended
    }

    /// Runs at most `budget` steps (a return counts), unless the agent has returned since its last
    /// load, and returns how the turn ended.
    pub fn turn(&mut self, budget: u64) -> Turned
        requires { self.old.phase ≢ Phase.Unloaded }
        ensures { TurnsTo budget result self.old self.new }
    {
        if self.phase == Phase::Returned {
            return Turned::Done;
        }
        match self.run(budget) {
            Ended::Returned(word) => Turned::Returned(word),
            Ended::OutOfSteps => Turned::OutOfSteps,
        }
    }

    /// Returns the sum of the region's quadwords, modulo 2^64; the region is at the start of the
    /// part. Takes no memory.
    pub fn sum(&self) -> u64
        ensures { result
            ≡ sum_of (map_of self.now.base self.now.words) self.now.base self.now.region % 2 ^ 64 }
    {
        let mut total: u64 = 0;
        for i in 0..self.region as usize {
            total = total.wrapping_add(self.words[i]);
        }
        total
    }

    /// Returns the accepted code with its policy.
    pub fn accepted(&self) -> &Accepted
        ensures { result.now ≡ self.now.accepted }
    {
        &self.accepted
    }

    /// States the theorems about every agent; nothing is run. Its part has `QUADWORDS` quadwords.
    /// While it may run, some rights fit it.
    pub fn laws(&self)
        ensures words { length self.now.words ≡ QUADWORDS }
        ensures rights { self.now.phase ≡ Phase.Ready → SomeRightsFit self.now }
    {
        let _ = &self.phase; // opens the invariant for the prover
    }
}
