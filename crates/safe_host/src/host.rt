//! A host: accepted code and the arena that it runs in.

ghost use Rattle.std.specs.Prelude.{◌≡◌, ◌≤◌, ◌%◌, ◌^◌, IfOk, true, false, length};
ghost use Rattle.reference_machine.specs.declared.layout.TheConstants.{ARENA};
ghost use Rattle.reference_machine.specs.Arena.{sum_of, map_of};
ghost use Rattle.packet_store.specs.declared.reader.TheConstants.{MAX_PACKET};
ghost use Rattle.packet_store.specs.PolicyStarts.{start_of};
ghost use Rattle.host_steps.specs.Parts.{ReturnedInBound};
ghost use Rattle.safe_host.specs.Hosts.{HasRights, FitWhileLeft};
ghost use Rattle.safe_host.specs.Counts.{MakesSteps};
ghost use Rattle.safe_host.specs.Runs.{Loads, IsRun, goes_on_after};

use crate::ended::Counted;
use crate::reloading::reload;
use host_steps::{Ended, Operation, Slots, operations_of, run_steps};
use packet_store::start;
use pcc_gate::Accepted;
use reference_machine::{ARENA, QUADWORDS, reach};
use std::alloc::{AllocError, Global};
use std::marker::Model;

/// Accepted code with its predecoded operations, its registers, and an arena of 8,194 quadwords
/// from address 65,536 on. A host holds no rights: while it is `live`, some rights fit it, under
/// which the code accesses nothing that isn't allowed. From number `end` on all words of the arena
/// are 0: nothing was written there, and these rights allow no store there. `load` makes `end` of
/// the packet's length in quadwords and of the spans that the start may store to: it is the least
/// number after all of these (`reach`). Only the next `load` reads it, to clear no more than it has
/// to; no step and no sum does.
#[derive(Drop)]
pub struct Host {
    pub(crate) accepted: Accepted,
    pub(crate) operations: Vec<Operation>,
    pub(crate) index: u32,
    pub(crate) slots: Slots,
    pub(crate) words: Vec<u64>,
    pub(crate) end: usize,
    pub(crate) region: u64,
    pub(crate) live: bool,
}

impl Model for Host {
    ghost use Rattle.safe_host.specs.Hosts.{HostView};

    ghost Value = { HostView };

    ghost use Rattle.std.specs.Coded.{codes};
    ghost use Rattle.term_table.specs.Table.{table_view_code};
    ghost use Rattle.policy_set.specs.Inside.Code.{form_code};

    ghost coded = { Prim.hlevel (codes, table_view_code, form_code) };

    ghost use Rattle.safe_host.specs.Inside.Fields.{host_view, IsHost};

    ghost view = { host_view };

    ghost invariant = { IsHost };
}

impl Host {
    /// Creates a host of the accepted code: predecodes the code and reserves the arena. No packet
    /// is loaded, so the host isn't live.
    ///
    /// Errors: out of memory.
    pub fn new(alloc: Global, accepted: Accepted) -> Result<Host, AllocError>
        ensures accepted { IfOk result (λ host. host.accepted ≡ accepted) }
        ensures live { IfOk result (λ host. host.live ≡ false) }
        ensures region { IfOk result (λ host. host.region ≡ 0) }
    {
        let operations = operations_of(alloc, accepted.cut().code())?;
        let words = vec![in alloc; 0; QUADWORDS]?;
        Ok(Host {
            accepted,
            operations,
            index: 0,
            slots: Slots::new(0, 0, 0),
            words,
            end: 0,
            region: 0,
            live: false,
        })
    }
}

impl Host {
    /// Loads `packet`, of at most `MAX_PACKET` bytes, at the policy's start state, and returns
    /// true. The arena then holds the packet's bytes, every other quadword is 0, and nothing of an
    /// earlier run is left. The rights of the start then fit, with all steps of the bound left.
    /// Takes no memory.
    ///
    /// Returns false exactly if the packet is too short for the policy; the host is then unchanged.
    pub fn load(&mut self, packet: &[u8]) -> bool
        requires { length packet.now ≤ MAX_PACKET }
        ensures exact { Loads self.old (start_of self.old.accepted.policy packet.now)
            self.new result }
    {
        self.accepted.laws(); // tells the prover that the condition is true
        let Some(begin) = start(self.accepted.policy(), packet) else {
            return false;
        };
        let place = ((begin.at - ARENA) / 8) as usize;
        self.index = 0;
        self.slots = Slots::new(begin.r16, begin.r17, begin.r18);
        reload(&mut self.words, self.end, place, begin.bytes);
        self.end = reach(place + begin.bytes.len().div_ceil(8), &begin.writes);
        self.region = begin.region;
        self.live = true;
        true
    }

    /// Runs at most `budget` steps (a return counts), and returns how the run ended. Tests no
    /// access: under all rights that fit, this is the run of the machine that tests each access.
    /// After `OutOfSteps` the rights fit again, with `budget` fewer steps left, and `run` may be
    /// called again; after a return the host isn't live. If steps are bounded, a budget of at least
    /// the bound ends with a return.
    pub fn run(&mut self, budget: u64) -> Ended
        requires { self.old.live ≡ true }
        ensures under { IsRun self.old budget result self.new }
        ensures returns { ReturnedInBound self.old.accepted.bound budget result }
        ensures accepted { self.new.accepted ≡ self.old.accepted }
        ensures region { self.new.region ≡ self.old.region }
        ensures live { self.new.live ≡ goes_on_after result }
    {
        self.accepted.laws(); // tells the prover that the condition is true
        let code = self.accepted.cut().code();
        let ended = run_steps(
            code,
            &self.operations,
            &mut self.index,
            &mut self.slots,
            ARENA,
            &mut self.words,
            budget,
        );
        self.live = ended.goes_on();
        ended
    }

    /// Runs as `run` does, one step at a time, and returns how the run ended and how many steps it
    /// made (a return counts).
    pub fn run_counted(&mut self, budget: u64) -> Counted
        requires { self.old.live ≡ true }
        ensures under { IsRun self.old budget result.ended self.new }
        ensures returns { ReturnedInBound self.old.accepted.bound budget result.ended }
        ensures steps { MakesSteps self.old budget result.steps }
        ensures few { result.steps ≤ budget }
        ensures accepted { self.new.accepted ≡ self.old.accepted }
        ensures region { self.new.region ≡ self.old.region }
        ensures live { self.new.live ≡ goes_on_after result.ended }
    {
        self.laws(); // tells the prover that some steps of a bound are left
        let mut steps: u64 = 0;
        while steps < budget {
            let ended = self.run(1);
            steps += 1;
            if !ended.goes_on() {
                return Counted { ended, steps };
            }
        }
        Counted {
            ended: Ended::OutOfSteps,
            steps,
        }
    }

    /// Returns the sum of the region's quadwords, modulo 2^64; the region is at the start of the
    /// arena. Takes no memory.
    pub fn sum(&self) -> u64
        ensures { result
            ≡ sum_of (map_of ARENA self.now.words) ARENA self.now.region % 2 ^ 64 }
    {
        let mut total: u64 = 0;
        for i in 0..self.region as usize {
            total = total.wrapping_add(self.words[i]);
        }
        total
    }

    /// Returns the accepted code with its policy.
    pub fn accepted(&self) -> &Accepted
        ensures { result.now ≡ self.now.accepted }
    {
        &self.accepted
    }

    /// Returns the accepted code with its policy, and drops the rest of the host.
    ///
    /// The body names all fields of a host: the code, also as operations, the state of a run, how
    /// many words at the start of the arena `load` has to clear, the region's count and whether a
    /// run may go on. So a host holds no rights, and a field for them would have to be written here
    /// first.
    pub fn into_accepted(self) -> Accepted
        ensures { result ≡ self.accepted }
    {
        let Host {
            accepted,
            operations: _,
            index: _,
            slots: _,
            words: _,
            end: _,
            region: _,
            live: _,
        } = self;
        accepted
    }

    /// States the theorems about every host; nothing is run. While a host is live, some rights fit
    /// it (`rights`); if its steps are bounded, rights fit only while some steps are left (`left`).
    pub fn laws(&self)
        ensures rights { self.now.live ≡ true → HasRights self.now }
        ensures left { FitWhileLeft self.now }
    {
        self.accepted.laws(); // tells the prover that the condition is true
    }
}
