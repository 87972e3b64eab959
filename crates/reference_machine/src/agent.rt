//! Agents: machine states in an arena.

ghost use Rattle.std.specs.Prelude.{◌≡◌, ◌+◌, ◌<◌, ◌≤◌, length, IfOk, true, if◌then◌else◌, Some, None, slice_index, ◌%◌, ◌^◌};
ghost use Rattle.std.specs.Prelude.{pos, ◌*ℤ◌};
ghost use Rattle.word_ops.specs.Memory as memory;
ghost use Rattle.word_ops.specs.Rights.{allowed};
ghost use Rattle.word_ops.specs.Registers.{read_reg, write_reg};
ghost use Rattle.alpha_cfg.specs.Machine as machine;
ghost use Rattle.reference_machine.specs.Arena.{sum_of};
ghost use Rattle.reference_machine.specs.Agents as agents;
ghost use Rattle.reference_machine.specs.Setups.{start_view};
ghost use Rattle.reference_machine.specs.Starts as starts;
ghost use Rattle.reference_machine.specs.declared.layout.TheConstants.{ARENA};
ghost use Rattle.alpha_cfg.specs.declared.code.TheConstants.{MAX_WORDS};

use crate::layout::{ARENA, QUADWORDS};
use crate::loading::{reach, refill};
use crate::parts::{
    address_of, aligned, far_address_of, is_allowed, read_reg, rhs_word, takes, write_reg,
};
use crate::start::Start;
use alpha_cfg::{Code, Kind, Outcome, Step};
use alpha_words::{Insn, Reg, Rhs};
use std::alloc::{AllocError, Global};
use std::marker::Model;
use word_ops::apply;

/// A machine state in an arena of 8,194 quadwords from address 65,536 on, and the place of its
/// region. From quadword number `end` on all words are 0: nothing was written there, and no store
/// is allowed there.
#[derive(Drop)]
pub struct Agent {
    index: u32,
    regs: [u64; 31],
    words: Vec<u64>,
    end: usize,
    reads: [(u64, u64); 2],
    writes: [(u64, u64); 2],
    region_at: u64,
    region: u64,
}

impl Model for Agent {
    ghost use Rattle.reference_machine.specs.Agents.{AgentView, agent_view_code};

    ghost Value = { AgentView };

    ghost coded = { agent_view_code };

    ghost use Rattle.reference_machine.specs.Inside.Fields.{agent_view, IsSound};

    ghost view = { agent_view };

    ghost invariant = { IsSound };
}

impl Agent {
    /// Reserves the arena. All words are 0, the region is empty, and no access is allowed. Errors:
    /// out of memory.
    pub fn new(alloc: Global) -> Result<Agent, AllocError>
        ensures { IfOk result agents.IsFresh }
    {
        let words = vec![in alloc; 0; QUADWORDS]?;
        Ok(Agent {
            index: 0,
            regs: [0; 31],
            words,
            end: 0,
            reads: [(ARENA, 0); 2],
            writes: [(ARENA, 0); 2],
            region_at: ARENA,
            region: 0,
        })
    }

    /// Resets the agent to `start`, whose parts must be in the arena. The bytes of `start` are in
    /// the quadwords from its address on, little-endian. Every other quadword and register is 0,
    /// and so is the index. Nothing of an earlier run is left.
    pub fn load(&mut self, start: Start)
        requires { starts.Fits ARENA (start_view start) }
        ensures { self.new ≡ starts.agent_at_start ARENA (start_view start.entry) }
    {
        let place = ((start.at - ARENA) / 8) as usize;
        self.index = 0;
        self.regs = [0; 31];
        self.regs[16] = start.r16;
        self.regs[17] = start.r17;
        self.regs[18] = start.r18;
        refill(&mut self.words, self.end, place, start.bytes);
        self.end = reach(place + start.bytes.len().div_ceil(8), &start.writes);
        self.reads = start.reads;
        self.writes = start.writes;
        self.region_at = start.at;
        self.region = start.region;
    }

    /// Returns the word of a register.
    #[inline(always)]
    pub fn reg(&self, reg: Reg) -> u64
        ensures { result ≡ read_reg self.now.state.regs reg }
    {
        read_reg(&self.regs, reg)
    }

    /// Returns the word of a second operand.
    #[inline(always)]
    fn rhs(&self, rhs: &Rhs) -> u64
        ensures { result ≡ machine.rhs_word self.now.state.regs rhs.now }
    {
        rhs_word(&self.regs, rhs)
    }

    /// Returns the sum of register `rb` and the displacement `disp` in bytes, modulo 2^64.
    #[inline(always)]
    pub fn address(&self, rb: Reg, disp: i16) -> u64
        ensures { result ≡ machine.address_of self.now.state.regs rb disp }
    {
        address_of(&self.regs, rb, disp)
    }

    /// Returns the sum of a register and 65,536 times a displacement, modulo 2^64.
    fn far_address(&self, rb: Reg, disp: i16) -> u64
        ensures { result ≡ machine.address_of self.now.state.regs rb (disp *ℤ pos 65536) }
    {
        far_address_of(&self.regs, rb, disp)
    }

    /// Returns the word at an address, or None if the address is not readable.
    #[inline(always)]
    fn word_at(&self, addr: u64) -> Option<u64>
        ensures { result ≡ (if allowed self.now.state.rights.reads addr
            then Some (memory.read self.now.state.memory addr) else None) }
    {
        let place = place_of(&self.reads, addr)?;
        Some(self.words[place])
    }

    /// Checks whether the address is writable.
    #[inline(always)]
    fn may_store(&self, addr: u64) -> bool
        ensures { result ≡ allowed self.now.state.rights.writes addr }
    {
        is_allowed(&self.writes, addr)
    }

    /// Writes a register and goes on to the next instruction.
    #[inline(always)]
    fn set_reg(&mut self, reg: Reg, word: u64) -> Step
        requires { self.old.state.index < MAX_WORDS }
        ensures result { result ≡ Step.Moved }
        ensures value { self.new ≡ record self.old {
          state = record self.old.state {
            index = self.old.state.index + 1;
            regs = write_reg self.old.state.regs reg word;
          };
        } }
    {
        write_reg(&mut self.regs, reg, word);
        self.index += 1;
        Step::Moved
    }

    /// Stores a word and goes on to the next instruction.
    #[inline(always)]
    fn store(&mut self, addr: u64, word: u64) -> Step
        requires index { self.old.state.index < MAX_WORDS }
        requires allowed { allowed self.old.state.rights.writes addr ≡ true }
        ensures result { result ≡ Step.Moved }
        ensures value { self.new ≡ record self.old {
          state = record self.old.state {
            index = self.old.state.index + 1;
            memory = memory.write self.old.state.memory addr word;
          };
        } }
    {
        let _ = &self.words; // opens the invariant for the prover
        let place = ((addr - ARENA) / 8) as usize;
        self.words[place] = word;
        self.index += 1;
        Step::Moved
    }

    /// Loads the word at an address into a register and moves on, if the address is readable.
    #[inline(always)]
    fn load_word(&mut self, ra: Reg, addr: u64) -> Step
        requires { self.old.state.index < MAX_WORDS }
        ensures step { let s : machine.State = self.old.state in
            (result, self.new.state) ≡ machine.access_outcome Kind.Load
            (allowed s.rights.reads addr) addr s
            (record s {
              index = s.index + 1;
              regs = write_reg s.regs ra (memory.read s.memory addr);
            }) }
        ensures region { (self.new.region_at ≡ self.old.region_at)
            × (self.new.region ≡ self.old.region) }
        ensures near { self.new.state.index ≤ self.old.state.index + 1 }
    {
        let (index, kind) = (self.index, Kind::Load);
        match self.word_at(addr) {
            Some(word) => self.set_reg(ra, word),
            None => Step::Blocked { index, kind, addr },
        }
    }

    /// Stores the word of a register at an address and moves on, if the address is writable.
    #[inline(always)]
    fn store_word(&mut self, ra: Reg, addr: u64) -> Step
        requires { self.old.state.index < MAX_WORDS }
        ensures step { let s : machine.State = self.old.state in
            (result, self.new.state) ≡ machine.access_outcome Kind.Store
            (allowed s.rights.writes addr) addr s
            (record s {
              index = s.index + 1;
              memory = memory.write s.memory addr (read_reg s.regs ra);
            }) }
        ensures region { (self.new.region_at ≡ self.old.region_at)
            × (self.new.region ≡ self.old.region) }
        ensures near { self.new.state.index ≤ self.old.state.index + 1 }
    {
        let (index, kind) = (self.index, Kind::Store);
        let word = self.reg(ra);
        if self.may_store(addr) {
            self.store(addr, word)
        } else {
            Step::Blocked { index, kind, addr }
        }
    }

    /// Goes on to the instruction at the index.
    #[inline(always)]
    fn go_to(&mut self, index: u32) -> Step
        ensures result { result ≡ Step.Moved }
        ensures value { self.new
            ≡ record self.old { state = record self.old.state { index = index } } }
    {
        self.index = index;
        Step::Moved
    }

    /// Returns the index of the next instruction.
    #[inline(always)]
    pub fn index(&self) -> u32
        ensures { result ≡ self.now.state.index }
    {
        self.index
    }

    /// Makes one step and returns its result. A blocked step and a return change nothing. The index
    /// stays inside the code in any case.
    #[inline(always)]
    pub fn step(&mut self, code: &Code) -> Step
        requires { self.old.state.index < length code.now }
        ensures step { (result, self.new.state) ≡ machine.step_of code.now self.old.state }
        ensures region { (self.new.region_at ≡ self.old.region_at)
            × (self.new.region ≡ self.old.region) }
        ensures within { self.new.state.index < length code.now }
    {
        let index = self.index();
        let insn = code.insn(index);
        match insn {
            Insn::Lda { ra, rb, disp } => {
                let addr = self.address(rb, disp);
                self.set_reg(ra, addr)
            }
            Insn::Ldq { ra, rb, disp } => {
                let addr = self.address(rb, disp);
                self.load_word(ra, addr)
            }
            Insn::Ldah { ra, rb, disp } => {
                let addr = self.far_address(rb, disp);
                self.set_reg(ra, addr)
            }
            Insn::LdqU { ra, rb, disp } => {
                let addr = aligned(self.address(rb, disp));
                self.load_word(ra, addr)
            }
            Insn::Stq { ra, rb, disp } => {
                let addr = self.address(rb, disp);
                self.store_word(ra, addr)
            }
            Insn::Oper { op, ra, rhs, rc } => {
                let word = apply(op, self.reg(ra), self.rhs(&rhs));
                self.set_reg(rc, word)
            }
            Insn::Branch { cond, ra, .. } => {
                if takes(cond, self.reg(ra)) {
                    self.go_to(code.jump(index, &insn))
                } else {
                    self.go_to(code.next(index, &insn))
                }
            }
            Insn::Br { .. } => self.go_to(code.jump(index, &insn)),
            Insn::Ret => Step::Returned,
        }
    }

    /// Makes at most `budget` steps, counting a return, and returns how the run ended: `OutOfSteps`
    /// if it made all of them and none returned or was blocked. The index stays inside the code in
    /// any case, so the run can be continued.
    pub fn run(&mut self, code: &Code, budget: u64) -> Outcome
        requires { self.old.state.index < length code.now }
        ensures run { (result, self.new.state) ≡ machine.run_of code.now budget self.old.state }
        ensures region { (self.new.region_at ≡ self.old.region_at)
            × (self.new.region ≡ self.old.region) }
        ensures within { self.new.state.index < length code.now }
    {
        for _ in 0..budget {
            match self.step(code) {
                Step::Moved => {}
                Step::Returned => return Outcome::Returned(self.result()),
                Step::Blocked { index, kind, addr } => {
                    return Outcome::Blocked { index, kind, addr };
                }
            }
        }
        Outcome::OutOfSteps
    }

    /// Returns the word of register 0.
    #[inline(always)]
    pub fn result(&self) -> u64
        ensures { result ≡ slice_index self.now.state.regs 0 }
    {
        self.regs[0]
    }

    /// Returns the sum of the region's quadwords, modulo 2^64.
    pub fn sum(&self) -> u64
        ensures { result
            ≡ sum_of self.now.state.memory self.now.region_at self.now.region % 2 ^ 64 }
    {
        let mut total: u64 = 0;
        let first = ((self.region_at - ARENA) / 8) as usize;
        for i in 0..self.region as usize {
            total = total.wrapping_add(self.words[first + i]);
        }
        total
    }
}

/// Returns the number of the arena's word at an address, or None if the spans do not allow it.
#[inline(always)]
fn place_of(spans: &[(u64, u64)], addr: u64) -> Option<usize>
    requires { agents.AreInArena ARENA spans.now }
    ensures { agents.PlaceIs ARENA spans.now addr result }
{
    if is_allowed(spans, addr) {
        Some(((addr - ARENA) / 8) as usize)
    } else {
        None
    }
}
