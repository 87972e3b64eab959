//! The checking machine: states with one span of memory.

ghost use Rattle.std.specs.Prelude.{◌≡◌, ◌+◌, ◌*◌, ◌%◌, ◌^◌, ◌<◌, ◌≤◌, length, slice_index, if◌then◌else◌, Some, None, vec_len, IfSome};
ghost use Rattle.word_ops.specs.Memory as memory;
ghost use Rattle.word_ops.specs.Rights.{allowed};
ghost use Rattle.x86_words.specs.Codes.{scale_factor};
ghost use Rattle.x86_words.specs.Encoding.{length_of};
ghost use Rattle.x86_machine.specs.Flags as defined;
ghost use Rattle.x86_machine.specs.Machine as machine;
ghost use Rattle.x86_machine.specs.States as states;
ghost use Rattle.x86_machine.specs.Inside.Places as places;

use crate::flags::{Flags, alu_flags, alu_word, cond_holds, shift_word};
use crate::outcome::{X86Outcome, X86Step};
use std::marker::Model;
use x86_words::{AluOp, Scale, ShiftOp, X86Cond, X86Insn, X86Reg, decode};

/// A state whose memory is one span of quadwords, all of which may be loaded and stored.
#[derive(Drop)]
pub struct X86Machine {
    at: usize,
    regs: [u64; 16],
    flags: Option<Flags>,
    base: u64,
    words: Vec<u64>,
}

impl Model for X86Machine {
    ghost use Rattle.x86_machine.specs.Machine.{X86};
    ghost use Rattle.x86_machine.specs.States.{x86_code};

    ghost Value = { X86 };

    ghost coded = { x86_code };

    ghost use Rattle.x86_machine.specs.Inside.Fields.{machine_view, IsSpanMachine};

    ghost view = { machine_view };

    ghost invariant = { IsSpanMachine };
}

impl X86Machine {
    /// Creates a state at offset 0. `base` is a multiple of 8 and the address of the first of the
    /// quadwords `words`, which end at 2^64 at the latest.
    pub fn new(regs: [u64; 16], flags: Option<Flags>, base: u64, words: Vec<u64>) -> X86Machine
        requires aligned { base % 8 ≡ 0 }
        requires to { base + 8 * vec_len words ≤ 2 ^ 64 }
        ensures { result ≡ states.span_state 0 regs flags base words.items }
    {
        X86Machine {
            at: 0,
            regs,
            flags,
            base,
            words,
        }
    }

    /// Returns the offset into the code.
    pub fn at(&self) -> usize
        ensures { result ≡ self.now.at }
    {
        self.at
    }

    /// Returns the words of the registers.
    pub fn regs(&self) -> [u64; 16]
        ensures { result ≡ self.now.regs }
    {
        self.regs
    }

    /// Returns the flags, or None if they are undefined.
    pub fn flags(&self) -> Option<Flags>
        ensures { result ≡ self.now.flags }
    {
        self.flags
    }

    /// Returns the word at an address, or None if it may not be loaded.
    pub fn word_at(&self, addr: u64) -> Option<u64>
        ensures { result ≡ (if allowed self.now.rights.reads addr
            then Some (memory.read self.now.memory addr) else None) }
    {
        let place = place_of(self.base, self.words.len(), addr)?;
        Some(self.words[place])
    }

    /// Returns the word of a register.
    fn reg(&self, reg: X86Reg) -> u64
        ensures { result ≡ slice_index self.now.regs reg }
    {
        self.regs[reg.number() as usize]
    }

    /// Returns the sum of a register and a displacement, modulo 2^64.
    fn address(&self, base: X86Reg, disp: i32) -> u64
        ensures { result ≡ (slice_index self.now.regs base + machine.extended disp) % 2 ^ 64 }
    {
        self.reg(base).wrapping_add(extended(disp))
    }

    /// Returns the sum of a register and a scaled one, modulo 2^64.
    fn scaled(&self, base: X86Reg, index: X86Reg, scale: Scale) -> u64
        ensures { result ≡ (slice_index self.now.regs base
            + scale_factor scale * slice_index self.now.regs index) % 2 ^ 64 }
    {
        let scaled = scale.factor().wrapping_mul(self.reg(index));
        self.reg(base).wrapping_add(scaled)
    }

    /// Writes a register and goes on to the next instruction.
    fn put(&mut self, next: usize, to: X86Reg, word: u64) -> X86Step
        ensures { (result, self.new) ≡ machine.puts self.old next to word }
    {
        self.at = next;
        self.regs[to.number() as usize] = word;
        X86Step::Moved
    }

    /// Loads a quadword into a register, if it may be loaded.
    fn load(&mut self, next: usize, to: X86Reg, addr: u64) -> X86Step
        ensures { (result, self.new)
            ≡ machine.loads self.old addr (machine.puts self.old next to) }
    {
        match self.word_at(addr) {
            Some(word) => self.put(next, to, word),
            None => X86Step::Stuck,
        }
    }

    /// Stores a word, if the address may be stored.
    fn store(&mut self, next: usize, addr: u64, word: u64) -> X86Step
        ensures { (result, self.new) ≡ machine.stores self.old next addr word }
    {
        let Some(place) = place_of(self.base, self.words.len(), addr) else {
            return X86Step::Stuck;
        };
        self.at = next;
        self.words[place] = word;
        X86Step::Moved
    }

    /// Applies an operator to a register and a word.
    fn operate(&mut self, next: usize, op: AluOp, to: X86Reg, b: u64) -> X86Step
        ensures { (result, self.new) ≡ machine.operates self.old next op to b }
    {
        let a = self.reg(to);
        self.at = next;
        self.flags = Some(alu_flags(op, a, b));
        match op {
            AluOp::Cmp => {}
            _ => self.regs[to.number() as usize] = alu_word(op, a, b),
        }
        X86Step::Moved
    }

    /// Applies an operator to a register and a quadword, if that may be loaded.
    fn operate_at(&mut self, next: usize, op: AluOp, to: X86Reg, addr: u64) -> X86Step
        ensures { (result, self.new)
            ≡ machine.loads self.old addr (machine.operates self.old next op to) }
    {
        match self.word_at(addr) {
            Some(word) => self.operate(next, op, to, word),
            None => X86Step::Stuck,
        }
    }

    /// Shifts a register by a count.
    fn shift(&mut self, next: usize, op: ShiftOp, to: X86Reg, count: u64) -> X86Step
        ensures { (result, self.new) ≡ machine.shifts self.old next op to count }
    {
        let word = shift_word(op, self.reg(to), count);
        self.at = next;
        self.flags = None;
        self.regs[to.number() as usize] = word;
        X86Step::Moved
    }

    /// Sets the flags of the bitwise and of two words.
    fn test(&mut self, next: usize, a: u64, b: u64) -> X86Step
        ensures { (result, self.new) ≡ machine.tests self.old next a b }
    {
        self.at = next;
        self.flags = Some(alu_flags(AluOp::And, a, b));
        X86Step::Moved
    }

    /// Sets the low byte of a register to whether a condition holds, if the flags are defined.
    fn set(&mut self, next: usize, cond: X86Cond, to: X86Reg) -> X86Step
        ensures { (result, self.new) ≡ machine.x86_outcome self.old next (X86Insn.Set cond to) }
    {
        let Some(flags) = self.flags else {
            return X86Step::Stuck;
        };
        let word = self.reg(to);
        let low = if cond_holds(cond, flags) { 1 } else { 0 };
        self.put(next, to, word - word % 256 + low)
    }

    /// Goes on at an offset, if there is one.
    fn go_to(&mut self, offset: Option<usize>) -> X86Step
        ensures { (result, self.new) ≡ machine.jumps self.old offset }
    {
        let Some(offset) = offset else {
            return X86Step::Stuck;
        };
        self.at = offset;
        X86Step::Moved
    }

    /// Jumps, unless that leads to before the code.
    fn jump(&mut self, next: usize, disp: i32) -> X86Step
        requires { next < 2 ^ 63 }
        ensures { (result, self.new) ≡ machine.jumps self.old (machine.jump_offset next disp) }
    {
        self.go_to(jump_offset(next, disp))
    }

    /// Jumps if a condition holds, if the flags are defined.
    fn jump_if(&mut self, next: usize, cond: X86Cond, disp: i32) -> X86Step
        requires { next < 2 ^ 63 }
        ensures { (result, self.new)
            ≡ machine.x86_outcome self.old next (X86Insn.JumpIf cond disp) }
    {
        let Some(flags) = self.flags else {
            return X86Step::Stuck;
        };
        self.go_to(jump_if_offset(cond, flags, next, disp))
    }

    /// Does what the instruction does; `next` is the offset of the one after it.
    fn execute(&mut self, insn: &X86Insn, next: usize) -> X86Step
        requires { next < 2 ^ 63 }
        ensures { (result, self.new) ≡ machine.x86_outcome self.old next insn.now }
    {
        match *insn {
            X86Insn::Mov { to, from } => self.put(next, to, self.reg(from)),
            X86Insn::MovImm { to, imm } => self.put(next, to, extended(imm)),
            X86Insn::MovZero { to, imm } => self.put(next, to, u64::from(imm)),
            X86Insn::MovAbs { to, imm } => self.put(next, to, imm),
            X86Insn::Load { to, base, disp } => self.load(next, to, self.address(base, disp)),
            X86Insn::Store { base, disp, from } => {
                self.store(next, self.address(base, disp), self.reg(from))
            }
            X86Insn::Alu { op, to, from } => self.operate(next, op, to, self.reg(from)),
            X86Insn::AluImm { op, to, imm } => self.operate(next, op, to, extended(imm)),
            X86Insn::AluLoad { op, to, base, disp } => {
                self.operate_at(next, op, to, self.address(base, disp))
            }
            X86Insn::Lea { to, base, disp } => self.put(next, to, self.address(base, disp)),
            X86Insn::LeaScaled {
                to,
                base,
                index,
                scale,
            } => { self.put(next, to, self.scaled(base, index, scale)) }
            X86Insn::ShiftImm { op, to, count } => self.shift(next, op, to, u64::from(count)),
            X86Insn::ShiftCl { op, to } => self.shift(next, op, to, self.regs[1] % 64),
            X86Insn::Not { to } => self.put(next, to, u64::MAX - self.reg(to)),
            X86Insn::Test { left, right } => self.test(next, self.reg(left), self.reg(right)),
            X86Insn::TestImm { left, imm } => self.test(next, self.reg(left), extended(imm)),
            X86Insn::Set { cond, to } => self.set(next, cond, to),
            X86Insn::MovByte { to, from } => self.put(next, to, self.reg(from) % 0x100),
            X86Insn::MovTwo { to, from } => self.put(next, to, self.reg(from) % 0x1_0000),
            X86Insn::MovFour { to, from } => self.put(next, to, self.reg(from) % 0x1_0000_0000),
            X86Insn::JumpIf { cond, disp } => self.jump_if(next, cond, disp),
            X86Insn::Jump { disp } => self.jump(next, disp),
            X86Insn::Ret => X86Step::Left,
            X86Insn::Nop => self.go_to(Some(next)),
        }
    }

    /// Does what the instruction at the offset does.
    fn execute_at(&mut self, insn: &X86Insn) -> X86Step
        requires { self.old.at + length_of insn.now < 2 ^ 63 }
        ensures { (result, self.new) ≡ machine.x86_step_at (Some insn.now) self.old }
    {
        let next = self.at + insn.length();
        self.execute(insn, next)
    }

    /// Makes one step of the code and returns its result.
    pub fn step(&mut self, code: &[u8]) -> X86Step
        ensures { (result, self.new) ≡ machine.x86_step code.now self.old }
    {
        match fetch(code, self.at) {
            Some(insn) => self.execute_at(&insn),
            None => X86Step::Stuck,
        }
    }

    /// Makes at most `budget` steps, counting a return, and returns how the run ended.
    pub fn run(&mut self, code: &[u8], budget: u64) -> X86Outcome
        ensures { (result, self.new) ≡ machine.x86_run code.now budget self.old }
    {
        for _ in 0..budget {
            match self.step(code) {
                X86Step::Moved => {}
                X86Step::Left => return X86Outcome::Left,
                X86Step::Stuck => return X86Outcome::Stuck,
            }
        }
        X86Outcome::OutOfSteps
    }
}

/// Returns the instruction at an offset of the code, or None if there is none.
pub fn fetch(code: &[u8], at: usize) -> Option<X86Insn>
    ensures exact { result ≡ machine.fetched code.now at }
    ensures within { IfSome result (λ i. at + length_of i ≤ length code.now) }
{
    if at > code.len() {
        return None;
    }
    decode(&code[at..])
}

/// Returns the place of the quadword at an address, or None if the span of `count` quadwords from
/// `base` on has none there.
fn place_of(base: u64, count: usize, addr: u64) -> Option<usize>
    ensures { places.IsPlaceOf base count addr result }
{
    let offset = addr.checked_sub(base)?;
    if offset % 8 == 0 && offset / 8 < count as u64 {
        Some((offset / 8) as usize)
    } else {
        None
    }
}

/// Returns the number as a word: sign-extended.
fn extended(number: i32) -> u64
    ensures { result ≡ machine.extended number }
{
    i64::from(number).cast_unsigned()
}

/// Returns the offset that a jump leads to, or None if it is before the code.
fn jump_offset(next: usize, disp: i32) -> Option<usize>
    requires { next < 2 ^ 63 }
    ensures { result ≡ machine.jump_offset next disp }
{
    next.checked_add_signed(disp as isize)
}

/// Returns the offset that a conditional jump leads to, or None if it is before the code.
fn jump_if_offset(cond: X86Cond, flags: Flags, next: usize, disp: i32) -> Option<usize>
    requires { next < 2 ^ 63 }
    ensures { result ≡ (if defined.cond_holds cond flags
        then machine.jump_offset next disp else Some next) }
{
    if cond_holds(cond, flags) {
        jump_offset(next, disp)
    } else {
        Some(next)
    }
}
