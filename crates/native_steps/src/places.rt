//! Places of Alpha registers, and the instructions that bring words from there and back.

ghost use Rattle.std.specs.Prelude.{◌≡◌, ◌<◌, set, if◌then◌else◌};
ghost use Rattle.native_steps.specs.Places as places;
ghost use Rattle.native_steps.specs.Places.{ArePlaces};
ghost use Rattle.native_steps.specs.Sequences as sequences;

use alpha_words::{Reg, Rhs};
use std::marker::Model;
use x86_words::{X86Insn, X86Reg};

/// rax, in which results are computed.
pub(crate) fn rax() -> X86Reg
    ensures { result ≡ places.RAX }
{
    X86Reg::new(0)
}

/// rcx, the other temporary.
pub(crate) fn rcx() -> X86Reg
    ensures { result ≡ places.RCX }
{
    X86Reg::new(1)
}

/// r11, the area's address.
pub(crate) fn area() -> X86Reg
    ensures { result ≡ places.AREA }
{
    X86Reg::new(11)
}

/// Returns the distance in bytes from the area's address to the quadword of an Alpha register.
pub(crate) fn slot(r: Reg) -> i32
    ensures { result ≡ places.slot r }
{
    8 * r.number().cast_signed()
}

/// Checks whether a register of the processor may have an Alpha register.
pub fn is_free(reg: X86Reg) -> bool
    ensures { result ≡ places.is_free reg }
{
    !matches!(reg.number(), 0 | 1 | 4 | 8 | 11 | 12)
}

/// Checks whether a function leaves the register as it was.
pub fn is_callee_saved(reg: X86Reg) -> bool
    ensures { result ≡ places.is_callee_saved reg }
{
    matches!(reg.number(), 3..=5 | 12..=15)
}

/// Where an Alpha register is.
#[derive(Clone, Copy, Debug, PartialEq, Eq)]
pub enum Place {
    /// In this register of the processor.
    Register(X86Reg),
    /// In the quadword of the area that has the Alpha register's number.
    Slot,
    /// Nowhere: the code never reads it.
    Nowhere,
}

/// Checks whether the place is that register of the processor.
fn is_in(place: Place, reg: X86Reg) -> bool
    ensures { result ≡ places.is_in place reg }
{
    match place {
        Place::Register(own) => own.number() == reg.number(),
        _ => false,
    }
}

/// Where each of the Alpha registers 0 to 30 is.
#[derive(Drop)]
pub struct Places {
    regs: [Place; 31],
}

impl Model for Places {
    ghost use Rattle.std.specs.Prelude.{List};
    ghost use Rattle.native_steps.specs.declared.places.Place.{Place};
    ghost use Rattle.native_steps.specs.Places.{ArePlaces};

    ghost Value = { List Place };

    ghost view = { λ p. p.regs };

    ghost invariant = { λ p. ArePlaces p.regs };
}

impl Places {
    /// Creates places in which each Alpha register is nowhere.
    pub fn nowhere() -> Places
        ensures { result ≡ places.unplaced }
    {
        Places {
            regs: [Place::Nowhere; 31],
        }
    }

    /// Assigns an Alpha register to a register of the processor, and returns true. If that one isn't
    /// free, or has an Alpha register, returns false, and nothing changes.
    pub fn assign(&mut self, r: Reg, to: X86Reg) -> bool
        requires { r < 31 }
        ensures may { result ≡ places.may_have self.old to }
        ensures after { self.new
            ≡ (if result then set self.old r (Place.Register to) else self.old) }
    {
        if self.may_have(to) {
            self.regs[r.number() as usize] = Place::Register(to);
            true
        } else {
            false
        }
    }

    /// Assigns an Alpha register to its quadword of the area.
    pub fn assign_slot(&mut self, r: Reg)
        requires { r < 31 }
        ensures { self.new ≡ set self.old r Place.Slot }
    {
        self.regs[r.number() as usize] = Place::Slot;
    }

    /// Checks whether an Alpha register may be assigned to the register of the processor.
    fn may_have(&self, reg: X86Reg) -> bool
        ensures { result ≡ places.may_have self.now reg }
    {
        is_free(reg) && !self.is_taken(reg)
    }

    /// Checks whether the register of the processor has an Alpha register.
    fn is_taken(&self, reg: X86Reg) -> bool
        ensures { result ≡ places.is_taken self.now reg }
    {
        self.regs.iter().copied().any(|place| is_in(place, reg))
    }

    /// Proves that the places are lawful.
    pub fn laws(&self)
        ensures { ArePlaces self.now }
    {
        let _ = &self.regs; // opens the invariant for the prover
    }

    /// Returns the place of an Alpha register.
    pub fn place(&self, r: Reg) -> Place
        requires { r < 31 }
        ensures { result ≡ places.place_at self.now r }
    {
        self.regs[r.number() as usize]
    }

    /// Returns the instruction that brings the word of an Alpha register into a register of the
    /// processor.
    pub fn fetch(&self, r: Reg, to: X86Reg) -> X86Insn
        ensures { result ≡ sequences.fetch self.now r to }
    {
        if r.number() == 31 {
            return X86Insn::MovZero { to, imm: 0 };
        }
        match self.place(r) {
            Place::Register(from) => X86Insn::Mov { to, from },
            Place::Slot => X86Insn::Load {
                to,
                base: area(),
                disp: slot(r),
            },
            Place::Nowhere => X86Insn::MovZero { to, imm: 0 },
        }
    }

    /// Returns the instruction that brings a second operand into a register of the processor.
    pub(crate) fn fetch_rhs(&self, rhs: Rhs, to: X86Reg) -> X86Insn
        ensures { result ≡ sequences.fetch_rhs self.now rhs to }
    {
        match rhs {
            Rhs::Reg(r) => self.fetch(r, to),
            Rhs::Lit(n) => X86Insn::MovZero {
                to,
                imm: u32::from(n),
            },
        }
    }

    /// Returns the place of an operand; register 31 is nowhere.
    fn operand_place(&self, r: Reg) -> Place
        ensures { result ≡ places.operand_place self.now r }
    {
        if r.number() == 31 {
            return Place::Nowhere;
        }
        self.place(r)
    }

    /// Checks whether an Alpha register is in the register of the processor.
    pub(crate) fn is_at(&self, r: Reg, reg: X86Reg) -> bool
        ensures { result ≡ places.is_in (places.operand_place self.now r) reg }
    {
        is_in(self.operand_place(r), reg)
    }

    /// Returns the register in which the word of an Alpha register is read: its place, or `temp`.
    pub(crate) fn source(&self, r: Reg, temp: X86Reg) -> X86Reg
        ensures { result ≡ sequences.source self.now r temp }
    {
        match self.operand_place(r) {
            Place::Register(own) => own,
            Place::Slot | Place::Nowhere => temp,
        }
    }

    /// Returns the register for a result: the place of its Alpha register, or rax.
    pub(crate) fn target(&self, r: Reg) -> X86Reg
        ensures { result ≡ sequences.target self.now r }
    {
        self.source(r, rax())
    }

    /// Checks whether a second operand is in the register of the processor.
    pub(crate) fn has_second(&self, rhs: &Rhs, reg: X86Reg) -> bool
        ensures { result ≡ sequences.has_second self.now rhs.now reg }
    {
        match rhs {
            Rhs::Reg(r) => self.is_at(*r, reg),
            Rhs::Lit(_) => false,
        }
    }
}
