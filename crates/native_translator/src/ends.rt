//! The entry and the ends of a call, as instructions that don't jump.

ghost use Rattle.std.specs.Prelude.{◌≡◌, ◌++◌, ◌∷◌, [], ◌<◌, OnOk};
ghost use Rattle.native_code.specs.Blocks as blocks;
ghost use Rattle.native_lives.specs.Certificates.{lean_of};
ghost use Rattle.native_steps.specs.Places as places;
ghost use Rattle.native_translator.specs.Inside.Parts as parts;

use crate::plan::Plan;
use alpha_words::Reg;
use native_steps::{Place, is_callee_saved};
use std::alloc::AllocError;
use x86_words::{X86Insn, X86Reg};

/// rax: the word that is returned.
fn rax() -> X86Reg
    ensures { result ≡ places.RAX }
{
    X86Reg::new(0)
}

/// rcx: the area's address at the call, then a temporary.
fn rcx() -> X86Reg
    ensures { result ≡ places.RCX }
{
    X86Reg::new(1)
}

/// rdx: the third argument, and why the call ended.
fn rdx() -> X86Reg
    ensures { result ≡ blocks.RDX }
{
    X86Reg::new(2)
}

/// rsi: the second argument.
fn rsi() -> X86Reg
    ensures { result ≡ blocks.RSI }
{
    X86Reg::new(6)
}

/// rdi: the first argument.
fn rdi() -> X86Reg
    ensures { result ≡ blocks.RDI }
{
    X86Reg::new(7)
}

/// r11: the area's address.
fn area() -> X86Reg
    ensures { result ≡ places.AREA }
{
    X86Reg::new(11)
}

/// Returns the distance in bytes from the area's address to the quadword of an Alpha register.
fn slot(r: Reg) -> i32
    ensures { result ≡ places.slot r }
{
    8 * r.number().cast_signed()
}

/// Appends the store that saves the register that is an Alpha register's place, if the caller wants
/// it back. Errors: out of memory.
fn push_save(out: &mut Vec<X86Insn>, place: Place, r: Reg) -> Result<(), AllocError>
    ensures { OnOk result (out.new.items ≡ out.old.items ++ blocks.save_place place r) }
{
    match place {
        Place::Register(from) => {
            if !is_callee_saved(from) {
                return Ok(());
            }
            let store = X86Insn::Store {
                base: area(),
                disp: slot(r),
                from,
            };
            out.extend_from_slice(&[store])
        }
        Place::Slot => Ok(()),
        Place::Nowhere => Ok(()),
    }
}

/// Appends the load that gives the register that is an Alpha register's place its word back, if the
/// caller wants it. Errors: out of memory.
fn push_restore(out: &mut Vec<X86Insn>, place: Place, r: Reg) -> Result<(), AllocError>
    ensures { OnOk result (out.new.items ≡ out.old.items ++ blocks.restore_place place r) }
{
    match place {
        Place::Register(to) => {
            if !is_callee_saved(to) {
                return Ok(());
            }
            let load = X86Insn::Load {
                to,
                base: area(),
                disp: slot(r),
            };
            out.extend_from_slice(&[load])
        }
        Place::Slot => Ok(()),
        Place::Nowhere => Ok(()),
    }
}

/// Checks whether an Alpha register has an argument when the code begins.
fn is_argument(r: Reg) -> bool
    ensures { result ≡ blocks.is_argument r }
{
    matches!(r.number(), 16 | 17 | 18)
}

/// Returns the moves that set the area's address, and keep two arguments in the temporaries.
fn first_moves() -> [X86Insn; 3]
    ensures { result ≡ X86Insn.Mov 11 1 ∷ X86Insn.Mov 0 7 ∷ X86Insn.Mov 1 6 ∷ [] }
{
    let address = X86Insn::Mov {
        to: area(),
        from: rcx(),
    };
    let first = X86Insn::Mov {
        to: rax(),
        from: rdi(),
    };
    let second = X86Insn::Mov {
        to: rcx(),
        from: rsi(),
    };
    [address, first, second]
}

impl Plan {
    /// Appends what saves the old word of an Alpha register's place, and brings a register's word there
    /// if the Alpha register is live. Errors: out of memory.
    fn push_enter(&self, out: &mut Vec<X86Insn>, r: Reg, from: X86Reg) -> Result<(), AllocError>
        requires { r < 31 }
        ensures { OnOk result (out.new.items
            ≡ out.old.items ++ blocks.enter self.now.places
            (lean_of self.now.lives.forms.items self.now.lives.live.items) r from) }
    {
        push_save(out, self.places.place(r), r)?;
        if self.lives.is_live(0, r.number()) {
            self.places.keep(out, r, from)?;
        }
        Ok(())
    }

    /// Appends what sets the place of a register without an argument to rax. Errors: out of memory.
    fn push_clear(&self, out: &mut Vec<X86Insn>, r: Reg) -> Result<(), AllocError>
        requires { r < 31 }
        ensures { OnOk result (out.new.items ≡ out.old.items ++ blocks.clear self.now.places
            (lean_of self.now.lives.forms.items self.now.lives.live.items) r) }
    {
        if is_argument(r) {
            return Ok(());
        }
        self.push_enter(out, r, rax())
    }

    /// Appends what brings the arguments into their places. Errors: out of memory.
    fn push_arguments(&self, out: &mut Vec<X86Insn>) -> Result<(), AllocError>
        ensures { OnOk result (out.new.items
            ≡ out.old.items ++ (X86Insn.Mov 11 1 ∷ X86Insn.Mov 0 7 ∷ X86Insn.Mov 1 6
            ∷ parts.arguments_code self.now.places
            (lean_of self.now.lives.forms.items self.now.lives.live.items))) }
    {
        out.extend_from_slice(&first_moves())?;
        self.push_enter(out, Reg::new(18), rdx())?;
        self.push_enter(out, Reg::new(16), rax())?;
        self.push_enter(out, Reg::new(17), rcx())?;
        Ok(())
    }

    /// Appends what sets the places of all registers without an argument to rax. Errors: out of
    /// memory.
    fn push_clears(&self, out: &mut Vec<X86Insn>) -> Result<(), AllocError>
        ensures { OnOk result (out.new.items
            ≡ out.old.items ++ blocks.for_registers (blocks.clear self.now.places
            (lean_of self.now.lives.forms.items self.now.lives.live.items)) 31) }
    {
        for r in 0..31 {
            self.push_clear(out, Reg::new(r))?;
        }
        Ok(())
    }

    /// Appends the entry. Errors: out of memory.
    pub(crate) fn push_entry(&self, out: &mut Vec<X86Insn>) -> Result<(), AllocError>
        ensures { OnOk result (out.new.items ≡ out.old.items ++ blocks.entry_code self.now.places
            (lean_of self.now.lives.forms.items self.now.lives.live.items)) }
    {
        self.places.laws();
        self.push_arguments(out)?;
        out.extend_from_slice(&[X86Insn::MovZero { to: rax(), imm: 0 }])?;
        self.push_clears(out)?;
        Ok(())
    }

    /// Appends what gives the caller its registers back. Errors: out of memory.
    fn push_restores(&self, out: &mut Vec<X86Insn>) -> Result<(), AllocError>
        ensures { OnOk result (out.new.items ≡ out.old.items ++ blocks.for_registers
            (λ r. blocks.restore_place (places.place_at self.now.places r) r) 31) }
    {
        for number in 0..31 {
            let r = Reg::new(number);
            push_restore(out, self.places.place(r), r)?;
        }
        Ok(())
    }

    /// Appends the end of a call: `why` is 0 if it returns, and 1 if it is out of fuel. Errors: out of
    /// memory.
    fn push_exit(&self, out: &mut Vec<X86Insn>, why: u32) -> Result<(), AllocError>
        ensures { OnOk result (out.new.items
            ≡ out.old.items ++ blocks.exit_code self.now.places why) }
    {
        self.places.laws();
        self.push_restores(out)?;
        let reason = X86Insn::MovZero {
            to: rdx(),
            imm: why,
        };
        out.extend_from_slice(&[reason, X86Insn::Ret])?;
        Ok(())
    }

    /// Appends a return. Errors: out of memory.
    pub(crate) fn push_return(&self, out: &mut Vec<X86Insn>) -> Result<(), AllocError>
        ensures { OnOk result (out.new.items
            ≡ out.old.items ++ blocks.return_code self.now.places) }
    {
        out.extend_from_slice(&[self.places.fetch(Reg::new(0), rax())])?;
        self.push_exit(out, 0)?;
        Ok(())
    }

    /// Appends the end of a call that is out of fuel. Errors: out of memory.
    pub(crate) fn push_spent(&self, out: &mut Vec<X86Insn>) -> Result<(), AllocError>
        ensures { OnOk result (out.new.items
            ≡ out.old.items ++ blocks.spent_code self.now.places) }
    {
        out.extend_from_slice(&[X86Insn::MovZero { to: rax(), imm: 0 }])?;
        self.push_exit(out, 1)?;
        Ok(())
    }
}
