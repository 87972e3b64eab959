//! The block of each index.

ghost use Rattle.std.specs.Prelude.{◌≡◌, ◌++◌, ◌<◌, ◌≤◌, length, slice_get, OnOk, IfOk, pos};
ghost use Rattle.alpha_cfg.specs.Actions.{action_of};
ghost use Rattle.native_code.specs.Blocks as blocks;
ghost use Rattle.native_lives.specs.Certificates.{lean_of};
ghost use Rattle.native_translator.specs.Inside.Parts as parts;

use crate::heads::is_loop_head;
use crate::plan::Plan;
use alpha_cfg::Code;
use alpha_words::Insn;
use native_code::{Form, NativeInsn};
use native_steps::branch_cond;
use std::alloc::{AllocError, Global};
use x86_words::{AluOp, X86Cond, X86Insn, X86Reg};

/// Appends instructions that don't jump. Errors: out of memory.
fn push_plain(out: &mut Vec<NativeInsn>, insns: &[X86Insn]) -> Result<(), AllocError>
    ensures { OnOk result (out.new.items ≡ out.old.items ++ blocks.plain insns.now) }
{
    for insn in insns {
        out.push(NativeInsn::Plain(*insn))?;
    }
    Ok(())
}

/// Returns the instruction that takes a unit of fuel. It leaves the carry if there was none.
fn take_fuel() -> X86Insn
    ensures { result ≡ X86Insn.AluImm AluOp.Sub 8 (pos 1) }
{
    X86Insn::AluImm {
        op: AluOp::Sub,
        to: X86Reg::new(8),
        imm: 1,
    }
}

/// Appends the jump of a branch, where the condition holds; nothing of another instruction. Errors:
/// out of memory.
fn push_joined(
    out: &mut Vec<NativeInsn>,
    code: &Code,
    i: u32,
    cond: X86Cond,
) -> Result<(), AllocError>
    requires { i < length code.now }
    ensures { OnOk result (out.new.items ≡ out.old.items
        ++ parts.joined_at cond i (slice_get code.now i)) }
{
    let insn = code.insn(i);
    match insn {
        Insn::Branch { .. } => {
            let go = NativeInsn::GoIf(cond, code.jump(i, &insn));
            out.extend_from_slice(&[go])
        }
        Insn::Br { .. } => {
            let go = NativeInsn::GoIf(cond, code.jump(i, &insn));
            out.extend_from_slice(&[go])
        }
        Insn::Lda { .. } | Insn::Ldah { .. } | Insn::Ldq { .. } | Insn::LdqU { .. } => Ok(()),
        Insn::Stq { .. } | Insn::Oper { .. } | Insn::Ret => Ok(()),
    }
}

impl Plan {
    /// Appends what takes a unit of fuel, if the index is a loop head and fuel is counted. Errors: out
    /// of memory.
    fn push_fuel(&self, out: &mut Vec<NativeInsn>, code: &Code, i: u32) -> Result<(), AllocError>
        requires { i < length code.now }
        ensures { OnOk result (out.new.items ≡ out.old.items
            ++ blocks.fuel_code self.now.places
            (lean_of self.now.lives.forms.items self.now.lives.live.items)
            self.now.metered code.now i) }
    {
        if !self.metered {
            return Ok(());
        }
        if !is_loop_head(code, i) {
            return Ok(());
        }
        let spent = NativeInsn::GoIf(X86Cond::Below, code.count());
        out.extend_from_slice(&[NativeInsn::Plain(take_fuel()), spent])
    }

    /// Appends the flags of a compare; nothing of another instruction. Errors: out of memory.
    fn push_compare(&self, out: &mut Vec<X86Insn>, insn: Insn) -> Result<(), AllocError>
        ensures { OnOk result (out.new.items ≡ out.old.items
            ++ blocks.compare_flags self.now.places (action_of insn)) }
    {
        match insn {
            Insn::Oper { ra, rhs, .. } => self.places.append_compare(out, ra, rhs),
            Insn::Lda { .. } | Insn::Ldah { .. } | Insn::Ldq { .. } | Insn::LdqU { .. } => Ok(()),
            Insn::Stq { .. } | Insn::Branch { .. } | Insn::Br { .. } | Insn::Ret => Ok(()),
        }
    }

    /// Appends the sequence of the instruction at an index, by its form. Errors: out of memory.
    fn push_sequence(
        &self,
        alloc: Global,
        out: &mut Vec<NativeInsn>,
        code: &Code,
        i: u32,
    ) -> Result<(), AllocError>
        requires { i < length code.now }
        ensures { OnOk result (out.new.items ≡ out.old.items
            ++ parts.sequence_at self.now.places
            (lean_of self.now.lives.forms.items self.now.lives.live.items)
            i (slice_get code.now i)) }
    {
        let insn = code.insn(i);
        let mut insns = Vec::new(alloc);
        match self.lives.form(i) {
            Form::Whole => self.places.append(&mut insns, insn)?,
            Form::Compare => self.push_compare(&mut insns, insn)?,
            Form::Dead | Form::Joined(_) | Form::Gone => {}
        }
        push_plain(out, &insns)
    }

    /// Appends a return. Errors: out of memory.
    fn push_plain_return(&self, alloc: Global, out: &mut Vec<NativeInsn>) -> Result<(), AllocError>
        ensures { OnOk result (out.new.items
            ≡ out.old.items ++ blocks.plain (blocks.return_code self.now.places)) }
    {
        let mut insns = Vec::new(alloc);
        self.push_return(&mut insns)?;
        push_plain(out, &insns)
    }

    /// Appends what follows the whole sequence of the instruction at an index: a jump, or a return.
    /// Errors: out of memory.
    fn push_whole_end(
        &self,
        alloc: Global,
        out: &mut Vec<NativeInsn>,
        code: &Code,
        i: u32,
    ) -> Result<(), AllocError>
        requires { i < length code.now }
        ensures { OnOk result (out.new.items ≡ out.old.items
            ++ parts.whole_end_at self.now.places i (slice_get code.now i)) }
    {
        let insn = code.insn(i);
        match insn {
            Insn::Branch { cond, .. } => {
                let go = NativeInsn::GoIf(branch_cond(cond), code.jump(i, &insn));
                out.extend_from_slice(&[go])
            }
            Insn::Br { .. } => {
                let go = NativeInsn::Go(code.jump(i, &insn));
                out.extend_from_slice(&[go])
            }
            Insn::Ret => self.push_plain_return(alloc, out),
            Insn::Lda { .. } | Insn::Ldah { .. } | Insn::Ldq { .. } | Insn::LdqU { .. } => Ok(()),
            Insn::Stq { .. } | Insn::Oper { .. } => Ok(()),
        }
    }

    /// Appends what follows the sequence in the block of an index, by its form. Errors: out of memory.
    fn push_end(
        &self,
        alloc: Global,
        out: &mut Vec<NativeInsn>,
        code: &Code,
        i: u32,
    ) -> Result<(), AllocError>
        requires { i < length code.now }
        ensures { OnOk result (out.new.items ≡ out.old.items
            ++ parts.end_at self.now.places
            (lean_of self.now.lives.forms.items self.now.lives.live.items)
            i (slice_get code.now i)) }
    {
        match self.lives.form(i) {
            Form::Whole => self.push_whole_end(alloc, out, code, i),
            Form::Joined(cond) => push_joined(out, code, i, cond),
            Form::Dead | Form::Compare | Form::Gone => Ok(()),
        }
    }

    /// Returns the block of an index of the code. Errors: out of memory.
    fn inner_block(&self, alloc: Global, code: &Code, i: u32) -> Result<Vec<NativeInsn>, AllocError>
        requires { i < length code.now }
        ensures { IfOk result (λ b. b.items
            ≡ blocks.block_at self.now.places
            (lean_of self.now.lives.forms.items self.now.lives.live.items)
            self.now.metered code.now i (slice_get code.now i)) }
    {
        let mut block = Vec::new(alloc);
        self.push_fuel(&mut block, code, i)?;
        self.push_sequence(alloc, &mut block, code, i)?;
        self.push_end(alloc, &mut block, code, i)?;
        Ok(block)
    }

    /// Returns the last block, which ends runs that are out of fuel. Errors: out of memory.
    fn last_block(&self, alloc: Global) -> Result<Vec<NativeInsn>, AllocError>
        ensures { IfOk result (λ b. b.items
            ≡ blocks.plain (blocks.spent_code self.now.places)) }
    {
        let mut insns = Vec::new(alloc);
        self.push_spent(&mut insns)?;
        let mut block = Vec::new(alloc);
        push_plain(&mut block, &insns)?;
        Ok(block)
    }

    /// Returns the block of an index, or the last block. Errors: out of memory.
    pub(crate) fn block(
        &self,
        alloc: Global,
        code: &Code,
        i: u32,
    ) -> Result<Vec<NativeInsn>, AllocError>
        requires { i ≤ length code.now }
        ensures { IfOk result (λ b. b.items
            ≡ blocks.block_at self.now.places
            (lean_of self.now.lives.forms.items self.now.lives.live.items)
            self.now.metered code.now i (slice_get code.now i)) }
    {
        if i < code.count() {
            self.inner_block(alloc, code, i)
        } else {
            self.last_block(alloc)
        }
    }

    /// Returns the entry. Errors: out of memory.
    pub(crate) fn entry(&self, alloc: Global) -> Result<Vec<NativeInsn>, AllocError>
        ensures { IfOk result (λ b. b.items
            ≡ blocks.plain (blocks.entry_code self.now.places
            (lean_of self.now.lives.forms.items self.now.lives.live.items))) }
    {
        let mut insns = Vec::new(alloc);
        self.push_entry(&mut insns)?;
        let mut block = Vec::new(alloc);
        push_plain(&mut block, &insns)?;
        Ok(block)
    }
}
