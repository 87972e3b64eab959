//! Where blocks begin, how far jumps lead, and the bytes.

ghost use Rattle.std.specs.Prelude.{◌≡◌, ℕ, ◌<◌, ◌^◌, ◌++◌, [], if◌then◌else◌, length};
ghost use Rattle.std.specs.Prelude.{replicate, slice_index, IfOk, OnOk};
ghost use Rattle.std.specs.List.{flat_map};
ghost use Rattle.x86_words.specs.Encoding.{bytes_of};
ghost use Rattle.native_code.specs.Heads as heads;
ghost use Rattle.native_code.specs.Layout as layouts;
ghost use Rattle.native_lives.specs.Certificates.{lean_of};
ghost use Rattle.native_translator.specs.Inside.Parts.{AreBlocks, FitsLayout};

use crate::heads::is_loop_head;
use crate::plan::Plan;
use alpha_cfg::Code;
use native_code::{NativeInsn, layout_laws};
use std::alloc::{AllocError, Global};
use x86_words::X86Insn;

/// Returns the length of native code in bytes.
fn total(insns: &[NativeInsn]) -> u32
    requires { layouts.code_length insns.now < 2 ^ 30 }
    ensures { result ≡ layouts.code_length insns.now }
{
    let mut sum = 0;
    for insn in insns {
        sum += insn.length() as u32;
    }
    sum
}

/// All blocks, one after the other, and where they begin.
#[derive(Drop)]
pub(crate) struct Layout {
    insns: Vec<NativeInsn>,
    starts: Vec<u32>,
}

/// Appends so many `nop`s. Errors: out of memory.
fn push_nops(out: &mut Vec<NativeInsn>, count: u32) -> Result<(), AllocError>
    ensures { OnOk result (out.new.items
        ≡ out.old.items ++ replicate count (NativeInsn.Plain X86Insn.Nop)) }
{
    for _ in 0..count {
        out.push(NativeInsn::Plain(X86Insn::Nop))?;
    }
    Ok(())
}

/// Checks whether an index, of the code or past it, is a loop head.
#[tactic(auto, using(crate::proofs::Translated::no_head_past))]
fn is_head(code: &Code, i: u32) -> bool
    ensures { result ≡ heads.is_loop_head code.now i }
{
    i < code.count() && is_loop_head(code, i)
}

/// Appends the padding from an offset to the block of an index. Errors: out of memory.
fn push_padding(out: &mut Vec<NativeInsn>, i: u32, at: u32) -> Result<(), AllocError>
    requires { at < 2 ^ 30 }
    ensures { OnOk result (out.new.items ≡ out.old.items ++ layouts.padding i at) }
{
    if at % 32 == 0 {
        return Ok(());
    }
    out.extend_from_slice(&[NativeInsn::Go(i)])?;
    push_nops(out, (32 - (at + 5) % 32) % 32)
}

/// Appends the same, if the index is a loop head. Errors: out of memory.
fn push_gap(out: &mut Vec<NativeInsn>, code: &Code, i: u32, at: u32) -> Result<(), AllocError>
    requires { at < 2 ^ 30 }
    ensures { OnOk result (out.new.items ≡ out.old.items
        ++ (if heads.is_loop_head code.now i then layouts.padding i at else [])) }
{
    if !is_head(code, i) {
        return Ok(());
    }
    push_padding(out, i, at)
}

/// Returns the padding from an offset to the block of an index, if that is a loop head. Errors: out of
/// memory.
fn padding(alloc: Global, code: &Code, i: u32, at: u32) -> Result<Vec<NativeInsn>, AllocError>
    requires { at < 2 ^ 30 }
    ensures { IfOk result (λ v. v.items
        ≡ (if heads.is_loop_head code.now i then layouts.padding i at else [])) }
{
    let mut out = Vec::new(alloc);
    push_gap(&mut out, code, i, at)?;
    Ok(out)
}

impl Plan {
    /// Returns the entry and all blocks. Errors: out of memory.
    pub(crate) fn layout(&self, alloc: Global, code: &Code) -> Result<Layout, AllocError>
        ensures { IfOk result (λ l. AreBlocks self.now.places
            (lean_of self.now.lives.forms.items self.now.lives.live.items)
            self.now.metered code.now l.insns.items l.starts.items) }
    {
        let count = code.count();
        layout_laws();
        self.places.laws();
        let mut insns = self.entry(alloc)?;
        let mut starts = Vec::new(alloc);
        let mut at = total(&insns);
        for i in 0..count + 1 {
            let gap = padding(alloc, code, i, at)?;
            at += total(&gap);
            insns.extend_from_slice(&gap)?;
            starts.push(at)?;
            let block = self.block(alloc, code, i)?;
            at += total(&block);
            insns.extend_from_slice(&block)?;
        }
        Ok(Layout { insns, starts })
    }
}

impl Layout {
    /// Returns the distance from an offset to a block.
    fn distance(&self, from: u32, block: u32) -> i32
        requires inside { block < length self.now.starts.items }
        requires near { slice_index self.now.starts.items block < 2 ^ 30 }
        requires small { from < 2 ^ 31 }
        ensures { result ≡ layouts.distance from (slice_index self.now.starts.items block) }
    {
        self.starts[block as usize].cast_signed() - from.cast_signed()
    }

    /// Returns the instruction that stands at an offset.
    fn placed(&self, at: u32, insn: NativeInsn) -> X86Insn
        requires leads { layouts.LeadsBelow (length self.now.starts.items) insn }
        requires near { (k : ℕ) → slice_index self.now.starts.items k < 2 ^ 30 }
        requires small { at < 2 ^ 30 }
        ensures { result ≡ layouts.placed (slice_index self.now.starts.items) at insn }
    {
        match insn {
            NativeInsn::Plain(own) => own,
            NativeInsn::Go(block) => X86Insn::Jump {
                disp: self.distance(at + 5, block),
            },
            NativeInsn::GoIf(cond, block) => X86Insn::JumpIf {
                cond,
                disp: self.distance(at + 6, block),
            },
        }
    }

    /// Returns the bytes of all blocks. Errors: out of memory.
    pub(crate) fn bytes(&self, alloc: Global) -> Result<Vec<u8>, AllocError>
        requires { FitsLayout self.now.insns.items self.now.starts.items }
        ensures { IfOk result (λ v. v.items ≡ flat_map bytes_of
            (layouts.placed_from (slice_index self.now.starts.items) 0 self.now.insns.items)) }
    {
        let mut out = Vec::new(alloc);
        for insn in &self.insns {
            let at = out.len() as u32;
            self.placed(at, *insn).encode(&mut out)?;
        }
        Ok(out)
    }
}
