//! Resolving of labels to displacements.

ghost use Rattle.std.specs.Prelude.{◌≡◌, ◌+◌, ◌<◌, ◌≤◌, ◌-ℤ◌, pos, length, IfOk};
ghost use Rattle.asm_text.specs.declared.limits.TheConstants.{MAX_INSNS};
ghost use Rattle.asm_text.specs.Views.{source_insn_view};
ghost use Rattle.pcc_asm.specs.Assembling.{resolved_insn, resolved_insns};
ghost use Rattle.pcc_asm.specs.Inside.Views.{insn_views, label_views, AreIndexed, IsStepAnswer};

use crate::fault::{AsmFault, AsmFlaw};
use crate::labels::Labels;
use alpha_words::Insn;
use asm_text::SrcInsn;
use std::alloc::Global;

/// Returns the displacement from the instruction after index `i` to the index `to`.
fn displacement(to: u32, i: u32) -> i32
    requires to { to ≤ MAX_INSNS }
    requires from { i < MAX_INSNS }
    ensures { result ≡ pos to -ℤ pos (i + 1) }
{
    to as i32 - (i as i32 + 1)
}

/// Returns the instruction at index `i`, or None if its label is undefined.
fn resolve(labels: &Labels<'_>, i: u32, insn: &SrcInsn) -> Option<Insn>
    requires labels { AreIndexed labels.now }
    requires index { i < MAX_INSNS }
    ensures { result ≡ resolved_insn (label_views labels.now.list.now) i
        (source_insn_view insn.now) }
{
    match insn {
        SrcInsn::Plain(insn) => Some(*insn),
        SrcInsn::Branch { cond, ra, label } => match labels.index(&label.text) {
            Some(to) => Some(Insn::Branch {
                cond: *cond,
                ra: *ra,
                disp: displacement(to, i),
            }),
            None => None,
        },
        SrcInsn::Br { label } => match labels.index(&label.text) {
            Some(to) => Some(Insn::Br {
                disp: displacement(to, i),
            }),
            None => None,
        },
    }
}

/// Resolves the labels of all instructions. Errors: the first line whose label is undefined, or out
/// of memory.
#[tactic(auto, using(crate::proofs::Walking::insn_first, crate::proofs::Walking::insn_more, crate::proofs::Walking::insn_none, crate::proofs::Walking::insn_past))]
pub fn resolve_all(
    alloc: Global,
    labels: &Labels<'_>,
    insns: &[(u32, SrcInsn)],
) -> Result<Vec<Insn>, AsmFault>
    requires labels { AreIndexed labels.now }
    requires short { length insns.now ≤ MAX_INSNS }
    ensures exact { IsStepAnswer (λ v. v.items)
        (resolved_insns (label_views labels.now.list.now) 0 (insn_views insns.now)) result }
    ensures count { IfOk result (λ v. length v.items ≡ length insns.now) }
{
    let mut code = Vec::new(alloc);
    for i in 0..insns.len() {
        let said = &insns[i];
        match resolve(labels, i as u32, &said.1) {
            Some(insn) => code.push(insn)?,
            None => return Err(AsmFault::At(AsmFlaw::NoLabel(said.0))),
        }
    }
    Ok(code)
}
