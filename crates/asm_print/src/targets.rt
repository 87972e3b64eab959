//! The indices that branches go to.

ghost use Rattle.std.specs.Prelude.{◌≡◌, ◌≤◌, ◌<◌, ◌||◌, ℕ, length, slice_index_or, false, IfOk};
ghost use Rattle.alpha_words.specs.Lawful.{target_of};
ghost use Rattle.alpha_cfg.specs.declared.code.TheConstants.{MAX_WORDS};
ghost use Rattle.alpha_cfg.specs.Flow.{InsideOf, IsInside, jump_of};
ghost use Rattle.asm_print.specs.Targets.{goes_to, is_target};

use alpha_words::{Insn, target};
use std::alloc::{AllocError, Global};

/// Sets the flag of the index that the instruction branches to.
fn mark(flags: &mut [bool], i: u32, insn: Insn)
    requires few { length flags.old ≤ MAX_WORDS }
    requires inside { InsideOf (length flags.old) (target_of i insn) }
    ensures { (j : ℕ) → slice_index_or flags.new j false
        ≡ (slice_index_or flags.old j false || goes_to j (jump_of i insn)) }
{
    match target(i, insn) {
        Some(at) => flags[at as usize] = true,
        None => {}
    }
}

/// Returns a flag for each index, set if some instruction branches to it. Errors: out of memory.
pub fn targets(alloc: Global, insns: &[Insn]) -> Result<Vec<bool>, AllocError>
    requires short { length insns.now ≤ MAX_WORDS }
    requires inside { (i : ℕ) → IsInside insns.now i }
    ensures length { IfOk result (λ v. length v.items ≡ length insns.now) }
    ensures exact { IfOk result (λ v.
        (j : ℕ) → slice_index_or v.items j false ≡ is_target insns.now j) }
{
    let mut flags = vec![in alloc; false; insns.len()]?;
    for i in 0..insns.len() {
        mark(&mut flags, i as u32, insns[i]);
    }
    Ok(flags)
}
