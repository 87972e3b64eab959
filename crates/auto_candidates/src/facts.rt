//! What code shows of itself: which registers it still uses, compares and steps, and its constants.

use crate::bits::{reads, writes};
use alpha_words::{Insn, Rhs, target};
use std::alloc::{AllocError, Global};
use word_ops::Op;

/// The most constants of the code that formulas have.
const MOST_CONSTANTS: usize = 10;

/// The constants below this are taken; greater ones bound nothing that a loop counts.
const CONSTANT_LIMIT: u64 = 4_294_967_296;

/// What the code shows of itself.
#[derive(Drop)]
pub struct Facts {
    // by index, the registers whose values may still be used
    pub(crate) lives: Vec<u32>,
    // the registers that are compared or stepped
    pub(crate) ordered: u32,
    // the registers that one of these is copied to
    copies: u32,
    // from the least
    pub(crate) constants: Vec<u64>,
}

/// The set at the index; none past the end.
fn set_at(sets: &[u32], index: u64) -> u32 {
    match usize::try_from(index) {
        Ok(index) => match sets.get(index) {
            Some(set) => *set,
            None => 0,
        },
        Err(_) => 0,
    }
}

/// The registers that are used after the instruction at the index.
fn used_after(lives: &[u32], index: u32, insn: &Insn) -> u32 {
    let next = match insn {
        Insn::Br { .. } | Insn::Ret => 0,
        _ => set_at(lives, u64::from(index) + 1),
    };
    let jump = match target(index, *insn) {
        Some(to) => match u64::try_from(to) {
            Ok(to) => set_at(lives, to),
            Err(_) => 0,
        },
        None => 0,
    };
    next | jump
}

/// The registers that are used at the index, where the instruction is.
fn used_at(lives: &[u32], index: usize, insn: &Insn) -> u32 {
    match u32::try_from(index) {
        Ok(index) => (used_after(lives, index, insn) & !writes(insn)) | reads(insn),
        Err(_) => 0,
    }
}

/// Finds again what is used at each index, from the last on, and returns whether any set changed.
fn spread(insns: &[Insn], lives: &mut [u32]) -> bool {
    let mut changed = false;
    let count = insns.len();
    for k in 0..count {
        let i = count - 1 - k;
        let new = used_at(lives, i, &insns[i]);
        if i < lives.len() && lives[i] != new {
            lives[i] = new;
            changed = true;
        }
    }
    changed
}

/// By index, the registers whose values may still be used.
fn lives_of(alloc: Global, insns: &[Insn]) -> Result<Vec<u32>, AllocError> {
    let mut lives = vec![in alloc; 0u32; insns.len()]?;
    for _round in 0..insns.len() {
        if !spread(insns, lives.as_mut_slice()) {
            return Ok(lives);
        }
    }
    Ok(lives)
}

/// Whether the operator compares words.
fn is_comparison(op: Op) -> bool {
    matches!(
        op,
        Op::Cmpeq | Op::Cmplt | Op::Cmple | Op::Cmpult | Op::Cmpule
    )
}

/// The registers that the instruction compares or steps.
fn ordered_by(insn: &Insn) -> u32 {
    match insn {
        Insn::Oper { op, .. } => {
            if is_comparison(*op) {
                reads(insn)
            } else {
                reads(insn) & writes(insn)
            }
        }
        Insn::Lda { .. } => reads(insn) & writes(insn),
        Insn::Branch { .. } => reads(insn),
        _ => 0,
    }
}

/// Whether the instruction copies a register, as `bis` and `lda` by 0 do.
fn is_copy(insn: &Insn) -> bool {
    match insn {
        Insn::Oper { op, .. } => matches!(op, Op::Bis),
        Insn::Lda { disp, .. } => *disp == 0,
        _ => false,
    }
}

/// The registers that the code copies one of these to.
fn copies_of(insns: &[Insn], ordered: u32) -> u32 {
    let mut copies = 0;
    for insn in insns {
        if is_copy(insn) && reads(insn) & (ordered | copies) != 0 {
            copies |= writes(insn);
        }
    }
    copies
}

/// The constant of the instruction.
fn constant_of(insn: &Insn) -> Option<u64> {
    match insn {
        Insn::Oper {
            rhs: Rhs::Lit(word),
            ..
        } => Some(u64::from(*word)),
        Insn::Lda { rb, disp, .. } => {
            if rb.number() == 31 {
                u64::try_from(*disp).ok()
            } else {
                None
            }
        }
        _ => None,
    }
}

/// Where the constant goes among those that are there; None if it is there.
fn place_of(constants: &[u64], word: u64) -> Option<usize> {
    for i in 0..constants.len() {
        if constants[i] == word {
            return None;
        }
        if constants[i] > word {
            return Some(i);
        }
    }
    Some(constants.len())
}

/// Adds the constant in its place, unless it is there, is great, or there are enough.
fn add_constant(constants: &mut Vec<u64>, word: u64) -> Result<(), AllocError> {
    if word >= CONSTANT_LIMIT || constants.len() >= MOST_CONSTANTS {
        return Ok(());
    }
    if let Some(place) = place_of(constants, word) {
        if place <= constants.len() {
            constants.insert(place, word)?;
        }
    }
    Ok(())
}

/// Finds what the code shows of itself.
///
/// Errors: out of memory.
pub fn facts_of(alloc: Global, insns: &[Insn]) -> Result<Facts, AllocError> {
    let lives = lives_of(alloc, insns)?;
    let mut ordered = 0;
    let mut constants = Vec::new(alloc);
    for word in [1, 2, 8] {
        add_constant(&mut constants, word)?;
    }
    for insn in insns {
        ordered |= ordered_by(insn);
        if let Some(word) = constant_of(insn) {
            if word > 0 {
                add_constant(&mut constants, word)?;
            }
        }
    }
    Ok(Facts {
        lives,
        ordered,
        copies: copies_of(insns, ordered),
        constants,
    })
}

impl Facts {
    /// Has registers compared too that one which is compared or stepped is copied to.
    pub fn widen(&mut self) {
        self.ordered |= self.copies;
    }

    /// Returns the registers whose values may still be used at the index.
    pub(crate) fn live_at(&self, index: u32) -> u32 {
        set_at(self.lives.as_slice(), u64::from(index))
    }
}
