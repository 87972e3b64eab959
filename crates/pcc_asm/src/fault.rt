//! Errors of assembling a source.

ghost use Rattle.std.specs.Prelude.{◌≡◌, ◌≤◌, length};
ghost use Rattle.pcc_asm.specs.Names.{asm_flaw_line, asm_flaw_name};

use alpha_words::BadWord;
use std::alloc::{AllocError, AllocFailed};
use thiserror::Error;

/// The first error of a source, with the number of its line, from 1.
#[derive(Clone, Copy, Debug, PartialEq, Eq, Error)]
pub enum AsmFlaw {
    /// The first line that branches to an undefined label.
    #[error("in line {0}, a label that stands nowhere")]
    NoLabel(u32),
    /// The first line whose instruction the profile refuses, and why; each label is defined.
    #[error("in line {0}, {1}")]
    Word(u32, BadWord),
    /// The first line that branches outside the code, if the profile has each instruction.
    #[error("in line {0}, a branch outside the code")]
    Target(u32),
    /// The line of the last instruction, if control can flow past it and no branch leads outside.
    #[error("in line {0}, a last instruction after which the code goes on")]
    FallsOff(u32),
}

/// The maximum length of a kind's name, in bytes.
pub const MAX_KIND: usize = 12;

impl AsmFlaw {
    /// Returns the number of the wrong line, from 1.
    pub fn line(self) -> u32
        ensures exact { result ≡ asm_flaw_line self }
    {
        match self {
            AsmFlaw::NoLabel(line) => line,
            AsmFlaw::Word(line, _) => line,
            AsmFlaw::Target(line) => line,
            AsmFlaw::FallsOff(line) => line,
        }
    }

    /// Returns the kind's name, of at most `MAX_KIND` bytes, as the printed line of the error shows
    /// it. For a refused word it is the name of the reason.
    pub fn name(self) -> &'static str
        ensures exact { result.now ≡ asm_flaw_name self }
        ensures short { length result.now ≤ MAX_KIND }
    {
        match self {
            AsmFlaw::NoLabel(_) => "NoLabel",
            AsmFlaw::Word(_, bad) => bad.name(),
            AsmFlaw::Target(_) => "Target",
            AsmFlaw::FallsOff(_) => "FallsOff",
        }
    }
}

/// Why a source couldn't be assembled.
#[derive(Clone, Copy, Debug, PartialEq, Eq, Error)]
pub enum AsmFault {
    /// The source isn't well-formed code.
    #[error("{0}")]
    At(AsmFlaw),
    /// Out of memory; this says nothing about the source.
    #[error("out of memory")]
    Memory,
}

impl From<AsmFlaw> for AsmFault {
    ghost use Rattle.pcc_asm.specs.declared.fault.AsmFault.TheVariants.{At};

    ghost from_gives = { λ flaw e. e ≡ At flaw };

    fn from(flaw: AsmFlaw) -> AsmFault {
        AsmFault::At(flaw)
    }
}

impl From<AllocError> for AsmFault {
    ghost use Rattle.pcc_asm.specs.declared.fault.AsmFault.TheVariants.{Memory};

    ghost from_gives = { λ _ e. e ≡ Memory };

    fn from(_fault: AllocError) -> AsmFault {
        AsmFault::Memory
    }
}

impl<T: Drop> From<AllocFailed<T>> for AsmFault {
    ghost use Rattle.pcc_asm.specs.declared.fault.AsmFault.TheVariants.{Memory};

    ghost from_gives = { λ _ e. e ≡ Memory };

    fn from(_fault: AllocFailed<T>) -> AsmFault {
        AsmFault::Memory
    }
}
