//! Parse errors of source texts.

ghost use Rattle.std.specs.Prelude.{◌≡◌, ◌≤◌, length};
ghost use Rattle.asm_text.specs.Names.{line_flaw_name};

use std::alloc::{AllocError, AllocFailed};
use thiserror::Error;

/// What is wrong with a line.
#[derive(Clone, Copy, Debug, PartialEq, Eq, Error)]
pub enum LineFlaw {
    /// A byte that is neither a tab nor printable ASCII.
    #[error("a byte that is neither a tab nor printable ASCII")]
    Character,
    /// A first token that is no mnemonic.
    #[error("no mnemonic")]
    Mnemonic,
    /// Tokens that don't have the statement's form.
    #[error("operands in the wrong form for this statement")]
    Operand,
    /// A lexeme in a register's place that names none, or a register that the form doesn't allow
    /// there.
    #[error("not a register, or not the register required here")]
    Register,
    /// A number that is too small or too great.
    #[error("a number out of its range")]
    Range,
    /// An invariant that is no formula.
    #[error("an invariant that is no formula")]
    Formula,
    /// A label that an earlier line has too.
    #[error("a label that an earlier line has too")]
    DoubleLabel,
    /// A second invariant before one instruction.
    #[error("a second invariant before one instruction")]
    DoubleInvariant,
    /// An invariant that no instruction follows.
    #[error("an invariant that no instruction follows")]
    LooseInvariant,
    /// The line is too long, or there are too many instructions or invariants, or there is no
    /// instruction.
    #[error("line too long, too many instructions or invariants, or no instruction")]
    Length,
}

/// The maximum length of a kind's name, in bytes.
pub const MAX_KIND: usize = 15;

impl LineFlaw {
    /// Returns the kind's name, of at most `MAX_KIND` bytes, as the printed line of the error shows
    /// it.
    pub fn name(self) -> &'static str
        ensures exact { result.now ≡ line_flaw_name self }
        ensures short { length result.now ≤ MAX_KIND }
    {
        match self {
            LineFlaw::Character => "Character",
            LineFlaw::Mnemonic => "Mnemonic",
            LineFlaw::Operand => "Operand",
            LineFlaw::Register => "Register",
            LineFlaw::Range => "Range",
            LineFlaw::Formula => "Formula",
            LineFlaw::DoubleLabel => "DoubleLabel",
            LineFlaw::DoubleInvariant => "DoubleInvariant",
            LineFlaw::LooseInvariant => "LooseInvariant",
            LineFlaw::Length => "Length",
        }
    }
}

/// Why a text couldn't be parsed as a source.
#[derive(Clone, Copy, Debug, PartialEq, Eq, Error)]
pub enum LineFault {
    /// The number of the first wrong line, from 1, or 0 if there is no instruction, and what is
    /// wrong with it.
    #[error("in line {0}, {1}")]
    At(u32, LineFlaw),
    /// Out of memory; this says nothing about the text.
    #[error("out of memory")]
    Memory,
}

/// Why the parser rejects a line.
#[derive(Clone, Copy, Debug, PartialEq, Eq)]
pub enum Refused {
    /// What is wrong with the line.
    Flaw(LineFlaw),
    /// Out of memory.
    Memory,
}

impl From<LineFlaw> for Refused {
    ghost use Rattle.asm_text.specs.declared.fault.Refused.TheVariants.{Flaw};

    ghost from_gives = { λ flaw e. e ≡ Flaw flaw };

    fn from(flaw: LineFlaw) -> Refused {
        Refused::Flaw(flaw)
    }
}

impl From<AllocError> for Refused {
    ghost use Rattle.asm_text.specs.declared.fault.Refused.TheVariants.{Memory};

    ghost from_gives = { λ _ e. e ≡ Memory };

    fn from(_fault: AllocError) -> Refused {
        Refused::Memory
    }
}

impl<T: Drop> From<AllocFailed<T>> for Refused {
    ghost use Rattle.asm_text.specs.declared.fault.Refused.TheVariants.{Memory};

    ghost from_gives = { λ _ e. e ≡ Memory };

    fn from(_fault: AllocFailed<T>) -> Refused {
        Refused::Memory
    }
}
