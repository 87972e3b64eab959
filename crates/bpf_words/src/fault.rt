//! Why bytes aren't a program.

ghost use Rattle.std.specs.Prelude.{◌≡◌, ◌≤◌, length};
ghost use Rattle.bpf_words.specs.Names.{bpf_flaw_name, bpf_flaw_number};

use std::alloc::{AllocError, AllocFailed};
use thiserror::Error;

/// The maximal length in bytes of a kind's name.
pub const MAX_KIND: usize = 8;

/// The first thing that is wrong with bytes that aren't a program, with the length in bytes, the
/// number of instructions, or the index of an instruction.
#[derive(Clone, Copy, Debug, PartialEq, Eq, Error)]
pub enum BpfFlaw {
    /// The length in bytes is 0 or not a multiple of eight.
    #[error("the file has {0} bytes; it must have a multiple of 8, and at least 8")]
    Size(u64),
    /// There are more than `MAX_PROGRAM` instructions.
    #[error("the program has {0} instructions; at most 40 are supported")]
    Count(u64),
    /// No instruction of the subset has this code.
    #[error("instruction {0} has an unsupported opcode")]
    Opcode(u64),
    /// A load reads past the first `LOADABLE` bytes of the packet.
    #[error("instruction {0} loads bytes past the first 64 of the packet")]
    Offset(u64),
    /// A shift is by more than 31 bits.
    #[error("instruction {0} shifts by more than 31 bits")]
    Shift(u64),
    /// A jump leads past the last instruction.
    #[error("instruction {0} jumps past the end of the program")]
    Jump(u64),
    /// The last instruction isn't a return.
    #[error("instruction {0}, the last, isn't a return")]
    NoReturn(u64),
}

impl BpfFlaw {
    /// Returns the kind's name, of at most `MAX_KIND` bytes, as the line that reports the flaw
    /// shows it.
    pub fn name(self) -> &'static str
        ensures exact { result.now ≡ bpf_flaw_name self }
        ensures short { length result.now ≤ MAX_KIND }
    {
        match self {
            BpfFlaw::Size(_) => "Size",
            BpfFlaw::Count(_) => "Count",
            BpfFlaw::Opcode(_) => "Opcode",
            BpfFlaw::Offset(_) => "Offset",
            BpfFlaw::Shift(_) => "Shift",
            BpfFlaw::Jump(_) => "Jump",
            BpfFlaw::NoReturn(_) => "NoReturn",
        }
    }

    /// Returns the length, number of instructions or index that the flaw holds.
    pub fn number(self) -> u64
        ensures exact { result ≡ bpf_flaw_number self }
    {
        match self {
            BpfFlaw::Size(n) | BpfFlaw::Count(n) => n,
            BpfFlaw::Opcode(i) | BpfFlaw::Offset(i) | BpfFlaw::Shift(i) => i,
            BpfFlaw::Jump(i) | BpfFlaw::NoReturn(i) => i,
        }
    }
}

/// Why reading bytes gave no program.
#[derive(Clone, Copy, Debug, PartialEq, Eq, Error)]
pub enum BpfFault {
    /// The bytes aren't a program.
    #[error("{0}")]
    At(BpfFlaw),
    /// There was no memory for the program; this says nothing about the bytes.
    #[error("out of memory")]
    Memory,
}

impl From<AllocError> for BpfFault {
    ghost use Rattle.bpf_words.specs.declared.fault.BpfFault.TheVariants.{Memory};

    ghost from_gives = { λ _ e. e ≡ Memory };

    fn from(_fault: AllocError) -> BpfFault {
        BpfFault::Memory
    }
}

impl<T: Drop> From<AllocFailed<T>> for BpfFault {
    ghost use Rattle.bpf_words.specs.declared.fault.BpfFault.TheVariants.{Memory};

    ghost from_gives = { λ _ e. e ≡ Memory };

    fn from(_fault: AllocFailed<T>) -> BpfFault {
        BpfFault::Memory
    }
}
