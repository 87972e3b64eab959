//! Errors of bytes that are no container.

ghost use Rattle.std.specs.Prelude.{◌≡◌, ◌≤◌, length};
ghost use Rattle.proof_container.specs.Names.{flaw_name};

use std::alloc::{AllocError, AllocFailed};
use thiserror::Error;

/// What is wrong with the bytes at an offset.
#[derive(Clone, Copy, Debug, PartialEq, Eq, Error)]
pub enum Flaw {
    /// The bytes end within the field.
    #[error("a field is cut short")]
    Cut,
    /// The first four bytes aren't `PCCA`.
    #[error("the first four bytes aren't PCCA")]
    Magic,
    /// The version isn't 1 to 4.
    #[error("the version isn't 1 to 4")]
    Version,
    /// A count or the step bound is past its limits, or there is no code.
    #[error("a count or the step bound is past its limits, or there is no code")]
    Count,
    /// The kind of the entry is above 7, or above 8 in version 4.
    #[error("the entry is of no kind")]
    EntryKind,
    /// The entry that is named isn't an earlier one, or isn't there.
    #[error("the field doesn't name an earlier entry")]
    ForwardRef,
    /// The entry equals an earlier one.
    #[error("the entry equals an earlier one")]
    DoubleEntry,
    /// The entry isn't the one that the walk emits at its place.
    #[error("the entries aren't in the order of the walk from invariants, lemmas and proof")]
    Order,
    /// An abstraction is applied to an argument.
    #[error("an abstraction is applied to an argument")]
    LambdaHead,
    /// An invariant's index isn't above the one before, or is past the code.
    #[error("the invariant's index isn't above the one before, or is past the code")]
    InvOrder,
    /// Bytes follow the end of the container.
    #[error("bytes follow the end of the container")]
    Trailing,
}

/// The most bytes that the name of a kind has.
pub const MAX_KIND: usize = 11;

impl Flaw {
    /// Returns the error's name, of at most `MAX_KIND` bytes, as a `refused` line prints it.
    pub fn name(self) -> &'static str
        ensures exact { result.now ≡ flaw_name self }
        ensures short { length result.now ≤ MAX_KIND }
    {
        match self {
            Flaw::Cut => "Cut",
            Flaw::Magic => "Magic",
            Flaw::Version => "Version",
            Flaw::Count => "Count",
            Flaw::EntryKind => "EntryKind",
            Flaw::ForwardRef => "ForwardRef",
            Flaw::DoubleEntry => "DoubleEntry",
            Flaw::Order => "Order",
            Flaw::LambdaHead => "LambdaHead",
            Flaw::InvOrder => "InvOrder",
            Flaw::Trailing => "Trailing",
        }
    }
}

/// Why bytes are no container.
#[derive(Clone, Copy, Debug, PartialEq, Eq, Error)]
pub enum Malformed {
    /// The byte offset of the first error, and what is wrong there.
    #[error("at offset {0}, {1}")]
    At(u64, Flaw),
    /// The call ran out of memory.
    #[error("out of memory")]
    Memory,
}

impl From<AllocError> for Malformed {
    ghost use Rattle.proof_container.specs.declared.fault.Malformed.TheVariants.{Memory};

    ghost from_gives = { λ _ e. e ≡ Memory };

    fn from(_fault: AllocError) -> Malformed {
        Malformed::Memory
    }
}

impl<T: Drop> From<AllocFailed<T>> for Malformed {
    ghost use Rattle.proof_container.specs.declared.fault.Malformed.TheVariants.{Memory};

    ghost from_gives = { λ _ e. e ≡ Memory };

    fn from(_fault: AllocFailed<T>) -> Malformed {
        Malformed::Memory
    }
}
