//! What a search comes to.

ghost use Rattle.std.specs.Prelude.{◌≡◌};

use auto_rounds::RoundFault;
use std::alloc::AllocError;

/// What a search comes to.
#[derive(Drop)]
pub enum Outcome {
    /// The bytes of an accepted container, and the number of its invariants.
    Found(Vec<u8>, u64),
    /// The bytes of the container, without proof, with the invariants that the search kept.
    Unfound(Vec<u8>),
}

/// Why a search has no outcome.
#[derive(Clone, Copy, Debug, PartialEq, Eq)]
pub enum SearchFault {
    /// The bytes are no container.
    NoContainer,
    /// There was no memory, or the prover would cache more results than it may. That says nothing
    /// about the container.
    Memory,
}

impl From<AllocError> for SearchFault {
    ghost use Rattle.auto_search.specs.declared.outcome.SearchFault.TheVariants.{Memory};

    ghost from_gives = { λ _ e. e ≡ Memory };

    fn from(_fault: AllocError) -> SearchFault {
        SearchFault::Memory
    }
}

/// Why a search ends before it is done.
#[derive(Clone, Copy, Debug, PartialEq, Eq)]
pub(crate) enum Stop {
    /// No memory.
    Memory,
    /// The steps are spent, or the container gets past a limit.
    GivesUp,
    /// A check before the proof fails.
    Refused,
}

impl From<AllocError> for Stop {
    fn from(_fault: AllocError) -> Stop {
        Stop::Memory
    }
}

impl From<RoundFault> for Stop {
    fn from(fault: RoundFault) -> Stop {
        match fault {
            RoundFault::Memory => Stop::Memory,
            RoundFault::Refused(_) => Stop::Refused,
            RoundFault::Steps => Stop::GivesUp,
        }
    }
}
