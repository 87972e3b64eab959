//! Why a container isn't listed, and why it isn't shown as a source.

ghost use Rattle.std.specs.Prelude.{◌≡◌};
ghost use Rattle.view_container.specs.Plain.{no_source_text};

use lf_check::Exhausted;
use proof_container::Flaw;
use std::alloc::{AllocError, AllocFailed};
use thiserror::Error;

/// Why bytes have no listing.
#[derive(Clone, Copy, Debug, PartialEq, Eq, Error)]
pub enum ListFault {
    /// The input has so many bytes, more than `proof_container::MAX_BYTES`.
    #[error("the file has {0} bytes, more than a container may have")]
    TooLong(u64),
    /// The bytes aren't a container: the offset of the first fault, and what is wrong there.
    #[error("at offset {0}, {1}")]
    Malformed(u64, Flaw),
    /// There was no memory for the listing.
    #[error("out of memory")]
    Memory,
    /// The results cached would be more than `lf_check::MOST_RESULTS`.
    #[error("checking the invariants would cache more results than the limit")]
    Results,
}

impl From<AllocError> for ListFault {
    ghost use Rattle.view_container.specs.declared.stop.ListFault.TheVariants.{Memory};

    ghost from_gives = { λ _ e. e ≡ Memory };

    fn from(_fault: AllocError) -> ListFault {
        ListFault::Memory
    }
}

/// Why a container is shown as comments and not as a source: the first of these reasons that holds.
#[derive(Clone, Copy)]
pub enum NoSource {
    /// The words aren't code.
    NotCode,
    /// The term of a root is too high.
    TooHigh,
    /// An invariant isn't a formula of the version's signature.
    NotForm,
    /// An invariant's text is too long for a line.
    LongInv,
    /// The text is too long for a source.
    LongText,
}

impl NoSource {
    /// Returns the reason as text, as the last line of a listing prints it.
    pub fn text(self) -> &'static str
        ensures { result.now ≡ no_source_text self }
    {
        match self {
            NoSource::NotCode => "this is no source: the words are no code",
            NoSource::TooHigh => "this is no source: a term is too high",
            NoSource::NotForm => "this is no source: an invariant is no formula",
            NoSource::LongInv => "this is no source: an invariant is too long",
            NoSource::LongText => "this is no source: the text is too long",
        }
    }
}

/// Why a container isn't shown as a source, or why that isn't known.
#[derive(Clone, Copy)]
pub enum Stop {
    /// The container isn't a source, for this reason.
    Not(NoSource),
    /// There was no memory.
    Memory,
    /// The results cached would be more than the limit.
    Results,
}

impl From<AllocError> for Stop {
    ghost use Rattle.view_container.specs.declared.stop.Stop.TheVariants.{Memory};

    ghost from_gives = { λ _ e. e ≡ Memory };

    fn from(_fault: AllocError) -> Stop {
        Stop::Memory
    }
}

impl<T: Drop> From<AllocFailed<T>> for Stop {
    ghost use Rattle.view_container.specs.declared.stop.Stop.TheVariants.{Memory};

    ghost from_gives = { λ _ e. e ≡ Memory };

    fn from(_fault: AllocFailed<T>) -> Stop {
        Stop::Memory
    }
}

impl From<Exhausted> for Stop {
    ghost use Rattle.view_container.specs.Shortages.{stop_of};

    ghost from_gives = { λ what e. e ≡ stop_of what };

    fn from(what: Exhausted) -> Stop {
        match what {
            Exhausted::Memory => Stop::Memory,
            Exhausted::Results => Stop::Results,
        }
    }
}
