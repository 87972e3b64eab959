//! Why a container gets no proof.

ghost use Rattle.std.specs.Prelude.{◌≡◌, ◌≤◌, length};
ghost use Rattle.bounds_prover.specs.Names.{measure_name};

use pcc_gate::Refusal;
use thiserror::Error;

/// A measure of a proof, or of the container that has it, that has a limit; they are tested in this
/// order.
#[derive(Clone, Copy, Debug, PartialEq, Eq)]
pub enum Measure {
    /// The total weight of the proof and the lemmas' proofs.
    Weight,
    /// The proof's height.
    Height,
    /// How many entries the container has.
    Entries,
    /// How many bytes the container has.
    Bytes,
}

/// The most bytes that the name of a measure has.
pub const MAX_KIND: usize = 7;

impl Measure {
    /// Returns the measure's name, of at most `MAX_KIND` bytes, as a printed line shows it.
    pub fn name(self) -> &'static str
        ensures exact { result.now ≡ measure_name self }
        ensures short { length result.now ≤ MAX_KIND }
    {
        match self {
            Measure::Weight => "weight",
            Measure::Height => "height",
            Measure::Entries => "entries",
            Measure::Bytes => "bytes",
        }
    }
}

/// What keeps a container from getting a proof: the first that does.
#[derive(Clone, Copy, Debug, PartialEq, Eq, Error)]
pub enum ProveFlaw {
    /// An acceptance check before the proof fails, or, for the lemmas alone, 10 or 14: the first
    /// that fails.
    #[error("refused: {0}")]
    Refused(Refusal),
    /// The first part of the condition that isn't easy: 0 is the entry's part, k + 1 that of
    /// invariant k.
    #[error("part {0} of the condition isn't easy")]
    NotEasy(u32),
    /// The proof, or the container that has it, is past a limit: the first measure that is, and its
    /// value. A weight or a height past 4,294,967,295 is shown as that.
    #[error("too big: {0:?} {1}")]
    TooBig(Measure, u64),
}

/// Why a call makes no container with a proof.
#[derive(Clone, Copy, Debug, PartialEq, Eq, Error)]
pub enum ProveFault {
    /// The container gets no proof.
    #[error("{0}")]
    At(ProveFlaw),
    /// The call ran out of memory; that says nothing about the container.
    #[error("out of memory")]
    Memory,
    /// The call would have cached more results than the limit allows; that says nothing about the
    /// container.
    #[error("the search would cache too many results")]
    Results,
}
