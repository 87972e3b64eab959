//! Why goals aren't listed.

use hereditary_subst::Exhausted;
use pcc_gate::Refusal;
use thiserror::Error;

/// Why the goals of a container's bytes aren't listed.
#[derive(Clone, Copy, Debug, PartialEq, Eq, Error)]
pub enum GoalsFault {
    /// A check before the proof fails.
    #[error("refused: {0}")]
    Refused(Refusal),
    /// There was no memory; this says nothing about the bytes.
    #[error("out of memory")]
    Memory,
    /// The results cached would be more than the limits; this says nothing about the bytes.
    #[error("more results would be cached than the limit allows")]
    Results,
}
