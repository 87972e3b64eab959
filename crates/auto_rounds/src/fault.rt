//! Why a round gives no answer.

use hereditary_subst::Exhausted;
use pcc_gate::Refusal;
use std::alloc::AllocError;

/// Why a round gives no answer.
#[derive(Clone, Copy, Debug, PartialEq, Eq)]
pub enum RoundFault {
    /// A check before the proof fails.
    Refused(Refusal),
    /// There was no memory.
    Memory,
    /// The round would take more steps than it may.
    Steps,
}

impl From<Exhausted> for RoundFault {
    fn from(fault: Exhausted) -> RoundFault {
        match fault {
            Exhausted::Memory => RoundFault::Memory,
            Exhausted::Results => RoundFault::Steps,
        }
    }
}

impl From<AllocError> for RoundFault {
    fn from(_fault: AllocError) -> RoundFault {
        RoundFault::Memory
    }
}
