//! Why a call of the checker returns no accepted code.

ghost use Rattle.std.specs.Prelude.{◌≡◌};

use crate::refusal::Refusal;
use lf_check::Exhausted;
use std::alloc::AllocError;
use thiserror::Error;

/// Why bytes aren't accepted.
#[derive(Clone, Copy, Debug, PartialEq, Eq, Error)]
pub enum GateFault {
    /// The bytes are refused.
    #[error("refused: {0}")]
    Refused(Refusal),
    /// The call ran out of memory. That says nothing about the bytes but that they aren't too many.
    #[error("out of memory")]
    Memory,
    /// The call would have cached more results than the limit allows. That says nothing about the
    /// bytes but that they aren't too many.
    #[error("the check would cache too many results")]
    Results,
}

impl From<AllocError> for GateFault {
    ghost use Rattle.pcc_gate.specs.declared.fault.GateFault.TheVariants.{Memory};

    ghost from_gives = { λ _ e. e ≡ Memory };

    fn from(_fault: AllocError) -> GateFault {
        GateFault::Memory
    }
}

impl From<Exhausted> for GateFault {
    ghost use Rattle.pcc_gate.specs.Shortages.{gate_shortage_of};

    ghost from_gives = { λ what e. e ≡ gate_shortage_of what };

    fn from(what: Exhausted) -> GateFault {
        match what {
            Exhausted::Memory => GateFault::Memory,
            Exhausted::Results => GateFault::Results,
        }
    }
}
