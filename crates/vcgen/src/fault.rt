//! Why there is no verification condition.

ghost use Rattle.std.specs.Prelude.{◌≡◌};

use hereditary_subst::Exhausted;
use std::alloc::AllocError;
use thiserror::Error;

/// Why there is no verification condition.
#[derive(Clone, Copy, Debug, PartialEq, Eq, Error)]
pub enum VcFault {
    /// The total length of the paths between cut points, which is above `MAX_UNFOLDED`.
    #[error("the paths between invariants have {0} instructions in all, which is too many")]
    UnfoldLimit(u32),
    /// The call ran out of memory.
    #[error("out of memory")]
    Memory,
    /// The call would have cached more results of substitution than the limit allows.
    #[error("the call would cache too many results")]
    Results,
}

impl From<AllocError> for VcFault {
    ghost use Rattle.vcgen.specs.declared.fault.VcFault.TheVariants.{Memory};

    ghost from_gives = { λ _ e. e ≡ Memory };

    fn from(_fault: AllocError) -> VcFault {
        VcFault::Memory
    }
}

impl From<Exhausted> for VcFault {
    ghost use Rattle.vcgen.specs.Answers.{shortage_of};

    ghost from_gives = { λ what e. e ≡ shortage_of what };

    fn from(what: Exhausted) -> VcFault {
        match what {
            Exhausted::Memory => VcFault::Memory,
            Exhausted::Results => VcFault::Results,
        }
    }
}
