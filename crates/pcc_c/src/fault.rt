//! Why a call has no result.

ghost use Rattle.std.specs.Prelude.{◌≡◌};

use crate::reason::Reason;
use std::alloc::{AllocError, AllocFailed};

/// Why a call has no result.
#[derive(Clone, Copy)]
pub enum Fault {
    /// There is none, for this reason.
    At(Reason),
    /// The call ran out of memory; that says nothing about its arguments.
    Memory,
    /// The call would have cached more results than the limit allows; that says nothing about its
    /// arguments.
    Results,
}

impl From<Reason> for Fault {
    ghost use Rattle.pcc_c.specs.declared.fault.Fault.TheVariants.{At};

    ghost from_gives = { λ why e. e ≡ At why };

    fn from(why: Reason) -> Fault {
        Fault::At(why)
    }
}

impl From<AllocError> for Fault {
    ghost use Rattle.pcc_c.specs.declared.fault.Fault.TheVariants.{Memory};

    ghost from_gives = { λ _ e. e ≡ Memory };

    fn from(_fault: AllocError) -> Fault {
        Fault::Memory
    }
}

impl<T: Drop> From<AllocFailed<T>> for Fault {
    ghost use Rattle.pcc_c.specs.declared.fault.Fault.TheVariants.{Memory};

    ghost from_gives = { λ _ e. e ≡ Memory };

    fn from(_fault: AllocFailed<T>) -> Fault {
        Fault::Memory
    }
}
