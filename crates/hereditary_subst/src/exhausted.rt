//! The resource that a call ran out of.

ghost use Rattle.std.specs.Prelude.{◌≡◌};
ghost use Rattle.hereditary_subst.specs.declared.exhausted.Exhausted.TheVariants.{Results};

use std::alloc::{AllocError, AllocFailed};

/// The resource that a caching call ran out of. It says nothing about the call's arguments.
#[derive(Clone, Copy, Debug, PartialEq, Eq)]
pub enum Exhausted {
    /// The call ran out of memory.
    Memory,
    /// The call would have cached more results than the memo's limit allows.
    Results,
}

impl From<AllocError> for Exhausted {
    ghost use Rattle.hereditary_subst.specs.declared.exhausted.Exhausted.TheVariants.{Memory};

    ghost from_gives = { λ _ e. e ≡ Memory };

    fn from(_fault: AllocError) -> Exhausted {
        Exhausted::Memory
    }
}

impl<T: Drop> From<AllocFailed<T>> for Exhausted {
    ghost use Rattle.hereditary_subst.specs.declared.exhausted.Exhausted.TheVariants.{Memory};

    ghost from_gives = { λ _ e. e ≡ Memory };

    fn from(_fault: AllocFailed<T>) -> Exhausted {
        Exhausted::Memory
    }
}

impl Exhausted {
    /// Returns the error of a call that had no limit, which can have run out of memory alone. There
    /// is no other way from this type to `AllocError`, so no call merges the two.
    pub fn memory(self) -> AllocError
        requires { self ≡ Results → ⊥ }
    {
        AllocError
    }
}
