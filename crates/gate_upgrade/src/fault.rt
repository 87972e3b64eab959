//! Why a container isn't upgraded.

ghost use Rattle.std.specs.Prelude.{◌≡◌};

use proof_container::Flaw;
use std::alloc::AllocError;
use thiserror::Error;

/// Why a container has no upgrade; the causes are tried in this order.
#[derive(Clone, Copy, Debug, PartialEq, Eq, Error)]
pub enum UpgradeFlaw {
    /// There are more bytes than `MAX_BYTES`: this many.
    #[error("the container has {0} bytes, which is too many")]
    TooLong(u64),
    /// The bytes encode no container: the byte offset of the first error, and what is wrong there.
    #[error("the bytes are no container: at offset {0}, {1}")]
    Malformed(u64, Flaw),
    /// The container is of a later version.
    #[error("of a later version")]
    Already,
    /// No built-in policy has the number that the container names.
    #[error("no built-in policy has the number {0} that the container names")]
    OtherPolicy(u32),
    /// The container of version 2 would have more bytes than `MAX_BYTES`: this many.
    #[error("the upgraded container would have {0} bytes, which is too many")]
    TooBig(u64),
}

/// Why a call makes no upgraded container.
#[derive(Clone, Copy, Debug, PartialEq, Eq, Error)]
pub enum UpgradeFault {
    /// The container has no upgrade.
    #[error("{0}")]
    At(UpgradeFlaw),
    /// The call ran out of memory; that says nothing about the bytes.
    #[error("out of memory")]
    Memory,
}

impl From<UpgradeFlaw> for UpgradeFault {
    ghost use Rattle.gate_upgrade.specs.declared.fault.UpgradeFault.TheVariants.{At};

    ghost from_gives = { λ flaw e. e ≡ At flaw };

    fn from(flaw: UpgradeFlaw) -> UpgradeFault {
        UpgradeFault::At(flaw)
    }
}

impl From<AllocError> for UpgradeFault {
    ghost use Rattle.gate_upgrade.specs.declared.fault.UpgradeFault.TheVariants.{Memory};

    ghost from_gives = { λ _ e. e ≡ Memory };

    fn from(_fault: AllocError) -> UpgradeFault {
        UpgradeFault::Memory
    }
}
