//! Upgrades a container of version 1 to version 2, with its code, invariants and proof.
//!
//! The layer above uses that `upgraded` returns exactly what `specs/Upgrading` says, or the first
//! error in its order. By `laws` the result is a container of the given code, invariants and proof
//! for the policy of the first container, and it is accepted if the first is.
//!
//! Two theorems on versions are why. Profile 2 decodes each instruction word of profile 1 to the
//! instruction that profile 1 gives, so equal bytes are equal code (`profile_laws`). Whatever
//! checks over a signature of word arithmetic checks over each longer one, with an equal weight by
//! the parameters of both (`longer_laws`).
//!
//! The format is that of `proof_container`.
#![tactic(auto)]

mod fault;
mod limits;
mod theorems;
mod upgrading;

pub use fault::{UpgradeFault, UpgradeFlaw};
pub use limits::GROWTH;
pub use theorems::{laws, longer_laws, profile_laws};
pub use upgrading::upgraded;
