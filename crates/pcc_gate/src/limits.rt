//! The limits that the checker adds to those of the layers below.

/// The greatest weight (unshared size) of a proof.
pub const MAX_WEIGHT: u32 = 1_048_576;
