//! The two versions, and the difference in size between them.

/// The version that is upgraded: a number names the policy.
pub const OLD_VERSION: u32 = 1;

/// The version that it is upgraded to: a digest names the policy.
pub const NEW_VERSION: u32 = 2;

/// How many bytes a container of version 2 has more than one of version 1 with equal code,
/// invariants and proof: a digest of 32 bytes replaces a number of 4 bytes.
pub const GROWTH: u32 = 28;
