//! The largest numbers that a command line may have, and the versions of `asm`'s containers.

/// The maximal number of steps for each packet.
pub const MAX_STEPS: u64 = 1_000_000_000;

/// The maximal step bound of a container.
pub const MAX_BOUND: u64 = 1_000_000_000;

/// The version of `asm`'s container without a flag.
pub const PLAIN_VERSION: u32 = 1;

/// The version of `asm`'s container with `--v2`.
pub const PROFILE_TWO_VERSION: u32 = 2;

/// The version of `asm`'s container with `--bound`.
pub const BOUNDED_VERSION: u32 = 3;

/// The maximal number of loads of `demo`.
pub const MAX_DEMO: u64 = 400;
