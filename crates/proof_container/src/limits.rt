//! The limits of a container's fields and size.

/// The greatest step bound.
pub const MAX_BOUND: u32 = 1_000_000_000;

/// The most instruction words that code may have.
pub const MAX_WORDS: u32 = 1_024;

/// The most entries that a container may have.
pub const MAX_ENTRIES: u32 = 262_144;

/// The most invariants that a container may have.
pub const MAX_INVS: u32 = 256;

/// The most lemmas that a container may have.
pub const MAX_LEMMAS: u32 = 256;

/// The most bytes of a file that are read as a container.
pub const MAX_BYTES: u32 = 4_194_304;
