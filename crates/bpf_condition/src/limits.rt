//! The bound on entries.

/// The maximal number of entries for the proof of the condition of a program's code, half of what a
/// container may have.
pub const MOST_ENTRIES: u32 = 131_072;
