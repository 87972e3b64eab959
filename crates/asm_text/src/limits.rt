//! The limits of a source.

/// The maximum length of a source, in bytes.
pub const MAX_SOURCE: usize = 1_048_576;

/// The maximum length of a line, in bytes, without its LF and a CR before that.
pub const MAX_LINE: usize = 2_048;

/// The maximum number of instructions of a source.
pub const MAX_INSNS: usize = 1_024;

/// The maximum number of invariants of a source.
pub const MAX_INVS: usize = 256;
