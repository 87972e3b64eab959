//! The largest numbers and texts that a command line of pcc_view may have.

/// The maximal length of a formula's text in bytes, as for a line of a policy's file.
pub const MAX_FORMULA: usize = 4_096;

/// The maximal packet number, counted from 0, that a command line may have.
pub const MAX_PACKET_NUMBER: u64 = 4_194_304;
