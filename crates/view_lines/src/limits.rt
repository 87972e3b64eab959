//! The limit on what is shown.

/// The maximal length in bytes of a formula that is shown as text, and the maximal number of nodes
/// of its term.
pub const MAX_SHOWN: u32 = 2_040;
