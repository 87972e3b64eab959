//! The limit on words that are shown with their sign.

/// The least word that is shown as a number below 0 too: 2^64 - 32,768, the least that `lda` gives.
pub const LEAST_NEGATIVE: u64 = 18_446_744_073_709_518_848;
