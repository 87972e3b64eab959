//! The limits of a policy's formulas.

/// The maximum height of a formula of a policy.
pub const MAX_FORM_HEIGHT: u32 = 4_095;

/// The maximum length of a line of a policy file, in bytes, without its LF and a CR before that.
pub const MAX_FORM_LINE: usize = 4_096;
