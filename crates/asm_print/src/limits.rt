//! The limits of the texts of instructions, invariants, comments and hints.

/// The maximum length of an invariant's text, in bytes: with `.inv` and blanks before it, it fills
/// a line of a source.
pub const MAX_FORM_TEXT: usize = 2_040;

/// The maximum length of a comment or a note, in bytes: with any instruction before it, it fits in
/// a line of a source.
pub const MAX_COMMENT: usize = 512;

/// The maximum hint of a return; a hint has 14 bits.
pub const MAX_HINT: u32 = 16_383;

/// The hint of a return that a source doesn't write out.
pub const USUAL_HINT: u32 = 1;

/// The maximum length of an instruction's text, in bytes, reached by `ldq_u r16,-32768(r17)`.
pub const MAX_INSN_TEXT: usize = 21;
