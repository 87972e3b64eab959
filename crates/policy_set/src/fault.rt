//! Errors of reading a policy file.

ghost use Rattle.std.specs.Prelude.{◌≡◌};

use formula_text::TextFlaw;
use thiserror::Error;

/// The first error in a file that is no policy.
#[derive(Clone, Copy, Debug, PartialEq, Eq, Error)]
pub enum PolicyFlaw {
    /// The number of lines of the file, if it isn't two; the empty file has 0.
    #[error("the policy file has {0} lines; it must have two")]
    Lines(usize),
    /// The number of the line, 1 or 2, that has more than `MAX_FORM_LINE` bytes.
    #[error("line {0} has more than 4,096 bytes")]
    Length(u32),
    /// The number of the line, 1 or 2, that is no formula; the position in the line of its first
    /// wrong token, in bytes from 0, or of its end; and what is wrong there.
    #[error("line {0}: at byte {1}: {2}")]
    Form(u32, usize, TextFlaw),
}

/// Why a file couldn't be read as a policy.
#[derive(Clone, Copy, Debug, PartialEq, Eq, Error)]
pub enum PolicyFault {
    /// The file is no policy.
    #[error("{0}")]
    At(PolicyFlaw),
    /// Out of memory; this says nothing about the file.
    #[error("out of memory")]
    Memory,
}

impl From<PolicyFlaw> for PolicyFault {
    ghost use Rattle.policy_set.specs.declared.fault.PolicyFault.TheVariants.{At};

    ghost from_gives = { λ flaw e. e ≡ At flaw };

    fn from(flaw: PolicyFlaw) -> PolicyFault {
        PolicyFault::At(flaw)
    }
}
