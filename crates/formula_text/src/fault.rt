//! Parse errors of formula texts.

ghost use Rattle.std.specs.Prelude.{◌≡◌, ◌≤◌, length};
ghost use Rattle.formula_text.specs.Names.{text_flaw_name};

use std::alloc::{AllocError, AllocFailed};
use thiserror::Error;

/// A parse error at a position of a text.
#[derive(Clone, Copy, Debug, PartialEq, Eq, Error)]
pub enum TextFlaw {
    /// The grammar doesn't allow the token, or the end of the text, at this position.
    #[error("unexpected token or end of text")]
    Shape,
    /// A lexeme that is none of what is expected: an expression, a memory or a name to bind.
    #[error("a name that is unknown or cannot be used here")]
    Name,
    /// An expression is expected, and the lexeme begins with a digit but is no number below 2^64.
    #[error("a word that begins with a digit but is no number below 2^64")]
    Number,
    /// A token after the formula.
    #[error("extra text after the formula")]
    Trailing,
}

/// The maximum length of a kind's name, in bytes.
pub const MAX_KIND: usize = 8;

impl TextFlaw {
    /// Returns the kind's name, of at most `MAX_KIND` bytes.
    pub fn name(self) -> &'static str
        ensures exact { result.now ≡ text_flaw_name self }
        ensures short { length result.now ≤ MAX_KIND }
    {
        match self {
            TextFlaw::Shape => "Shape",
            TextFlaw::Name => "Name",
            TextFlaw::Number => "Number",
            TextFlaw::Trailing => "Trailing",
        }
    }
}

/// Why a text couldn't be parsed as a formula.
#[derive(Clone, Copy, Debug, PartialEq, Eq, Error)]
pub enum TextFault {
    /// The position of the first wrong token, in bytes from 0, or of the end of the text, and what
    /// is wrong there.
    #[error("at byte {0}: {1}")]
    At(usize, TextFlaw),
    /// Out of memory; this says nothing about the text.
    #[error("out of memory")]
    Memory,
}

/// Why the parser rejects a token.
#[derive(Clone, Copy, Debug, PartialEq, Eq)]
pub enum TokenFault {
    /// The parse error.
    Flaw(TextFlaw),
    /// Out of memory.
    Memory,
}

impl From<AllocError> for TokenFault {
    ghost use Rattle.formula_text.specs.declared.fault.TokenFault.TheVariants.{Memory};

    ghost from_gives = { λ _ e. e ≡ Memory };

    fn from(_fault: AllocError) -> TokenFault {
        TokenFault::Memory
    }
}

impl<T: Drop> From<AllocFailed<T>> for TokenFault {
    ghost use Rattle.formula_text.specs.declared.fault.TokenFault.TheVariants.{Memory};

    ghost from_gives = { λ _ e. e ≡ Memory };

    fn from(_fault: AllocFailed<T>) -> TokenFault {
        TokenFault::Memory
    }
}
