//! The punctuation of formulas.

ghost use Rattle.text_tokens.specs.Parens.{paren_class};

use crate::tokens::{Class, Marks};

/// A parenthesis, the only punctuation of formulas.
#[derive(Clone, Copy, Debug, PartialEq, Eq)]
pub enum Paren {
    /// `(`.
    Open,
    /// `)`.
    Close,
}

impl Marks for Paren {
    ghost class = { paren_class };

    #[tactic(auto, unfolding(crate::specs::Parens::paren_class))]
    fn classify(byte: u8) -> Class<Paren> {
        match byte {
            b' ' | b'\t' => Class::Blank,
            b'(' => Class::Mark(Paren::Open),
            b')' => Class::Mark(Paren::Close),
            _ => Class::Ordinary,
        }
    }
}
