//! The tokens of a statement.

ghost use Rattle.std.specs.Prelude.{◌≡◌, ◌+◌, ◌<◌, ◌≤◌, ◌∷◌, [], length, drop};
ghost use Rattle.std.specs.Prelude.{IfSome, IfNone};
ghost use Rattle.text_tokens.specs.Tokens.{tokens_at, token_view, token_length};
ghost use Rattle.asm_text.specs.Marks.{source_class};
ghost use Rattle.view_source_faults.specs.Inside.Tokens.{punct_class, source_token};

use text_tokens::{Class, Marks, Placed, next_token};

/// A token of one byte, a punctuation character.
#[derive(Clone, Copy, Debug, PartialEq, Eq)]
pub enum Punct {
    /// `,`.
    Comma,
    /// `(`.
    Open,
    /// `)`.
    Close,
    /// `:`.
    Colon,
}

impl Marks for Punct {
    ghost class = { punct_class };

    #[tactic(auto, unfolding(crate::specs::Inside::Tokens::punct_class))]
    fn classify(byte: u8) -> Class<Punct> {
        match byte {
            b' ' | b'\t' => Class::Blank,
            b',' => Class::Mark(Punct::Comma),
            b'(' => Class::Mark(Punct::Open),
            b')' => Class::Mark(Punct::Close),
            b':' => Class::Mark(Punct::Colon),
            _ => Class::Ordinary,
        }
    }
}

/// Returns the first token from position `from` on, or `None` if only blanks are left.
#[tactic(auto, using(crate::proofs::SameTokens::first_same, crate::proofs::SameTokens::none_same))]
pub fn token_from(text: &[u8], from: usize) -> Option<Placed<'_, Punct>>
    requires { from ≤ length text.now }
    ensures some { IfSome result (λ p. tokens_at source_class from (drop from text.now)
        ≡ (p.at, source_token (token_view p.token))
        ∷ tokens_at source_class p.next (drop p.next text.now)) }
    ensures ends { IfSome result
        (λ p. p.next ≡ p.at + token_length (source_token (token_view p.token))) }
    ensures on { IfSome result (λ p. from < p.next) }
    ensures within { IfSome result (λ p. p.next ≤ length text.now) }
    ensures none { IfNone result (tokens_at source_class from (drop from text.now) ≡ []) }
{
    match next_token::<Punct>(text, from) {
        Some(placed) => Some(placed),
        None => None,
    }
}
