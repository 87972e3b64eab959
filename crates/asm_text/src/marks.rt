//! The tokens of a source line.

ghost use Rattle.std.specs.Prelude.{◌≡◌, ◌∷◌, [], IfSome, IfNone};
ghost use Rattle.std.specs.Option.{option_map};
ghost use Rattle.text_tokens.specs.Tokens.{token_view, tokens_of, front_token};
ghost use Rattle.asm_text.specs.Marks.{source_class, same_mark};

use text_tokens::{Class, Marks, Token, next_token};

/// A token of one byte: a piece of punctuation.
#[derive(Clone, Copy, Debug, PartialEq, Eq)]
pub enum Punct {
    /// `,`.
    Comma,
    /// `(`.
    Open,
    /// `)`.
    Close,
    /// `:`.
    Colon,
}

impl Marks for Punct {
    ghost class = { source_class };

    #[tactic(auto, unfolding(crate::specs::Marks::source_class))]
    fn classify(byte: u8) -> Class<Punct> {
        match byte {
            b' ' | b'\t' => Class::Blank,
            b',' => Class::Mark(Punct::Comma),
            b'(' => Class::Mark(Punct::Open),
            b')' => Class::Mark(Punct::Close),
            b':' => Class::Mark(Punct::Colon),
            _ => Class::Ordinary,
        }
    }
}

/// Checks whether two punctuation tokens are equal.
pub fn is_mark(a: Punct, b: Punct) -> bool
    ensures { result ≡ same_mark a b }
{
    match (a, b) {
        (Punct::Comma, Punct::Comma)
        | (Punct::Open, Punct::Open)
        | (Punct::Close, Punct::Close)
        | (Punct::Colon, Punct::Colon) => true,
        _ => false,
    }
}

/// Returns the first token and the text after it, or None if there are only blanks.
pub fn front(text: &[u8]) -> Option<(Token<'_, Punct>, &[u8])>
    ensures exact { option_map (λ p. (token_view p.0, p.1.now)) result
        ≡ front_token source_class text.now }
    ensures some { IfSome result (λ p. tokens_of source_class text.now
        ≡ token_view p.0 ∷ tokens_of source_class p.1.now) }
    ensures none { IfNone result (tokens_of source_class text.now ≡ []) }
{
    match next_token::<Punct>(text, 0) {
        Some(placed) => Some((placed.token, &text[placed.next..])),
        None => None,
    }
}
