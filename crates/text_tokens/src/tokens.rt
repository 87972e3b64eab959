//! The tokens of a text, whatever its punctuation.

ghost use Rattle.std.specs.Prelude.{◌≡◌, ℕ, ◌+◌, ◌<◌, ◌≤◌, ◌∷◌, [], length, drop, slice_index};
ghost use Rattle.std.specs.Prelude.{false, IfSome, IfNone};
ghost use Rattle.text_tokens.specs.declared.tokens.Class.{Class};
ghost use Rattle.text_tokens.specs.Tokens.{is_blank, is_ordinary, tokens_at, token_view};
ghost use Rattle.text_tokens.specs.Tokens.{token_length};
ghost use Rattle.text_tokens.specs.Inside.Fronts.{lexeme_front};

/// The role of a byte in a text.
#[derive(Clone, Copy, Debug, PartialEq, Eq)]
pub enum Class<M> {
    /// The byte separates tokens.
    Blank,
    /// The byte is a token by itself.
    Mark(M),
    /// The byte is part of a lexeme.
    Ordinary,
}

/// The punctuation of a text format: its tokens of one byte.
pub trait Marks: Copy {
    ghost class: { ℕ → Class Self };

    /// Returns the role of the byte in a text of this format.
    fn classify(byte: u8) -> Class<Self>
        ensures exact { result ≡ class byte };
}

/// A token: a punctuation byte or a lexeme.
#[derive(Clone, Copy)]
pub enum Token<'t, M> {
    /// A token of one byte.
    Mark(M),
    /// A longest run of ordinary bytes.
    Lexeme(&'t [u8]),
}

/// A token of a text, with the positions of its first byte and of the byte after it.
#[derive(Clone, Copy)]
pub struct Placed<'t, M> {
    /// The position of its first byte, in bytes from 0.
    pub at: usize,
    /// The token.
    pub token: Token<'t, M>,
    /// The position after its last byte.
    pub next: usize,
}

/// Checks whether the byte separates tokens.
fn is_blank<M: Marks>(byte: u8) -> bool
    ensures { result ≡ is_blank (M.class byte) }
{
    match M::classify(byte) {
        Class::Blank => true,
        Class::Mark(_) | Class::Ordinary => false,
    }
}

/// Checks whether the byte is part of lexemes.
fn is_ordinary<M: Marks>(byte: u8) -> bool
    ensures { result ≡ is_ordinary (M.class byte) }
{
    match M::classify(byte) {
        Class::Ordinary => true,
        Class::Mark(_) | Class::Blank => false,
    }
}

/// Returns the first position from `from` on whose byte is no blank, or the text's length.
fn after_blanks<M: Marks>(text: &[u8], from: usize) -> usize
    requires { from ≤ length text.now }
    ensures within { result ≤ length text.now }
    ensures on { from ≤ result }
    ensures same { tokens_at M.class result (drop result text.now)
        ≡ tokens_at M.class from (drop from text.now) }
    ensures stops { result < length text.now
        → is_blank (M.class (slice_index text.now result)) ≡ false }
{
    for at in from..text.len() {
        if !is_blank::<M>(text[at]) {
            return at;
        }
    }
    text.len()
}

/// Returns the length in bytes of the lexeme at the front.
#[tactic(auto, using(crate::proofs::Fronts::front_ends, crate::proofs::Fronts::front_past))]
fn lexeme_length<M: Marks>(text: &[u8]) -> usize
    ensures { result ≡ length (lexeme_front M.class text.now) }
{
    for i in 0..text.len() {
        if !is_ordinary::<M>(text[i]) {
            return i;
        }
    }
    text.len()
}

/// Returns the lexeme at a position.
fn lexeme_at<M: Marks>(text: &[u8], at: usize) -> Placed<'_, M>
    requires within { at < length text.now }
    requires ordinary { M.class (slice_index text.now at) ≡ Class.Ordinary }
    ensures token { tokens_at M.class at (drop at text.now)
        ≡ (result.at, token_view result.token)
        ∷ tokens_at M.class result.next (drop result.next text.now) }
    ensures ends { result.next ≡ result.at + token_length (token_view result.token) }
    ensures on { at < result.next }
    ensures within { result.next ≤ length text.now }
{
    let rest = &text[at..];
    let count = lexeme_length::<M>(rest);
    Placed {
        at,
        token: Token::Lexeme(&rest[..count]),
        next: at + count,
    }
}

/// Returns the first token from position `from` on, or None if only blanks are left.
pub fn next_token<M: Marks>(text: &[u8], from: usize) -> Option<Placed<'_, M>>
    requires { from ≤ length text.now }
    ensures some { IfSome result (λ p. tokens_at M.class from (drop from text.now)
        ≡ (p.at, token_view p.token) ∷ tokens_at M.class p.next (drop p.next text.now)) }
    ensures ends { IfSome result (λ p. p.next ≡ p.at + token_length (token_view p.token)) }
    ensures on { IfSome result (λ p. from < p.next) }
    ensures within { IfSome result (λ p. p.next ≤ length text.now) }
    ensures none { IfNone result (tokens_at M.class from (drop from text.now) ≡ []) }
{
    let at = after_blanks::<M>(text, from);
    if at == text.len() {
        return None;
    }
    match M::classify(text[at]) {
        Class::Mark(mark) => Some(Placed {
            at,
            token: Token::Mark(mark),
            next: at + 1,
        }),
        Class::Ordinary => Some(lexeme_at::<M>(text, at)),
        Class::Blank => unreachable!(),
    }
}
