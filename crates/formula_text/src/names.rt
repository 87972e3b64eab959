//! Names that a formula may bind.

ghost use Rattle.std.specs.Prelude.{◌≡◌};
ghost use Rattle.formula_text.specs.Bindings.{is_lower, are_lower_or_digits, is_identifier};
ghost use Rattle.formula_text.specs.Bindings.{is_left, is_reserved, is_name};

use crate::keywords::keyword_named;
use text_tokens::{is_digit, register};
use word_ops::Profile;

fn is_lower(byte: u8) -> bool
    ensures { result ≡ is_lower byte }
{
    b'a' <= byte && byte <= b'z'
}

fn are_lower_or_digits(lexeme: &[u8]) -> bool
    ensures { result ≡ are_lower_or_digits lexeme.now }
{
    for i in 0..lexeme.len() {
        if !(is_lower(lexeme[i]) || is_digit(lexeme[i])) {
            return false;
        }
    }
    true
}

/// Checks whether the lexeme is a lower-case letter, followed by lower-case letters and digits.
fn is_identifier(lexeme: &[u8]) -> bool
    ensures { result ≡ is_identifier lexeme.now }
{
    match lexeme {
        [] => false,
        [first, rest @ ..] => is_lower(*first) && are_lower_or_digits(rest),
    }
}

/// Checks whether the lexeme names the remaining steps: it is `left`, and the flag allows that.
pub fn is_left(lexeme: &[u8], left: bool) -> bool
    ensures { result ≡ is_left left lexeme.now }
{
    lexeme == b"left".as_slice() && left
}

/// Checks whether the lexeme is a keyword of the profile, `tt`, `ff` or `m`, or names the remaining
/// steps.
fn is_reserved(lexeme: &[u8], profile: Profile, left: bool) -> bool
    ensures { result ≡ is_reserved profile left lexeme.now }
{
    keyword_named(lexeme, profile).is_some()
        || lexeme == b"tt".as_slice()
        || lexeme == b"ff".as_slice()
        || lexeme == b"m".as_slice()
        || is_left(lexeme, left)
}

/// Checks whether a binder may bind the lexeme under `profile`: it is an identifier, names no
/// register and isn't reserved. If `left` is true, `left` is reserved too.
#[tactic(auto, unfolding(crate::specs::Bindings::is_name))]
pub fn is_name(lexeme: &[u8], profile: Profile, left: bool) -> bool
    ensures { result ≡ is_name profile left lexeme.now }
{
    is_identifier(lexeme) && register(lexeme).is_none() && !is_reserved(lexeme, profile, left)
}
