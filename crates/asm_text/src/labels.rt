//! Labels.

ghost use Rattle.std.specs.Prelude.{◌≡◌};
ghost use Rattle.asm_text.specs.Labels.{is_letter, is_letter_or_digit};
ghost use Rattle.asm_text.specs.Labels.{are_letters_or_digits, is_label};

/// A label: a letter or `_`, followed by letters, digits and `_`.
#[derive(Debug, PartialEq, Eq, Drop)]
pub struct Label {
    /// The label's bytes.
    pub text: Vec<u8>,
}

fn is_letter(byte: u8) -> bool
    ensures { result ≡ is_letter byte }
{
    (b'A' <= byte && byte <= b'Z') || ((b'a' <= byte && byte <= b'z') || byte == b'_')
}

fn is_letter_or_digit(byte: u8) -> bool
    ensures { result ≡ is_letter_or_digit byte }
{
    is_letter(byte) || (b'0' <= byte && byte <= b'9')
}

fn are_letters_or_digits(lexeme: &[u8]) -> bool
    ensures { result ≡ are_letters_or_digits lexeme.now }
{
    for i in 0..lexeme.len() {
        if !is_letter_or_digit(lexeme[i]) {
            return false;
        }
    }
    true
}

/// Checks whether the lexeme is a label.
pub fn is_label(lexeme: &[u8]) -> bool
    ensures { result ≡ is_label lexeme.now }
{
    match lexeme {
        [] => false,
        [first, rest @ ..] => is_letter(*first) && are_letters_or_digits(rest),
    }
}
