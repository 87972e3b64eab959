//! Numbers.

ghost use Rattle.std.specs.Prelude.{◌≡◌, ◌+◌, ◌*◌, ◌≤◌, ℕ};
ghost use Rattle.std.specs.Char.{digit_value};
ghost use Rattle.text_tokens.specs.Numbers.{numeral, lexeme_number, is_digit, begins_with_digit};
ghost use Rattle.text_tokens.specs.Answers.{IsNumberAnswer};
ghost use Rattle.text_tokens.specs.Inside.Rows.{if_word};

/// The value of a lexeme read as a number.
#[derive(Clone, Copy, Debug, PartialEq, Eq)]
pub enum Number {
    /// The lexeme is no number.
    NoNumber,
    /// A number below 2^64.
    Word(u64),
    /// A number of 2^64 or more.
    Large,
}

/// Returns the value of a digit or letter, and 36 for any other byte.
fn digit(byte: u8) -> u64
    ensures { result ≡ digit_value byte }
{
    let byte = u64::from(byte);
    if byte < 48 {
        36
    } else if byte < 58 {
        byte - 48
    } else if byte < 65 {
        36
    } else if byte < 91 {
        byte - 55
    } else if byte < 97 {
        36
    } else if byte < 123 {
        byte - 87
    } else {
        36
    }
}

/// Appends a digit to a number; None if the old or the new number is not below 2^64.
fn with_digit(value: Option<u64>, radix: u64, digit: u64) -> Option<u64>
    requires { 1 ≤ radix }
    ensures { (n : ℕ) → value ≡ if_word n → result ≡ if_word (n * radix + digit) }
{
    match value {
        Some(value) => match value.checked_mul(radix) {
            Some(product) => product.checked_add(digit),
            None => None,
        },
        None => None,
    }
}

/// Parses digits in this radix.
fn numeral(radix: u64, digits: &[u8]) -> Number
    requires { 1 ≤ radix }
    ensures { IsNumberAnswer (numeral radix digits.now) result }
{
    if digits.is_empty() {
        return Number::NoNumber;
    }
    let mut value = Some(0);
    for i in 0..digits.len() {
        let digit = digit(digits[i]);
        if digit >= radix {
            return Number::NoNumber;
        }
        value = with_digit(value, radix, digit);
    }
    match value {
        Some(value) => Number::Word(value),
        None => Number::Large,
    }
}

/// Parses `lexeme` as a number: decimal digits, or `0x` and hexadecimal digits of either case.
/// Leading zeros don't change the value.
pub fn read_number(lexeme: &[u8]) -> Number
    ensures exact { IsNumberAnswer (lexeme_number lexeme.now) result }
{
    match lexeme {
        [b'0', b'x', digits @ ..] => numeral(16, digits),
        _ => numeral(10, lexeme),
    }
}

/// Parses `lexeme` as a number in decimal digits. Leading zeros don't change the value.
pub fn read_decimal(lexeme: &[u8]) -> Number
    ensures exact { IsNumberAnswer (numeral 10 lexeme.now) result }
{
    numeral(10, lexeme)
}

/// Checks whether the byte is a decimal digit.
pub fn is_digit(byte: u8) -> bool
    ensures { result ≡ is_digit byte }
{
    b'0' <= byte && byte <= b'9'
}

/// Checks whether the lexeme begins with a decimal digit.
pub fn begins_with_digit(lexeme: &[u8]) -> bool
    ensures { result ≡ begins_with_digit lexeme.now }
{
    match lexeme {
        [] => false,
        [first, ..] => is_digit(*first),
    }
}
