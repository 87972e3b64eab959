//! A line in a fixed buffer, and what is appended to it.

ghost use Rattle.std.specs.Prelude.{◌≡◌, ◌+◌, ◌*◌, ◌≤◌, ◌<◌, ◌++◌, length, decimal};
ghost use Rattle.arrayvec.specs.ArrayVec.{array_vec_len};
ghost use Rattle.pcc_lines.specs.Line.{hex_digit, hex_digits, hex_bytes};

use arrayvec::ArrayVec;
use itoa::Buffer;

/// The size of a line's buffer in bytes, enough for the longest line without a name.
pub const LINE: usize = 128;

/// The maximal number of decimal digits of a number.
pub const DIGITS: usize = 20;

/// A line, as far as it is made.
pub type Line = ArrayVec<u8, LINE>;

/// Appends a text.
pub fn push_text(line: &mut Line, text: &str)
    requires { array_vec_len line.old + length text.now ≤ LINE }
    ensures items { line.new.items ≡ line.old.items ++ text.now }
    ensures len { array_vec_len line.new ≡ array_vec_len line.old + length text.now }
{
    line.try_extend_from_slice(text.as_bytes()).unwrap();
}

/// Appends a number in decimal.
pub fn push_decimal(line: &mut Line, number: u64)
    requires { array_vec_len line.old + DIGITS ≤ LINE }
    ensures items { line.new.items ≡ line.old.items ++ decimal number }
    ensures len { array_vec_len line.new ≤ array_vec_len line.old + DIGITS }
{
    let mut text = Buffer::new();
    line.try_extend_from_slice(text.format(number).as_bytes())
        .unwrap();
}

/// A hexadecimal digit in lower case.
fn digit_of(value: u8) -> u8
    requires { value < 16 }
    ensures { result ≡ hex_digit value }
{
    if value < 10 {
        b'0' + value
    } else {
        b'a' + (value - 10)
    }
}

/// Appends the `count` last hexadecimal digits of a number.
#[tactic(auto, unfolding(crate::specs::Line::hex_digits))]
pub fn push_hex(line: &mut Line, count: u32, number: u64)
    requires { array_vec_len line.old + count ≤ LINE }
    ensures items { line.new.items ≡ line.old.items ++ hex_digits count number }
    ensures len { array_vec_len line.new ≡ array_vec_len line.old + count }
{
    if count > 0 {
        push_hex(line, count - 1, number / 16);
        line.push(digit_of((number % 16) as u8));
    }
}

/// Appends each byte as two hexadecimal digits.
pub fn push_bytes(line: &mut Line, bytes: &[u8])
    requires { array_vec_len line.old + 2 * length bytes.now ≤ LINE }
    ensures items { line.new.items ≡ line.old.items ++ hex_bytes bytes.now }
    ensures len { array_vec_len line.new ≡ array_vec_len line.old + 2 * length bytes.now }
{
    for i in 0..bytes.len() {
        push_hex(line, 2, u64::from(bytes[i]));
    }
}
