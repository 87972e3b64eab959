//! Integers.

ghost use Rattle.std.specs.Prelude.{◌≡◌, Option};
ghost use Rattle.std.specs.Option.{option_map};
ghost use Rattle.asm_text.specs.Integers.{Integer as IntegerView, lexeme_integer, is_integer};
ghost use Rattle.asm_text.specs.InsnParsing.{in_displacement, displacement_of};
ghost use Rattle.asm_text.specs.InsnParsing.{count_of, rhs_by};
ghost use Rattle.asm_text.specs.Inside.Views.{Yields, IsIntegerAnswer};

use crate::fault::LineFlaw;
use crate::registers::register_at;
use alpha_words::Rhs;
use text_tokens::{Number, read_decimal, read_number};

/// The integer that a lexeme denotes, if any: its distance from 0, and whether there is a `-`.
#[derive(Clone, Copy, Debug, PartialEq, Eq)]
pub struct Integer {
    pub minus: bool,
    pub size: Number,
}

/// Parses a lexeme as an integer: decimal with an optional `-`, or `0x` and hexadecimal digits.
pub fn read_integer(lexeme: &[u8]) -> Integer
    ensures { IsIntegerAnswer (lexeme_integer lexeme.now) result.minus result.size }
{
    match lexeme {
        [b'-', digits @ ..] => Integer {
            minus: true,
            size: read_decimal(digits),
        },
        _ => Integer {
            minus: false,
            size: read_number(lexeme),
        },
    }
}

/// Checks whether the lexeme is an integer.
pub fn is_integer(lexeme: &[u8]) -> bool
    ensures { result ≡ is_integer lexeme.now }
{
    match read_integer(lexeme).size {
        Number::NoNumber => false,
        Number::Word(_) | Number::Large => true,
    }
}

/// Returns the integer as a displacement, -32,768 to 32,767.
fn in_displacement(integer: Integer) -> Result<i16, LineFlaw>
    ensures { (o : Option IntegerView) → IsIntegerAnswer o integer.minus integer.size
        → Yields (λ d. d) (in_displacement o) result }
{
    match integer.size {
        Number::NoNumber => Err(LineFlaw::Operand),
        Number::Large => Err(LineFlaw::Range),
        Number::Word(n) => {
            if integer.minus {
                if n <= 32_768 {
                    Ok((0 - n as i64) as i16)
                } else {
                    Err(LineFlaw::Range)
                }
            } else if n < 32_768 {
                Ok(n as i16)
            } else {
                Err(LineFlaw::Range)
            }
        }
    }
}

/// Parses a lexeme as a displacement, -32,768 to 32,767; without a lexeme the displacement is 0.
/// Errors: `Operand` if the lexeme is no integer, `Range` if the integer is out of range.
pub fn displacement(lexeme: Option<&[u8]>) -> Result<i16, LineFlaw>
    ensures { Yields (λ d. d) (displacement_of (option_map (λ w. w.now) lexeme.entry)) result }
{
    match lexeme {
        None => Ok(0),
        Some(lexeme) => in_displacement(read_integer(lexeme)),
    }
}

/// Returns the integer as a number from 0 on and below `limit`.
fn in_count(limit: u64, integer: Integer) -> Result<u64, LineFlaw>
    ensures { (o : Option IntegerView) → IsIntegerAnswer o integer.minus integer.size
        → Yields (λ n. n) (count_of limit o) result }
{
    match integer.size {
        Number::NoNumber => Err(LineFlaw::Operand),
        Number::Large => Err(LineFlaw::Range),
        Number::Word(n) => {
            if integer.minus {
                if n == 0 { Ok(0) } else { Err(LineFlaw::Range) }
            } else if n < limit {
                Ok(n)
            } else {
                Err(LineFlaw::Range)
            }
        }
    }
}

/// Parses a lexeme as a number from 0 on and below `limit`. Errors: `Operand` if the lexeme is no
/// integer, `Range` if the integer is out of range.
pub fn count(limit: u64, lexeme: &[u8]) -> Result<u64, LineFlaw>
    ensures { Yields (λ n. n) (count_of limit (lexeme_integer lexeme.now)) result }
{
    in_count(limit, read_integer(lexeme))
}

/// Parses a second operand: a number from 0 to 255 if the lexeme is an integer, else a register.
/// Errors: `Range` if the integer is out of range, `Register` if the lexeme is neither.
pub fn rhs(lexeme: &[u8]) -> Result<Rhs, LineFlaw>
    ensures { Yields (λ r. r) (rhs_by lexeme.now (lexeme_integer lexeme.now)) result }
{
    if is_integer(lexeme) {
        let n = count(256, lexeme)?;
        Ok(Rhs::Lit(n as u8))
    } else {
        let reg = register_at(lexeme)?;
        Ok(Rhs::Reg(reg))
    }
}
