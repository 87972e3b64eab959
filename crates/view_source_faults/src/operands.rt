//! Finding the wrong operand of a statement.

ghost use Rattle.std.specs.Prelude.{◌≡◌, ◌+◌, ◌≤◌, ◌<◌, ◌∷◌, [], Option, length, drop, IfSome};
ghost use Rattle.std.specs.Prelude.{IfNone};
ghost use Rattle.std.specs.Option.{option_map};
ghost use Rattle.text_tokens.specs.Registers.{register_of};
ghost use Rattle.text_tokens.specs.Tokens.{tokens_at};
ghost use Rattle.asm_text.specs.Marks.{source_class};
ghost use Rattle.asm_text.specs.Integers.{Integer as IntegerView, lexeme_integer};
ghost use Rattle.asm_text.specs.Inside.Views.{IsIntegerAnswer};
ghost use Rattle.view_faults.specs.Views.{span_view, limits_view};
ghost use Rattle.view_source_faults.specs.SourceLines.{lexemes_of};
ghost use Rattle.view_source_faults.specs.WrongOperands.{is_within, is_register, wanted_by, is_right};
ghost use Rattle.view_source_faults.specs.WrongOperands.{first_wrong, wrong_operand};
ghost use Rattle.view_source_faults.specs.WrongOperands.{first_missed, missed_operand, wanted_limits};

use crate::forms::{OperandForm, operand_form};
use crate::tokens::token_from;
use text_tokens::{Number, Token, read_decimal, read_number, register};
use view_faults::{Limits, Span};
use word_ops::Profile;

/// What an operand's place expects.
#[derive(Clone, Copy, Debug, PartialEq, Eq)]
pub enum Wanted {
    /// A register.
    Register,
    /// The register with this number.
    Fixed(u8),
    /// A number that is at least minus the first value, and below the second.
    Number(u64, u64),
    /// A register, or a number from 0 to 255.
    Right,
}

/// An operand that is wrong, and what its place expects.
#[derive(Clone, Copy, Debug, PartialEq, Eq)]
pub struct Wrong {
    /// The place of the operand.
    pub span: Span,
    /// What the place expects.
    pub wanted: Wanted,
}

/// Which integer a lexeme is: how far it is from 0, and whether there is a `-`.
#[derive(Clone, Copy, Debug, PartialEq, Eq)]
struct Integer {
    minus: bool,
    size: Number,
}

/// A lexeme with the positions of its first byte and of the byte after it.
#[derive(Clone, Copy)]
struct Found<'t> {
    at: usize,
    text: &'t [u8],
    next: usize,
}

/// The integer that the lexeme is: decimal with an optional `-`, or `0x` and hexadecimal digits.
fn read_integer(lexeme: &[u8]) -> Integer
    ensures { IsIntegerAnswer (lexeme_integer lexeme.now) result.minus result.size }
{
    match lexeme {
        [b'-', digits @ ..] => Integer {
            minus: true,
            size: read_decimal(digits),
        },
        _ => Integer {
            minus: false,
            size: read_number(lexeme),
        },
    }
}

/// Whether an integer is within limits, if it is one.
fn within(low: u64, limit: u64, integer: Integer) -> Option<bool>
    ensures { (o : Option IntegerView) → IsIntegerAnswer o integer.minus integer.size
        → result ≡ option_map (is_within low limit) o }
{
    match integer.size {
        Number::NoNumber => None,
        Number::Large => Some(false),
        Number::Word(n) => Some(if integer.minus { n <= low } else { n < limit }),
    }
}

/// Whether the integer that the lexeme is, if it is one, is within limits.
fn number_within(low: u64, limit: u64, lexeme: &[u8]) -> Option<bool>
    ensures { result ≡ option_map (is_within low limit) (lexeme_integer lexeme.now) }
{
    within(low, limit, read_integer(lexeme))
}

/// Whether the lexeme names the register.
fn names_register(number: u8, lexeme: &[u8]) -> bool
    ensures { result ≡ is_register number (register_of lexeme.now) }
{
    match register(lexeme) {
        Some(found) => found == number,
        None => false,
    }
}

/// Returns whether the lexeme is what its place expects.
fn is_right(wanted: Wanted, lexeme: &[u8]) -> bool
    ensures { result ≡ is_right wanted lexeme.now }
{
    match wanted {
        Wanted::Register => register(lexeme).is_some(),
        Wanted::Fixed(number) => names_register(number, lexeme),
        Wanted::Number(low, limit) => match number_within(low, limit, lexeme) {
            Some(right) => right,
            None => false,
        },
        Wanted::Right => match number_within(0, 256, lexeme) {
            Some(right) => right,
            None => register(lexeme).is_some(),
        },
    }
}

/// The first lexeme from position `from` on.
fn lexeme_from(text: &[u8], from: usize) -> Option<Found<'_>>
    requires { from ≤ length text.now }
    ensures some { IfSome result (λ w. lexemes_of (tokens_at source_class from (drop from text.now))
        ≡ (w.at, w.text.now) ∷ lexemes_of (tokens_at source_class w.next (drop w.next text.now))) }
    ensures on { IfSome result (λ w. from < w.next) }
    ensures before { IfSome result (λ w. w.at ≤ w.next) }
    ensures within { IfSome result (λ w. w.next ≤ length text.now) }
    ensures none { IfNone result
        (lexemes_of (tokens_at source_class from (drop from text.now)) ≡ []) }
{
    let mut at = from;
    while let Some(placed) = token_from(text, at) {
        if let Token::Lexeme(lexeme) = placed.token {
            return Some(Found {
                at: placed.at,
                text: lexeme,
                next: placed.next,
            });
        }
        at = placed.next;
    }
    None
}

/// How many lexemes there are from position `from` on.
fn lexeme_count(text: &[u8], from: usize) -> usize
    requires { from ≤ length text.now }
    ensures { result ≡ length (lexemes_of (tokens_at source_class from (drop from text.now))) }
{
    let mut at = from;
    let mut count = 0;
    while let Some(found) = lexeme_from(text, at) {
        at = found.next;
        count += 1;
    }
    count
}

/// Returns what is expected at each lexeme of operands of this form, if there are `count` lexemes.
fn wanted_by(form: OperandForm, count: usize) -> &'static [Wanted]
    ensures { result.now ≡ wanted_by form count }
{
    match form {
        OperandForm::Memory => {
            if count == 2 {
                &[Wanted::Register, Wanted::Register]
            } else {
                &[
                    Wanted::Register,
                    Wanted::Number(32_768, 32_768),
                    Wanted::Register,
                ]
            }
        }
        OperandForm::Operate => &[Wanted::Register, Wanted::Right, Wanted::Register],
        OperandForm::Branch => &[Wanted::Register],
        OperandForm::Br => &[Wanted::Fixed(31)],
        OperandForm::Return => &[
            Wanted::Fixed(31),
            Wanted::Fixed(26),
            Wanted::Number(0, 16_384),
        ],
        OperandForm::Nothing => &[],
    }
}

/// Returns the numbers that a place allows, if it allows some.
pub fn wanted_limits(wanted: Wanted) -> Option<Limits>
    ensures { option_map limits_view result ≡ wanted_limits wanted }
{
    match wanted {
        Wanted::Register => None,
        Wanted::Fixed(_) => None,
        Wanted::Number(low, limit) => Some(Limits { low, limit }),
        Wanted::Right => Some(Limits { low: 0, limit: 256 }),
    }
}

/// Returns the first of the lexemes from position `from` on that isn't what its place expects.
fn first_wrong(wanted: &[Wanted], text: &[u8], from: usize) -> Option<Wrong>
    requires { from ≤ length text.now }
    ensures within { IfSome result (λ w. w.span.at ≤ length text.now) }
    ensures exact { option_map (λ w. span_view w.span) result ≡ first_wrong wanted.now
        (lexemes_of (tokens_at source_class from (drop from text.now))) }
    ensures missed { option_map (λ w. w.wanted) result ≡ first_missed wanted.now
        (lexemes_of (tokens_at source_class from (drop from text.now))) }
{
    match wanted {
        [] => None,
        [kind, kinds @ ..] => match lexeme_from(text, from) {
            None => None,
            Some(found) => {
                if is_right(*kind, found.text) {
                    first_wrong(kinds, text, found.next)
                } else {
                    Some(Wrong {
                        span: Span {
                            at: found.at,
                            count: found.text.len(),
                        },
                        wanted: *kind,
                    })
                }
            }
        },
    }
}

/// Returns the first of the statement's operands that is wrong, or None.
pub fn wrong_operand(profile: Profile, text: &[u8]) -> Option<Wrong>
    ensures within { IfSome result (λ w. w.span.at ≤ length text.now) }
    ensures exact { option_map (λ w. span_view w.span) result
        ≡ wrong_operand profile (tokens_at source_class 0 text.now) }
    ensures missed { option_map (λ w. w.wanted) result
        ≡ missed_operand profile (tokens_at source_class 0 text.now) }
{
    match token_from(text, 0) {
        None => None,
        Some(placed) => match placed.token {
            Token::Mark(_) => None,
            Token::Lexeme(lexeme) => {
                let count = lexeme_count(text, placed.next);
                let wanted = wanted_by(operand_form(profile, lexeme), count);
                first_wrong(wanted, text, placed.next)
            }
        },
    }
}
