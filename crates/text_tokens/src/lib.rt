//! Lexing of text formats: lines, tokens, register names, and numbers.
//!
//! The layers above rely on these functions:
//!
//! - `split_line` returns the first line of a text and the text after it, and `line_count` the
//!   number of lines; LF ends a line, and one CR before it is dropped;
//! - `next_token` returns the first token of a text from a position on, whatever its punctuation;
//! - `register` returns the register that a lexeme names;
//! - `read_number` and `read_decimal` return the number that a lexeme denotes.
//!
//! Lines (`specs/Lines`) and tokens (`specs/Tokens`) are each defined as a relation and as a
//! function; for lines `laws` proves that the two agree. Parentheses as punctuation are defined in
//! `specs/Parens`, registers in `specs/Registers`, numbers in `specs/Numbers`. The format is this
//! project's own; the register names are the Alpha's.
#![tactic(auto)]

mod lines;
mod numbers;
mod parens;
mod registers;
mod theorems;
mod tokens;

pub use lines::{line_count, split_line};
pub use numbers::{Number, begins_with_digit, is_digit, read_decimal, read_number};
pub use parens::Paren;
pub use registers::register;
pub use theorems::laws;
pub use tokens::{Class, Marks, Placed, Token, next_token};
