//! Concrete syntax of formulas: a parser that reports the first error, and a printer.
//!
//! The layers above rely on two functions. `read_form` returns the formula that a text spells, or
//! else the first error with its position. `print_form` returns a text that spells the formula.
//!
//! The grammar, a relation between text and formula, is in `specs/Grammar`, the parser's tests in
//! their order in `specs/Parsing`, and the printed text in `specs/Printing`. Tokens, registers and
//! numbers, which other texts use too, are in text_tokens. The format is this project's own.
#![tactic(auto)]

mod fault;
mod keywords;
mod names;
mod parsing;
mod parts;
mod printing;
mod theorems;

pub use fault::{MAX_KIND, TextFault, TextFlaw};
pub use parsing::read_form;
pub use printing::print_form;
pub use theorems::laws;
