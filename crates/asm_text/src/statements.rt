//! Statements: what a line says.

ghost use Rattle.std.specs.Prelude.{◌≡◌, IfOk};
ghost use Rattle.std.specs.Option.{option_map};
ghost use Rattle.asm_text.specs.Statements.{before_comment, is_printable, are_printable};
ghost use Rattle.formula_text.specs.Parsing.{parsed_form};
ghost use Rattle.asm_text.specs.SourceParsing.{label_split, inv_or_flaw, insn_statement};
ghost use Rattle.asm_text.specs.SourceParsing.{parsed_statement};
ghost use Rattle.asm_text.specs.Inside.Views.{YieldsOrMemory, statement_view};

use crate::fault::{LineFlaw, Refused};
use crate::insns::{SrcInsn, read_insn};
use crate::labels::is_label;
use crate::marks::{Punct, front, is_mark};
use formula_text::{TextFault, read_form};
use formula_tree::Form;
use std::alloc::Global;
use text_tokens::Token;
use word_ops::Profile;

/// The statement of a line, after its label.
#[derive(Drop)]
pub enum Statement {
    /// Nothing.
    NoStatement,
    /// An instruction.
    Insn(SrcInsn),
    /// An invariant for the next instruction.
    Inv(Form),
}

fn is_printable(byte: u8) -> bool
    ensures { result ≡ is_printable byte }
{
    byte == b'\t' || (b' ' <= byte && byte <= b'~')
}

/// Checks whether each byte is a tab or in the range from blank to tilde.
pub fn are_printable(line: &[u8]) -> bool
    ensures { result ≡ are_printable line.now }
{
    for i in 0..line.len() {
        if !is_printable(line[i]) {
            return false;
        }
    }
    true
}

/// Returns the part of a line before `#`.
pub fn before_comment(line: &[u8]) -> &[u8]
    ensures { result.now ≡ before_comment line.now }
{
    for i in 0..line.len() {
        if line[i] == b'#' {
            return &line[..i];
        }
    }
    line
}

/// Splits off the label at the front, and returns it with the text after its colon; None if there
/// is no label.
#[tactic(auto, unfolding(crate::specs::SourceParsing::label_split))]
pub fn split_label(text: &[u8]) -> Option<(&[u8], &[u8])>
    ensures { option_map (λ p. (p.0.now, p.1.now)) result ≡ label_split text.now }
{
    let Some((Token::Lexeme(label), rest)) = front(text) else {
        return None;
    };
    let Some((Token::Mark(mark), rest)) = front(rest) else {
        return None;
    };
    if is_mark(mark, Punct::Colon) && is_label(label) {
        Some((label, rest))
    } else {
        None
    }
}

/// Parses the text of an invariant.
fn read_inv(alloc: Global, text: &[u8], profile: Profile, left: bool) -> Result<Statement, Refused>
    ensures { YieldsOrMemory statement_view
        (inv_or_flaw (parsed_form profile left text.now)) result }
{
    match read_form(alloc, text, profile, left) {
        Ok(form) => Ok(Statement::Inv(form)),
        Err(TextFault::At(_, _)) => Err(Refused::Flaw(LineFlaw::Formula)),
        Err(TextFault::Memory) => Err(Refused::Memory),
    }
}

/// Parses the text of an instruction.
fn insn_statement(alloc: Global, text: &[u8], profile: Profile) -> Result<Statement, Refused>
    ensures { YieldsOrMemory statement_view (insn_statement profile text.now) result }
{
    let insn = read_insn(alloc, text, profile)?;
    Ok(Statement::Insn(insn))
}

/// Parses the statement of a line, from the text after its label. Errors: what is wrong with it, or
/// out of memory.
#[tactic(auto, unfolding(crate::specs::SourceParsing::parsed_statement))]
pub fn read_statement(
    alloc: Global,
    text: &[u8],
    profile: Profile,
    left: bool,
) -> Result<Statement, Refused>
    ensures { YieldsOrMemory statement_view (parsed_statement profile left text.now) result }
{
    match front(text) {
        None => Ok(Statement::NoStatement),
        Some((Token::Mark(_), _)) => Err(Refused::Flaw(LineFlaw::Mnemonic)),
        Some((Token::Lexeme(lexeme), rest)) => {
            if lexeme == b".inv".as_slice() {
                read_inv(alloc, rest, profile, left)
            } else {
                insn_statement(alloc, text, profile)
            }
        }
    }
}
