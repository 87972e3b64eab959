//! What one line of a script says.

ghost use Rattle.std.specs.Prelude.{◌≡◌, ◌∷◌, [], true, false, IfSome, IfNone};
ghost use Rattle.agent_script.specs.Statements.{is_script_name, load_operands, turn_operands};
ghost use Rattle.agent_script.specs.Statements.{short_number, in_turn_range, statement_of};
ghost use Rattle.agent_script.specs.Lines.{line_words};
ghost use Rattle.agent_script.specs.Inside.Reading.{IsStatement, IsStatementRead};

use crate::fault::ScriptFlaw;
use crate::line::Words;
use crate::script::MAX_TURN;
use std::str;
use text_tokens::{Number, read_decimal};

/// The maximal number of digits in a number.
pub const MAX_DIGITS: usize = 10;

/// A line that is valid by itself, whatever the other lines say.
#[derive(Clone, Copy)]
pub enum Statement<'b> {
    /// Loads an agent.
    Load {
        policy: &'b str,
        file: &'b str,
        packets: &'b str,
    },
    /// Gives an agent a turn of at most so many steps.
    Turn {
        agent: u64,
        budget: u64,
    },
}

/// The number of one to ten digits.
fn short_number(word: &[u8]) -> Option<u64>
    ensures { result ≡ short_number word.now }
{
    if word.len() > MAX_DIGITS {
        return None;
    }
    match read_decimal(word) {
        Number::Word(number) => Some(number),
        Number::NoNumber => None,
        Number::Large => None, // not of ten digits
    }
}

/// The steps of a turn, from 1 to `MAX_TURN`.
fn turn_steps(word: &[u8]) -> Option<u64>
    ensures { result ≡ in_turn_range (short_number word.now) }
{
    let steps = short_number(word)?;
    if 1 <= steps && steps <= MAX_TURN {
        Some(steps)
    } else {
        None
    }
}

/// The word as a name.
fn name_of(word: &[u8]) -> Option<&str>
    ensures some { IfSome result (λ name. name.now ≡ word.now) }
    ensures right { IfSome result (λ _. is_script_name word.now ≡ true) }
    ensures wrong { IfNone result (is_script_name word.now ≡ false) }
{
    if word.is_empty() {
        return None;
    }
    match str::from_utf8(word) {
        Ok(name) => Some(name),
        Err(_) => None,
    }
}

/// The load of these names.
fn load_of<'b>(policy: &'b [u8], file: &'b [u8], packets: &'b [u8]) -> Option<Statement<'b>>
    ensures { IsStatement (load_operands (policy.now ∷ file.now ∷ packets.now ∷ [])) result }
{
    let policy = name_of(policy)?;
    let file = name_of(file)?;
    let packets = name_of(packets)?;
    Some(Statement::Load {
        policy,
        file,
        packets,
    })
}

/// Reads the load from the words after `load`.
fn read_load<'b>(words: &mut Words<'b>) -> Option<Statement<'b>>
    ensures { IsStatement (load_operands words.old) result }
{
    let policy = words.next()?;
    let file = words.next()?;
    let packets = words.next()?;
    match words.next() {
        Some(_) => None,
        None => load_of(policy, file, packets),
    }
}

/// The turn of these numbers.
fn turn_of<'b>(agent: &'b [u8], budget: &'b [u8]) -> Option<Statement<'b>>
    ensures { IsStatement (turn_operands (agent.now ∷ budget.now ∷ [])) result }
{
    let agent = short_number(agent)?;
    let budget = turn_steps(budget)?;
    Some(Statement::Turn { agent, budget })
}

/// Reads the turn from the words after `turn`.
fn read_turn<'b>(words: &mut Words<'b>) -> Option<Statement<'b>>
    ensures { IsStatement (turn_operands words.old) result }
{
    let agent = words.next()?;
    let budget = words.next()?;
    match words.next() {
        Some(_) => None,
        None => turn_of(agent, budget),
    }
}

/// Parses a line, without its line end, as a statement.
///
/// Errors: the first test that the line fails.
pub fn read_statement(line: &[u8]) -> Result<Statement<'_>, ScriptFlaw>
    ensures { IsStatementRead (statement_of (line_words line.now)) result }
{
    let mut words = Words::of(line);
    let Some(word) = words.next() else {
        return Err(ScriptFlaw::Word);
    };
    if word == b"load".as_slice() {
        return read_load(&mut words).ok_or(ScriptFlaw::Form);
    }
    if word == b"turn".as_slice() {
        return read_turn(&mut words).ok_or(ScriptFlaw::Form);
    }
    Err(ScriptFlaw::Word)
}
