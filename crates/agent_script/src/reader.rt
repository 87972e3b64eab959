//! Reading a text as a script.

ghost use Rattle.std.specs.Prelude.{◌≡◌, ◌≤◌, length, IfOk, Ok};
ghost use Rattle.agent_script.specs.Lines.{line_words};
ghost use Rattle.agent_script.specs.Statements.{load_named, statement_of};
ghost use Rattle.agent_script.specs.Scripts.{IsScriptRead, IsScript, script_view};
ghost use Rattle.agent_script.specs.Scripts.{no_lines, with_load, with_turn, with_statement};
ghost use Rattle.agent_script.specs.Inside.Reading.{IsTaken, script_line_view};

use crate::fault::{ScriptFault, ScriptFlaw};
use crate::line::split_line;
use crate::script::{Load, MAX_LOADS, MAX_SCRIPT, Script};
use crate::statement::{Statement, read_statement};
use alpha_turns::Turn;
use std::alloc::Global;

/// The script of no lines.
fn no_lines(alloc: Global) -> Script
    ensures { script_view result ≡ no_lines }
{
    Script {
        loads: Vec::new(alloc),
        turns: Vec::new(alloc),
    }
}

/// Appends the load of line `number` to the script.
fn add_load(
    alloc: Global,
    script: &mut Script,
    number: u32,
    policy: &str,
    file: &str,
    packets: &str,
) -> Result<(), ScriptFault>
    ensures { IsTaken number
        (with_load (script_view script.old) (load_named policy.now file.now packets.now))
        (script_view script.new) result }
{
    if !script.turns.is_empty() {
        return Err(ScriptFault::At(number, ScriptFlaw::Late));
    }
    if script.loads.len() >= MAX_LOADS {
        return Err(ScriptFault::At(number, ScriptFlaw::Many));
    }
    let policy = String::from_str(alloc, policy)?;
    let file = String::from_str(alloc, file)?;
    let packets = String::from_str(alloc, packets)?;
    script.loads.push(Load {
        policy,
        file,
        packets,
    })?;
    Ok(())
}

/// Appends the turn of line `number` to the script.
fn add_turn(script: &mut Script, number: u32, agent: u64, budget: u64) -> Result<(), ScriptFault>
    requires { length script.old.loads.items ≤ MAX_LOADS }
    ensures { IsTaken number (with_turn (script_view script.old) agent budget)
        (script_view script.new) result }
{
    if agent >= script.loads.len() as u64 {
        return Err(ScriptFault::At(number, ScriptFlaw::Agent));
    }
    let agent = agent as u32;
    script.turns.push(Turn { agent, budget })?;
    Ok(())
}

/// Appends the statement of line `number` to the script.
fn add(
    alloc: Global,
    script: &mut Script,
    number: u32,
    statement: Statement<'_>,
) -> Result<(), ScriptFault>
    requires { length script.old.loads.items ≤ MAX_LOADS }
    ensures { IsTaken number
        (with_statement (script_view script.old) (Ok (script_line_view statement.entry)))
        (script_view script.new) result }
{
    match statement {
        Statement::Load {
            policy,
            file,
            packets,
        } => add_load(alloc, script, number, policy, file, packets),
        Statement::Turn { agent, budget } => add_turn(script, number, agent, budget),
    }
}

/// Appends line `number` to the script.
fn add_line(alloc: Global, script: &mut Script, number: u32, line: &[u8]) -> Result<(), ScriptFault>
    requires { length script.old.loads.items ≤ MAX_LOADS }
    ensures { IsTaken number
        (with_statement (script_view script.old) (statement_of (line_words line.now)))
        (script_view script.new) result }
{
    match read_statement(line) {
        Ok(statement) => add(alloc, script, number, statement),
        Err(flaw) => Err(ScriptFault::At(number, flaw)),
    }
}

/// Parses the text, of at most `MAX_SCRIPT` bytes, as a script: 1 to `MAX_LOADS` agents, and turns
/// of these agents only.
///
/// Errors: the first line that is wrong, numbered from 1, and the first test that it fails; line 0
/// if no line loads an agent; or out of memory.
pub fn read_script(alloc: Global, text: &[u8]) -> Result<Script, ScriptFault>
    requires { length text.now ≤ MAX_SCRIPT }
    ensures exact { IsScriptRead text.now result }
    ensures script { IfOk result (λ script. IsScript (script_view script)) }
{
    let mut script = no_lines(alloc);
    let mut rest = text;
    let mut number: u32 = 0;
    'lines: while !rest.is_empty() {
        let (line, behind) = split_line(rest);
        number += 1;
        // a `match`, which tells the prover which fault it is
        match add_line(alloc, &mut script, number, line) {
            Ok(()) => {}
            Err(fault) => return Err(fault),
        }
        rest = behind;
    }
    if script.loads.is_empty() {
        return Err(ScriptFault::At(0, ScriptFlaw::Empty));
    }
    Ok(script)
}
