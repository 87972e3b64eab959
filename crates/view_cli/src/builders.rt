//! The command line as calls of clap's builders make it, a function for each shape.
ghost use Rattle.std.specs.Prelude.{◌≡◌, IfOk, false};
ghost use Rattle.clap.specs.Words.{app_of, rule_of};
ghost use Rattle.clap.specs.declared.Command.TheViews.{out-Command as fields_of};
ghost use Rattle.view_cli.specs.Invocations.{one_file_app, list_app, number_rule, numbered_app};
ghost use Rattle.view_cli.specs.Invocations.{traced_app, versioned_file_app, source_app};
ghost use Rattle.view_cli.specs.Invocations.{flag_rule, left_file_app, formula_app};
ghost use Rattle.view_cli.specs.Invocations.{beside_app, missing_app, goals_form_app};
ghost use Rattle.view_cli.specs.Invocations.{lists_app, goals_app, traces_app, formulas_app};
ghost use Rattle.view_cli.specs.Invocations.{view_app};

use crate::limits::MAX_PACKET_NUMBER;
use clap::{Arg, ArgAction, Command, value_parser};
use pcc_words::{bound, file_command, packets_command, positional, steps, version_flag};
use std::alloc::{AllocError, Global};

/// `K`
fn number<'a>(alloc: Global) -> Arg<'a>
    ensures rule { rule_of result ≡ number_rule }
    ensures local { result.global ≡ false }
{
    positional(alloc, "K").value_parser(value_parser!(u64).range(0..=MAX_PACKET_NUMBER as i64))
}

/// `NAME FILE`
fn one_file_command<'a>(alloc: Global, name: &'a str) -> Result<Command<'a>, AllocError>
    ensures app { IfOk result (λ c. app_of c ≡ one_file_app name.entry.now) }
    ensures local { IfOk result (λ c. (fields_of c).has_globals ≡ false) }
{
    Command::new(alloc, name).arg(positional(alloc, "FILE"))
}

/// `NAME FILE [SOURCE]`
fn list_command<'a>(alloc: Global, name: &'a str) -> Result<Command<'a>, AllocError>
    ensures app { IfOk result (λ c. app_of c ≡ list_app name.entry.now) }
    ensures local { IfOk result (λ c. (fields_of c).has_globals ≡ false) }
{
    one_file_command(alloc, name)?.arg(Arg::new(alloc, "SOURCE"))
}

/// `NAME POLICY FILE PACKETS K`
fn numbered_command<'a>(alloc: Global, name: &'a str) -> Result<Command<'a>, AllocError>
    ensures app { IfOk result (λ c. app_of c ≡ numbered_app name.entry.now) }
    ensures local { IfOk result (λ c. (fields_of c).has_globals ≡ false) }
{
    packets_command(alloc, name)?.arg(number(alloc))
}

/// `NAME POLICY FILE PACKETS K [--steps N]`
fn traced_command<'a>(alloc: Global, name: &'a str) -> Result<Command<'a>, AllocError>
    ensures app { IfOk result (λ c. app_of c ≡ traced_app name.entry.now) }
    ensures local { IfOk result (λ c. (fields_of c).has_globals ≡ false) }
{
    numbered_command(alloc, name)?.arg(steps(alloc))
}

/// `NAME FILE [--v2]`
fn versioned_file_command<'a>(alloc: Global, name: &'a str) -> Result<Command<'a>, AllocError>
    ensures app { IfOk result (λ c. app_of c ≡ versioned_file_app name.entry.now) }
    ensures local { IfOk result (λ c. (fields_of c).has_globals ≡ false) }
{
    one_file_command(alloc, name)?.arg(version_flag(alloc))
}

/// `--NAME`
fn flag<'a>(alloc: Global, name: &'a str) -> Arg<'a>
    ensures rule { rule_of result ≡ flag_rule name.entry.now }
    ensures local { result.global ≡ false }
{
    Arg::new(alloc, name).long(name).action(ArgAction::SetTrue)
}

/// `NAME FILE [--v2] [--bound]`
fn left_file_command<'a>(alloc: Global, name: &'a str) -> Result<Command<'a>, AllocError>
    ensures app { IfOk result (λ c. app_of c ≡ left_file_app name.entry.now) }
    ensures local { IfOk result (λ c. (fields_of c).has_globals ≡ false) }
{
    versioned_file_command(alloc, name)?.arg(flag(alloc, "bound"))
}

/// `NAME FILE [--v2] [--bound] [--policy]`
fn formula_command<'a>(alloc: Global, name: &'a str) -> Result<Command<'a>, AllocError>
    ensures app { IfOk result (λ c. app_of c ≡ formula_app name.entry.now) }
    ensures local { IfOk result (λ c. (fields_of c).has_globals ≡ false) }
{
    left_file_command(alloc, name)?.arg(flag(alloc, "policy"))
}

/// `NAME POLICY FILE [SOURCE]`
fn beside_command<'a>(alloc: Global, name: &'a str) -> Result<Command<'a>, AllocError>
    ensures app { IfOk result (λ c. app_of c ≡ beside_app name.entry.now) }
    ensures local { IfOk result (λ c. (fields_of c).has_globals ≡ false) }
{
    file_command(alloc, name)?.arg(Arg::new(alloc, "SOURCE"))
}

/// `NAME POLICY FILE [SOURCE] [--only-missing]`
fn missing_command<'a>(alloc: Global, name: &'a str) -> Result<Command<'a>, AllocError>
    ensures app { IfOk result (λ c. app_of c ≡ missing_app name.entry.now) }
    ensures local { IfOk result (λ c. (fields_of c).has_globals ≡ false) }
{
    beside_command(alloc, name)?.arg(flag(alloc, "only-missing"))
}

/// `NAME POLICY FILE [SOURCE] [--only-missing] [--all]`
fn goals_form<'a>(alloc: Global, name: &'a str) -> Result<Command<'a>, AllocError>
    ensures app { IfOk result (λ c. app_of c ≡ goals_form_app name.entry.now) }
    ensures local { IfOk result (λ c. (fields_of c).has_globals ≡ false) }
{
    missing_command(alloc, name)?.arg(flag(alloc, "all"))
}

/// `NAME FILE [--v2] [--bound N]`
fn source_command<'a>(alloc: Global, name: &'a str) -> Result<Command<'a>, AllocError>
    ensures app { IfOk result (λ c. app_of c ≡ source_app name.entry.now) }
    ensures local { IfOk result (λ c. (fields_of c).has_globals ≡ false) }
{
    versioned_file_command(alloc, name)?.arg(bound(alloc))
}

/// The command line with `list`.
fn lists_command<'a>(alloc: Global) -> Result<Command<'a>, AllocError>
    ensures app { IfOk result (λ c. app_of c ≡ lists_app) }
{
    let added = list_command(alloc, "list")?;
    Command::new(alloc, "pcc_view")
        .no_binary_name(true)
        .subcommand(added)
}

/// The command line with `list` and `goals`.
fn goals_command<'a>(alloc: Global) -> Result<Command<'a>, AllocError>
    ensures app { IfOk result (λ c. app_of c ≡ goals_app) }
{
    let added = goals_form(alloc, "goals")?;
    lists_command(alloc)?.subcommand(added)
}

/// The command line with `list`, `goals` and `packet`.
fn traces_command<'a>(alloc: Global) -> Result<Command<'a>, AllocError>
    ensures app { IfOk result (λ c. app_of c ≡ traces_app) }
{
    let added = traced_command(alloc, "packet")?;
    goals_command(alloc)?.subcommand(added)
}

/// The command line with all subcommands except `source`.
fn formulas_command<'a>(alloc: Global) -> Result<Command<'a>, AllocError>
    ensures app { IfOk result (λ c. app_of c ≡ formulas_app) }
{
    let added = formula_command(alloc, "formula")?;
    traces_command(alloc)?.subcommand(added)
}

/// Builds the whole command line of pcc_view.
///
/// Errors: out of memory.
pub fn view_command<'a>(alloc: Global) -> Result<Command<'a>, AllocError>
    ensures app { IfOk result (λ c. app_of c ≡ view_app) }
{
    let added = source_command(alloc, "source")?;
    formulas_command(alloc)?.subcommand(added)
}
