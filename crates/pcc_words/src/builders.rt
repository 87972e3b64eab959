//! The command line as calls of clap's builders make it, a function for each shape.
ghost use Rattle.std.specs.Prelude.{◌≡◌, IfOk, false};
ghost use Rattle.clap.specs.Words.{app_of, rule_of};
ghost use Rattle.clap.specs.declared.Command.TheViews.{out-Command as fields_of};
ghost use Rattle.pcc_words.specs.Invocations.{policy_app, file_app, input_app, copy_app};
ghost use Rattle.pcc_words.specs.Invocations.{packets_app, run_app, number_app, steps_rule};
ghost use Rattle.pcc_words.specs.Invocations.{version_rule, versioned_app, upgrades_app};
ghost use Rattle.pcc_words.specs.Invocations.{bound_rule, bounded_app};
ghost use Rattle.pcc_words.specs.Invocations.{asm_app, copies_app, file_commands_app};
ghost use Rattle.pcc_words.specs.Invocations.{runs_app, named_files_app, demos_app, pcc_app};
ghost use Rattle.pcc_words.specs.Invocations.{path_app, paths_app, script_app, hosts_app};
ghost use Rattle.pcc_words.specs.Invocations.{positional as positional_rule};

use crate::limits::{MAX_BOUND, MAX_DEMO, MAX_STEPS};
use clap::{Arg, ArgAction, Command, value_parser};
use std::alloc::{AllocError, Global};

/// Returns a required positional argument.
pub fn positional<'a>(alloc: Global, id: &'a str) -> Arg<'a>
    ensures rule { rule_of result ≡ positional_rule id.entry.now }
    ensures local { result.global ≡ false }
{
    Arg::new(alloc, id).required(true)
}

/// Returns the option `--steps N`.
pub fn steps<'a>(alloc: Global) -> Arg<'a>
    ensures rule { rule_of result ≡ steps_rule }
    ensures local { result.global ≡ false }
{
    Arg::new(alloc, "steps")
        .long("steps")
        .value_parser(value_parser!(u64).range(1..=MAX_STEPS as i64))
        .default_value("1000000")
}

/// Returns the flag `--v2`.
pub fn version_flag<'a>(alloc: Global) -> Arg<'a>
    ensures rule { rule_of result ≡ version_rule }
    ensures local { result.global ≡ false }
{
    Arg::new(alloc, "v2").long("v2").action(ArgAction::SetTrue)
}

/// Returns the option `--bound N`.
pub fn bound<'a>(alloc: Global) -> Arg<'a>
    ensures rule { rule_of result ≡ bound_rule }
    ensures local { result.global ≡ false }
{
    Arg::new(alloc, "bound")
        .long("bound")
        .value_parser(value_parser!(u64).range(1..=MAX_BOUND as i64))
}

/// `NAME N`
fn number_command<'a>(alloc: Global, name: &'a str) -> Result<Command<'a>, AllocError>
    ensures app { IfOk result (λ c. app_of c ≡ number_app name.entry.now) }
    ensures local { IfOk result (λ c. (fields_of c).has_globals ≡ false) }
{
    let number = positional(alloc, "N").value_parser(value_parser!(u64).range(1..=MAX_DEMO as i64));
    Command::new(alloc, name).arg(number)
}

/// `NAME POLICY`
fn policy_command<'a>(alloc: Global, name: &'a str) -> Result<Command<'a>, AllocError>
    ensures app { IfOk result (λ c. app_of c ≡ policy_app name.entry.now) }
    ensures local { IfOk result (λ c. (fields_of c).has_globals ≡ false) }
{
    Command::new(alloc, name).arg(positional(alloc, "POLICY"))
}

/// Returns the subcommand `NAME POLICY FILE`.
///
/// Errors: out of memory.
pub fn file_command<'a>(alloc: Global, name: &'a str) -> Result<Command<'a>, AllocError>
    ensures app { IfOk result (λ c. app_of c ≡ file_app name.entry.now) }
    ensures local { IfOk result (λ c. (fields_of c).has_globals ≡ false) }
{
    policy_command(alloc, name)?.arg(positional(alloc, "FILE"))
}

/// `NAME POLICY IN`
fn input_command<'a>(alloc: Global, name: &'a str) -> Result<Command<'a>, AllocError>
    ensures app { IfOk result (λ c. app_of c ≡ input_app name.entry.now) }
    ensures local { IfOk result (λ c. (fields_of c).has_globals ≡ false) }
{
    policy_command(alloc, name)?.arg(positional(alloc, "IN"))
}

/// `NAME POLICY IN OUT`
fn copy_command<'a>(alloc: Global, name: &'a str) -> Result<Command<'a>, AllocError>
    ensures app { IfOk result (λ c. app_of c ≡ copy_app name.entry.now) }
    ensures local { IfOk result (λ c. (fields_of c).has_globals ≡ false) }
{
    input_command(alloc, name)?.arg(positional(alloc, "OUT"))
}

/// `NAME POLICY IN OUT [--v2]`
fn versioned_command<'a>(alloc: Global, name: &'a str) -> Result<Command<'a>, AllocError>
    ensures app { IfOk result (λ c. app_of c ≡ versioned_app name.entry.now) }
    ensures local { IfOk result (λ c. (fields_of c).has_globals ≡ false) }
{
    copy_command(alloc, name)?.arg(version_flag(alloc))
}

/// `NAME POLICY IN OUT [--v2] [--bound N]`
fn bounded_command<'a>(alloc: Global, name: &'a str) -> Result<Command<'a>, AllocError>
    ensures app { IfOk result (λ c. app_of c ≡ bounded_app name.entry.now) }
    ensures local { IfOk result (λ c. (fields_of c).has_globals ≡ false) }
{
    versioned_command(alloc, name)?.arg(bound(alloc))
}

/// `NAME SCRIPT`
fn script_command<'a>(alloc: Global, name: &'a str) -> Result<Command<'a>, AllocError>
    ensures app { IfOk result (λ c. app_of c ≡ script_app name.entry.now) }
    ensures local { IfOk result (λ c. (fields_of c).has_globals ≡ false) }
{
    Command::new(alloc, name).arg(positional(alloc, "SCRIPT"))
}

/// `NAME IN`
fn path_command<'a>(alloc: Global, name: &'a str) -> Result<Command<'a>, AllocError>
    ensures app { IfOk result (λ c. app_of c ≡ path_app name.entry.now) }
    ensures local { IfOk result (λ c. (fields_of c).has_globals ≡ false) }
{
    Command::new(alloc, name).arg(positional(alloc, "IN"))
}

/// `NAME IN OUT`
fn paths_command<'a>(alloc: Global, name: &'a str) -> Result<Command<'a>, AllocError>
    ensures app { IfOk result (λ c. app_of c ≡ paths_app name.entry.now) }
    ensures local { IfOk result (λ c. (fields_of c).has_globals ≡ false) }
{
    path_command(alloc, name)?.arg(positional(alloc, "OUT"))
}

/// Returns the subcommand `NAME POLICY FILE PACKETS`.
///
/// Errors: out of memory.
pub fn packets_command<'a>(alloc: Global, name: &'a str) -> Result<Command<'a>, AllocError>
    ensures app { IfOk result (λ c. app_of c ≡ packets_app name.entry.now) }
    ensures local { IfOk result (λ c. (fields_of c).has_globals ≡ false) }
{
    file_command(alloc, name)?.arg(positional(alloc, "PACKETS"))
}

/// `NAME POLICY FILE PACKETS [--steps N]`
fn run_command<'a>(alloc: Global, name: &'a str) -> Result<Command<'a>, AllocError>
    ensures app { IfOk result (λ c. app_of c ≡ run_app name.entry.now) }
    ensures local { IfOk result (λ c. (fields_of c).has_globals ≡ false) }
{
    packets_command(alloc, name)?.arg(steps(alloc))
}

/// The command line with `asm`.
fn asm_command<'a>(alloc: Global) -> Result<Command<'a>, AllocError>
    ensures app { IfOk result (λ c. app_of c ≡ asm_app) }
{
    let added = bounded_command(alloc, "asm")?;
    Command::new(alloc, "pcc")
        .no_binary_name(true)
        .subcommand(added)
}

/// The command line with `asm` and `prove`.
fn copies_command<'a>(alloc: Global) -> Result<Command<'a>, AllocError>
    ensures app { IfOk result (λ c. app_of c ≡ copies_app) }
{
    let added = copy_command(alloc, "prove")?;
    asm_command(alloc)?.subcommand(added)
}

/// The command line with the commands that run no code.
fn file_commands<'a>(alloc: Global) -> Result<Command<'a>, AllocError>
    ensures app { IfOk result (λ c. app_of c ≡ file_commands_app) }
{
    let added = file_command(alloc, "check")?;
    copies_command(alloc)?.subcommand(added)
}

/// The command line with the commands that run no code, and `run`.
fn runs_command<'a>(alloc: Global) -> Result<Command<'a>, AllocError>
    ensures app { IfOk result (λ c. app_of c ≡ runs_app) }
{
    let added = run_command(alloc, "run")?;
    file_commands(alloc)?.subcommand(added)
}

/// The command line with the commands over files.
fn named_files_command<'a>(alloc: Global) -> Result<Command<'a>, AllocError>
    ensures app { IfOk result (λ c. app_of c ≡ named_files_app) }
{
    let added = run_command(alloc, "ref")?;
    runs_command(alloc)?.subcommand(added)
}

/// The command line with the commands over files, and `demo`.
fn demos_command<'a>(alloc: Global) -> Result<Command<'a>, AllocError>
    ensures app { IfOk result (λ c. app_of c ≡ demos_app) }
{
    named_files_command(alloc)?.subcommand(number_command(alloc, "demo")?)
}

/// The command line with the commands over files, `demo` and `upgrade`.
fn upgrades_command<'a>(alloc: Global) -> Result<Command<'a>, AllocError>
    ensures app { IfOk result (λ c. app_of c ≡ upgrades_app) }
{
    let added = paths_command(alloc, "upgrade")?;
    demos_command(alloc)?.subcommand(added)
}

/// The command line with all subcommands except `bpf`.
fn hosts_command<'a>(alloc: Global) -> Result<Command<'a>, AllocError>
    ensures app { IfOk result (λ c. app_of c ≡ hosts_app) }
{
    let added = script_command(alloc, "host")?;
    upgrades_command(alloc)?.subcommand(added)
}

/// Builds the whole command line of pcc.
///
/// Errors: out of memory.
pub fn pcc_command<'a>(alloc: Global) -> Result<Command<'a>, AllocError>
    ensures app { IfOk result (λ c. app_of c ≡ pcc_app) }
{
    let added = paths_command(alloc, "bpf")?;
    hosts_command(alloc)?.subcommand(added)
}
