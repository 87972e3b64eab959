//! The command line as calls of clap's builders make it.

ghost use Rattle.std.specs.Prelude.{◌≡◌, IfOk, false};
ghost use Rattle.clap.specs.Words.{app_of, rule_of};
ghost use Rattle.clap.specs.declared.Command.TheViews.{out-Command as fields_of};
ghost use Rattle.native_cli.specs.Invocations.{name_rule, output_app, native_app};

use clap::{Arg, Command};
use pcc_words::{file_command, positional};
use std::alloc::{AllocError, Global};

/// `--name NAME`
fn name<'a>(alloc: Global) -> Arg<'a>
    ensures rule { rule_of result ≡ name_rule }
    ensures local { result.global ≡ false }
{
    Arg::new(alloc, "name")
        .long("name")
        .default_value("pcc_code")
}

/// `POLICY FILE OUT`
fn output_command<'a>(alloc: Global) -> Result<Command<'a>, AllocError>
    ensures app { IfOk result (λ c. app_of c ≡ output_app) }
    ensures local { IfOk result (λ c. (fields_of c).has_globals ≡ false) }
{
    file_command(alloc, "pcc_native")?
        .no_binary_name(true)
        .arg(positional(alloc, "OUT"))
}

/// Builds the command line of pcc_native. Errors: out of memory.
pub fn native_command<'a>(alloc: Global) -> Result<Command<'a>, AllocError>
    ensures app { IfOk result (λ c. app_of c ≡ native_app) }
{
    output_command(alloc)?.arg(name(alloc))
}
