//! `formula FILE [--v2] [--bound]`, `formula FILE --policy`, and `source FILE [--v2] [--bound N]`:
//! shows what a text is, or what is wrong with it.

ghost use Rattle.std.specs.Prelude.{◌≡◌, ◌≤◌, length, IfOk};
ghost use Rattle.asm_text.specs.declared.limits.TheConstants.{MAX_SOURCE};
ghost use Rattle.pcc_words.specs.Commands.{IsVersionOf};
ghost use Rattle.pcc_stages.specs.Stage.{gives};
ghost use Rattle.pcc_stages.specs.Answers.{Gives, GivesPure};
ghost use Rattle.view_faults.specs.PolicyReports.{policy_report};
ghost use Rattle.view_source_faults.specs.SourceReports.{source_report};
ghost use Rattle.view_cli.specs.Commands.Faults.{text_of, told_exit, formula_exit};
ghost use Rattle.view_cli.specs.Commands.Faults.{formula_command, policy_command, source_command};
ghost use Rattle.view_cli.specs.Reports.{exit_of_report};

use crate::limits::MAX_FORMULA;
use crate::report::Report;
use crate::{FormulaArgs, SourceArgs};
use asm_text::MAX_SOURCE;
use file_port::Files;
use pcc_stages::{MAX_POLICY_FILE, RefusedLine, Stop, bytes_of};
use std::alloc::Global;
use view_faults::{Report as Told, formula_lines, policy_lines};
use view_source_faults::source_lines;
use word_ops::Profile;

/// Reads the text in the file with this name.
pub fn text_of<'a, F: Files>(
    alloc: Global,
    name: &'a str,
    files: &mut F,
) -> Result<Vec<u8>, Stop<'a>>
    ensures exact { Gives (λ bytes. bytes.items) (text_of name.entry.now)
        (F.log files.old) (F.log files.new) (F.state files.old) (F.state files.new) result }
    ensures short { IfOk result (λ bytes. length bytes.items ≤ MAX_SOURCE) }
{
    bytes_of(
        alloc,
        name,
        MAX_SOURCE as u32,
        RefusedLine::SourceTooLong,
        files,
    )
}

/// What is said of a text, as a report.
fn told(told: Told) -> Report
    ensures { exit_of_report result ≡ told_exit (told.right, told.text.items) }
{
    if told.right {
        Report::Text(told.text)
    } else {
        Report::Fault(told.text)
    }
}

/// What is said of a formula's text.
fn formula_told<'a>(
    alloc: Global,
    profile: Profile,
    left: bool,
    text: &[u8],
) -> Result<Report, Stop<'a>>
    ensures { GivesPure exit_of_report (gives (formula_exit profile left text.now)) result }
{
    if text.len() > MAX_FORMULA {
        return Ok(Report::FormulaTooLong);
    }
    match formula_lines(alloc, profile, left, text) {
        Ok(said) => Ok(told(said)),
        Err(_) => Err(Stop::Memory),
    }
}

/// What is said of a policy's text.
fn policy_told<'a>(alloc: Global, text: &[u8]) -> Result<Report, Stop<'a>>
    ensures { GivesPure exit_of_report (gives (told_exit (policy_report text.now))) result }
{
    match policy_lines(alloc, text) {
        Ok(said) => Ok(told(said)),
        Err(_) => Err(Stop::Memory),
    }
}

/// What is said of a source's text.
fn source_told<'a>(
    alloc: Global,
    version: u32,
    bound: Option<u32>,
    text: &[u8],
) -> Result<Report, Stop<'a>>
    requires short { length text.now ≤ MAX_SOURCE }
    requires fits { IsVersionOf bound version }
    ensures { let said = source_report version bound text.now in
        GivesPure exit_of_report (gives (told_exit said)) result }
{
    match source_lines(alloc, version, bound, text) {
        Ok(said) => Ok(told(said)),
        Err(_) => Err(Stop::Memory),
    }
}

/// Reads the text, and reports which formula it is, or what is wrong with it.
pub fn formula_command<'a, F: Files>(
    alloc: Global,
    args: FormulaArgs<'a>,
    files: &mut F,
) -> Result<Report, Stop<'a>>
    ensures { let a = args.entry in
        Gives exit_of_report (formula_command a.file.now a.profile a.left)
        (F.log files.old) (F.log files.new) (F.state files.old) (F.state files.new) result }
{
    let text = text_of(alloc, args.file, files)?;
    formula_told(alloc, args.profile, args.left, &text)
}

/// Reads the text, and reports which policy it is, or what is wrong with it.
pub fn policy_command<'a, F: Files>(
    alloc: Global,
    name: &'a str,
    files: &mut F,
) -> Result<Report, Stop<'a>>
    ensures { Gives exit_of_report (policy_command name.entry.now)
        (F.log files.old) (F.log files.new) (F.state files.old) (F.state files.new) result }
{
    let text = bytes_of(
        alloc,
        name,
        MAX_POLICY_FILE,
        RefusedLine::PolicyTooLong,
        files,
    )?;
    policy_told(alloc, &text)
}

/// Reads the text, and reports what is in the source that it is, or what is wrong with it.
pub fn source_command<'a, F: Files>(
    alloc: Global,
    args: SourceArgs<'a>,
    files: &mut F,
) -> Result<Report, Stop<'a>>
    requires { IsVersionOf args.bound args.version }
    ensures { let a = args.entry in
        Gives exit_of_report (source_command a.file.now a.version a.bound)
        (F.log files.old) (F.log files.new) (F.state files.old) (F.state files.new) result }
{
    let text = text_of(alloc, args.file, files)?;
    source_told(alloc, args.version, args.bound, &text)
}
