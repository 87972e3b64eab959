//! `list FILE [SOURCE]`: shows a container as a source, or what a file looks like that is none.

ghost use Rattle.std.specs.Prelude.{◌≡◌, ◌≤◌, length, option_map, Ok, IfOk};
ghost use Rattle.asm_text.specs.declared.limits.TheConstants.{MAX_SOURCE};
ghost use Rattle.proof_container.specs.Contents.{Contents};
ghost use Rattle.proof_container.specs.Decoding.{decoded_container};
ghost use Rattle.view_container.specs.Listing.{listing_text};
ghost use Rattle.pcc_stages.specs.Runs.{done_exit};
ghost use Rattle.pcc_stages.specs.Stage.{gives};
ghost use Rattle.pcc_stages.specs.Answers.{Gives, GivesPure};
ghost use Rattle.pcc_stages.specs.declared.files.TheConstants.{MAX_FILE};
ghost use Rattle.proof_container.specs.Versions.{IsVersion, IsBoundOf};
ghost use Rattle.view_container.specs.Views.{beside_view};
ghost use Rattle.view_cli.specs.Commands.List.{beside_in, source_beside, unlisted_exit};
ghost use Rattle.view_cli.specs.Commands.List.{listing_beside, listing_in, list_command};
ghost use Rattle.view_cli.specs.Inside.Founds.{IsFoundIn, beside_source};
ghost use Rattle.view_cli.specs.Reports.{exit_of_report};

use crate::ListArgs;
use crate::commands::faults::text_of;
use crate::report::Report;
use file_port::Files;
use pcc_gate::Refusal;
use pcc_stages::{MAX_FILE, RefusedLine, Stop, bytes_of};
use proof_container::{Flaw, Malformed, read};
use std::alloc::{AllocError, Global};
use view_container::{Beside, ListFault, list};
use view_looks::look_of;
use view_source_faults::{CodeFault, SourceCode, source_code};

/// What bytes are found to be that were read as a container.
#[derive(Clone, Copy, Debug, PartialEq, Eq)]
pub enum Found {
    /// A container of this version, with this bound.
    Container(u32, Option<u32>),
    /// No container, at this offset and for this reason.
    Not(u64, Flaw),
}

/// Returns what the bytes are found to be. Errors: out of memory.
pub fn found_in(alloc: Global, bytes: &[u8]) -> Result<Found, AllocError>
    ensures { IfOk result (IsFoundIn bytes.now) }
{
    match read(alloc, bytes) {
        Ok(container) => {
            let (version, bound) = (container.version, container.bound);
            drop(container);
            Ok(Found::Container(version, bound))
        }
        Err(Malformed::At(offset, flaw)) => Ok(Found::Not(offset, flaw)),
        Err(Malformed::Memory) => Err(AllocError),
    }
}

/// What is said of bytes that aren't a container, at this offset and for this reason.
fn unlisted<'a>(alloc: Global, offset: u64, flaw: Flaw, bytes: &[u8]) -> Result<Report, Stop<'a>>
    requires { length bytes.now ≤ MAX_FILE }
    ensures { GivesPure exit_of_report (gives (unlisted_exit bytes.now (offset, flaw))) result }
{
    match look_of(alloc, bytes) {
        Ok(look) => Ok(Report::NoContainer(offset, flaw, look)),
        Err(_) => Err(Stop::Memory),
    }
}

/// The source that the text spells, for a container of this version and with this bound.
#[tactic(auto, unfolding(crate::specs::Commands::List::beside_in))]
fn source_in<'a>(
    alloc: Global,
    version: u32,
    bound: Option<u32>,
    text: &[u8],
) -> Result<Option<SourceCode>, Stop<'a>>
    requires text { length text.now ≤ MAX_SOURCE }
    requires version { IsVersion version }
    requires bound { IsBoundOf version bound }
    ensures { GivesPure beside_source (beside_in version bound text.now) result }
{
    match source_code(alloc, version, bound, text) {
        Ok(source) => Ok(Some(source)),
        Err(CodeFault::Line(line, flaw)) => Err(Stop::Refused(RefusedLine::BadLine(line, flaw))),
        Err(CodeFault::Assembling(flaw)) => Err(Stop::Refused(RefusedLine::BadSource(flaw))),
        Err(CodeFault::Memory) => Err(Stop::Memory),
    }
}

/// Returns the source in the file with this name, or none if no name is given.
#[tactic(auto, unfolding(crate::specs::Commands::List::source_beside))]
pub fn source_of<'a, F: Files>(
    alloc: Global,
    version: u32,
    bound: Option<u32>,
    name: Option<&'a str>,
    files: &mut F,
) -> Result<Option<SourceCode>, Stop<'a>>
    requires version { IsVersion version }
    requires bound { IsBoundOf version bound }
    ensures { Gives beside_source
        (source_beside version bound (option_map (λ n. n.now) name.entry))
        (F.log files.old) (F.log files.new) (F.state files.old) (F.state files.new) result }
{
    let Some(name) = name else {
        return Ok(None);
    };
    let text = text_of(alloc, name, files)?;
    source_in(alloc, version, bound, &text)
}

/// The source, if there is one, as it is listed beside a container.
fn beside(source: &Option<SourceCode>) -> Beside<'_>
    ensures { beside_view result ≡ beside_source source.now }
{
    match source {
        None => Beside {
            lines: &[],
            code: None,
        },
        Some(source) => Beside {
            lines: &source.lines,
            code: Some(&source.code),
        },
    }
}

/// The listing of the container that the bytes are.
fn listed<'a>(alloc: Global, bytes: &[u8], source: &Option<SourceCode>) -> Result<Report, Stop<'a>>
    requires { length bytes.now ≤ MAX_FILE }
    ensures { (c : Contents) → decoded_container bytes.now ≡ Ok c
        → GivesPure exit_of_report (gives (done_exit (listing_text c (beside_source source.now))))
        result }
{
    match list(alloc, bytes, beside(source)) {
        Ok(text) => Ok(Report::Text(text)),
        Err(ListFault::TooLong(_)) => Err(Stop::Refused(RefusedLine::ContainerTooLong)),
        Err(ListFault::Malformed(offset, flaw)) => Err(Stop::Refused(RefusedLine::Container(
            Refusal::Malformed(offset, flaw),
        ))),
        Err(ListFault::Memory | ListFault::Results) => Err(Stop::Memory),
    }
}

/// Reads the source if it is given, and lists the container that the bytes are, of this version and
/// with this bound.
fn listed_beside<'a, F: Files>(
    alloc: Global,
    version: u32,
    bound: Option<u32>,
    bytes: &[u8],
    source: Option<&'a str>,
    files: &mut F,
) -> Result<Report, Stop<'a>>
    requires bytes { length bytes.now ≤ MAX_FILE }
    requires version { IsVersion version }
    requires bound { IsBoundOf version bound }
    ensures { (c : Contents) → decoded_container bytes.now ≡ Ok c → c.version ≡ version
        → c.bound ≡ bound
        → Gives exit_of_report (listing_beside (option_map (λ n. n.now) source.entry) c)
        (F.log files.old) (F.log files.new) (F.state files.old) (F.state files.new) result }
{
    let source = source_of(alloc, version, bound, source, files)?;
    listed(alloc, bytes, &source)
}

/// Reads the source if it is given, and lists the container that the bytes are, if they are one.
fn listed_in<'a, F: Files>(
    alloc: Global,
    bytes: &[u8],
    source: Option<&'a str>,
    files: &mut F,
) -> Result<Report, Stop<'a>>
    requires { length bytes.now ≤ MAX_FILE }
    ensures { Gives exit_of_report (listing_in (option_map (λ n. n.now) source.entry) bytes.now
        (decoded_container bytes.now))
        (F.log files.old) (F.log files.new) (F.state files.old) (F.state files.new) result }
{
    match found_in(alloc, bytes) {
        Ok(Found::Container(version, bound)) => {
            listed_beside(alloc, version, bound, bytes, source, files)
        }
        Ok(Found::Not(offset, flaw)) => unlisted(alloc, offset, flaw, bytes),
        Err(_) => Err(Stop::Memory),
    }
}

/// Reads the container, and the source if it is given, and lists the container.
pub fn list_command<'a, F: Files>(
    alloc: Global,
    args: ListArgs<'a>,
    files: &mut F,
) -> Result<Report, Stop<'a>>
    ensures { let a = args.entry in
        Gives exit_of_report (list_command a.file.now (option_map (λ n. n.now) a.source))
        (F.log files.old) (F.log files.new) (F.state files.old) (F.state files.new) result }
{
    let bytes = bytes_of(
        alloc,
        args.file,
        MAX_FILE,
        RefusedLine::ContainerTooLong,
        files,
    )?;
    listed_in(alloc, &bytes, args.source, files)
}
