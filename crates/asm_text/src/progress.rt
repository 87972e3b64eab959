//! Parsing of a source, line by line.

ghost use Rattle.std.specs.Prelude.{◌≡◌, Some, OnOk};
ghost use Rattle.asm_text.specs.Statements.{AnInsn};
ghost use Rattle.asm_text.specs.SourceParsing.{take_label, take_statement, take_text, take_inv};
ghost use Rattle.asm_text.specs.SourceParsing.{take_body, take_line, source_end};
ghost use Rattle.asm_text.specs.SourceParsing.{no_progress};
ghost use Rattle.formula_tree.specs.Views.{form_view};
ghost use Rattle.asm_text.specs.Views.{ParsesSource, source_insn_view, source_view};
ghost use Rattle.asm_text.specs.Inside.Views.{progress_view, IsSoundProgress};
ghost use Rattle.asm_text.specs.Inside.Views.{TakesOn, TakesOnLine};

use crate::fault::{LineFault, LineFlaw, Refused};
use crate::insns::{SrcInsn, owned_label};
use crate::limits::{MAX_INSNS, MAX_INVS, MAX_LINE};
use crate::sources::Source;
use crate::statements::{Statement, are_printable, before_comment, read_statement, split_label};
use formula_tree::Form;
use std::alloc::Global;
use std::collections::BTreeSet;
use word_ops::Profile;

/// The source so far, and the line of an invariant whose instruction is still to come.
#[derive(Drop)]
pub struct Progress<'t> {
    pub source: Source,
    pub waiting: Option<u32>,
    // the labels' texts, in an order in which they are found fast
    pub known: BTreeSet<&'t [u8]>,
}

/// Returns the state before the first line.
pub fn no_progress<'t>(alloc: Global) -> Progress<'t>
    ensures view { progress_view result ≡ no_progress }
    ensures sound { IsSoundProgress result }
{
    Progress {
        source: Source {
            insns: Vec::new(alloc),
            labels: Vec::new(alloc),
            invs: Vec::new(alloc),
        },
        waiting: None,
        known: BTreeSet::new(alloc),
    }
}

/// Takes the label of a line.
fn take_label<'t>(alloc: Global, progress: &mut Progress<'t>, text: &'t [u8]) -> Result<(), Refused>
    requires sound { IsSoundProgress progress.old }
    ensures takes { TakesOn (take_label (Some text.now) (progress_view progress.old))
        (progress_view progress.new) result }
    ensures sound { OnOk result (IsSoundProgress progress.new) }
{
    if progress.known.contains(text) {
        return Err(Refused::Flaw(LineFlaw::DoubleLabel));
    }
    let label = owned_label(alloc, text)?;
    let index = progress.source.insns.len() as u32;
    progress.known.insert(text)?;
    progress.source.labels.push((label, index))?;
    Ok(())
}

/// Takes an instruction of line `n`.
fn take_insn(progress: &mut Progress<'_>, n: u32, insn: SrcInsn) -> Result<(), Refused>
    requires sound { IsSoundProgress progress.old }
    ensures takes { TakesOn (take_statement n (AnInsn (source_insn_view insn))
        (progress_view progress.old)) (progress_view progress.new) result }
    ensures sound { OnOk result (IsSoundProgress progress.new) }
{
    if progress.source.insns.len() >= MAX_INSNS {
        drop(insn);
        return Err(Refused::Flaw(LineFlaw::Length));
    }
    progress.source.insns.push((n, insn))?;
    progress.waiting = None;
    Ok(())
}

/// Takes an invariant of line `n`.
fn take_inv(progress: &mut Progress<'_>, n: u32, form: Form) -> Result<(), Refused>
    requires sound { IsSoundProgress progress.old }
    ensures takes { TakesOn (take_inv n (form_view form) (progress_view progress.old)
        progress.old.waiting) (progress_view progress.new) result }
    ensures sound { OnOk result (IsSoundProgress progress.new) }
{
    if progress.waiting.is_some() {
        drop(form);
        return Err(Refused::Flaw(LineFlaw::DoubleInvariant));
    }
    if progress.source.invs.len() >= MAX_INVS {
        drop(form);
        return Err(Refused::Flaw(LineFlaw::Length));
    }
    let index = progress.source.insns.len() as u32;
    progress.source.invs.push((index, form))?;
    progress.waiting = Some(n);
    Ok(())
}

/// Takes the statement of line `n`, from the text after its label.
fn take_statement(
    alloc: Global,
    progress: &mut Progress<'_>,
    n: u32,
    text: &[u8],
    profile: Profile,
    left: bool,
) -> Result<(), Refused>
    requires sound { IsSoundProgress progress.old }
    ensures takes { TakesOn (take_text profile left n text.now (progress_view progress.old))
        (progress_view progress.new) result }
    ensures sound { OnOk result (IsSoundProgress progress.new) }
{
    match read_statement(alloc, text, profile, left)? {
        Statement::NoStatement => Ok(()),
        Statement::Insn(insn) => take_insn(progress, n, insn),
        Statement::Inv(form) => take_inv(progress, n, form),
    }
}

/// Takes what precedes the comment of line `n`.
fn take_body<'t>(
    alloc: Global,
    progress: &mut Progress<'t>,
    n: u32,
    body: &'t [u8],
    profile: Profile,
    left: bool,
) -> Result<(), Refused>
    requires sound { IsSoundProgress progress.old }
    ensures takes { TakesOn (take_body profile left n body.now (progress_view progress.old))
        (progress_view progress.new) result }
    ensures sound { OnOk result (IsSoundProgress progress.new) }
{
    match split_label(body) {
        None => take_statement(alloc, progress, n, body, profile, left),
        Some((label, rest)) => {
            take_label(alloc, progress, label)?;
            take_statement(alloc, progress, n, rest, profile, left)
        }
    }
}

/// Takes line `n`.
#[tactic(auto, unfolding(crate::specs::SourceParsing::take_line))]
fn take_line<'t>(
    alloc: Global,
    progress: &mut Progress<'t>,
    n: u32,
    line: &'t [u8],
    profile: Profile,
    left: bool,
) -> Result<(), Refused>
    requires sound { IsSoundProgress progress.old }
    ensures takes { TakesOn (take_line profile left n line.now (progress_view progress.old))
        (progress_view progress.new) result }
    ensures sound { OnOk result (IsSoundProgress progress.new) }
{
    if line.len() > MAX_LINE {
        return Err(Refused::Flaw(LineFlaw::Length));
    }
    if !are_printable(line) {
        return Err(Refused::Flaw(LineFlaw::Character));
    }
    take_body(alloc, progress, n, before_comment(line), profile, left)
}

/// Takes line `n`. Errors: `n` and what is wrong with the line, or out of memory.
pub fn take_numbered<'t>(
    alloc: Global,
    progress: &mut Progress<'t>,
    n: u32,
    line: &'t [u8],
    profile: Profile,
    left: bool,
) -> Result<(), LineFault>
    requires sound { IsSoundProgress progress.old }
    ensures takes { TakesOnLine n (take_line profile left n line.now (progress_view progress.old))
        (progress_view progress.new) result }
    ensures sound { OnOk result (IsSoundProgress progress.new) }
{
    match take_line(alloc, progress, n, line, profile, left) {
        Ok(()) => Ok(()),
        Err(Refused::Flaw(flaw)) => Err(LineFault::At(n, flaw)),
        Err(Refused::Memory) => Err(LineFault::Memory),
    }
}

/// Returns the source after the last line.
///
/// Errors: the line of an invariant that no instruction follows, or line 0 if there is no
/// instruction.
pub fn source_end(progress: Progress<'_>) -> Result<Source, LineFault>
    ensures { ParsesSource source_view (source_end (progress_view progress.entry)
        progress.entry.waiting) result }
{
    let Progress {
        source,
        waiting,
        known: _,
    } = progress;
    match waiting {
        Some(n) => {
            drop(source);
            Err(LineFault::At(n, LineFlaw::LooseInvariant))
        }
        None => {
            if source.insns.is_empty() {
                drop(source);
                Err(LineFault::At(0, LineFlaw::Length))
            } else {
                Ok(source)
            }
        }
    }
}
