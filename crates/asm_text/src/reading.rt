//! Parsing of a source.

ghost use Rattle.std.specs.Prelude.{◌≤◌, length, IfOk, IfErr};
ghost use Rattle.asm_text.specs.declared.limits.TheConstants.{MAX_SOURCE};
ghost use Rattle.asm_text.specs.Sources.{SpellsSource};
ghost use Rattle.asm_text.specs.SourceParsing.{parsed_source};
ghost use Rattle.asm_text.specs.Views.{ParsesSource, SpellsNoSource, source_view};

use crate::fault::LineFault;
use crate::progress::{no_progress, source_end, take_numbered};
use crate::sources::Source;
use std::alloc::Global;
use text_tokens::split_line;
use word_ops::Profile;

/// Parses the text as a source. Errors: the first wrong line, or out of memory.
fn parse(alloc: Global, text: &[u8], profile: Profile, left: bool) -> Result<Source, LineFault>
    requires short { length text.now ≤ MAX_SOURCE }
    ensures { ParsesSource source_view (parsed_source profile left text.now) result }
{
    let mut progress = no_progress(alloc);
    let mut rest = text;
    let mut n = 1;
    'lines: while !rest.is_empty() {
        let (line, more) = split_line(rest);
        match take_numbered(alloc, &mut progress, n, line, profile, left) {
            Ok(()) => {}
            Err(fault) => return Err(fault),
        }
        rest = more;
        n += 1;
    }
    source_end(progress)
}

/// Parses `text`, of at most `MAX_SOURCE` bytes, as a source of `profile`: its instructions, labels
/// and invariants. If `left` is true, invariants may name the remaining steps (`left`, see
/// `formula_text::read_form`).
///
/// Errors: the first line that is wrong, with its number and why (`specs/Faults`); `Memory` says
/// nothing about `text`. The grammar is this project's own (`specs/Sources`, `specs/Statements`,
/// `specs/Insns`).
pub fn read_source(
    alloc: Global,
    text: &[u8],
    profile: Profile,
    left: bool,
) -> Result<Source, LineFault>
    requires short { length text.now ≤ MAX_SOURCE }
    ensures spells { IfOk result (λ s. SpellsSource profile left text.now (source_view s)) }
    ensures none { IfErr result (λ e. SpellsNoSource profile left text.now e) }
    ensures exact { ParsesSource source_view (parsed_source profile left text.now) result }
{
    parse(alloc, text, profile, left)
}
