//! The lines of pcc_auto.

ghost use Rattle.file_port.specs.Sink.{Puts};
ghost use Rattle.auto_cli.specs.Texts.{auto_usage_line, auto_help_text, auto_version_text};
ghost use Rattle.auto_cli.specs.Texts.{flags_line, found_line};

use arrayvec::ArrayVec;
use file_port::{Put, Sink};
use pcc_lines::{Line, push_decimal, push_text};

/// Prints the usage line.
#[tactic(auto, unfolding(crate::specs::Texts::auto_usage_line))]
pub(crate) fn print_usage<S: Sink>(out: &mut S) -> Put
    ensures { Puts auto_usage_line (S.state out.old) (S.state out.new) result }
{
    out.put(b"usage: pcc_auto POLICY IN OUT [--v2] [--bound N]\n")
}

/// Prints the help text.
#[tactic(auto, unfolding(crate::specs::Texts::auto_help_text))]
pub(crate) fn print_help<S: Sink>(out: &mut S) -> Put
    ensures { Puts auto_help_text (S.state out.old) (S.state out.new) result }
{
    out.put(
        b"pcc_auto finds invariants and a proof; pcc check judges what it writes.\n\
        \n\
        pcc_auto POLICY IN OUT [--v2] [--bound N]\n\
        pcc_auto --help, pcc_auto --version\n\
        \n\
        POLICY is filter, tag or table, or @NAME for the policy in the file NAME.\n\
        IN is a source, as for pcc asm, or a container, with no flags.\n\
        \n\
        pcc_auto filter examples/lesson/uncut.s ../zeros\n\
        pcc_auto filter examples/c/checksum.s ../checksum --v2\n",
    )
}

/// Prints the program's version, and which containers it reads.
#[tactic(auto, unfolding(crate::specs::Texts::auto_version_text))]
pub(crate) fn print_version<S: Sink>(out: &mut S) -> Put
    ensures { Puts auto_version_text (S.state out.old) (S.state out.new) result }
{
    out.put(b"pcc_auto 1.0.0\ncontainers of version 1 to 4\n")
}

/// Prints that flags go with no container.
#[tactic(auto, unfolding(crate::specs::Texts::flags_line))]
pub(crate) fn print_flags<S: Sink>(out: &mut S) -> Put
    ensures { Puts flags_line (S.state out.old) (S.state out.new) result }
{
    out.put(b"flags with a container\n")
}

/// Prints how many bytes were written, and how many invariants the container has.
#[tactic(auto, unfolding(crate::specs::Texts::found_line))]
pub(crate) fn print_found<S: Sink>(count: u64, invariants: u64, out: &mut S) -> Put
    ensures { Puts (found_line count invariants) (S.state out.old) (S.state out.new) result }
{
    let mut line: Line = ArrayVec::new();
    push_text(&mut line, "written ");
    push_decimal(&mut line, count);
    push_text(&mut line, ", invariants ");
    push_decimal(&mut line, invariants);
    push_text(&mut line, "\n");
    out.put(line.as_slice())
}
