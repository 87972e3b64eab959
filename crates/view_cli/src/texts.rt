//! The texts on how to call the program.

ghost use Rattle.file_port.specs.Sink.{Puts};
ghost use Rattle.view_cli.specs.Texts.{view_usage_line, help_text, version_text};
ghost use Rattle.view_cli.specs.Texts.{formula_too_long_line, absent_packet_line, no_start_line};

use arrayvec::ArrayVec;
use file_port::{Put, Sink};
use pcc_lines::{Line, push_decimal, push_text};

/// Prints the usage line, which lists the commands.
#[tactic(auto, unfolding(crate::specs::Texts::view_usage_line))]
pub fn print_usage<S: Sink>(out: &mut S) -> Put
    ensures { Puts view_usage_line (S.state out.old) (S.state out.new) result }
{
    out.put(b"usage: pcc_view list|goals|packet|formula|source\n")
}

/// Prints the help text: the forms of commands, with examples.
#[tactic(auto, unfolding(crate::specs::Texts::help_text))]
pub fn print_help<S: Sink>(out: &mut S) -> Put
    ensures { Puts help_text (S.state out.old) (S.state out.new) result }
{
    out.put(
        b"pcc_view shows what pcc judges; it judges nothing.\n\
        \n\
        pcc_view list FILE [SOURCE]          the container as a source, \
        beside the lines of SOURCE\n\
        pcc_view goals POLICY FILE [SOURCE] [--only-missing] [--all]\n\
        \x20                                    the condition's goals, \
        with what is known, and which are easy\n\
        pcc_view packet POLICY FILE PACKETS K [--steps N]\n\
        \x20                                    the run on packet K, step by step\n\
        pcc_view formula FILE [--v2] [--bound] [--policy]\n\
        \x20                                    \
        where a formula is wrong, or the two of a policy's file\n\
        pcc_view source FILE [--v2] [--bound N]\n\
        \x20                                    where a source is wrong, as pcc asm reads it\n\
        pcc_view --help, pcc_view --version\n\
        \n\
        POLICY is filter, tag or table, or @NAME for the policy in the file NAME.\n\
        \n\
        pcc_view list examples/port/container examples/port/source.s\n\
        pcc_view goals filter examples/port/container\n\
        pcc_view packet filter examples/port/container examples/frames/packets 0\n",
    )
}

/// Prints the program's version, and which containers it reads.
#[tactic(auto, unfolding(crate::specs::Texts::version_text))]
pub fn print_version<S: Sink>(out: &mut S) -> Put
    ensures { Puts version_text (S.state out.old) (S.state out.new) result }
{
    out.put(b"pcc_view 1.0.0\ncontainers of version 1 to 4\n")
}

/// Prints that a formula's text is longer than `MAX_FORMULA`.
#[tactic(auto, unfolding(crate::specs::Texts::formula_too_long_line))]
pub fn print_formula_too_long<S: Sink>(out: &mut S) -> Put
    ensures { Puts formula_too_long_line (S.state out.old) (S.state out.new) result }
{
    out.put(b"formula TooLong\n")
}

/// Prints that there is no packet with this number.
#[tactic(auto, unfolding(crate::specs::Texts::absent_packet_line))]
pub fn print_no_packet<S: Sink>(number: u64, out: &mut S) -> Put
    ensures { Puts (absent_packet_line number) (S.state out.old) (S.state out.new) result }
{
    let mut line: Line = ArrayVec::new();
    push_text(&mut line, "no packet ");
    push_decimal(&mut line, number);
    push_text(&mut line, "\n");
    out.put(line.as_slice())
}

/// Prints that a policy from a file has no start.
#[tactic(auto, unfolding(crate::specs::Texts::no_start_line))]
pub fn print_no_start<S: Sink>(out: &mut S) -> Put
    ensures { Puts no_start_line (S.state out.old) (S.state out.new) result }
{
    out.put(b"no start: the policy is from a file\n")
}
