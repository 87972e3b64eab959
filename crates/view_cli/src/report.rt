//! What a command prints.

ghost use Rattle.std.specs.Prelude.{◌≡◌};
ghost use Rattle.file_port.specs.Sink.{Puts};
ghost use Rattle.view_cli.specs.Reports.{exit_of_report};

use crate::texts::{
    print_formula_too_long, print_help, print_no_packet, print_no_start, print_usage, print_version,
};
use crate::trace_job::TraceJob;
use file_port::{Put, Sink};
use proof_container::Flaw;
use view_looks::{Look, print_no_container};

/// What a command prints, and with which exit status it ends.
#[derive(Drop)]
pub enum Report {
    /// The usage line: the arguments aren't a command.
    Usage,
    /// The help text.
    Help,
    /// The program's version.
    Version,
    /// What the command was asked for.
    Text(Vec<u8>),
    /// What is wrong with a text.
    Fault(Vec<u8>),
    /// The line that bytes aren't a container, at this offset and for this reason, and what they look
    /// like.
    NoContainer(u64, Flaw, Look),
    /// The line that a formula's text is too long.
    FormulaTooLong,
    /// The line that there is no packet with this number.
    NoPacket(u64),
    /// The line that the policy has no start, since it is from a file.
    NoStart,
    /// The run on a packet, step by step.
    Traced(TraceJob),
}

impl Report {
    /// Returns the exit status of the run if all of the report is written.
    pub fn status(&self) -> u8
        ensures { result ≡ (exit_of_report self.now).status }
    {
        match self {
            Report::Usage => 2,
            Report::Help | Report::Version | Report::Text(_) | Report::Traced(_) => 0,
            Report::Fault(_)
            | Report::NoContainer(_, _, _)
            | Report::FormulaTooLong
            | Report::NoPacket(_)
            | Report::NoStart => 1,
        }
    }

    /// Prints the report; stops at the first write that fails.
    pub fn print<S: Sink>(self, out: &mut S) -> Put
        ensures { Puts (exit_of_report self).text (S.state out.old) (S.state out.new) result }
    {
        match self {
            Report::Usage => print_usage(out),
            Report::Help => print_help(out),
            Report::Version => print_version(out),
            Report::Text(text) => out.put(&text),
            Report::Fault(text) => out.put(&text),
            Report::NoContainer(offset, flaw, look) => print_no_container(offset, flaw, look, out),
            Report::FormulaTooLong => print_formula_too_long(out),
            Report::NoPacket(number) => print_no_packet(number, out),
            Report::NoStart => print_no_start(out),
            Report::Traced(job) => job.print(out),
        }
    }
}
