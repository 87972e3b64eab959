//! What a run prints.

ghost use Rattle.std.specs.Prelude.{◌≡◌};
ghost use Rattle.file_port.specs.Sink.{Puts};
ghost use Rattle.auto_cli.specs.Reports.{auto_exit};

use crate::texts::{print_flags, print_found, print_help, print_usage, print_version};
use file_port::{Put, Sink};

/// What a run prints, and with which exit status it ends.
#[derive(Drop)]
pub enum Report {
    /// The usage line: the arguments aren't a command.
    Usage,
    /// The help text.
    Help,
    /// The program's version.
    Version,
    /// The line that flags go with no container.
    Flags,
    /// So many bytes were written, of a container with so many invariants.
    Found(u64, u64),
    /// The goals that are left.
    Left(Vec<u8>),
}

impl Report {
    /// Returns the exit status of the run if all of the report is written.
    pub fn status(&self) -> u8
        ensures { result ≡ (auto_exit self.now).status }
    {
        match self {
            Report::Usage => 2,
            Report::Help | Report::Version | Report::Found(_, _) => 0,
            Report::Flags | Report::Left(_) => 1,
        }
    }

    /// Prints the report; stops at the first write that fails.
    pub fn print<S: Sink>(self, out: &mut S) -> Put
        ensures { Puts (auto_exit self).text (S.state out.old) (S.state out.new) result }
    {
        match self {
            Report::Usage => print_usage(out),
            Report::Help => print_help(out),
            Report::Version => print_version(out),
            Report::Flags => print_flags(out),
            Report::Found(count, invariants) => print_found(count, invariants, out),
            Report::Left(text) => out.put(&text),
        }
    }
}
