//! What a run prints.

ghost use Rattle.std.specs.Prelude.{◌≡◌};
ghost use Rattle.file_port.specs.Sink.{Puts};
ghost use Rattle.native_cli.specs.Reports.{native_exit};

use crate::texts::{print_help, print_usage, print_version};
use file_port::{Put, Sink};
use pcc_lines::print_written;

/// What a run prints, and with which exit status it ends.
#[derive(Drop)]
pub enum Report {
    /// The usage line: the arguments aren't a command.
    Usage,
    /// The help text.
    Help,
    /// The program's version.
    Version,
    /// So many bytes were written.
    Written(u64),
}

impl Report {
    /// Returns the exit status of the run if all of the report is written.
    pub fn status(&self) -> u8
        ensures { result ≡ (native_exit self.now).status }
    {
        match self {
            Report::Usage => 2,
            Report::Help | Report::Version | Report::Written(_) => 0,
        }
    }

    /// Prints the report; stops at the first write that fails.
    pub fn print<S: Sink>(self, out: &mut S) -> Put
        ensures { Puts (native_exit self).text (S.state out.old) (S.state out.new) result }
    {
        match self {
            Report::Usage => print_usage(out),
            Report::Help => print_help(out),
            Report::Version => print_version(out),
            Report::Written(count) => print_written(count, out),
        }
    }
}
