//! What ends a command before it is done.

ghost use Rattle.std.specs.Prelude.{◌≡◌};
ghost use Rattle.file_port.specs.Sink.{Puts};
ghost use Rattle.pcc_stages.specs.Runs.{status_after};
ghost use Rattle.pcc_stages.specs.Stops.{stop_exit};

use crate::refused_line::RefusedLine;
use file_port::{Put, Sink};
use pcc_lines::{print_missing, print_read_fault, print_usage, print_write_fault};

/// What ends a command before it is done.
#[derive(Drop)]
pub enum Stop<'a> {
    /// The arguments aren't a command.
    Usage,
    /// What was asked for is refused.
    Refused(RefusedLine),
    /// There is no file with this name, which comes from a script.
    MissingOfScript(String),
    /// The read of the file with this name, which comes from a script, failed.
    ReadFaultOfScript(String),
    /// There is no file with this name.
    Missing(&'a str),
    /// The read of the file with this name failed.
    ReadFault(&'a str),
    /// The write of the file with this name failed.
    WriteFault(&'a str),
    /// There was no memory.
    Memory,
}

impl Stop<'_> {
    /// Returns the exit status of the run if its line is written.
    pub fn status(&self) -> u8
        ensures { result ≡ (stop_exit self.now).status }
    {
        match self {
            Stop::Refused(_) => 1,
            Stop::Usage => 2,
            Stop::Missing(_)
            | Stop::ReadFault(_)
            | Stop::MissingOfScript(_)
            | Stop::ReadFaultOfScript(_) => 3,
            Stop::WriteFault(_) => 4,
            Stop::Memory => 5,
        }
    }

    /// Prints the line of the stop. Out of memory has none.
    pub fn print<S: Sink>(&self, out: &mut S) -> Put
        ensures { Puts (stop_exit self.now).text (S.state out.old) (S.state out.new) result }
    {
        match self {
            Stop::Usage => print_usage(out),
            Stop::Refused(line) => line.print(out),
            Stop::Missing(name) => print_missing(name, out),
            Stop::MissingOfScript(name) => print_missing(name.as_str(), out),
            Stop::ReadFault(name) => print_read_fault(name, out),
            Stop::ReadFaultOfScript(name) => print_read_fault(name.as_str(), out),
            Stop::WriteFault(name) => print_write_fault(name, out),
            Stop::Memory => Put::Done,
        }
    }
}

/// Returns the exit status of a run after its writes to the output: a failed write overrides
/// `status`.
pub fn status_after(status: u8, put: Put) -> u8
    ensures { result ≡ status_after status put }
{
    match put {
        Put::Done => status,
        Put::Failed => 4,
    }
}
