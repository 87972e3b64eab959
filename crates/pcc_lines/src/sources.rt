//! Lines about a source, and about the container written from it.

ghost use Rattle.std.specs.Prelude.{◌≤◌, length};
ghost use Rattle.file_port.specs.Sink.{Puts};
ghost use Rattle.pcc_lines.specs.Sources.{source_fault_line, written_line};

use crate::line::{Line, push_decimal, push_text};
use arrayvec::ArrayVec;
use file_port::{Put, Sink};

/// The maximal length in bytes of the name of what is wrong with a line of a source.
pub const MAX_SOURCE_KIND: usize = 16;

/// Prints which line of a source is wrong, and the name of what is wrong with it, of at most
/// `MAX_SOURCE_KIND` bytes, as one piece.
#[tactic(auto, unfolding(crate::specs::Sources::source_fault_line))]
pub fn print_source_fault<S: Sink>(number: u32, kind: &str, out: &mut S) -> Put
    requires { length kind.now ≤ MAX_SOURCE_KIND }
    ensures { Puts (source_fault_line number kind.now) (S.state out.old) (S.state out.new) result }
{
    let mut line: Line = ArrayVec::new();
    push_text(&mut line, "line ");
    push_decimal(&mut line, u64::from(number));
    push_text(&mut line, " ");
    push_text(&mut line, kind);
    push_text(&mut line, "\n");
    out.put(line.as_slice())
}

/// Prints how many bytes were written, as one piece.
#[tactic(auto, unfolding(crate::specs::Sources::written_line))]
pub fn print_written<S: Sink>(count: u64, out: &mut S) -> Put
    ensures { Puts (written_line count) (S.state out.old) (S.state out.new) result }
{
    let mut line: Line = ArrayVec::new();
    push_text(&mut line, "written ");
    push_decimal(&mut line, count);
    push_text(&mut line, "\n");
    out.put(line.as_slice())
}
