//! Why there is no proof of a container.

ghost use Rattle.std.specs.Prelude.{◌≤◌, length};
ghost use Rattle.file_port.specs.Sink.{Puts};
ghost use Rattle.pcc_lines.specs.Proving.{not_easy_line, too_big_line};

use crate::line::{Line, push_decimal, push_text};
use arrayvec::ArrayVec;
use file_port::{Put, Sink};

/// The maximal length in bytes of the name of a measure.
pub const MAX_MEASURE: usize = 7;

/// Prints which part of the verification condition isn't easy, as one piece.
#[tactic(auto, unfolding(crate::specs::Proving::not_easy_line))]
pub fn print_not_easy<S: Sink>(part: u32, out: &mut S) -> Put
    ensures { Puts (not_easy_line part) (S.state out.old) (S.state out.new) result }
{
    let mut line: Line = ArrayVec::new();
    push_text(&mut line, "not easy ");
    push_decimal(&mut line, u64::from(part));
    push_text(&mut line, "\n");
    out.put(line.as_slice())
}

/// Prints that the measure called `name`, of at most `MAX_MEASURE` bytes, is past its limit, and
/// that it is `number`, as one piece.
#[tactic(auto, unfolding(crate::specs::Proving::too_big_line))]
pub fn print_too_big<S: Sink>(name: &str, number: u64, out: &mut S) -> Put
    requires { length name.now ≤ MAX_MEASURE }
    ensures { Puts (too_big_line name.now number) (S.state out.old) (S.state out.new) result }
{
    let mut line: Line = ArrayVec::new();
    push_text(&mut line, "too big ");
    push_text(&mut line, name);
    push_text(&mut line, " ");
    push_decimal(&mut line, number);
    push_text(&mut line, "\n");
    out.put(line.as_slice())
}
