//! Faults of scripts.

ghost use Rattle.std.specs.Prelude.{◌≤◌, length};
ghost use Rattle.file_port.specs.Sink.{Puts};
ghost use Rattle.pcc_lines.specs.Scripts.{script_fault_line};

use crate::line::{Line, push_decimal, push_text};
use arrayvec::ArrayVec;
use file_port::{Put, Sink};

/// The maximal length in bytes of the name of what is wrong with a line of a script.
pub const MAX_SCRIPT_KIND: usize = 5;

/// Prints which line of a script is wrong, and the name of what is wrong with it, of at most
/// `MAX_SCRIPT_KIND` bytes, as one piece.
#[tactic(auto, unfolding(crate::specs::Scripts::script_fault_line))]
pub fn print_script_fault<S: Sink>(number: u32, kind: &str, out: &mut S) -> Put
    requires { length kind.now ≤ MAX_SCRIPT_KIND }
    ensures { Puts (script_fault_line number kind.now) (S.state out.old) (S.state out.new) result }
{
    let mut line: Line = ArrayVec::new();
    push_text(&mut line, "script ");
    push_decimal(&mut line, u64::from(number));
    push_text(&mut line, " ");
    push_text(&mut line, kind);
    push_text(&mut line, "\n");
    out.put(line.as_slice())
}
