//! Faults of policies from files.

ghost use Rattle.std.specs.Prelude.{◌≤◌, length};
ghost use Rattle.file_port.specs.Sink.{Puts};
ghost use Rattle.pcc_lines.specs.Policies.{policy_lines_line, policy_length_line, policy_form_line};

use crate::line::{Line, push_decimal, push_text};
use arrayvec::ArrayVec;
use file_port::{Put, Sink};

/// The maximal length in bytes of the name of what is wrong with a formula.
pub const MAX_FORM_KIND: usize = 8;

/// Prints how many lines a policy's file has instead of two, as one piece.
#[tactic(auto, unfolding(crate::specs::Policies::policy_lines_line))]
pub fn print_policy_lines<S: Sink>(count: u64, out: &mut S) -> Put
    ensures { Puts (policy_lines_line count) (S.state out.old) (S.state out.new) result }
{
    let mut line: Line = ArrayVec::new();
    push_text(&mut line, "policy Lines ");
    push_decimal(&mut line, count);
    push_text(&mut line, "\n");
    out.put(line.as_slice())
}

/// Prints which line of a policy's file is too long, as one piece.
#[tactic(auto, unfolding(crate::specs::Policies::policy_length_line))]
pub fn print_policy_length<S: Sink>(number: u32, out: &mut S) -> Put
    ensures { Puts (policy_length_line number) (S.state out.old) (S.state out.new) result }
{
    let mut line: Line = ArrayVec::new();
    push_text(&mut line, "policy ");
    push_decimal(&mut line, u64::from(number));
    push_text(&mut line, " Length\n");
    out.put(line.as_slice())
}

/// Prints which line of a policy's file isn't a formula, as one piece: the line's number, the
/// position in it of the first token that is wrong, from 0, and the name of what is wrong there, of
/// at most `MAX_FORM_KIND` bytes.
#[tactic(auto, unfolding(crate::specs::Policies::policy_form_line))]
pub fn print_policy_form<S: Sink>(number: u32, position: u64, kind: &str, out: &mut S) -> Put
    requires { length kind.now ≤ MAX_FORM_KIND }
    ensures { Puts (policy_form_line number position kind.now)
        (S.state out.old) (S.state out.new) result }
{
    let mut line: Line = ArrayVec::new();
    push_text(&mut line, "policy ");
    push_decimal(&mut line, u64::from(number));
    push_text(&mut line, " ");
    push_decimal(&mut line, position);
    push_text(&mut line, " ");
    push_text(&mut line, kind);
    push_text(&mut line, "\n");
    out.put(line.as_slice())
}
