//! The lines of `demo`.

ghost use Rattle.std.specs.Prelude.{◌≡◌, ◌+◌, ◌≤◌, ◌++◌, length};
ghost use Rattle.arrayvec.specs.ArrayVec.{array_vec_len};
ghost use Rattle.file_port.specs.Sink.{Puts};
ghost use Rattle.pcc_lines.specs.Demo.{counted_text, demo_code_line, demo_steps_line};
ghost use Rattle.pcc_lines.specs.Demo.{demo_ones_line, demo_lines};

use crate::line::{DIGITS, LINE, Line, push_decimal, push_text};
use arrayvec::ArrayVec;
use file_port::{Put, Sink};

/// The figures that `demo` prints about its runs.
#[derive(Clone, Copy, Debug, PartialEq, Eq)]
pub struct DemoSummary {
    /// The number of code words that were accepted.
    pub words: u64,
    /// The number of invariants.
    pub invariants: u64,
    /// The number of packets that were run.
    pub packets: u64,
    /// The number of steps of all packets together.
    pub steps: u64,
    /// The number of packets for which the code returned 1.
    pub ones: u64,
}

/// The maximal length in bytes of a text that a number follows.
const COUNTED: usize = 16;

/// Appends a text, and the number of what it names.
fn push_count(line: &mut Line, text: &str, number: u64)
    requires text { length text.now ≤ COUNTED }
    requires room { array_vec_len line.old + COUNTED + DIGITS ≤ LINE }
    ensures items { line.new.items ≡ line.old.items ++ counted_text text.now number }
    ensures len { array_vec_len line.new ≤ array_vec_len line.old + COUNTED + DIGITS }
{
    push_text(line, text);
    push_decimal(line, number);
}

/// Prints how many code words and invariants were accepted, as one piece.
#[tactic(auto, unfolding(crate::specs::Demo::demo_code_line))]
fn print_code<S: Sink>(words: u64, invariants: u64, out: &mut S) -> Put
    ensures { Puts (demo_code_line words invariants) (S.state out.old) (S.state out.new) result }
{
    let mut line: Line = ArrayVec::new();
    push_count(&mut line, "code ", words);
    push_count(&mut line, " invariants ", invariants);
    push_text(&mut line, " accepted\n");
    out.put(line.as_slice())
}

/// Prints how many packets were run, and their steps, as one piece.
#[tactic(auto, unfolding(crate::specs::Demo::demo_steps_line))]
fn print_steps<S: Sink>(packets: u64, steps: u64, out: &mut S) -> Put
    ensures { Puts (demo_steps_line packets steps) (S.state out.old) (S.state out.new) result }
{
    let mut line: Line = ArrayVec::new();
    push_count(&mut line, "packets ", packets);
    push_count(&mut line, " steps ", steps);
    push_text(&mut line, "\n");
    out.put(line.as_slice())
}

/// Prints how many packets returned 1, as one piece.
#[tactic(auto, unfolding(crate::specs::Demo::demo_ones_line))]
fn print_ones<S: Sink>(ones: u64, out: &mut S) -> Put
    ensures { Puts (demo_ones_line ones) (S.state out.old) (S.state out.new) result }
{
    let mut line: Line = ArrayVec::new();
    push_count(&mut line, "ones ", ones);
    push_text(&mut line, "\n");
    out.put(line.as_slice())
}

/// Prints the three lines of `demo`; stops at the first write that fails.
pub fn print_demo<S: Sink>(summary: DemoSummary, out: &mut S) -> Put
    ensures { Puts (demo_lines summary) (S.state out.old) (S.state out.new) result }
{
    match print_code(summary.words, summary.invariants, out) {
        Put::Failed => return Put::Failed,
        Put::Done => {}
    }
    match print_steps(summary.packets, summary.steps, out) {
        Put::Failed => return Put::Failed,
        Put::Done => {}
    }
    print_ones(summary.ones, out)
}
