//! Faults of programs of classic BPF.

ghost use Rattle.std.specs.Prelude.{◌≤◌, length};
ghost use Rattle.file_port.specs.Sink.{Puts};
ghost use Rattle.bpf_words.specs.declared.fault.TheConstants.{MAX_KIND};
ghost use Rattle.pcc_lines.specs.Bpf.{bpf_measure_line, bpf_insn_line, bpf_flaw_line};

use crate::line::{Line, push_decimal, push_text};
use arrayvec::ArrayVec;
use bpf_words::{BpfFlaw, MAX_KIND};
use file_port::{Put, Sink};

/// Prints that a measure of the bytes with the name `kind`, of at most `MAX_KIND` bytes, makes them
/// no program, and that it is `number`, as one piece.
#[tactic(auto, unfolding(crate::specs::Bpf::bpf_measure_line))]
fn print_measure<S: Sink>(kind: &str, number: u64, out: &mut S) -> Put
    requires { length kind.now ≤ MAX_KIND }
    ensures { Puts (bpf_measure_line kind.now number) (S.state out.old) (S.state out.new) result }
{
    let mut line: Line = ArrayVec::new();
    push_text(&mut line, "bpf ");
    push_text(&mut line, kind);
    push_text(&mut line, " ");
    push_decimal(&mut line, number);
    push_text(&mut line, "\n");
    out.put(line.as_slice())
}

/// Prints which instruction is wrong, from 0, and the name of what is wrong with it, of at most
/// `MAX_KIND` bytes, as one piece.
#[tactic(auto, unfolding(crate::specs::Bpf::bpf_insn_line))]
fn print_insn<S: Sink>(index: u64, kind: &str, out: &mut S) -> Put
    requires { length kind.now ≤ MAX_KIND }
    ensures { Puts (bpf_insn_line index kind.now) (S.state out.old) (S.state out.new) result }
{
    let mut line: Line = ArrayVec::new();
    push_text(&mut line, "bpf ");
    push_decimal(&mut line, index);
    push_text(&mut line, " ");
    push_text(&mut line, kind);
    push_text(&mut line, "\n");
    out.put(line.as_slice())
}

/// Prints the first thing that is wrong with bytes that aren't a BPF program, as one piece.
pub fn print_bpf_flaw<S: Sink>(flaw: BpfFlaw, out: &mut S) -> Put
    ensures { Puts (bpf_flaw_line flaw) (S.state out.old) (S.state out.new) result }
{
    match flaw {
        BpfFlaw::Size(_) | BpfFlaw::Count(_) => print_measure(flaw.name(), flaw.number(), out),
        _ => print_insn(flaw.number(), flaw.name(), out),
    }
}
