//! Result lines: the result of each packet.

ghost use Rattle.std.specs.Prelude.{◌≡◌, ◌+◌, ◌^◌, ◌≤◌, ◌<◌, ◌++◌, length};
ghost use Rattle.arrayvec.specs.ArrayVec.{array_vec_len};
ghost use Rattle.file_port.specs.Sink.{Puts};
ghost use Rattle.packet_store.specs.Packets.{AreShort};
ghost use Rattle.pcc_lines.specs.Results.{result_lines, result_line, result_text, outcome_text, returned_text, blocked_text, kind_text};

use crate::line::{LINE, Line, push_decimal, push_hex, push_text};
use alpha_cfg::{Kind, Outcome};
use arrayvec::ArrayVec;
use file_port::{Put, Sink};
use packet_store::{PacketIter, PacketResult, PacketRunner};
use policy_set::PolicyKind;

/// The maximal length in bytes of the kind of an access.
const KIND: usize = 7;

/// The maximal length in bytes of a result without its number, which a blocked access has.
pub const RESULT: usize = 51;

/// Adds the kind of an access.
fn push_kind(line: &mut Line, kind: Kind)
    requires { array_vec_len line.old + KIND ≤ LINE }
    ensures items { line.new.items ≡ line.old.items ++ kind_text kind }
    ensures len { array_vec_len line.new ≤ array_vec_len line.old + KIND }
{
    match kind {
        Kind::Load => push_text(line, " load "),
        Kind::Store => push_text(line, " store "),
    }
}

/// Appends the number that a return gives and, if the policy's kind has a region, the region's sum.
fn push_returned(line: &mut Line, kind: Option<PolicyKind>, word: u64, sum: u64)
    requires { array_vec_len line.old + RESULT ≤ LINE }
    ensures items { line.new.items ≡ line.old.items ++ returned_text kind word sum }
    ensures len { array_vec_len line.new ≤ array_vec_len line.old + RESULT }
{
    push_decimal(line, word);
    let Some(kind) = kind else {
        return;
    };
    if kind.has_sum() {
        push_text(line, " ");
        push_decimal(line, sum);
    }
}

/// Adds the index, the kind and the address of a blocked access.
fn push_blocked(line: &mut Line, index: u32, kind: Kind, addr: u64)
    requires { array_vec_len line.old + RESULT ≤ LINE }
    ensures items { line.new.items ≡ line.old.items ++ blocked_text index kind addr }
    ensures len { array_vec_len line.new ≤ array_vec_len line.old + RESULT }
{
    push_text(line, "blocked ");
    push_decimal(line, u64::from(index));
    push_kind(line, kind);
    push_hex(line, 16, addr);
}

/// Appends how a run ended.
pub fn push_outcome(line: &mut Line, kind: Option<PolicyKind>, outcome: Outcome, sum: u64)
    requires { array_vec_len line.old + RESULT ≤ LINE }
    ensures items { line.new.items ≡ line.old.items ++ outcome_text kind outcome sum }
    ensures len { array_vec_len line.new ≤ array_vec_len line.old + RESULT }
{
    match outcome {
        Outcome::Returned(word) => push_returned(line, kind, word, sum),
        Outcome::OutOfSteps => push_text(line, "out of steps"),
        Outcome::Blocked {
            index,
            kind: access,
            addr,
        } => push_blocked(line, index, access, addr),
    }
}

/// Appends the result of a packet.
fn push_result(line: &mut Line, kind: Option<PolicyKind>, end: PacketResult)
    requires { array_vec_len line.old + RESULT ≤ LINE }
    ensures items { line.new.items ≡ line.old.items ++ result_text kind end }
    ensures len { array_vec_len line.new ≤ array_vec_len line.old + RESULT }
{
    match end {
        PacketResult::Short => push_text(line, "short"),
        PacketResult::Ran(outcome, sum) => push_outcome(line, kind, outcome, sum),
    }
}

/// Prints the result of packet `number`, as one piece.
#[tactic(auto, unfolding(crate::specs::Results::result_line))]
pub fn print_result<S: Sink>(
    kind: Option<PolicyKind>,
    number: u64,
    end: PacketResult,
    out: &mut S,
) -> Put
    ensures { Puts (result_line kind number end) (S.state out.old) (S.state out.new) result }
{
    let mut line: Line = ArrayVec::new();
    push_decimal(&mut line, number);
    push_text(&mut line, ": ");
    push_result(&mut line, kind, end);
    push_text(&mut line, "\n");
    out.put(line.as_slice())
}

/// Runs the packets in order and prints the result line of each, numbered from 0, before the next
/// is run; stops at the first write that fails. `kind` is the kind of the policy, and says whether
/// lines show the sum of a region.
pub fn print_results<R: PacketRunner, S: Sink>(
    kind: Option<PolicyKind>,
    runner: &mut R,
    packets: PacketIter<'_>,
    out: &mut S,
) -> Put
    requires few { length packets < 2 ^ 63 }
    requires short { AreShort packets }
    ensures exact { Puts (result_lines kind (R.results runner.old) 0 packets.entry)
        (S.state out.old) (S.state out.new) result }
    ensures unchanged { R.results runner.new ≡ R.results runner.old }
{
    let mut packets = packets;
    let mut number = 0;
    while let Some(packet) = packets.next() {
        let end = runner.run_packet(packet);
        match print_result(kind, number, end, out) {
            Put::Done => {}
            Put::Failed => return Put::Failed,
        }
        number += 1;
    }
    Put::Done
}
