//! The value of a program on a packet.

ghost use Rattle.std.specs.Prelude.{◌≡◌, ◌≤◌, ◌<◌, ◌^◌, length, Some};
ghost use Rattle.bpf_words.specs.declared.insn.TheConstants.{LOADABLE, MAX_PROGRAM};
ghost use Rattle.bpf_words.specs.Programs.{IsInBounds, IsProgram};
ghost use Rattle.bpf_words.specs.Values.{bpf_value, effect_at, jumps, op_effect};

use crate::insn::{Bpf, BpfOp, BpfTest, bpf_op};

/// The effect of one instruction.
#[derive(Clone, Copy, Debug, PartialEq, Eq)]
pub enum BpfEffect {
    /// The program continues at this index with this A.
    GoesOn(usize, u32),
    /// The program returns this value.
    Returns(u32),
}

/// Whether the test of a jump holds.
fn jumps(test: BpfTest, a: u32, k: u32) -> bool
    ensures { result ≡ jumps test a k }
{
    match test {
        BpfTest::Jeq => a == k,
        BpfTest::Jgt => a > k,
        BpfTest::Jge => a >= k,
        BpfTest::Jset => a & k != 0,
    }
}

/// What comes of an instruction at an index with this A.
fn op_effect(packet: &[u8], i: usize, a: u32, insn: Bpf, op: BpfOp) -> BpfEffect
    requires long { LOADABLE ≤ length packet.now }
    requires early { i < MAX_PROGRAM }
    requires bounds { IsInBounds MAX_PROGRAM i insn op }
    ensures exact { result ≡ op_effect packet.now i a insn op }
{
    let k = insn.k as usize;
    match op {
        BpfOp::Ld => {
            let bytes = [packet[k], packet[k + 1], packet[k + 2], packet[k + 3]];
            BpfEffect::GoesOn(i + 1, u32::from_be_bytes(bytes))
        }
        BpfOp::Ldh => {
            let half = u16::from_be_bytes([packet[k], packet[k + 1]]);
            BpfEffect::GoesOn(i + 1, half as u32)
        }
        BpfOp::Ldb => BpfEffect::GoesOn(i + 1, packet[k] as u32),
        BpfOp::LdImm => BpfEffect::GoesOn(i + 1, insn.k),
        BpfOp::Add => BpfEffect::GoesOn(i + 1, a.wrapping_add(insn.k)),
        BpfOp::Or => BpfEffect::GoesOn(i + 1, a | insn.k),
        BpfOp::And => BpfEffect::GoesOn(i + 1, a & insn.k),
        BpfOp::Rsh => BpfEffect::GoesOn(i + 1, a >> insn.k),
        BpfOp::Ja => BpfEffect::GoesOn(i + 1 + k, a),
        BpfOp::Jump(test) => {
            let over = if jumps(test, a, insn.k) {
                insn.jt
            } else {
                insn.jf
            };
            BpfEffect::GoesOn(i + 1 + over as usize, a)
        }
        BpfOp::Ret => BpfEffect::Returns(insn.k),
        BpfOp::RetA => BpfEffect::Returns(a),
    }
}

/// What comes of the instruction at an index of a program.
fn effect_at(program: &[Bpf], packet: &[u8], i: usize, a: u32) -> BpfEffect
    requires program { IsProgram program.now }
    requires within { i < length program.now }
    requires long { LOADABLE ≤ length packet.now }
    ensures exact { effect_at program.now packet.now i a ≡ Some result }
{
    let insn = program[i];
    match bpf_op(insn.code) {
        Some(op) => op_effect(packet, i, a, insn, op),
        None => unreachable!(),
    }
}

/// Returns the value of a program on a packet: the program's instructions run from the first one
/// on, with A = 0 at the start. The packet has at least `LOADABLE` bytes. Takes no memory.
///
/// Source: McCanne and Jacobson, The BSD Packet Filter, USENIX 1993, section 3.
pub fn bpf_value(program: &[Bpf], packet: &[u8]) -> u32
    requires program { IsProgram program.now }
    requires long { LOADABLE ≤ length packet.now }
    ensures exact { result ≡ bpf_value program.now packet.now }
{
    let mut next = 0;
    let mut a = 0;
    for _ in 0..program.len() {
        match effect_at(program, packet, next, a) {
            BpfEffect::GoesOn(index, changed) => {
                next = index;
                a = changed;
            }
            BpfEffect::Returns(value) => return value,
        }
    }
    0
}
