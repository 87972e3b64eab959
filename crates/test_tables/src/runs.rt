//! Rows on the run of code on a packet.

use crate::bytes::{code_bytes, field};
use alpha_cfg::{Code, Kind, MAX_WORDS};
use packet_store::{MAX_PACKET, PacketResult, PacketRunner, TestingRunner};
use policy_set::{Policy, PolicyKind, by_name};
use reference_machine::Outcome;
use std::alloc::{AllocError, Global};
use word_ops::Profile;

/// What a packet came to, as `ref` prints it.
fn result_text(
    alloc: Global,
    policy: Option<PolicyKind>,
    end: PacketResult,
) -> Result<String, AllocError> {
    match end {
        PacketResult::Short => format!(in alloc; "short"),
        PacketResult::Ran(Outcome::OutOfSteps, _) => format!(in alloc; "out of steps"),
        PacketResult::Ran(Outcome::Returned(word), sum) => match policy {
            Some(kind) if kind.has_sum() => format!(in alloc; "{word} {sum}"),
            _ => format!(in alloc; "{word}"),
        },
        PacketResult::Ran(Outcome::Blocked { index, kind, addr }, _) => match kind {
            Kind::Load => format!(in alloc; "blocked {index} load {addr:016x}"),
            Kind::Store => format!(in alloc; "blocked {index} store {addr:016x}"),
        },
    }
}

/// The code of the second profile that bytes are; None where they are none.
fn code_of(alloc: Global, bytes: &[u8]) -> Option<Code> {
    let count = bytes.len();
    if count == 0 || count % 4 != 0 || count > 4 * MAX_WORDS {
        return None;
    }
    Code::of(alloc, bytes, Profile::Two).ok()
}

/// Whether a run under a policy without a region has a sum.
fn has_stray_sum(policy: Option<PolicyKind>, end: PacketResult) -> bool {
    match (policy, end) {
        (Some(PolicyKind::Filter), PacketResult::Ran(_, sum)) => sum != 0,
        _ => false,
    }
}

/// Parses the words as code; None if they aren't code.
pub fn code_in(alloc: Global, words: &str) -> Result<Option<Code>, AllocError> {
    match code_bytes(alloc, words)? {
        None => Ok(None),
        Some(bytes) => Ok(code_of(alloc, bytes.as_slice())),
    }
}

/// What the bytes of a packet come to.
fn bytes_text(
    alloc: Global,
    runner: &mut TestingRunner,
    policy: Option<PolicyKind>,
    packet: &[u8],
) -> Result<String, AllocError> {
    if packet.len() > MAX_PACKET as usize {
        return format!(in alloc; "a long packet");
    }
    let end = runner.run_packet(packet);
    if has_stray_sum(policy, end) {
        return format!(in alloc; "a sum of no region");
    }
    result_text(alloc, policy, end)
}

/// What a packet in hexadecimal comes to.
fn packet_text(
    alloc: Global,
    runner: &mut TestingRunner,
    policy: Option<PolicyKind>,
    packet: &str,
) -> Result<String, AllocError> {
    match hex::decode(alloc, packet) {
        Ok(bytes) => bytes_text(alloc, runner, policy, bytes.as_slice()),
        Err(_) => format!(in alloc; "no packet"),
    }
}

/// What a packet comes to by code under a policy, in so many steps.
fn code_text(
    alloc: Global,
    policy: Policy,
    code: Code,
    packet: &str,
    steps: u64,
) -> Result<String, AllocError> {
    let kind = policy.kind();
    let mut runner = TestingRunner::new(alloc, policy, code, steps)?;
    packet_text(alloc, &mut runner, kind, packet)
}

/// What the packet of a line comes to under a policy in so many steps, by the code of the line.
fn policy_text(
    alloc: Global,
    policy: Policy,
    line: &str,
    steps: u64,
) -> Result<String, AllocError> {
    match code_in(alloc, field(line, 1))? {
        None => format!(in alloc; "no code"),
        Some(code) => code_text(alloc, policy, code, field(line, 2), steps),
    }
}

/// Returns the expected answer of a row of a line.
pub fn want(line: &str, row: usize) -> &str {
    match row {
        0 => field(line, 3),
        _ => "out of steps",
    }
}

/// Returns the result of a line's packet: in its steps for the first row, in one step less for the
/// second.
pub fn answer(alloc: Global, line: &str, row: usize) -> Result<String, AllocError> {
    let steps = field(line, 4).parse::<u64>().unwrap_or(0);
    match by_name(alloc, field(line, 0))? {
        None => format!(in alloc; "no policy"),
        Some(policy) => policy_text(alloc, policy, line, steps.saturating_sub(row as u64)),
    }
}
