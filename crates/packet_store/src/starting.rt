//! The start state of each policy on a packet.

ghost use Rattle.std.specs.Prelude.{◌≡◌, ◌+◌, ◌%◌, ◌^◌, ◌==◌, ◌<◌, ◌≤◌, option_map, IfSome, length};
ghost use Rattle.alpha_cfg.specs.Machine.{IsState};
ghost use Rattle.packet_store.specs.PolicyStarts.{start_from, start_of, filter_start, tag_start, table_start};
ghost use Rattle.packet_store.specs.PolicyStarts.{least_packet, kind_start};
ghost use Rattle.packet_store.specs.StartMeets.{StartMeets, StartMeetsIn};
ghost use Rattle.reference_machine.specs.Arena.{quadword};
ghost use Rattle.reference_machine.specs.Setups.{start_view};
ghost use Rattle.reference_machine.specs.Starts.{Fits, HasWords, start_state};

use crate::reader::MAX_PACKET;
use policy_set::{Policy, PolicyKind};
use reference_machine::{ARENA, Start};

/// Returns the start of `filter`: two quadwords of scratch, and the packet after them.
fn filter_start(packet: &[u8], base: u64) -> Start<'_>
    requires packet { length packet.now ≤ MAX_PACKET }
    requires low { base < 2 ^ 32 }
    ensures value { start_view result ≡ filter_start base packet.now }
{
    Start {
        r16: base + 16,
        r17: packet.len() as u64,
        r18: base,
        bytes: packet,
        at: base + 16,
        region: 0,
        reads: [(base, 2), (base + 16, (packet.len() as u64 + 7) / 8)],
        writes: [(base, 2), (base, 0)],
    }
}

/// Checks whether the first eight bytes are all 0.
fn begins_with_zero(packet: &[u8]) -> bool
    requires { 16 ≤ length packet.now }
    ensures { result ≡ (quadword packet.now 0 == 0) }
{
    let word = u64::from_le_bytes([
        packet[0], packet[1], packet[2], packet[3], packet[4], packet[5], packet[6], packet[7],
    ]);
    word == 0
}

/// Returns the start of `tag`: the first 16 bytes, with the second quadword writable if the first
/// isn't 0.
fn tag_start(packet: &[u8], base: u64) -> Start<'_>
    requires packet { 16 ≤ length packet.now }
    requires low { base < 2 ^ 32 }
    ensures value { start_view result ≡ tag_start base packet.now }
{
    let second = if begins_with_zero(packet) {
        (base, 0)
    } else {
        (base + 8, 1)
    };
    Start {
        r16: base,
        r17: 0,
        r18: 0,
        bytes: &packet[..16],
        at: base,
        region: 2,
        reads: [(base, 2), (base, 0)],
        writes: [second, (base, 0)],
    }
}

/// Returns the start of `table`: the packet's quadwords, all readable and writable.
fn table_start(packet: &[u8], base: u64) -> Start<'_>
    requires { length packet.now ≤ MAX_PACKET }
    ensures value { start_view result ≡ table_start base packet.now }
{
    let count = (packet.len() as u64 + 7) / 8;
    Start {
        r16: base,
        r17: count,
        r18: 0,
        bytes: packet,
        at: base,
        region: count,
        reads: [(base, count), (base, 0)],
        writes: [(base, count), (base, 0)],
    }
}

/// Returns how many bytes a packet has at least for a kind of policy.
fn least_packet(kind: PolicyKind) -> usize
    ensures { result ≡ least_packet kind }
{
    match kind {
        PolicyKind::Filter => 64,
        PolicyKind::Tag => 16,
        PolicyKind::Table => 0,
    }
}

/// Returns the start of a kind of policy on a packet that isn't too short.
fn kind_start(kind: PolicyKind, packet: &[u8], base: u64) -> Start<'_>
    requires enough { least_packet kind ≤ length packet.now }
    requires packet { length packet.now ≤ MAX_PACKET }
    requires low { base < 2 ^ 32 }
    ensures value { start_view result ≡ kind_start kind base packet.now }
{
    match kind {
        PolicyKind::Filter => filter_start(packet, base),
        PolicyKind::Tag => tag_start(packet, base),
        PolicyKind::Table => table_start(packet, base),
    }
}

/// Returns the policy's start on a packet of at most `MAX_PACKET` bytes, in an arena that begins at
/// `base`. The address `base` must be a multiple of 8 and below 2^32.
///
/// Returns None exactly if the packet is too short: below 64 bytes for `filter`, below 16 for
/// `tag`, never for `table`, and always for a policy without a kind. The start is in that arena, is
/// a state of the machine and satisfies the policy's precondition.
#[tactic(auto, unfolding(crate::specs::PolicyStarts::start_from))]
pub fn start_at<'b>(policy: &Policy, packet: &'b [u8], base: u64) -> Option<Start<'b>>
    requires packet { length packet.now ≤ MAX_PACKET }
    requires aligned { base % 8 ≡ 0 }
    requires low { base < 2 ^ 32 }
    ensures exact { option_map start_view result ≡ start_from base policy.now.kind packet.now }
    ensures fits { IfSome result (λ s. Fits base (start_view s)) }
    ensures words { IfSome result (λ s. HasWords (start_view s)) }
    ensures meets { IfSome result (λ s. StartMeetsIn base (start_view s) policy.now.pre) }
    ensures state { IfSome result (λ s. IsState (start_state base (start_view s))) }
{
    policy.laws(); // tells the prover that its formulas are those of its kind
    let Some(kind) = policy.kind() else {
        return None;
    };
    let is_short = packet.len() < least_packet(kind);
    if is_short {
        return None;
    }
    Some(kind_start(kind, packet, base))
}

/// Returns the policy's start on a packet of at most `MAX_PACKET` bytes, for an agent that is
/// alone: `start_at` with the arena's own address.
///
/// Returns None exactly if the packet is too short. The start satisfies the policy's precondition.
pub fn start<'b>(policy: &Policy, packet: &'b [u8]) -> Option<Start<'b>>
    requires { length packet.now ≤ MAX_PACKET }
    ensures exact { option_map start_view result ≡ start_of policy.now packet.now }
    ensures fits { IfSome result (λ s. Fits ARENA (start_view s)) }
    ensures words { IfSome result (λ s. HasWords (start_view s)) }
    ensures meets { IfSome result (λ s. StartMeets (start_view s) policy.now.pre) }
{
    start_at(policy, packet, ARENA)
}
