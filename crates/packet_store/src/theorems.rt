//! Theorems about the definitions, with nothing to run.

ghost use Rattle.std.specs.Prelude.{◌≡◌, ℕ, ◌≤◌, ◌↔◌, List, length, Some, Ok, Err};
ghost use Rattle.policy_set.specs.Views.{PolicyView, IsPolicy};
ghost use Rattle.alpha_cfg.specs.Machine.{IsState};
ghost use Rattle.reference_machine.specs.Starts.{StartView, start_state};
ghost use Rattle.reference_machine.specs.declared.layout.TheConstants.{ARENA};
ghost use Rattle.packet_store.specs.declared.fault.PacketFault.{PacketFault};
ghost use Rattle.term_table.specs.Bytes.{IsBytes};
ghost use Rattle.packet_store.specs.Packets.{AreShort, packets_encoding, IsFirstFault};
ghost use Rattle.packet_store.specs.declared.reader.TheConstants.{MAX_PACKET};
ghost use Rattle.packet_store.specs.PacketDecoding.{decoded_packets};
ghost use Rattle.packet_store.specs.PolicyStarts.{start_of};
ghost use Rattle.packet_store.specs.StartMeets.{StartMeets};

/// Proves that the start of a policy on a packet is a state of the machine and satisfies the
/// policy's precondition.
///
/// A file reads exactly as the packets that encode it, or as its first error.
pub fn laws()
    ensures state { (policy : PolicyView) (packet : List ℕ) (setup : StartView) →
        length packet ≤ MAX_PACKET
        → IsBytes packet → start_of policy packet ≡ Some setup
        → IsState (start_state ARENA setup) }
    ensures meets { (policy : PolicyView) (packet : List ℕ) (setup : StartView) → IsPolicy policy
        → length packet ≤ MAX_PACKET
        → start_of policy packet ≡ Some setup → StartMeets setup policy.pre }
    ensures whole { (bytes : List ℕ) (ps : List (List ℕ)) → IsBytes bytes
        → ((decoded_packets bytes ≡ Ok ps) ↔ (AreShort ps × (bytes ≡ packets_encoding ps))) }
    ensures fault { (bytes : List ℕ) (f : PacketFault) → IsBytes bytes
        → ((decoded_packets bytes ≡ Err f) ↔ IsFirstFault bytes f) }
{}
