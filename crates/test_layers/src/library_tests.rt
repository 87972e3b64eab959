//! The checker and an interpreter as a program of one's own calls them: the README's example.

ghost use Rattle.std.specs.Prelude.{◌≤◌, length};
ghost use Rattle.packet_store.specs.declared.reader.TheConstants.{MAX_PACKET};

use crate::accepted::{RETURN, container};
use crate::answers::{Made, made};
use bounds_prover::prove;
use pcc_gate::{GateFault, gate};
use policy_set::{Policy, PolicyKind};
use safe_host::{Ended, Host};
use std::alloc::Global;
use std::test::Fail;

/// Runs an untrusted filter on a packet, if the checker accepts it. Returns how the run ended, or
/// nothing if the packet has less than 64 bytes.
fn run_filter(alloc: Global, untrusted: &[u8], packet: &[u8]) -> Result<Option<Ended>, GateFault>
    requires { length packet.now ≤ MAX_PACKET }
{
    let policy = Policy::of(alloc, PolicyKind::Filter)?;
    let accepted = gate(alloc, &policy, untrusted)?;
    let mut host = Host::new(alloc, accepted)?;
    Ok(if host.load(packet) {
        Some(host.run(1_000_000))
    } else {
        None
    })
}

/// `bis $31,$31,$0`, which clears register 0.
const CLEAR: u32 = 0x47ff_0400;

/// A filter that returns 0 on every packet, with its proof.
fn proved_filter(alloc: Global) -> Made<Vec<u8>> {
    let policy = made(Policy::of(alloc, PolicyKind::Filter))?;
    let bytes = made(container(alloc, &policy, 3, &[2, 2, CLEAR, RETURN, 0, 0, 0]))?;
    made(prove(alloc, &policy, &bytes))
}

#[test]
fn an_untrusted_filter_runs_only_with_its_proof(rt: HostRuntime) -> Result<(), Fail> {
    let mut filter = proved_filter(rt.alloc())?;
    let ended = made(run_filter(rt.alloc(), &filter, &[1; 64]))?;
    assert!(rt; ended == Some(Ended::Returned(0)));
    let ended = made(run_filter(rt.alloc(), &filter, &[1; 63]))?;
    assert!(rt; ended.is_none());
    filter.pop();
    assert!(rt; run_filter(rt.alloc(), &filter, &[1; 64]).is_err());
    Ok(())
}
