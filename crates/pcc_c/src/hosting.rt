//! Hosts of accepted code, which C programs run on packets.

ghost use Rattle.std.specs.Prelude.{◌≡◌, None, IfOk};
ghost use Rattle.pcc_gate.specs.First.{first_refusal};
ghost use Rattle.safe_host.specs.Runners.{host_results};
ghost use Rattle.pcc_c.specs.declared.statuses.TheConstants.{DONE};
ghost use Rattle.pcc_c.specs.Checking.{refusal_answer};
ghost use Rattle.pcc_c.specs.Hosting.{host_of, host_answer, IsNewStatus, MakesHost};
ghost use Rattle.pcc_c.specs.Hosting.{HostsCode, RunsAccepted, RunsPacket, IsFreeStatus};
ghost use Rattle.pcc_c.specs.Inside.Answers.{IsDue};

use crate::fault::Fault;
use crate::host::PccHost;
use crate::policies::policy_for;
use crate::reason::Reason;
use crate::results::{PccResult, shown};
use crate::statuses::{DONE, HOST_OPEN, LONG_PACKET, NO_HOST, NO_MEMORY, TOO_MANY_RESULTS};
use packet_store::MAX_PACKET;
use pcc_gate::{GateFault, gate};
use policy_set::Policy;
use safe_host::{Host, HostRunner};
use std::alloc::Global;

/// Returns a host of the code in the bytes, which runs at most `steps` steps for each packet. Errors:
/// the first acceptance check that fails, or out of memory or cached results.
fn runner_of(alloc: Global, policy: &Policy, bytes: &[u8], steps: u64) -> Result<HostRunner, Fault>
    ensures exact { IsDue (Unit {0}) (λ _. tt)
        (refusal_answer (first_refusal policy.now bytes.now)) result }
    ensures runs { IfOk result
        (λ runner. HostsCode policy.now bytes.now steps (host_results runner)) }
{
    match gate(alloc, policy, bytes) {
        Ok(accepted) => {
            accepted.laws(); // tells the prover that the code is safe
            let host = Host::new(alloc, accepted)?;
            Ok(HostRunner::new(host, steps))
        }
        Err(GateFault::Refused(refusal)) => Err(Fault::At(Reason::Refused(refusal))),
        Err(GateFault::Memory) => Err(Fault::Memory),
        Err(GateFault::Results) => Err(Fault::Results),
    }
}

/// Returns a host of the code in the bytes under the built-in policy that `given` names, in a box.
/// Errors: why there is none, or out of memory or cached results.
fn host_answer(
    alloc: Global,
    given: &[u8],
    bytes: &[u8],
    steps: u64,
) -> Result<Box<HostRunner>, Fault>
    ensures exact { IsDue (Unit {0}) (λ _. tt) (host_answer given.now bytes.now) result }
    ensures runs { IfOk result
        (λ runner. RunsAccepted given.now bytes.now steps (host_results runner.value)) }
{
    let policy = policy_for(alloc, 1, given)?;
    let runner = runner_of(alloc, &policy, bytes, steps)?;
    Ok(Box::new(alloc, runner)?)
}

/// Checks the container in the bytes as `pcc_check` does, under the built-in policy that `policy`
/// names, and opens a host of its code if it is accepted, which is `DONE`. The host makes at most
/// `steps` steps for each packet. `pcc_host_free` has to free it.
///
/// On any other status the handle is unchanged: as for `pcc_check`, but that a policy in a file is
/// `UNKNOWN_POLICY`; or `HOST_OPEN`, if the handle has a host already.
#[unsafe(no_mangle)]
pub extern "C" fn pcc_host_new(
    alloc: Global,
    policy: &[u8],
    bytes: &[u8],
    steps: u64,
    host: &mut PccHost,
) -> u32
    ensures exact { IsNewStatus (host_of host.old) policy.now bytes.now result }
    ensures made { MakesHost policy.now bytes.now steps
        (host_of host.old) (host_of host.new) result }
    ensures unchanged { ¬ (result ≡ DONE) → host.new ≡ host.old }
{
    if host.is_open() {
        return HOST_OPEN;
    }
    match host_answer(alloc, policy, bytes, steps) {
        Ok(runner) => {
            *host = PccHost::open(runner);
            DONE
        }
        Err(Fault::At(why)) => why.status(),
        Err(Fault::Memory) => NO_MEMORY,
        Err(Fault::Results) => TOO_MANY_RESULTS,
    }
}

/// Runs the host's code on the packet, and stores the result: what the machine that tests each
/// access makes of it. What an earlier packet left isn't seen. Takes no memory.
///
/// Returns `DONE`; or, with result and handle unchanged, `NO_HOST` if the handle has no host, and
/// `LONG_PACKET` if the packet has more than `packet_store::MAX_PACKET` bytes.
#[unsafe(no_mangle)]
pub extern "C" fn pcc_host_run(
    alloc: Global,
    host: &mut PccHost,
    packet: &[u8],
    out: &mut PccResult,
) -> u32
    ensures exact { RunsPacket (host_of host.old) packet.now out.old out.new result }
    ensures kept { host_of host.new ≡ host_of host.old }
    ensures unchanged { ¬ (result ≡ DONE) → host.new ≡ host.old }
{
    if !host.is_open() {
        return NO_HOST;
    }
    if packet.len() > MAX_PACKET as usize {
        return LONG_PACKET;
    }
    let mut runner = std::mem::replace(host, PccHost::closed(alloc)).into_box();
    *out = shown(runner.end_on(packet));
    *host = PccHost::open(runner);
    DONE
}

/// Frees the handle's host. Returns `DONE`, or `NO_HOST` if it has none; the handle then has none.
#[unsafe(no_mangle)]
pub extern "C" fn pcc_host_free(alloc: Global, host: &mut PccHost) -> u32
    ensures exact { IsFreeStatus (host_of host.old) result }
    ensures closed { host_of host.new ≡ None }
    ensures unchanged { ¬ (result ≡ DONE) → host.new ≡ host.old }
{
    if !host.is_open() {
        return NO_HOST;
    }
    drop(std::mem::replace(host, PccHost::closed(alloc)).into_box());
    DONE
}
