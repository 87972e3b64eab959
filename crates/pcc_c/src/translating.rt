//! Native code of containers.

ghost use Rattle.std.specs.Prelude.{◌≡◌, IfOk, take};
ghost use Rattle.pcc_gate.specs.First.{first_refusal};
ghost use Rattle.native_gate.specs.Translated.{IsNativeOf};
ghost use Rattle.pcc_c.specs.declared.statuses.TheConstants.{DONE};
ghost use Rattle.pcc_c.specs.Checking.{refusal_answer, check_answer};
ghost use Rattle.pcc_c.specs.Translating.{AnswersNative, IsNativeUnder, IsSafeNative};
ghost use Rattle.pcc_c.specs.Inside.Answers.{IsDue};

use crate::buffers::tell;
use crate::fault::Fault;
use crate::policies::policy_given;
use crate::reason::Reason;
use native_gate::{call_laws, text_of};
use pcc_gate::{GateFault, gate};
use policy_set::Policy;
use std::alloc::Global;

/// Returns native code of the bytes. Errors: the first acceptance check that fails, or out of memory
/// or cached results.
fn translated(alloc: Global, policy: &Policy, bytes: &[u8]) -> Result<Vec<u8>, Fault>
    ensures exact { IsDue (Unit {0}) (λ _. tt)
        (refusal_answer (first_refusal policy.now bytes.now)) result }
    ensures native { IfOk result (λ made. IsNativeOf policy.now bytes.now made.items) }
{
    match gate(alloc, policy, bytes) {
        Ok(accepted) => Ok(text_of(alloc, &accepted)?),
        Err(GateFault::Refused(refusal)) => Err(Fault::At(Reason::Refused(refusal))),
        Err(GateFault::Memory) => Err(Fault::Memory),
        Err(GateFault::Results) => Err(Fault::Results),
    }
}

/// Returns native code of the bytes under the policy that `policy` gives. Errors: why there is none,
/// or out of memory or cached results.
fn native_answer(alloc: Global, policy: &[u8], bytes: &[u8]) -> Result<Vec<u8>, Fault>
    ensures exact { IsDue (Unit {0}) (λ _. tt) (check_answer policy.now bytes.now) result }
    ensures native { IfOk result (λ made. IsNativeUnder policy.now bytes.now made.items) }
    ensures safe { IfOk result (λ made. IsSafeNative policy.now bytes.now made.items) }
{
    let under = policy_given(alloc, policy)?;
    under.laws(); // tells the prover that the policy is well formed
    call_laws();
    translated(alloc, &under, bytes)
}

/// Checks a container as `pcc_check` does, and stores its code for x86-64: a function that begins at
/// the first byte. A call of it that keeps the promises of `pcc.h` accesses only what the policy
/// permits and its area, and ends.
///
/// `written` gets the number of bytes that are stored. If the container isn't accepted, the line of
/// `pcc check` is stored, without LF, with the status of `pcc_check`. If the buffer is too small, the
/// call returns `NO_ROOM`, leaves the buffer unchanged, and `written` gets the number needed. If it
/// returns `NO_MEMORY` or `TOO_MANY_RESULTS`, `written` gets 0 and the buffer is unchanged.
#[unsafe(no_mangle)]
pub extern "C" fn pcc_native(
    alloc: Global,
    policy: &[u8],
    bytes: &[u8],
    out: &mut [u8],
    written: &mut usize,
) -> u32
    ensures exact { AnswersNative policy.now bytes.now out.old out.new written.new result }
    ensures safe { result ≡ DONE → IsSafeNative policy.now bytes.now (take written.new out.new) }
{
    let made = native_answer(alloc, policy, bytes);
    tell(alloc, made, out, written)
}
