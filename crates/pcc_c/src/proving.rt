//! Containers with a proof.

ghost use Rattle.std.specs.Prelude.{◌≡◌, IfOk, take};
ghost use Rattle.pcc_gate.specs.Accepted.{IsAccepted};
ghost use Rattle.bounds_prover.specs.Proving.{proved_container};
ghost use Rattle.pcc_c.specs.declared.statuses.TheConstants.{DONE};
ghost use Rattle.pcc_c.specs.Statuses.{IsShortage};
ghost use Rattle.pcc_c.specs.Proving.{prove_reason, container_proven, prove_answer};
ghost use Rattle.pcc_c.specs.Proving.{IsAcceptedUnder};
ghost use Rattle.pcc_c.specs.Buffers.{AnswersIn};
ghost use Rattle.pcc_c.specs.Inside.Answers.{IsDue};

use crate::buffers::tell;
use crate::fault::Fault;
use crate::policies::policy_given;
use crate::reason::Reason;
use bounds_prover::{ProveFault, ProveFlaw, prove};
use policy_set::Policy;
use std::alloc::Global;

/// Returns why a container with this flaw gets no proof.
fn prove_reason(flaw: ProveFlaw) -> Reason
    ensures { result ≡ prove_reason flaw }
{
    match flaw {
        ProveFlaw::Refused(refusal) => Reason::Refused(refusal),
        ProveFlaw::NotEasy(part) => Reason::NotEasy(part),
        ProveFlaw::TooBig(measure, number) => Reason::TooBig(measure, number),
    }
}

/// Returns the container in the bytes with a proof of its condition under the policy. Errors: why
/// there is none, or out of memory or cached results.
fn proved(alloc: Global, policy: &Policy, bytes: &[u8]) -> Result<Vec<u8>, Fault>
    ensures exact { IsDue (Unit {0}) (λ made. made.items)
        (container_proven (proved_container policy.now bytes.now)) result }
    ensures accepted { IfOk result (λ made. IsAccepted policy.now made.items) }
{
    match prove(alloc, policy, bytes) {
        Ok(made) => Ok(made),
        Err(ProveFault::At(flaw)) => Err(Fault::At(prove_reason(flaw))),
        Err(ProveFault::Memory) => Err(Fault::Memory),
        Err(ProveFault::Results) => Err(Fault::Results),
    }
}

/// Returns the container in the bytes with a proof of its condition under the policy that `policy`
/// gives. Errors: why there is none, or out of memory or cached results.
fn prove_answer(alloc: Global, policy: &[u8], bytes: &[u8]) -> Result<Vec<u8>, Fault>
    ensures exact { IsDue (Unit {0}) (λ made. made.items)
        (prove_answer policy.now bytes.now) result }
    ensures accepted { IfOk result (λ made. IsAcceptedUnder policy.now made.items) }
{
    let under = policy_given(alloc, policy)?;
    proved(alloc, &under, bytes)
}

/// Stores the container in the bytes with a proof of its verification condition, under the policy
/// that `policy` gives, in place of its own proof. `pcc_check` accepts it.
///
/// `written` gets the number of bytes that are stored. If there is no such container, the line that
/// says why is stored, without LF. The status is the number of the first acceptance check before
/// the proof that fails, `NOT_EASY`, `TOO_BIG`, `UNKNOWN_POLICY` or `BAD_POLICY`. If the buffer is
/// too small, the call returns `NO_ROOM`, leaves the buffer unchanged, and `written` gets the number
/// needed. If it returns `NO_MEMORY` or `TOO_MANY_RESULTS`, `written` gets 0 and the buffer is
/// unchanged.
#[unsafe(no_mangle)]
pub extern "C" fn pcc_prove(
    alloc: Global,
    policy: &[u8],
    bytes: &[u8],
    out: &mut [u8],
    written: &mut usize,
) -> u32
    ensures exact { AnswersIn IsShortage (prove_answer policy.now bytes.now)
        out.old out.new written.new result }
    ensures accepted { result ≡ DONE → IsAcceptedUnder policy.now (take written.new out.new) }
{
    let made = prove_answer(alloc, policy, bytes);
    tell(alloc, made, out, written)
}
