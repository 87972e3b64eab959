//! Whether a container is accepted.

ghost use Rattle.std.specs.Prelude.{OnOk};
ghost use Rattle.pcc_c.specs.Checking.{refusal_answer, check_answer, IsCheckStatus};
ghost use Rattle.pcc_c.specs.Checking.{IsSafeCode, IsSafeUnder, SafeIfDone};
ghost use Rattle.pcc_gate.specs.First.{first_refusal};
ghost use Rattle.pcc_c.specs.Inside.Answers.{IsDue};

use crate::fault::Fault;
use crate::policies::policy_given;
use crate::reason::Reason;
use crate::statuses::{DONE, NO_MEMORY, TOO_MANY_RESULTS};
use pcc_gate::{GateFault, gate};
use policy_set::Policy;
use std::alloc::Global;

/// Checks the bytes under the policy. Errors: the first acceptance check that fails, or out of
/// memory or cached results.
fn judged(alloc: Global, policy: &Policy, bytes: &[u8]) -> Result<(), Fault>
    ensures exact { IsDue (Unit {0}) (λ done. done)
        (refusal_answer (first_refusal policy.now bytes.now)) result }
    ensures safe { OnOk result (IsSafeCode policy.now bytes.now) }
{
    match gate(alloc, policy, bytes) {
        Ok(accepted) => {
            accepted.laws(); // tells the prover that the code is safe
            Ok(())
        }
        Err(GateFault::Refused(refusal)) => Err(Fault::At(Reason::Refused(refusal))),
        Err(GateFault::Memory) => Err(Fault::Memory),
        Err(GateFault::Results) => Err(Fault::Results),
    }
}

/// Checks the bytes under the policy that `policy` gives. Errors: why they aren't accepted, or out
/// of memory or cached results.
pub fn check_answer(alloc: Global, policy: &[u8], bytes: &[u8]) -> Result<(), Fault>
    ensures exact { IsDue (Unit {0}) (λ done. done) (check_answer policy.now bytes.now) result }
    ensures safe { OnOk result (IsSafeUnder policy.now bytes.now) }
{
    let under = policy_given(alloc, policy)?;
    judged(alloc, &under, bytes)
}

/// Checks whether the bytes are a container that is accepted under the policy: `DONE` exactly if
/// they are, else the number of the first acceptance check that fails, `UNKNOWN_POLICY` or
/// `BAD_POLICY`. Accepted code is safe for the policy, and returns within its step bound, if its
/// container has one. `NO_MEMORY` and `TOO_MANY_RESULTS` say nothing about the bytes.
#[unsafe(no_mangle)]
pub extern "C" fn pcc_check(alloc: Global, policy: &[u8], bytes: &[u8]) -> u32
    ensures exact { IsCheckStatus policy.now bytes.now result }
    ensures safe { SafeIfDone policy.now bytes.now result }
{
    match check_answer(alloc, policy, bytes) {
        Ok(()) => DONE,
        Err(Fault::At(why)) => why.status(),
        Err(Fault::Memory) => NO_MEMORY,
        Err(Fault::Results) => TOO_MANY_RESULTS,
    }
}
