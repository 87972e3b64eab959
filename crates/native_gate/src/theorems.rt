//! Theorems about the definitions, with nothing to run.

ghost use Rattle.native_gate.specs.Calls.{SafePolicyCalls, EndingPolicyCalls, BoundedPolicyCalls};

/// Proves what calls of translated code do, if the container was accepted, and registers and memory
/// of the call satisfy the policy's precondition.
///
/// The call is never stuck; if it returned, the postcondition holds (`safe`). With fuel it ends in
/// time by its fuel (`ends`), without fuel by the step bound (`bounded`).
pub fn call_laws()
    ensures safe { SafePolicyCalls }
    ensures ends { EndingPolicyCalls }
    ensures bounded { BoundedPolicyCalls }
{
    native_code::laws();
    pcc_gate::laws();
}
