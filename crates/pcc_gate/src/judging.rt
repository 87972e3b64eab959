//! The whole check of a container.

ghost use Rattle.std.specs.Prelude.{IfOk};
ghost use Rattle.proof_container.specs.Views.{contents_of};
ghost use Rattle.lf_signature.specs.Constants.{declared};
ghost use Rattle.lf_check.specs.Kept.{AreKept};
ghost use Rattle.pcc_gate.specs.Answers.{IsHeld, IsGateAnswer};
ghost use Rattle.pcc_gate.specs.Passing.{Passes};
ghost use Rattle.proof_container.specs.Versions.{signature_of};
ghost use Rattle.pcc_gate.specs.Safe.{ReturnsInBound};
ghost use Rattle.pcc_gate.specs.WrittenOut.{IsWrittenOutAnswer};

use crate::acceptance::Accepted;
use crate::fault::GateFault;
use crate::passing::{Passed, pass};
use crate::proving::{lemmas_proved, proof_in, proved};
use lf_check::{Kept, MOST_RESULTS};
use lf_truth::truth_laws;
use policy_set::Policy;
use proof_container::signature_of;
use std::alloc::Global;

/// Acceptance checks 9, 10, 14 and 11 of a container that passed those before.
fn judge(
    alloc: Global,
    kept: &mut Kept,
    policy: &Policy,
    bytes: &[u8],
    passed: Passed<'_>,
) -> Result<Accepted, GateFault>
    requires passes { let contents = contents_of passed.container in
        Passes policy.now bytes.now contents passed.cut.code passed.cut.marks }
    requires held { IsHeld passed.container }
    requires kept { let s = signature_of passed.container.version in
        AreKept (declared s) passed.container.table kept.old }
    ensures { IsGateAnswer policy.now bytes.now result }
{
    let _ = bytes; // only the clauses speak of it
    truth_laws();
    policy.laws(); // tells the prover what the formulas name
    let container = passed.container;
    let signature = signature_of(container.version);
    let bound = container.bound;
    let cut = passed.cut;
    let mut table = container.table;
    let invs = container.invs;
    let held = container.lemmas;
    let lemmas = held.as_slice();
    let found = container.proof;
    let proof = proof_in(&table, signature, lemmas, found)?;
    lemmas_proved(alloc, &mut table, kept, signature, lemmas)?;
    proved(
        &mut table, kept, signature, lemmas, policy, bound, &cut, &invs, proof,
    )?;
    let policy = policy.copy(alloc)?;
    Ok(Accepted {
        policy,
        bound,
        cut,
        table,
        invs,
    })
}

/// Checks whether `bytes` are a container that is accepted under `policy`, and returns its code.
/// All acceptance checks have to pass. The last one is that the proof, with the lemmas that the
/// container has, proves the verification condition of the policy, the bound, the code and the
/// invariants. It passes exactly if it does with every lemma inlined (`specs/WrittenOut`).
///
/// If the container has a step bound, the code returns within it: a run with a step limit of at
/// least the bound returns. That holds from every state at index 0 that satisfies the precondition,
/// under any access rights.
///
/// Errors: `Refused` names the first check that fails (`specs/First`), exactly if one does; the
/// checks are tried in order. `Memory` says nothing about `bytes`. One cache of at most
/// `MOST_RESULTS` results and judgements serves the invariants, the lemmas, the condition and the
/// proof; past that the call returns `Results`, which comes only after checks 1 to 5.
pub fn gate(alloc: Global, policy: &Policy, bytes: &[u8]) -> Result<Accepted, GateFault>
    ensures exact { IsGateAnswer policy.now bytes.now result }
    ensures written_out { IsWrittenOutAnswer policy.now bytes.now result }
    ensures returns { IfOk result (λ a. ReturnsInBound policy.now a.bound a.code) }
{
    truth_laws();
    policy.laws(); // tells the prover what the formulas name
    let mut kept = Kept::new(alloc, MOST_RESULTS);
    match pass(alloc, &mut kept, policy, bytes) {
        Err(fault) => Err(fault),
        Ok(passed) => judge(alloc, &mut kept, policy, bytes, passed),
    }
}
