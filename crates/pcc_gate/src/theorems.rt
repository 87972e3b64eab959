//! Theorems about acceptance; their functions run nothing.

ghost use Rattle.pcc_gate.specs.Safe.{AcceptedSafe, AcceptedReturns};
ghost use Rattle.pcc_gate.specs.Laws.{AcceptedFirst, PassedFirst, PassedOne};
ghost use Rattle.pcc_gate.specs.Laws.{RefusedFirst, RefusedBefore, RefusedLemmas, AcceptedAll};
ghost use Rattle.pcc_gate.specs.WrittenOut.{AcceptedWrittenOut};
ghost use Rattle.pcc_gate.specs.Witness.{LoopIsAccepted, DigestIsAccepted};
ghost use Rattle.pcc_gate.specs.Witness.{BoundIsAccepted, LemmaIsAccepted};

use lf_truth::truth_laws;

/// States what acceptance and refusals mean. Bytes are accepted exactly if no check is the first
/// that fails, and exactly if they are accepted with every lemma inlined. The checks before the
/// proof pass exactly if none of them is the first that fails. A refusal is the first exactly if
/// the checks before it pass and its own fails, with its value (`specs/Clauses`). That holds also
/// among the checks before the proof alone, and among these and those of the lemmas alone. Bytes
/// hold at most one container. The code of accepted bytes is safe for the policy, and if its steps
/// are bounded, it returns within the bound. In each version some bytes are accepted: in versions 1
/// and 2 code that loads, stores and loops; in version 3 code that loads and returns in two steps,
/// with a bound of two; in version 4 the loop with a lemma that the proof cites.
pub fn laws()
    ensures accepted { AcceptedFirst }
    ensures passed { PassedFirst }
    ensures refusals { RefusedFirst }
    ensures before { RefusedBefore }
    ensures lemmas { RefusedLemmas }
    ensures written_out { AcceptedWrittenOut }
    ensures all { AcceptedAll }
    ensures one { PassedOne }
    ensures safe { AcceptedSafe }
    ensures returns { AcceptedReturns }
    ensures some { LoopIsAccepted }
    ensures with_digest { DigestIsAccepted }
    ensures bounded { BoundIsAccepted }
    ensures with_lemma { LemmaIsAccepted }
{
    truth_laws();
}
