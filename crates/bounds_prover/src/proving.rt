//! Builds containers with a proof of their condition.

ghost use Rattle.std.specs.Prelude.{◌≡◌, ◌≤◌, false, map, length, IfOk};
ghost use Rattle.term_table.specs.Table.{IsKnown, tree_at};
ghost use Rattle.term_table.specs.Measures.{height_of};
ghost use Rattle.lf_signature.specs.Constants.{places_of};
ghost use Rattle.lf_lemmas.specs.Tables.{LemmasKnown};
ghost use Rattle.proof_container.specs.Contents.{roots};
ghost use Rattle.proof_container.specs.Postorder.{entries};
ghost use Rattle.proof_container.specs.Encoding.{IsContents};
ghost use Rattle.proof_container.specs.Views.{AreKnown, view_contents, contents_of};
ghost use Rattle.proof_container.specs.declared.limits.TheConstants.{MAX_ENTRIES};
ghost use Rattle.vcgen.specs.declared.condition.TheConstants.{MAX_HEIGHT};
ghost use Rattle.proof_container.specs.Versions.{signature_of};
ghost use Rattle.pcc_gate.specs.Passing.{Passes, PassesUntyped};
ghost use Rattle.pcc_gate.specs.Accepted.{IsAccepted};
ghost use Rattle.pcc_gate.specs.Answers.{IsHeld, HasGoodLemmas};
ghost use Rattle.prover_conditions.specs.Conditions.{condition_parts};
ghost use Rattle.bounds_prover.specs.Proving.{excess, encoded_unless};
ghost use Rattle.bounds_prover.specs.Proving.{proved_contents, IsMadeAnswer, IsProveAnswer};
ghost use Rattle.bounds_prover.specs.ProvedLaws.{IsProvedOf};
ghost use Rattle.bounds_prover.specs.declared.fault.ProveFault.TheVariants.{Results};
ghost use Rattle.hereditary_subst.specs.Limits.{NeedsLimit};

use crate::fault::{Measure, ProveFault, ProveFlaw};
use crate::theorems::prove_laws;
use hereditary_subst::Exhausted;
use pcc_gate::{GateFault, MAX_WEIGHT, Passed, front_with_lemmas, lemmas_weight};
use policy_set::Policy;
use proof_container::{MAX_BYTES, MAX_ENTRIES, View, extent, signature_of, write};
use prover_class::class_laws;
use prover_conditions::{ConditionProof, prove_condition};
use std::alloc::{AllocError, Global};
use term_table::Id;
use vcgen::MAX_HEIGHT;

/// The first measure of the proof, or of the contents that the view shows, that is past its limit.
fn excess(alloc: Global, view: &View<'_>, proof: Id) -> Result<Option<ProveFlaw>, AllocError>
    requires roots { AreKnown view.now.table.now view.now.invs.now view.now.proof }
    requires lemmas { LemmasKnown view.now.table.now view.now.lemmas.now }
    requires proof { IsKnown view.now.table.now proof }
    requires places { view.now.table.now.places ≡ places_of (signature_of view.now.version) }
    ensures { let p = tree_at view.now.table.now proof in
        IfOk result (λ o. o ≡ excess (view_contents view.now) p) }
{
    let of_lemmas = lemmas_weight(view.table, signature_of(view.version), view.lemmas);
    let weight = of_lemmas.saturating_add(view.table.weight(proof));
    if weight > MAX_WEIGHT {
        return Ok(Some(ProveFlaw::TooBig(Measure::Weight, u64::from(weight))));
    }
    let height = view.table.height(proof);
    if height > MAX_HEIGHT {
        return Ok(Some(ProveFlaw::TooBig(Measure::Height, u64::from(height))));
    }
    let (entries, bytes) = extent(alloc, view)?;
    if entries > u64::from(MAX_ENTRIES) {
        return Ok(Some(ProveFlaw::TooBig(Measure::Entries, entries)));
    }
    if bytes > u64::from(MAX_BYTES) {
        return Ok(Some(ProveFlaw::TooBig(Measure::Bytes, bytes)));
    }
    Ok(None)
}

/// The encoding of what the view shows, if nothing is past its limit.
fn written(alloc: Global, view: &View<'_>, proof: Id) -> Result<Vec<u8>, ProveFault>
    requires roots { AreKnown view.now.table.now view.now.invs.now view.now.proof }
    requires lemmas { LemmasKnown view.now.table.now view.now.lemmas.now }
    requires proof { IsKnown view.now.table.now proof }
    requires places { view.now.table.now.places ≡ places_of (signature_of view.now.version) }
    requires contents { height_of (tree_at view.now.table.now proof) ≤ MAX_HEIGHT
        → length (entries (roots (view_contents view.now))) ≤ MAX_ENTRIES
        → IsContents (view_contents view.now) }
    ensures limit { NeedsLimit false Results result }
    ensures made { let c = view_contents view.now in
        IsMadeAnswer ⊥ (encoded_unless (excess c (tree_at view.now.table.now proof)) c) result }
{
    match excess(alloc, view, proof) {
        Err(_) => Err(ProveFault::Memory),
        Ok(Some(flaw)) => Err(ProveFault::At(flaw)),
        Ok(None) => match write(alloc, view) {
            Ok(bytes) => Ok(bytes),
            Err(_) => Err(ProveFault::Memory),
        },
    }
}

/// The container that passed the acceptance checks before the proof and those of its lemmas, with a
/// proof.
fn proved(
    alloc: Global,
    limited: bool,
    policy: &Policy,
    bytes: &[u8],
    passed: Passed<'_>,
) -> Result<Vec<u8>, ProveFault>
    requires passes { let contents = contents_of passed.container in
        Passes policy.now bytes.now contents passed.cut.code passed.cut.marks }
    requires lemmas { HasGoodLemmas (contents_of passed.container) }
    requires held { IsHeld passed.container }
    ensures made { let c = contents_of passed.entry.container in
        let parts = condition_parts policy.now c.bound passed.entry.cut.code c.invs in
        IsMadeAnswer (PassesUntyped policy.now bytes.now) (proved_contents c parts) result }
    ensures limit { NeedsLimit limited Results result }
{
    let _ = bytes; // only the clauses speak of it
    class_laws();
    policy.laws(); // tells the prover what the formulas name
    let container = passed.container;
    let cut = passed.cut;
    let version = container.version;
    let head = container.head;
    let bound = container.bound;
    let code = container.code;
    let mut table = container.table;
    let invs = container.invs;
    let lemmas = container.lemmas;
    let found = match prove_condition(&mut table, limited, policy, &cut, &invs, bound) {
        Ok(found) => found,
        Err(Exhausted::Memory) => return Err(ProveFault::Memory),
        Err(Exhausted::Results) => return Err(ProveFault::Results),
    };
    match found {
        ConditionProof::NotEasy(part) => Err(ProveFault::At(ProveFlaw::NotEasy(part))),
        ConditionProof::Proved(proof) => {
            let view = View {
                version,
                head,
                bound,
                code,
                table: &table,
                invs: &invs,
                lemmas: &lemmas,
                proof: Some(proof),
            };
            written(alloc, &view, proof)
        }
    }
}

/// The result of `prove_within`.
fn made(alloc: Global, limited: bool, policy: &Policy, bytes: &[u8]) -> Result<Vec<u8>, ProveFault>
    ensures exact { IsProveAnswer policy.now bytes.now result }
    ensures limit { NeedsLimit limited Results result }
{
    match front_with_lemmas(alloc, limited, policy, bytes) {
        Err(GateFault::Refused(refusal)) => Err(ProveFault::At(ProveFlaw::Refused(refusal))),
        Err(GateFault::Memory) => Err(ProveFault::Memory),
        Err(GateFault::Results) => Err(ProveFault::Results),
        Ok(passed) => proved(alloc, limited, policy, bytes, passed),
    }
}

/// Encodes the container in `bytes` with a proof of its verification condition under `policy` in
/// place of its own proof, if the prover finds one (`prover_class`). The result has the container's
/// version, step bound and lemmas; the proof cites no lemma. The container checker accepts the
/// result.
///
/// Errors: `At` the first of these: `Refused` names the first check that fails of those before the proof
/// and, for the lemmas alone, of 10 and 14 (`pcc_gate::front_with_lemmas`). `NotEasy` names the
/// first part of the condition that `prover_class` gives no proof: 0 is the entry's part, k + 1
/// that of invariant k. `TooBig` names the first measure that is past its limit, with its value:
/// the weight of the proof with the lemmas' proofs (`pcc_gate::MAX_WEIGHT`), the proof's height
/// (`vcgen::MAX_HEIGHT`), the container's entries and bytes (`proof_container::MAX_ENTRIES`,
/// `MAX_BYTES`). `Memory` says nothing about `bytes`. `Results`: what is cached passed a limit, that
/// of the container checker or, for the search with the terms that it builds,
/// `prover_conditions::MOST_SEARCHED`; it comes only after checks 1 to 5.
pub fn prove(alloc: Global, policy: &Policy, bytes: &[u8]) -> Result<Vec<u8>, ProveFault>
    ensures exact { IsProveAnswer policy.now bytes.now result }
    ensures accepted { IfOk result (λ out. IsAccepted policy.now out.items) }
    ensures same { IfOk result (λ out. IsProvedOf bytes.now out.items) }
{
    prove_within(alloc, true, policy, bytes)
}

/// Encodes the container in `bytes` with a proof, as `prove` does, with the limits on what is
/// cached if `limited`, and else without any.
///
/// Errors: as `prove`; `Results` only under the limits.
pub fn prove_within(
    alloc: Global,
    limited: bool,
    policy: &Policy,
    bytes: &[u8],
) -> Result<Vec<u8>, ProveFault>
    ensures exact { IsProveAnswer policy.now bytes.now result }
    ensures accepted { IfOk result (λ out. IsAccepted policy.now out.items) }
    ensures same { IfOk result (λ out. IsProvedOf bytes.now out.items) }
    ensures limit { NeedsLimit limited Results result }
{
    prove_laws();
    policy.laws(); // tells the prover what the formulas name
    made(alloc, limited, policy, bytes)
}
