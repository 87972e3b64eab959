//! The acceptance checks of the proof and of the lemmas' proofs.

ghost use Rattle.std.specs.Prelude.{◌≡◌, ◌≤◌, [], IfOk, IfSome, OnOk, length, map, false};
ghost use Rattle.alpha_cfg.specs.Cuts.{AreFlags, unfolded_of};
ghost use Rattle.term_table.specs.Table.{IsKnown, Extends, tree_at, id_trees};
ghost use Rattle.hereditary_subst.specs.Simples.{IsResult};
ghost use Rattle.lf_signature.specs.Constants.{places_of, declared};
ghost use Rattle.lf_signature.specs.Terms.{pf};
ghost use Rattle.lf_signature.specs.Typing.{Checks};
ghost use Rattle.lf_check.specs.Kept.{AreKept};
ghost use Rattle.lf_lemmas.specs.Lemmas.{formulas_of, with_lemmas};
ghost use Rattle.lf_lemmas.specs.Tables.{lemmas_in, LemmasKnown, HoldsLemmas};
ghost use Rattle.proof_container.specs.declared.limits.TheConstants.{MAX_LEMMAS};
ghost use Rattle.term_table.specs.Measures.{capped};
ghost use Rattle.pcc_gate.specs.Weights.{lemmas_weight};
ghost use Rattle.vcgen.specs.Answers.{AreLowInvs};
ghost use Rattle.vcgen.specs.Encoded.{AreForms};
ghost use Rattle.vcgen.specs.declared.condition.TheConstants.{MAX_UNFOLDED};
ghost use Rattle.pcc_gate.specs.Inside.Acceptance.{IsProofFound, IsProofAnswer};
ghost use Rattle.pcc_gate.specs.Inside.Stages.{AnswersSearch, AnswersLimit};
ghost use Rattle.pcc_gate.specs.First.{lemma_unproved};
ghost use Rattle.pcc_gate.specs.declared.limits.TheConstants.{MAX_WEIGHT};
ghost use Rattle.pcc_gate.specs.declared.refusal.Refusal.TheVariants as refusal;
ghost use Rattle.hereditary_subst.specs.Limits.{is_limited, SpendsResults, NeedsLimit};
ghost use Rattle.pcc_gate.specs.declared.fault.GateFault.TheVariants.{Results};

use crate::fault::GateFault;
use crate::limits::MAX_WEIGHT;
use crate::refusal::Refusal;
use alpha_cfg::Cut;
use gate_match::is_condition_with;
use lf_check::{Exhausted, Kept};
use lf_lemma_check::first_unproved;
use lf_lemmas::WithLemmas;
use lf_signature::WordSignature;
use lf_truth::proved_with;
use policy_set::Policy;
use std::alloc::Global;
use term_table::{Id, Table};
use vcgen::VcFault;

/// Returns the total weight of the lemmas' proofs, by the parameters of the signature. Saturates at
/// 4,294,967,295.
pub fn lemmas_weight(table: &Table, signature: WordSignature, lemmas: &[(Id, Id)]) -> u32
    requires known { LemmasKnown table.now lemmas.now }
    requires places { table.now.places ≡ places_of signature }
    ensures { result ≡ capped (lemmas_weight signature (lemmas_in table.now lemmas.now)) }
{
    match lemmas {
        [] => 0,
        [first, rest @ ..] => {
            let (_, proof) = *first;
            let own = table.weight(proof);
            own.saturating_add(lemmas_weight(table, signature, rest))
        }
    }
}

/// Acceptance checks 9 and 10: returns the proof, whose weight with the lemmas' proofs isn't too
/// great by the parameters of the signature.
pub(crate) fn proof_in(
    table: &Table,
    signature: WordSignature,
    lemmas: &[(Id, Id)],
    proof: Option<Id>,
) -> Result<Id, GateFault>
    requires known { IfSome proof (IsKnown table.now) }
    requires lemmas { LemmasKnown table.now lemmas.now }
    requires places { table.now.places ≡ places_of signature }
    ensures { IsProofFound signature table.now lemmas.now proof result }
{
    match proof {
        None => Err(GateFault::Refused(Refusal::NoProof)),
        Some(id) => {
            let of_lemmas = lemmas_weight(table, signature, lemmas);
            let weight = of_lemmas.saturating_add(table.weight(id));
            if weight > MAX_WEIGHT {
                return Err(GateFault::Refused(Refusal::ProofWeight(weight)));
            }
            Ok(id)
        }
    }
}

/// Acceptance check 10 for the lemmas' proofs alone.
pub(crate) fn lemmas_light(
    table: &Table,
    signature: WordSignature,
    lemmas: &[(Id, Id)],
) -> Result<(), GateFault>
    requires known { LemmasKnown table.now lemmas.now }
    requires places { table.now.places ≡ places_of signature }
    ensures answer { let weight = lemmas_weight signature (lemmas_in table.now lemmas.now) in
        AnswersLimit MAX_WEIGHT weight (refusal.ProofWeight (capped weight)) result }
    ensures limit { NeedsLimit false Results result }
{
    let weight = lemmas_weight(table, signature, lemmas);
    if weight > MAX_WEIGHT {
        return Err(GateFault::Refused(Refusal::ProofWeight(weight)));
    }
    Ok(())
}

/// Acceptance check 14: over the signature each lemma's proof proves its formula with the lemmas
/// before it.
pub(crate) fn lemmas_proved(
    alloc: Global,
    table: &mut Table,
    kept: &mut Kept,
    signature: WordSignature,
    lemmas: &[(Id, Id)],
) -> Result<(), GateFault>
    requires holds { HoldsLemmas (declared signature) table.old lemmas.now }
    requires few { length lemmas.now ≤ MAX_LEMMAS }
    requires kept { AreKept (declared signature) table.old kept.old }
    ensures answer { let lemmas = lemmas_in table.old lemmas.now in
        AnswersSearch refusal.LemmaNotProof (lemma_unproved signature lemmas) result }
    ensures extends { Extends table.old table.new }
    ensures kept { let sig = declared signature in
        let forms = formulas_of (lemmas_in table.new lemmas.now) in
        OnOk result (AreKept (with_lemmas sig forms) table.new kept.new) }
    ensures limit { NeedsLimit (is_limited kept.old.memo) Results result }
{
    match first_unproved(alloc, table, kept, &signature, lemmas)? {
        Some(lemma) => Err(GateFault::Refused(Refusal::LemmaNotProof(lemma))),
        None => Ok(()),
    }
}

/// The formula that the proof proves over the signature with the lemmas: None if it proves none.
fn formula_proved(
    table: &mut Table,
    kept: &mut Kept,
    signature: WordSignature,
    lemmas: &[(Id, Id)],
    proof: Id,
) -> Result<Option<Id>, Exhausted>
    requires proof { IsKnown table.old proof }
    requires holds { HoldsLemmas (declared signature) table.old lemmas.now }
    requires kept { let forms = formulas_of (lemmas_in table.old lemmas.now) in
        AreKept (with_lemmas (declared signature) forms) table.old kept.old }
    ensures exact { let forms = formulas_of (lemmas_in table.old lemmas.now) in
        let proof = tree_at table.old proof in
        let sig = with_lemmas (declared signature) forms in
        IfOk result (IsResult table.new (λ g. Checks sig [] proof (pf g))) }
    ensures extends { Extends table.old table.new }
    ensures kept { let forms = formulas_of (lemmas_in table.new lemmas.now) in
        AreKept (with_lemmas (declared signature) forms) table.new kept.new }
    ensures spends { SpendsResults table.new kept.old.memo kept.new.memo result }
{
    let extended = WithLemmas {
        sig: &signature,
        lemmas,
    };
    proved_with(table, kept, &extended, proof)
}

/// Acceptance check 11: over the signature with all lemmas the proof proves the verification
/// condition with that bound. The formula that it proves is found first and compared with the
/// condition, so no condition is built that a proof is too small for.
pub(crate) fn proved(
    table: &mut Table,
    kept: &mut Kept,
    signature: WordSignature,
    lemmas: &[(Id, Id)],
    policy: &Policy,
    bound: Option<u32>,
    cut: &Cut,
    invs: &[(u32, Id)],
    proof: Id,
) -> Result<(), GateFault>
    requires invs { AreLowInvs table.old invs.now }
    requires forms { AreForms signature bound (id_trees table.old invs.now) }
    requires marks { AreFlags (map (λ p. p.0) invs.now) (length cut.now.code) cut.now.marks }
    requires short { unfolded_of cut.now.code cut.now.marks ≤ MAX_UNFOLDED }
    requires proof { IsKnown table.old proof }
    requires holds { HoldsLemmas (declared signature) table.old lemmas.now }
    requires kept { let forms = formulas_of (lemmas_in table.old lemmas.now) in
        AreKept (with_lemmas (declared signature) forms) table.old kept.old }
    ensures answer { let lemmas = lemmas_in table.old lemmas.now in
        let invs = id_trees table.old invs.now in let code = cut.now.code in
        let proof = tree_at table.old proof in
        IsProofAnswer signature lemmas policy.now bound code invs proof result }
    ensures extends { Extends table.old table.new }
{
    let Some(formula) = formula_proved(table, kept, signature, lemmas, proof)? else {
        return Err(GateFault::Refused(Refusal::NotProof));
    };
    let memo = &mut kept.memo;
    let equal = match is_condition_with(table, memo, cut, policy, invs, bound, formula) {
        Ok(equal) => equal,
        Err(VcFault::Memory) => return Err(GateFault::Memory),
        Err(VcFault::Results) => return Err(GateFault::Results),
        Err(VcFault::UnfoldLimit(_)) => unreachable!(),
    };
    if !equal {
        return Err(GateFault::Refused(Refusal::NotProof));
    }
    Ok(())
}
