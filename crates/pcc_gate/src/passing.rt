//! The acceptance checks before the proof, in order.

ghost use Rattle.std.specs.Prelude.{◌≡◌, ◌≤◌, ◌<◌, length, map, All, IfOk, OnOk};
ghost use Rattle.std.specs.List.{AllByRecursion};
ghost use Rattle.std.specs.List.Sorted.{IsStrictlyIncreasing};
ghost use Rattle.term_table.specs.Table.{TableView, IsKnown, Extends, id_trees};
ghost use Rattle.lf_signature.specs.Constants.{declared};
ghost use Rattle.lf_check.specs.Kept.{AreKept};
ghost use Rattle.lf_lemmas.specs.Tables.{LemmasKnown};
ghost use Rattle.proof_container.specs.Views.{AreKnown, contents_of};
ghost use Rattle.proof_container.specs.Encoding.{IsContents};
ghost use Rattle.proof_container.specs.declared.limits.TheConstants.{MAX_INVS, MAX_LEMMAS};
ghost use Rattle.pcc_gate.specs.Answers.{IsHeld, IsFrontAnswer, IsLemmaFrontAnswer};
ghost use Rattle.pcc_gate.specs.Passing.{Passes};
ghost use Rattle.pcc_gate.specs.Inside.Stages.{with_roots, AnswersSearch, IsShapeAnswer, CountsLow};
ghost use Rattle.pcc_gate.specs.First.{formless};
ghost use Rattle.pcc_gate.specs.declared.refusal.Refusal.TheVariants as refusal;
ghost use Rattle.pcc_gate.specs.Inside.Passed.{IsRestAnswer, IsPassedAnswer, CountsUntyped};
ghost use Rattle.lf_signature.specs.declared.editions.WordSignature.{WordSignature};
ghost use Rattle.hereditary_subst.specs.Limits.{is_limited, NeedsLimit};
ghost use Rattle.pcc_gate.specs.declared.fault.GateFault.TheVariants.{Results};
ghost use Rattle.proof_container.specs.Versions.{signature_of};

use crate::clauses::{
    code_in, container_for, context_types, cut_at, first_formless, first_too_high, lemmas_formed,
    short,
};
use crate::fault::GateFault;
use crate::proving::{lemmas_light, lemmas_proved};
use crate::refusal::Refusal;
use alpha_cfg::{Code, Cut};
use lf_check::{Kept, MOST_RESULTS};
use lf_signature::WordSignature;
use lf_signature::numbers::FORM;
use policy_set::Policy;
use proof_container::{Container, profile_of, signature_of};
use std::alloc::Global;
use term_table::{Id, Node, Table};

/// A container that passed the acceptance checks before the proof.
#[derive(Drop)]
pub struct Passed<'b> {
    /// The container in the bytes. Its table may have more terms than the bytes.
    pub container: Container<'b>,
    /// The code with its cut points.
    pub cut: Cut,
}

/// Clause 6: each invariant is a formula over the context of code with that bound in the signature.
fn formed(
    alloc: Global,
    kept: &mut Kept,
    table: &mut Table,
    signature: WordSignature,
    bound: Option<u32>,
    invs: &[(u32, Id)],
) -> Result<(), GateFault>
    requires known { AllByRecursion (λ inv. IsKnown table.old inv.1) invs.now }
    requires few { length invs.now ≤ MAX_INVS }
    requires kept { (t : TableView) → AreKept (declared signature) t kept.old }
    ensures answer { let invs = id_trees table.old invs.now in
        AnswersSearch refusal.InvNotForm (formless signature bound 0 invs) result }
    ensures extends { Extends table.old table.new }
    ensures kept { OnOk result (AreKept (declared signature) table.new kept.new) }
    ensures limited { is_limited kept.new.memo ≡ is_limited kept.old.memo }
    ensures limit { NeedsLimit (is_limited kept.old.memo) Results result }
{
    let context = context_types(alloc, table, bound)?;
    let form = table.intern(Node::Fam(FORM))?;
    match first_formless(table, kept, signature, bound, &context, form, invs, 0)? {
        Some(inv) => Err(GateFault::Refused(Refusal::InvNotForm(inv))),
        None => Ok(()),
    }
}

/// Acceptance checks 5, 6, 13, 7 and 8 in the signature: returns the code with its cut points.
fn shaped(
    alloc: Global,
    kept: &mut Kept,
    table: &mut Table,
    signature: WordSignature,
    bound: Option<u32>,
    code: Code,
    invs: &[(u32, Id)],
    lemmas: &[(Id, Id)],
    proof: Option<Id>,
) -> Result<Cut, GateFault>
    requires known { AreKnown table.old invs.now proof }
    requires lemmas { LemmasKnown table.old lemmas.now }
    requires few { length invs.now ≤ MAX_INVS }
    requires few_lemmas { length lemmas.now ≤ MAX_LEMMAS }
    requires rising { IsStrictlyIncreasing (map (λ p. p.0) invs.now) }
    requires below { All (λ k. k < length code) (map (λ p. p.0) invs.now) }
    requires kept { (t : TableView) → AreKept (declared signature) t kept.old }
    ensures answer { let roots = with_roots table.old bound invs.now lemmas.now proof in
        IsShapeAnswer signature roots code result }
    ensures extends { Extends table.old table.new }
    ensures kept { OnOk result (AreKept (declared signature) table.new kept.new) }
    ensures limited { is_limited kept.new.memo ≡ is_limited kept.old.memo }
    ensures limit { NeedsLimit (is_limited kept.old.memo) Results result }
    ensures typed { CountsLow (with_roots table.old bound invs.now lemmas.now proof) result }
{
    if let Some(height) = first_too_high(table, invs, lemmas, proof, 0) {
        return Err(GateFault::Refused(Refusal::Height(height)));
    }
    formed(alloc, kept, table, signature, bound, invs)?;
    lemmas_formed(kept, table, signature, lemmas)?;
    let cut = cut_at(alloc, code, invs)?;
    short(&cut)?;
    Ok(cut)
}

/// Clauses 4 to 8 and 13 of a container.
fn rest<'b>(
    alloc: Global,
    kept: &mut Kept,
    container: Container<'b>,
) -> Result<Passed<'b>, GateFault>
    requires contents { IsContents (contents_of container) }
    requires held { IsHeld container }
    requires kept { (s : WordSignature) (t : TableView) → AreKept (declared s) t kept.old }
    ensures answer { IsRestAnswer (contents_of container.entry) result }
    ensures kept { IfOk result (λ p. let s = signature_of p.container.version in
        AreKept (declared s) p.container.table kept.new) }
    ensures limited { is_limited kept.new.memo ≡ is_limited kept.old.memo }
    ensures limit { NeedsLimit (is_limited kept.old.memo) Results result }
    ensures typed { CountsUntyped (contents_of container.entry) result }
{
    let mut container = container;
    let profile = profile_of(container.version);
    let signature = signature_of(container.version);
    let insns = code_in(alloc, container.code, profile)?;
    let held = &mut container;
    let cut = shaped(
        alloc,
        kept,
        &mut held.table,
        signature,
        held.bound,
        insns,
        &held.invs,
        &held.lemmas,
        held.proof,
    )?;
    Ok(Passed { container, cut })
}

/// The acceptance checks before the proof, with the cached judgements.
pub(crate) fn pass<'b>(
    alloc: Global,
    kept: &mut Kept,
    policy: &Policy,
    bytes: &'b [u8],
) -> Result<Passed<'b>, GateFault>
    requires kept { (s : WordSignature) (t : TableView) → AreKept (declared s) t kept.old }
    ensures answer { IsPassedAnswer policy.now bytes.now result }
    ensures kept { IfOk result (λ p. let s = signature_of p.container.version in
        AreKept (declared s) p.container.table kept.new) }
    ensures limited { is_limited kept.new.memo ≡ is_limited kept.old.memo }
    ensures limit { NeedsLimit (is_limited kept.old.memo) Results result }
{
    match container_for(alloc, policy, bytes) {
        Err(fault) => Err(fault),
        Ok(container) => rest(alloc, kept, container),
    }
}

/// Checks whether the acceptance checks before the proof pass, and returns the container in `bytes`
/// with its code and cut points. The checks are: the bytes are a container for `policy`; its code
/// is well formed; no term is too high; each invariant is a formula, which names the remaining
/// steps only if these are bounded; each lemma's formula is one over no variables; every cycle
/// contains a cut point; the total length of the paths between cut points is within the limit. The
/// container's terms are its table's, whose weights go by the rules' parameters.
///
/// Errors: `Refused` names the first of these checks that fails (`specs/First`), exactly if one
/// does. `Memory` says nothing about `bytes`. One cache of at most `MOST_RESULTS` results and
/// judgements serves all invariants and the lemmas' formulas; past that the call returns `Results`,
/// which comes only after checks 1 to 5.
pub fn front<'b>(alloc: Global, policy: &Policy, bytes: &'b [u8]) -> Result<Passed<'b>, GateFault>
    ensures exact { IsFrontAnswer policy.now bytes.now result }
    ensures held { IfOk result (λ p. IsHeld p.container) }
{
    let mut kept = Kept::new(alloc, MOST_RESULTS);
    pass(alloc, &mut kept, policy, bytes)
}

/// Acceptance checks 10 and 14 for the lemmas alone, of a container that passed those before the
/// proof.
fn good_lemmas<'b>(
    alloc: Global,
    kept: &mut Kept,
    policy: &Policy,
    bytes: &[u8],
    passed: Passed<'b>,
) -> Result<Passed<'b>, GateFault>
    requires passes { let contents = contents_of passed.container in
        Passes policy.now bytes.now contents passed.cut.code passed.cut.marks }
    requires held { IsHeld passed.container }
    requires kept { let s = signature_of passed.container.version in
        AreKept (declared s) passed.container.table kept.old }
    ensures answer { IsLemmaFrontAnswer policy.now bytes.now result }
    ensures held { IfOk result (λ p. IsHeld p.container) }
    ensures limit { NeedsLimit (is_limited kept.old.memo) Results result }
{
    let _ = policy; // only the clauses speak of it
    let _ = bytes; // and of these
    let Passed { container, cut } = passed;
    let mut container = container;
    let version = container.version;
    let signature = signature_of(version);
    let held = &mut container;
    lemmas_light(&held.table, signature, &held.lemmas)?;
    lemmas_proved(alloc, &mut held.table, kept, signature, &held.lemmas)?;
    Ok(Passed { container, cut })
}

/// Checks whether the acceptance checks before the proof pass, as `front` does, and in addition
/// checks 10 and 14 for the lemmas alone: their proofs aren't too heavy together, and each proves
/// its formula with the lemmas before it. Returns the container in `bytes` with its code and cut
/// points. If the proof is then replaced, only the new proof may fail. If not `limited`, the cache
/// has no limit.
///
/// Errors: `Refused` names the first of these checks that fails, exactly if one does; `Memory` as
/// in `front`, and, if `limited`, `Results`.
pub fn front_with_lemmas<'b>(
    alloc: Global,
    limited: bool,
    policy: &Policy,
    bytes: &'b [u8],
) -> Result<Passed<'b>, GateFault>
    ensures exact { IsLemmaFrontAnswer policy.now bytes.now result }
    ensures held { IfOk result (λ p. IsHeld p.container) }
    ensures limit { NeedsLimit limited Results result }
{
    let mut kept = Kept::within(alloc, limited, MOST_RESULTS);
    match pass(alloc, &mut kept, policy, bytes) {
        Err(fault) => Err(fault),
        Ok(passed) => good_lemmas(alloc, &mut kept, policy, bytes, passed),
    }
}
