//! The acceptance checks before the proof, a function for each.

ghost use Rattle.std.specs.Prelude.{◌≡◌, ◌≤◌, ◌+◌, ◌<◌, ◌*◌, ◌%◌, [], ◌∷◌, length, drop, map};
ghost use Rattle.std.specs.Prelude.{All, IfOk, IfSome, OnOk, false};
ghost use Rattle.std.specs.Prelude.{replicate, slice_set};
ghost use Rattle.std.specs.List.Sorted.{IsStrictlyIncreasing};
ghost use Rattle.std.specs.List.{AllByRecursion};
ghost use Rattle.std.specs.Option.{option_map};
ghost use Rattle.alpha_cfg.specs.declared.code.TheConstants.{MAX_WORDS};
ghost use Rattle.term_table.specs.Table.{IsKnown, AllKnown, tree_at, ctx_of, Extends, id_trees};
ghost use Rattle.term_table.specs.Measures.{capped};
ghost use Rattle.lf_signature.specs.Nodes.{IsIdOf};
ghost use Rattle.lf_signature.specs.Constants.{declared};
ghost use Rattle.term_table.specs.Tree.{Fam};
ghost use Rattle.lf_check.specs.Kept.{AreKept};
ghost use Rattle.lf_encode.specs.Contexts.{sort_types};
ghost use Rattle.lf_lemmas.specs.Tables.{lemmas_in, LemmasKnown};
ghost use Rattle.proof_container.specs.Views.{AreKnown};
ghost use Rattle.proof_container.specs.declared.limits.TheConstants.{MAX_INVS, MAX_LEMMAS};
ghost use Rattle.vcgen.specs.Encoded.{context_of};
ghost use Rattle.pcc_gate.specs.First.{too_high, has_form, formless, lemma_formless};
ghost use Rattle.pcc_gate.specs.Inside.Stages.{IsContainerAnswer, IsCodeRead, AnswersSearch, AnswersLimit};
ghost use Rattle.pcc_gate.specs.Inside.Stages.{later_trees, measured_trees};
ghost use Rattle.pcc_gate.specs.Inside.Stages.{IsCutMade};
ghost use Rattle.pcc_gate.specs.declared.refusal.Refusal.TheVariants as refusal;
ghost use Rattle.alpha_cfg.specs.Cuts.{unfolded_of};
ghost use Rattle.vcgen.specs.declared.condition.TheConstants.{MAX_UNFOLDED};
ghost use Rattle.hereditary_subst.specs.Limits.{is_limited, SpendsResults, NeedsLimit};
ghost use Rattle.pcc_gate.specs.declared.fault.GateFault.TheVariants.{Results};

use crate::fault::GateFault;
use crate::for_policy::is_for;
use crate::refusal::Refusal;
use alpha_cfg::{Code, CodeFault, Cut, CutFault};
use lf_check::{Exhausted, Kept, check_term_with};
use lf_lemma_check::{Asked, first_failing};
use lf_signature::numbers::{EXP, MEM};
use lf_signature::{WordSignature, typing_laws};
use policy_set::Policy;
use proof_container::{Container, MAX_BYTES, Malformed, read};
use std::alloc::{AllocError, Global};
use term_table::{Id, Node, Table};
use vcgen::{MAX_HEIGHT, MAX_UNFOLDED};
use word_ops::Profile;

/// Acceptance checks 1 to 3: returns the container in the bytes, which is for the policy.
pub(crate) fn container_for<'b>(
    alloc: Global,
    policy: &Policy,
    bytes: &'b [u8],
) -> Result<Container<'b>, GateFault>
    ensures answer { IsContainerAnswer policy.now bytes.now result }
    ensures limit { NeedsLimit false Results result }
{
    if bytes.len() > MAX_BYTES as usize {
        return Err(GateFault::Refused(Refusal::TooLong(bytes.len() as u64)));
    }
    match read(alloc, bytes) {
        Err(Malformed::At(offset, flaw)) => {
            Err(GateFault::Refused(Refusal::Malformed(offset, flaw)))
        }
        Err(Malformed::Memory) => Err(GateFault::Memory),
        Ok(container) => {
            let head = container.head;
            let named = is_for(alloc, policy, head)?;
            if !named {
                return Err(GateFault::Refused(Refusal::OtherPolicy(head)));
            }
            Ok(container)
        }
    }
}

/// Acceptance check 4: returns the code that the bytes encode in the profile.
pub(crate) fn code_in(alloc: Global, bytes: &[u8], profile: Profile) -> Result<Code, GateFault>
    requires whole { length bytes.now % 4 ≡ 0 }
    requires some { 0 < length bytes.now }
    requires short { length bytes.now ≤ 4 * MAX_WORDS }
    ensures answer { IsCodeRead profile bytes.now result }
    ensures limit { NeedsLimit false Results result }
{
    match Code::of(alloc, bytes, profile) {
        Ok(code) => Ok(code),
        Err(CodeFault::At(flaw)) => Err(GateFault::Refused(Refusal::BadCode(flaw))),
        Err(CodeFault::Memory) => Err(GateFault::Memory),
    }
}

/// The height of the term, if it is past the limit.
fn height_past(table: &Table, id: Id) -> Option<u32>
    requires { IsKnown table.now id }
    ensures { result ≡ option_map capped (too_high (tree_at table.now id ∷ [])) }
{
    let height = table.height(id);
    if height > MAX_HEIGHT {
        Some(height)
    } else {
        None
    }
}

/// Acceptance check 5 after the invariants: the height of the first term of a lemma, or of the
/// proof, that is too high.
fn later_too_high(table: &Table, lemmas: &[(Id, Id)], proof: Option<Id>) -> Option<u32>
    requires lemmas { LemmasKnown table.now lemmas.now }
    requires proof { IfSome proof (IsKnown table.now) }
    ensures { result ≡ option_map capped (too_high (later_trees table.now lemmas.now proof)) }
{
    match lemmas {
        [] => match proof {
            None => None,
            Some(id) => height_past(table, id),
        },
        [first, rest @ ..] => {
            let (formula, own) = *first;
            if let Some(height) = height_past(table, formula) {
                return Some(height);
            }
            if let Some(height) = height_past(table, own) {
                return Some(height);
            }
            later_too_high(table, rest, proof)
        }
    }
}

/// Acceptance check 5: returns the height of the first root that is too high, from this index of
/// the invariants on.
pub(crate) fn first_too_high(
    table: &Table,
    invs: &[(u32, Id)],
    lemmas: &[(Id, Id)],
    proof: Option<Id>,
    from: usize,
) -> Option<u32>
    requires known { AreKnown table.now invs.now proof }
    requires lemmas { LemmasKnown table.now lemmas.now }
    requires from { from ≤ length invs.now }
    ensures { let rest = drop from invs.now in
        result ≡ option_map capped (too_high (measured_trees table.now rest lemmas.now proof)) }
{
    if from == invs.len() {
        return later_too_high(table, lemmas, proof);
    }
    let (_, inv) = invs[from];
    match height_past(table, inv) {
        Some(height) => Some(height),
        None => first_too_high(table, invs, lemmas, proof, from + 1),
    }
}

/// The types of m and r0 to r30.
fn machine_types(alloc: Global, word: Id, memory: Id) -> Result<Vec<Id>, AllocError>
    ensures { IfOk result (λ ids. ids.items ≡ slice_set (replicate 32 word) 0 memory) }
{
    let mut types = vec![in alloc; word; 32]?;
    types[0] = memory;
    Ok(types)
}

/// The types of the remaining steps, m and r0 to r30.
fn left_types(alloc: Global, word: Id, memory: Id) -> Result<Vec<Id>, AllocError>
    ensures { IfOk result (λ ids. ids.items ≡ slice_set (replicate 33 word) 1 memory) }
{
    let mut types = vec![in alloc; word; 33]?;
    types[1] = memory;
    Ok(types)
}

/// Returns the types of the variables of invariants: the remaining steps, if `bound` is Some, then
/// m and r0 to r30.
///
/// Errors: out of memory; each id keeps its tree.
pub fn context_types(
    alloc: Global,
    table: &mut Table,
    bound: Option<u32>,
) -> Result<Vec<Id>, AllocError>
    ensures known { IfOk result (λ ids. AllKnown table.new ids.items) }
    ensures types { IfOk result
        (λ ids. ctx_of table.new ids.items ≡ sort_types (context_of bound)) }
    ensures extends { Extends table.old table.new }
{
    let word = table.intern(Node::Fam(EXP))?;
    let memory = table.intern(Node::Fam(MEM))?;
    match bound {
        None => machine_types(alloc, word, memory),
        Some(_) => left_types(alloc, word, memory),
    }
}

/// Whether the term is a well-typed formula over the signature in the context of code with that
/// bound, whose types are `context`.
fn has_form(
    table: &mut Table,
    kept: &mut Kept,
    signature: WordSignature,
    bound: Option<u32>,
    context: &[Id],
    form: Id,
    id: Id,
) -> Result<bool, Exhausted>
    requires id { IsKnown table.old id }
    requires form { IsIdOf table.old (Fam 2) form }
    requires context { AllKnown table.old context.now }
    requires types { ctx_of table.old context.now ≡ sort_types (context_of bound) }
    requires kept { AreKept (declared signature) table.old kept.old }
    ensures exact { IfOk result (λ b. b ≡ has_form signature bound (tree_at table.old id)) }
    ensures extends { Extends table.old table.new }
    ensures kept { AreKept (declared signature) table.new kept.new }
    ensures spends { SpendsResults table.new kept.old.memo kept.new.memo result }
{
    let _ = bound; // only the clauses speak of it
    typing_laws();
    check_term_with(table, kept, &signature, context, id, form)
}

/// Returns the number of the first invariant that fails acceptance check 6, from number `from` of
/// `invs` on: that isn't a formula over the context of code with that bound in the signature. None
/// if each is one. `context` is what `context_types` returns.
///
/// Errors: out of memory, or the limit of `kept` is reached; each id keeps its tree.
pub fn first_formless(
    table: &mut Table,
    kept: &mut Kept,
    signature: WordSignature,
    bound: Option<u32>,
    context: &[Id],
    form: Id,
    invs: &[(u32, Id)],
    from: usize,
) -> Result<Option<u32>, Exhausted>
    requires known { AllByRecursion (λ inv. IsKnown table.old inv.1) invs.now }
    requires few { length invs.now ≤ MAX_INVS }
    requires from { from ≤ length invs.now }
    requires form { IsIdOf table.old (Fam 2) form }
    requires context { AllKnown table.old context.now }
    requires types { ctx_of table.old context.now ≡ sort_types (context_of bound) }
    requires kept { AreKept (declared signature) table.old kept.old }
    ensures exact { let rest = id_trees table.old (drop from invs.now) in
        IfOk result (λ found. found ≡ formless signature bound from rest) }
    ensures extends { Extends table.old table.new }
    ensures kept { AreKept (declared signature) table.new kept.new }
    ensures spends { SpendsResults table.new kept.old.memo kept.new.memo result }
{
    if from == invs.len() {
        return Ok(None);
    }
    let (_, inv) = invs[from];
    if !has_form(table, kept, signature, bound, context, form, inv)? {
        return Ok(Some(from as u32));
    }
    first_formless(table, kept, signature, bound, context, form, invs, from + 1)
}

/// Acceptance check 13: each lemma's formula is a formula over no variables in the signature.
pub(crate) fn lemmas_formed(
    kept: &mut Kept,
    table: &mut Table,
    signature: WordSignature,
    lemmas: &[(Id, Id)],
) -> Result<(), GateFault>
    requires known { LemmasKnown table.old lemmas.now }
    requires few { length lemmas.now ≤ MAX_LEMMAS }
    requires kept { AreKept (declared signature) table.old kept.old }
    ensures answer { let lemmas = lemmas_in table.old lemmas.now in
        AnswersSearch refusal.LemmaNotForm (lemma_formless signature lemmas) result }
    ensures extends { Extends table.old table.new }
    ensures kept { OnOk result (AreKept (declared signature) table.new kept.new) }
    ensures limited { is_limited kept.new.memo ≡ is_limited kept.old.memo }
    ensures limit { NeedsLimit (is_limited kept.old.memo) Results result }
{
    match first_failing(table, kept, &signature, Asked::Formula, lemmas)? {
        Some(lemma) => Err(GateFault::Refused(Refusal::LemmaNotForm(lemma))),
        None => Ok(()),
    }
}

/// The cut points, as instruction indices.
fn indices(alloc: Global, invs: &[(u32, Id)]) -> Result<Vec<u32>, AllocError>
    ensures { IfOk result (λ v. v.items ≡ map (λ p. p.0) invs.now) }
{
    let mut indices = Vec::new(alloc);
    for (index, _) in invs {
        indices.push(*index)?;
    }
    Ok(indices)
}

/// Acceptance check 7: the code with its cut points, if every cycle contains one.
pub(crate) fn cut_at(alloc: Global, code: Code, invs: &[(u32, Id)]) -> Result<Cut, GateFault>
    requires rising { IsStrictlyIncreasing (map (λ p. p.0) invs.now) }
    requires below { All (λ k. k < length code) (map (λ p. p.0) invs.now) }
    ensures answer { IsCutMade code (map (λ p. p.0) invs.now) result }
    ensures limit { NeedsLimit false Results result }
{
    let annotated = indices(alloc, invs)?;
    match code.cut(alloc, &annotated) {
        Ok(cut) => Ok(cut),
        Err(CutFault::Uncut(index)) => Err(GateFault::Refused(Refusal::Uncut(index))),
        Err(CutFault::Memory) => Err(GateFault::Memory),
    }
}

/// Acceptance check 8: the total length of the paths between cut points is within its limit.
pub(crate) fn short(cut: &Cut) -> Result<(), GateFault>
    ensures answer { let unfolded = unfolded_of cut.now.code cut.now.marks in
        let refused = refusal.UnfoldLimit (capped unfolded) in
        AnswersLimit MAX_UNFOLDED unfolded refused result }
    ensures limit { NeedsLimit false Results result }
{
    let unfolded = cut.unfolded();
    if unfolded > MAX_UNFOLDED {
        return Err(GateFault::Refused(Refusal::UnfoldLimit(unfolded)));
    }
    Ok(())
}
