//! Checks proofs against formulas.

ghost use Rattle.std.specs.Prelude.{◌≡◌, ◌↔◌, [], IfOk, IfSome, IsTrue};
ghost use Rattle.term_table.specs.Table.{TableView, IsKnown, tree_at, Extends};
ghost use Rattle.hereditary_subst.specs.Simples.{IsResult};
ghost use Rattle.lf_signature.specs.Terms.{pf};
ghost use Rattle.lf_signature.specs.Typing.{Checks};
ghost use Rattle.lf_check.specs.Kept.{AreKept};
ghost use Rattle.formula_tree.specs.Formulas.{Form};
ghost use Rattle.formula_tree.specs.Truth.{IsValid};
ghost use Rattle.lf_truth.specs.Validity.{EncodesClosed, AreGivenTypes, listed};
ghost use Rattle.lf_signature.specs.Laws.Within.{declared-longest};
ghost use Rattle.hereditary_subst.specs.Limits.{SpendsResults};

use crate::theorems::truth_laws;
use lf_check::{Exhausted, Kept, check_term_with, synth_with};
use lf_signature::numbers::PF;
use lf_signature::{Known, Signature, WordSignature, pf};
use std::alloc::AllocError;
use term_table::{Id, Node, Table};

/// A signature of word arithmetic in which each further constant is a proof of a formula that is
/// true in every structure.
pub trait Truthful: Known {
    // Each type is one of word arithmetic's, or that of the proofs of a valid formula, or of one
    // that is proved over such types.
    ghost given: { (s : Self) (t : TableView) → Self.Signature.holds s t →
        AreGivenTypes (Self.Signature.declares s t) };
}

impl Truthful for WordSignature {
    ghost given = { λ s t h c a e. listed (declared-longest s c a e) };
}

/// Returns whether the term `proof` is a proof, over `sig`, of the formula that the term `goal`
/// encodes: true exactly if it checks against the type of the proofs of `goal`. If it does, and
/// `goal` encodes a closed formula, that formula is true in every structure.
///
/// Errors: out of memory alone; each id keeps its tree.
pub fn prove_true<S: Truthful>(
    table: &mut Table,
    sig: &S,
    proof: Id,
    goal: Id,
) -> Result<bool, AllocError>
    requires holds { S.Signature.holds sig.now table.old }
    requires proof { IsKnown table.old proof }
    requires goal { IsKnown table.old goal }
    ensures exact { let sig = S.Signature.declares sig.now table.old in
        let proves = Checks sig [] (tree_at table.old proof) (pf (tree_at table.old goal)) in
        IfOk result (λ b. IsTrue b ↔ proves) }
    ensures valid { IfOk result
        (λ b. IsTrue b → (F : Form) → EncodesClosed F (tree_at table.old goal) → IsValid F) }
    ensures extends { Extends table.old table.new }
{
    let mut kept = Kept::unlimited(table.allocator());
    match prove_true_with(table, &mut kept, sig, proof, goal) {
        Ok(proves) => Ok(proves),
        Err(e) => Err(e.memory()),
    }
}

/// Returns whether the term `proof` is a proof, over `sig`, of the formula that the term `goal`
/// encodes, as `prove_true` does. `kept` has the cached results of earlier calls on the table over
/// the signature.
///
/// Errors: out of memory, or the limit of `kept` is reached; each id keeps its tree.
pub fn prove_true_with<S: Truthful>(
    table: &mut Table,
    kept: &mut Kept,
    sig: &S,
    proof: Id,
    goal: Id,
) -> Result<bool, Exhausted>
    requires holds { S.Signature.holds sig.now table.old }
    requires proof { IsKnown table.old proof }
    requires goal { IsKnown table.old goal }
    requires kept { AreKept (S.Signature.declares sig.now table.old) table.old kept.old }
    ensures exact { let sig = S.Signature.declares sig.now table.old in
        let proves = Checks sig [] (tree_at table.old proof) (pf (tree_at table.old goal)) in
        IfOk result (λ b. IsTrue b ↔ proves) }
    ensures valid { IfOk result
        (λ b. IsTrue b → (F : Form) → EncodesClosed F (tree_at table.old goal) → IsValid F) }
    ensures extends { Extends table.old table.new }
    ensures kept { AreKept (S.Signature.declares sig.now table.new) table.new kept.new }
    ensures spends { SpendsResults table.new kept.old.memo kept.new.memo result }
{
    truth_laws();
    let proofs = pf(table, goal)?;
    check_term_with(table, kept, sig, &[], proof, proofs)
}

/// The formula of a type of proofs; None if the type isn't one.
fn formula_of(table: &Table, proofs: Id) -> Option<Id>
    requires { IsKnown table.now proofs }
    ensures { IsResult table.now (λ g. tree_at table.now proofs ≡ pf g) result }
{
    let Node::TApp(family, formula) = table.node(proofs) else {
        return None;
    };
    match table.node(family) {
        Node::Fam(number) => { if number == PF { Some(formula) } else { None } }
        _ => None,
    }
}

/// Returns the formula that the term `proof` proves over `sig`, which may be any signature: None
/// exactly if the term checks against the type of the proofs of no formula. The caller needs no
/// formula beforehand; the call costs what checking the proof costs. Whether the proved formula is
/// true depends on the signature (`proved_formula_with`).
///
/// `kept` has the cached results of earlier calls on the table over the signature.
///
/// Errors: out of memory, and `Exhausted::Results` past the limit of `kept`; each id keeps its
/// tree.
pub fn proved_with<S: Signature>(
    table: &mut Table,
    kept: &mut Kept,
    sig: &S,
    proof: Id,
) -> Result<Option<Id>, Exhausted>
    requires holds { S.holds sig.now table.old }
    requires proof { IsKnown table.old proof }
    requires kept { AreKept (S.declares sig.now table.old) table.old kept.old }
    ensures exact { let sig = S.declares sig.now table.old in
        let proves = Checks sig [] (tree_at table.old proof) in
        IfOk result (IsResult table.new (λ g. proves (pf g))) }
    ensures extends { Extends table.old table.new }
    ensures kept { AreKept (S.declares sig.now table.new) table.new kept.new }
    ensures spends { SpendsResults table.new kept.old.memo kept.new.memo result }
{
    match synth_with(table, kept, sig, &[], proof)? {
        None => Ok(None),
        Some(proofs) => Ok(formula_of(table, proofs)),
    }
}

/// Returns the formula that the term `proof` proves over `sig`: None exactly if the term checks
/// against the type of the proofs of no formula. If the result encodes a closed formula, that
/// formula is true in every structure. The caller needs no formula beforehand; the call costs what
/// checking the proof costs.
///
/// `kept` has the cached results of earlier calls on the table over the signature.
///
/// Errors: out of memory, and `Exhausted::Results` past the limit of `kept`; each id keeps its
/// tree.
pub fn proved_formula_with<S: Truthful>(
    table: &mut Table,
    kept: &mut Kept,
    sig: &S,
    proof: Id,
) -> Result<Option<Id>, Exhausted>
    requires holds { S.Signature.holds sig.now table.old }
    requires proof { IsKnown table.old proof }
    requires kept { AreKept (S.Signature.declares sig.now table.old) table.old kept.old }
    ensures exact { let sig = S.Signature.declares sig.now table.old in
        let proves = Checks sig [] (tree_at table.old proof) in
        IfOk result (IsResult table.new (λ g. proves (pf g))) }
    ensures valid { IfOk result (λ o. IfSome o
        (λ g. (F : Form) → EncodesClosed F (tree_at table.new g) → IsValid F)) }
    ensures extends { Extends table.old table.new }
    ensures kept { AreKept (S.Signature.declares sig.now table.new) table.new kept.new }
    ensures spends { SpendsResults table.new kept.old.memo kept.new.memo result }
{
    truth_laws();
    proved_with(table, kept, sig, proof)
}
