//! Goals that arithmetic on words proves: alignment, normal forms, bounds.
//!
//! Errors: out of memory, or the search's limit is reached; each id keeps its tree.

ghost use Rattle.std.specs.Prelude.{◌≡◌, IfOk, IfSome, OnOk};
ghost use Rattle.term_table.specs.Table.{IsKnown, tree_at, Extends, Stands};
ghost use Rattle.lf_signature.specs.Nodes.{IsIdOf};
ghost use Rattle.formula_tree.specs.Formulas.{Exp, FRel};
ghost use Rattle.word_ops.specs.declared.Rel.TheVariants.{Ule, Ult};
ghost use Rattle.lf_terms.specs.Encoding.{exp_encoding};
ghost use Rattle.prover_ids.specs.Hypotheses.{AreHyps};
ghost use Rattle.prover_class.specs.Hypotheses.{Hyps};
ghost use Rattle.prover_class.specs.Bounds.{upper_bound, lower_bound};
ghost use Rattle.prover_class.specs.NormalForms.{normal_form};
ghost use Rattle.prover_class.specs.Goals.{ule_by, ult_by, by_aligned, by_bounds, by_normal, by_words_alone};
ghost use Rattle.prover_bounds.specs.BoundIds.{IsWordBound, bound_by_ids};
ghost use Rattle.prover_sums.specs.NormalForms.{IsKnownRewritten, IsRewritten};
ghost use Rattle.prover_goals.specs.Provers.{IsProofBy};
ghost use Rattle.prover_goals.specs.Search.{IsSearch, IsContext, IsAfter};
ghost use Rattle.prover_goals.specs.Inside.Words.{at_most_tree, less_tree, IsRelationProof, IsBoundsProof, IsAlignedPart};
ghost use Rattle.hereditary_subst.specs.Limits.{SpendsResults, NeverResults};

use crate::search::{Context, Search};
use hereditary_subst::Exhausted;
use lf_signature::numbers::{LE_LT, LT_LE, ULE_TRANS, ULT_ULE};
use lf_terms::rule_term;
use prover_bounds::{Bound, BoundWords, bound_words, lower_bound, upper_bound};
use prover_forms::{is_by_forms, plain_form};
use prover_hyps::{Alignments, alignment_proof, find_hyp};
use prover_ids::{FormNode, fact, form_node, literal, operands, relation};
use prover_sums::{Rewritten, normal_form, proof_by_forms};
use std::alloc::AllocError;
use term_table::{Id, Node, Table};
use word_ops::{Op, Rel};

/// The proof that `a` is at most `b`, by an upper bound of `a` that is at most a lower bound of
/// `b`.
fn at_most_tree(table: &mut Table, a: Id, b: Id, v: Bound, w: Bound) -> Result<Id, AllocError>
    requires a { IsKnown table.old a }
    requires b { IsKnown table.old b }
    requires v { IsKnown table.old v.proof }
    requires w { IsKnown table.old w.proof }
    ensures known { IfOk result (IsKnown table.new) }
    ensures is { (x y : Exp) → tree_at table.old a ≡ exp_encoding x
        → tree_at table.old b ≡ exp_encoding y → IfOk result (IsIdOf table.new
        (at_most_tree x y (bound_by_ids table.old v) (bound_by_ids table.old w))) }
    ensures extends { Extends table.old table.new }
{
    let high = table.intern(Node::Lit(v.value))?;
    let low = table.intern(Node::Lit(w.value))?;
    let held = fact(table, Rel::Ule, v.value, w.value)?;
    let second = rule_term(table, ULE_TRANS, &[high, low, b, held, w.proof])?;
    rule_term(table, ULE_TRANS, &[a, high, b, v.proof, second])
}

/// The proof that `a` is less than `b`, by an upper bound of `a` that is less than a lower bound of
/// `b`.
fn less_tree(table: &mut Table, a: Id, b: Id, v: Bound, w: Bound) -> Result<Id, AllocError>
    requires a { IsKnown table.old a }
    requires b { IsKnown table.old b }
    requires v { IsKnown table.old v.proof }
    requires w { IsKnown table.old w.proof }
    ensures known { IfOk result (IsKnown table.new) }
    ensures is { (x y : Exp) → tree_at table.old a ≡ exp_encoding x
        → tree_at table.old b ≡ exp_encoding y → IfOk result (IsIdOf table.new
        (less_tree x y (bound_by_ids table.old v) (bound_by_ids table.old w))) }
    ensures extends { Extends table.old table.new }
{
    let high = table.intern(Node::Lit(v.value))?;
    let low = table.intern(Node::Lit(w.value))?;
    let held = fact(table, Rel::Ult, v.value, w.value)?;
    let first = rule_term(table, LE_LT, &[a, high, low, v.proof, held])?;
    rule_term(table, LT_LE, &[a, low, b, first, w.proof])
}

/// The proof that `a` is at most `b` by these bounds, if the upper is at most the lower.
fn ule_by(table: &mut Table, a: Id, b: Id, v: Bound, w: Bound) -> Result<Option<Id>, Exhausted>
    requires a { IsKnown table.old a }
    requires b { IsKnown table.old b }
    requires v { IsKnown table.old v.proof }
    requires w { IsKnown table.old w.proof }
    ensures known { IfOk result (λ o. IfSome o (IsKnown table.new)) }
    ensures is { (x y : Exp) → tree_at table.old a ≡ exp_encoding x
        → tree_at table.old b ≡ exp_encoding y → IfOk result (Stands table.new
        (ule_by x y (bound_by_ids table.old v) (bound_by_ids table.old w))) }
    ensures extends { Extends table.old table.new }
    ensures memory { NeverResults result }
{
    if v.value <= w.value {
        let proof = at_most_tree(table, a, b, v, w)?;
        Ok(Some(proof))
    } else {
        Ok(None)
    }
}

/// The proof that `a` is less than `b` by these bounds, if the upper is less than the lower.
fn ult_by(table: &mut Table, a: Id, b: Id, v: Bound, w: Bound) -> Result<Option<Id>, Exhausted>
    requires a { IsKnown table.old a }
    requires b { IsKnown table.old b }
    requires v { IsKnown table.old v.proof }
    requires w { IsKnown table.old w.proof }
    ensures known { IfOk result (λ o. IfSome o (IsKnown table.new)) }
    ensures is { (x y : Exp) → tree_at table.old a ≡ exp_encoding x
        → tree_at table.old b ≡ exp_encoding y → IfOk result (Stands table.new
        (ult_by x y (bound_by_ids table.old v) (bound_by_ids table.old w))) }
    ensures extends { Extends table.old table.new }
    ensures memory { NeverResults result }
{
    if v.value < w.value {
        let proof = less_tree(table, a, b, v, w)?;
        Ok(Some(proof))
    } else {
        Ok(None)
    }
}

/// The upper bound of the expression under the hypotheses.
#[tactic(auto, using(crate::proofs::Kept::rows))]
fn upper(
    table: &mut Table,
    search: &mut Search,
    context: &mut Context,
    e: Id,
) -> Result<Bound, Exhausted>
    requires e { IsKnown table.old e }
    requires search { IsSearch table.old search.old }
    requires context { IsContext table.old context.old }
    ensures known { IfOk result (λ b. IsKnown table.new b.proof) }
    ensures exact { (Γ : Hyps) (x : Exp) → AreHyps table.old context.old.hyps Γ
        → tree_at table.old e ≡ exp_encoding x
        → IfOk result (IsWordBound table.new (upper_bound Γ x)) }
    ensures extends { Extends table.old table.new }
    ensures after { OnOk result (IsAfter table.new search.new context.old context.new) }
    ensures spends { SpendsResults table.new search.old.memo search.new.memo result }
{
    let hyps = context.hyps.as_slice();
    upper_bound(table, &mut search.memo, &mut context.bounds, hyps, e)
}

/// The lower bound of the expression under the hypotheses.
#[tactic(auto, using(crate::proofs::Kept::rows))]
fn lower(
    table: &mut Table,
    search: &mut Search,
    context: &mut Context,
    counted: bool,
    e: Id,
) -> Result<Bound, Exhausted>
    requires e { IsKnown table.old e }
    requires search { IsSearch table.old search.old }
    requires context { IsContext table.old context.old }
    ensures known { IfOk result (λ b. IsKnown table.new b.proof) }
    ensures exact { (Γ : Hyps) (x : Exp) → AreHyps table.old context.old.hyps Γ
        → tree_at table.old e ≡ exp_encoding x
        → IfOk result (IsWordBound table.new (lower_bound counted Γ x)) }
    ensures extends { Extends table.old table.new }
    ensures after { OnOk result (IsAfter table.new search.new context.old context.new) }
    ensures spends { SpendsResults table.new search.old.memo search.new.memo result }
{
    let hyps = context.hyps.as_slice();
    lower_bound(
        table,
        &mut search.memo,
        &mut context.bounds,
        hyps,
        counted,
        e,
    )
}

/// An upper bound of one expression and a lower bound of another.
#[derive(Clone, Copy)]
struct Bounds {
    upper: Bound,
    lower: Bound,
}

/// The upper bound of `a` and the lower bound of `b` under the hypotheses.
#[tactic(auto, using(crate::proofs::WordRows::rows))]
fn bounds_of(
    table: &mut Table,
    search: &mut Search,
    context: &mut Context,
    counted: bool,
    a: Id,
    b: Id,
) -> Result<Bounds, Exhausted>
    requires a { IsKnown table.old a }
    requires b { IsKnown table.old b }
    requires search { IsSearch table.old search.old }
    requires context { IsContext table.old context.old }
    ensures upper { IfOk result (λ v. IsKnown table.new v.upper.proof) }
    ensures lower { IfOk result (λ v. IsKnown table.new v.lower.proof) }
    ensures exact { (Γ : Hyps) (x y : Exp) → AreHyps table.old context.old.hyps Γ
        → tree_at table.old a ≡ exp_encoding x → tree_at table.old b ≡ exp_encoding y
        → IfOk result (λ v. IsWordBound table.new (upper_bound Γ x) v.upper
        × IsWordBound table.new (lower_bound counted Γ y) v.lower) }
    ensures extends { Extends table.old table.new }
    ensures after { OnOk result (IsAfter table.new search.new context.old context.new) }
    ensures spends { SpendsResults table.new search.old.memo search.new.memo result }
{
    let upper = upper(table, search, context, a)?;
    let lower = lower(table, search, context, counted, b)?;
    Ok(Bounds { upper, lower })
}

/// The words of the upper bound of `a` and of the lower bound of `b`, for which no proof is made.
#[tactic(auto, using(crate::proofs::Kept::rows))]
fn words_of(
    table: &Table,
    search: &mut Search,
    context: &mut Context,
    counted: bool,
    a: Id,
    b: Id,
) -> Result<BoundWords, Exhausted>
    requires a { IsKnown table.now a }
    requires b { IsKnown table.now b }
    requires search { IsSearch table.now search.old }
    requires context { IsContext table.now context.old }
    ensures exact { (Γ : Hyps) (x y : Exp) → AreHyps table.now context.old.hyps Γ
        → tree_at table.now a ≡ exp_encoding x → tree_at table.now b ≡ exp_encoding y
        → IfOk result (λ w. (w.upper ≡ (upper_bound Γ x).value)
        × (w.lower ≡ (lower_bound counted Γ y).value)) }
    ensures after { OnOk result (IsAfter table.now search.new context.old context.new) }
    ensures spends { SpendsResults table.now search.old.memo search.new.memo result }
{
    let hyps = context.hyps.as_slice();
    bound_words(
        table,
        &mut search.memo,
        &mut context.bounds,
        hyps,
        counted,
        a,
        b,
    )
}

/// The proof that `a` is at most `b`, by bounds.
#[tactic(auto, using(crate::proofs::WordRows::rows))]
fn at_most_by_bounds(
    table: &mut Table,
    search: &mut Search,
    context: &mut Context,
    counted: bool,
    a: Id,
    b: Id,
) -> Result<Option<Id>, Exhausted>
    requires a { IsKnown table.old a }
    requires b { IsKnown table.old b }
    requires search { IsSearch table.old search.old }
    requires context { IsContext table.old context.old }
    ensures known { IfOk result (λ o. IfSome o (IsKnown table.new)) }
    ensures exact { let h = context.old.hyps in
        IfOk result (IsBoundsProof counted ule_by table.old table.new h a b) }
    ensures extends { Extends table.old table.new }
    ensures after { OnOk result (IsAfter table.new search.new context.old context.new) }
    ensures spends { SpendsResults table.new search.old.memo search.new.memo result }
{
    let words = words_of(table, search, context, counted, a, b)?;
    if words.lower < words.upper {
        return Ok(None);
    }
    let bounds = bounds_of(table, search, context, counted, a, b)?;
    ule_by(table, a, b, bounds.upper, bounds.lower)
}

/// The proof that `a` is at most `b`: by a hypothesis that it is less, or by bounds.
#[tactic(auto, using(crate::proofs::WordRows::rows))]
fn at_most(
    table: &mut Table,
    search: &mut Search,
    context: &mut Context,
    counted: bool,
    a: Id,
    b: Id,
) -> Result<Option<Id>, Exhausted>
    requires a { IsKnown table.old a }
    requires b { IsKnown table.old b }
    requires search { IsSearch table.old search.old }
    requires context { IsContext table.old context.old }
    ensures known { IfOk result (λ o. IfSome o (IsKnown table.new)) }
    ensures exact { let h = context.old.hyps in
        IfOk result (IsRelationProof (by_bounds counted) table.old table.new h Ule a b) }
    ensures extends { Extends table.old table.new }
    ensures after { OnOk result (IsAfter table.new search.new context.old context.new) }
    ensures spends { SpendsResults table.new search.old.memo search.new.memo result }
{
    let form = relation(table, Rel::Ult, a, b)?;
    match find_hyp(table, &context.hyps, form) {
        Some(less) => {
            let proof = rule_term(table, ULT_ULE, &[a, b, less])?;
            Ok(Some(proof))
        }
        None => {
            let rest = at_most_by_bounds(table, search, context, counted, a, b)?;
            Ok(rest)
        }
    }
}

/// The proof that `a` is less than `b`, by bounds.
#[tactic(auto, using(crate::proofs::WordRows::rows))]
fn less(
    table: &mut Table,
    search: &mut Search,
    context: &mut Context,
    counted: bool,
    a: Id,
    b: Id,
) -> Result<Option<Id>, Exhausted>
    requires a { IsKnown table.old a }
    requires b { IsKnown table.old b }
    requires search { IsSearch table.old search.old }
    requires context { IsContext table.old context.old }
    ensures known { IfOk result (λ o. IfSome o (IsKnown table.new)) }
    ensures exact { let h = context.old.hyps in
        IfOk result (IsRelationProof (by_bounds counted) table.old table.new h Ult a b) }
    ensures extends { Extends table.old table.new }
    ensures after { OnOk result (IsAfter table.new search.new context.old context.new) }
    ensures spends { SpendsResults table.new search.old.memo search.new.memo result }
{
    let words = words_of(table, search, context, counted, a, b)?;
    if words.lower <= words.upper {
        return Ok(None);
    }
    let bounds = bounds_of(table, search, context, counted, a, b)?;
    ult_by(table, a, b, bounds.upper, bounds.lower)
}

/// The proof of the relation by bounds.
#[tactic(auto, using(crate::proofs::WordRows::rows))]
fn by_bounds(
    table: &mut Table,
    search: &mut Search,
    context: &mut Context,
    counted: bool,
    rel: Rel,
    a: Id,
    b: Id,
) -> Result<Option<Id>, Exhausted>
    requires a { IsKnown table.old a }
    requires b { IsKnown table.old b }
    requires search { IsSearch table.old search.old }
    requires context { IsContext table.old context.old }
    ensures known { IfOk result (λ o. IfSome o (IsKnown table.new)) }
    ensures exact { let h = context.old.hyps in
        IfOk result (IsRelationProof (by_bounds counted) table.old table.new h rel a b) }
    ensures extends { Extends table.old table.new }
    ensures after { OnOk result (IsAfter table.new search.new context.old context.new) }
    ensures spends { SpendsResults table.new search.old.memo search.new.memo result }
{
    match rel {
        Rel::Ule => at_most(table, search, context, counted, a, b),
        Rel::Ult => less(table, search, context, counted, a, b),
        Rel::Eq => Ok(None),
        Rel::Slt => Ok(None),
        Rel::Sle => Ok(None),
    }
}

/// Returns the normal form of `e`, which is under `outside` binders, with the proof that they are
/// equal, and caches it in `search`.
///
/// Errors: out of memory, or the limit of `search` is reached; each id keeps its tree.
#[tactic(auto, using(crate::proofs::Kept::rows))]
pub fn normal(
    table: &mut Table,
    search: &mut Search,
    outside: u32,
    e: Id,
) -> Result<Rewritten, Exhausted>
    requires e { IsKnown table.old e }
    requires search { IsSearch table.old search.old }
    ensures known { IfOk result (IsKnownRewritten table.new) }
    ensures exact { (x : Exp) → tree_at table.old e ≡ exp_encoding x
        → IfOk result (λ q. IsRewritten table.new q (normal_form outside x)) }
    ensures extends { Extends table.old table.new }
    ensures search { OnOk result (IsSearch table.new search.new) }
    ensures spends { SpendsResults table.new search.old.memo search.new.memo result }
{
    search.spend_terms(table)?;
    normal_form(table, &mut search.memo, &mut search.forms, outside, e)
}

/// Returns the normal form alone of `e`, which is under `outside` binders, and caches it in
/// `search`.
///
/// Errors: out of memory, or the limit of `search` is reached; each id keeps its tree.
#[tactic(auto, using(crate::proofs::Kept::rows))]
pub fn normal_exp(
    table: &mut Table,
    search: &mut Search,
    outside: u32,
    e: Id,
) -> Result<Id, Exhausted>
    requires e { IsKnown table.old e }
    requires search { IsSearch table.old search.old }
    ensures known { IfOk result (IsKnown table.new) }
    ensures exact { (x : Exp) → tree_at table.old e ≡ exp_encoding x
        → IfOk result (λ f. tree_at table.new f ≡ exp_encoding (normal_form outside x).now) }
    ensures extends { Extends table.old table.new }
    ensures search { OnOk result (IsSearch table.new search.new) }
    ensures spends { SpendsResults table.new search.old.memo search.new.memo result }
{
    search.spend_terms(table)?;
    plain_form(table, &mut search.memo, &mut search.plain, outside, e)
}

/// The proof of the relation by the normal forms of its two expressions, which are found with the
/// proofs of their equations.
#[tactic(auto, using(crate::proofs::WordRows::rows))]
fn proof_by_normal(
    table: &mut Table,
    search: &mut Search,
    outside: u32,
    rel: Rel,
    a: Id,
    b: Id,
) -> Result<Option<Id>, Exhausted>
    requires a { IsKnown table.old a }
    requires b { IsKnown table.old b }
    requires search { IsSearch table.old search.old }
    ensures known { IfOk result (λ o. IfSome o (IsKnown table.new)) }
    ensures exact { (Γ : Hyps) (x y : Exp) → tree_at table.old a ≡ exp_encoding x
        → tree_at table.old b ≡ exp_encoding y
        → IfOk result (Stands table.new (by_normal outside Γ (FRel rel x y))) }
    ensures extends { Extends table.old table.new }
    ensures search { OnOk result (IsSearch table.new search.new) }
    ensures spends { SpendsResults table.new search.old.memo search.new.memo result }
{
    let p = normal(table, search, outside, a)?;
    let q = normal(table, search, outside, b)?;
    proof_by_forms(table, &mut search.memo, rel, a, b, p, q)
}

/// The proof of the relation by the normal forms, which is built if the normal forms alone say that
/// there is one.
#[tactic(auto, using(crate::proofs::WordRows::rows))]
fn by_normal(
    table: &mut Table,
    search: &mut Search,
    outside: u32,
    rel: Rel,
    a: Id,
    b: Id,
) -> Result<Option<Id>, Exhausted>
    requires a { IsKnown table.old a }
    requires b { IsKnown table.old b }
    requires search { IsSearch table.old search.old }
    ensures known { IfOk result (λ o. IfSome o (IsKnown table.new)) }
    ensures exact { (Γ : Hyps) (x y : Exp) → tree_at table.old a ≡ exp_encoding x
        → tree_at table.old b ≡ exp_encoding y
        → IfOk result (Stands table.new (by_normal outside Γ (FRel rel x y))) }
    ensures extends { Extends table.old table.new }
    ensures search { OnOk result (IsSearch table.new search.new) }
    ensures spends { SpendsResults table.new search.old.memo search.new.memo result }
{
    let p = normal_exp(table, search, outside, a)?;
    let q = normal_exp(table, search, outside, b)?;
    if !is_by_forms(table, rel, p, q) {
        return Ok(None);
    }
    let proof = proof_by_normal(table, search, outside, rel, a, b)?;
    Ok(proof)
}

/// The expression that the relation says to be a multiple of 8: `(eq (band e 7) 0)`.
fn aligned_part(table: &Table, rel: Rel, a: Id, b: Id) -> Option<Id>
    requires a { IsKnown table.now a }
    requires b { IsKnown table.now b }
    ensures known { IfSome result (IsKnown table.now) }
    ensures exact { (x y : Exp) → tree_at table.now a ≡ exp_encoding x
        → tree_at table.now b ≡ exp_encoding y
        → IsAlignedPart table.now (FRel rel x y) result }
{
    if rel != Rel::Eq {
        return None;
    }
    let Some(zero) = literal(table, b) else {
        return None;
    };
    if zero != 0 {
        return None;
    }
    let Some(sides) = operands(table, Op::Band, a) else {
        return None;
    };
    match literal(table, sides.right) {
        None => None,
        Some(mask) => { if mask == 7 { Some(sides.left) } else { None } }
    }
}

/// The proof of the relation by alignment.
#[tactic(auto, using(crate::proofs::WordRows::rows))]
fn by_aligned(
    table: &mut Table,
    search: &mut Search,
    context: &Context,
    rel: Rel,
    a: Id,
    b: Id,
) -> Result<Option<Id>, Exhausted>
    requires a { IsKnown table.old a }
    requires b { IsKnown table.old b }
    requires search { IsSearch table.old search.old }
    requires context { IsContext table.old context.now }
    ensures known { IfOk result (λ o. IfSome o (IsKnown table.new)) }
    ensures exact { let h = context.now.hyps in
        IfOk result (IsRelationProof by_aligned table.old table.new h rel a b) }
    ensures extends { Extends table.old table.new }
    ensures search { OnOk result (IsSearch table.new search.new) }
    ensures spends { SpendsResults table.new search.old.memo search.new.memo result }
{
    match aligned_part(table, rel, a, b) {
        None => Ok(None),
        Some(e) => {
            let alloc = table.allocator();
            let mut kept = Alignments::new(alloc);
            alignment_proof(table, &mut search.memo, &mut kept, &context.hyps, e)
        }
    }
}

/// The proof of the relation by words alone.
#[tactic(auto, using(crate::proofs::WordRows::rows))]
fn relation_by_words(
    table: &mut Table,
    search: &mut Search,
    context: &mut Context,
    counted: bool,
    rel: Rel,
    a: Id,
    b: Id,
) -> Result<Option<Id>, Exhausted>
    requires a { IsKnown table.old a }
    requires b { IsKnown table.old b }
    requires search { IsSearch table.old search.old }
    requires context { IsContext table.old context.old }
    ensures known { IfOk result (λ o. IfSome o (IsKnown table.new)) }
    ensures exact { let c = context.old in IfOk result
        (IsRelationProof (by_words_alone counted c.outside) table.old table.new c.hyps rel a b) }
    ensures extends { Extends table.old table.new }
    ensures after { OnOk result (IsAfter table.new search.new context.old context.new) }
    ensures spends { SpendsResults table.new search.old.memo search.new.memo result }
{
    match by_aligned(table, search, context, rel, a, b)? {
        Some(proof) => Ok(Some(proof)),
        None => match by_normal(table, search, context.outside, rel, a, b)? {
            Some(proof) => Ok(Some(proof)),
            None => {
                let rest = by_bounds(table, search, context, counted, rel, a, b)?;
                Ok(rest)
            }
        },
    }
}

/// Returns the proof of a goal that words alone prove, under the hypotheses of the context: by
/// alignment, by normal forms, or by bounds. Returns None if there is none, or if the goal has a
/// connective. `counted` says whether steps are counted.
///
/// Errors: out of memory, or the limit of `search` is reached; each id keeps its tree.
#[tactic(auto, using(crate::proofs::WordRows::rows))]
pub fn proof_by_words(
    table: &mut Table,
    search: &mut Search,
    context: &mut Context,
    counted: bool,
    goal: Id,
) -> Result<Option<Id>, Exhausted>
    requires goal { IsKnown table.old goal }
    requires search { IsSearch table.old search.old }
    requires context { IsContext table.old context.old }
    ensures known { IfOk result (λ o. IfSome o (IsKnown table.new)) }
    ensures exact { let c = context.old in let p = by_words_alone counted in
        IfOk result (IsProofBy p table.old table.new c.hyps c.outside goal) }
    ensures extends { Extends table.old table.new }
    ensures after { OnOk result (IsAfter table.new search.new context.old context.new) }
    ensures spends { SpendsResults table.new search.old.memo search.new.memo result }
{
    match form_node(table, goal) {
        FormNode::Relation(rel, a, b) => relation_by_words(
            table, search, context, counted, rel, a, b,
        ),
        FormNode::True => Ok(None),
        FormNode::False => Ok(None),
        FormNode::Right(_, _) => Ok(None),
        FormNode::And(_, _) => Ok(None),
        FormNode::Or(_, _) => Ok(None),
        FormNode::Imp(_, _) => Ok(None),
        FormNode::All(_) => Ok(None),
        FormNode::AllMem(_) => Ok(None),
    }
}
