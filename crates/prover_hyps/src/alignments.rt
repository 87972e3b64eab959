//! Proofs that expressions are multiples of 8.
//!
//! Errors: out of memory, or the limit of the memo is reached; each id keeps its tree.

ghost use Rattle.std.specs.Prelude.{◌≡◌, IfOk, IfSome, OnOk};
ghost use Rattle.term_table.specs.Table.{IsKnown, tree_at, Extends, Stands};
ghost use Rattle.hereditary_subst.specs.Kept.{IsMemo};
ghost use Rattle.hereditary_subst.specs.Limits.{SpendsResults};
ghost use Rattle.lf_signature.specs.Nodes.{IsIdOf};
ghost use Rattle.word_ops.specs.declared.Rel.TheVariants.{Eq};
ghost use Rattle.word_ops.specs.declared.Op.TheVariants.{Band, Sll};
ghost use Rattle.formula_tree.specs.Formulas.{Exp, EVar, ELit, EOp, FRel};
ghost use Rattle.lf_terms.specs.Encoding.{exp_encoding, form_encoding};
ghost use Rattle.prover_ids.specs.Hypotheses.{AreKnownHyps};
ghost use Rattle.lf_terms.specs.ProofTerms.{up};
ghost use Rattle.prover_class.specs.Hypotheses.{Hyps};
ghost use Rattle.prover_class.specs.Goals.{aligned_form, masked, alignment_proof};
ghost use Rattle.prover_hyps.specs.Alignments.{masked_first, masked_second, masked_third, IsAlignmentOf, IsPartOf, AreAlignments};

use crate::collection::Hypotheses;
use crate::finding::find_hyp;
use hereditary_subst::{Exhausted, Memo};
use lf_signature::numbers::{ADD_AL, AND_ASSOC, AND_ZERO, SLL_AL};
use lf_terms::rule_term;
use prover_ids::{
    ExpNode, Kept, Question, calc, exp_node, literal, moved, number, oper, raised, reflexive,
    relation,
};
use std::alloc::AllocError;
use term_table::{Id, Node, Table};
use word_ops::{Op, Rel};

/// A cache key: an expression that may be a multiple of 8.
#[derive(Clone, Copy, PartialEq, Eq, PartialOrd, Ord)]
pub struct Aligned {
    exp: u64,
}

impl Question for Aligned {
    ghost use Rattle.std.proofs.Common.{rules};
    ghost use Rattle.prover_hyps.specs.Alignments.{IsAlignment};
    ghost use Rattle.prover_hyps.specs.Lasting.{alignment-lasts};

    type Answer = Option<Id>;

    ghost is_right = { λ l t. IsAlignment t l };

    ghost same = { Prim.search rules };

    ghost lasts = { λ l t u q o e k h. alignment-lasts t u l q.exp o k e h };
}

/// Cached answers whether expressions are multiples of 8, under one list of hypotheses. They count
/// in the limit of a `Memo`.
pub type Alignments = Kept<Aligned>;

/// The id as a question.
fn question_of(e: Id) -> Aligned
    ensures { result.exp ≡ e }
{
    Aligned { exp: number(e) }
}

/// The formula that the expression is a multiple of 8: `(eq (band e 7) 0)`.
fn aligned_form(table: &mut Table, e: Id) -> Result<Id, AllocError>
    requires { IsKnown table.old e }
    ensures known { IfOk result (IsKnown table.new) }
    ensures is { (x : Exp) → tree_at table.old e ≡ exp_encoding x
        → IfOk result (IsIdOf table.new (form_encoding (aligned_form x))) }
    ensures extends { Extends table.old table.new }
{
    let seven = table.intern(Node::Lit(7))?;
    let left = oper(table, Op::Band, e, seven)?;
    let zero = table.intern(Node::Lit(0))?;
    relation(table, Rel::Eq, left, zero)
}

/// The formula that the expression equals a word, which is the variable 0 under a binder.
#[tactic(auto, using(hereditary_subst::proofs::Rows::rows))]
fn equal_place(table: &mut Table, memo: &mut Memo, e: Id) -> Result<Id, Exhausted>
    requires e { IsKnown table.old e }
    requires memo { IsMemo table.old memo.old }
    ensures known { IfOk result (IsKnown table.new) }
    ensures is { (x : Exp) → tree_at table.old e ≡ exp_encoding x
        → IfOk result (IsIdOf table.new (form_encoding (FRel Eq (up x) (EVar 0)))) }
    ensures extends { Extends table.old table.new }
    ensures memo { IsMemo table.new memo.new }
    ensures spends { SpendsResults table.new memo.old memo.new result }
{
    let under = raised(table, memo, e)?;
    let place = table.intern(Node::Var(0))?;
    let form = relation(table, Rel::Eq, under, place)?;
    Ok(form)
}

/// From (eq e e) to (eq e (band a inner)); e is `whole`: (band (band a word) 7).
#[tactic(auto, using(hereditary_subst::proofs::Rows::rows))]
fn masked_first(
    table: &mut Table,
    memo: &mut Memo,
    a: Id,
    word: Id,
    seven: Id,
    inner: Id,
    whole: Id,
) -> Result<Id, Exhausted>
    requires a { IsKnown table.old a }
    requires word { IsKnown table.old word }
    requires seven { IsKnown table.old seven }
    requires inner { IsKnown table.old inner }
    requires whole { IsKnown table.old whole }
    requires memo { IsMemo table.old memo.old }
    ensures known { IfOk result (IsKnown table.new) }
    ensures is { (x y s i e : Exp) → tree_at table.old a ≡ exp_encoding x
        → tree_at table.old word ≡ exp_encoding y → tree_at table.old seven ≡ exp_encoding s
        → tree_at table.old inner ≡ exp_encoding i → tree_at table.old whole ≡ exp_encoding e
        → IfOk result (IsIdOf table.new (masked_first x y s i e)) }
    ensures extends { Extends table.old table.new }
    ensures memo { IsMemo table.new memo.new }
    ensures spends { SpendsResults table.new memo.old memo.new result }
{
    let to = oper(table, Op::Band, a, inner)?;
    let equal = rule_term(table, AND_ASSOC, &[a, word, seven])?;
    let itself = reflexive(table, whole)?;
    let form = equal_place(table, memo, whole)?;
    let proof = moved(table, form, whole, to, equal, itself)?;
    Ok(proof)
}

/// From there to (eq e (band a 0)).
#[tactic(auto, using(hereditary_subst::proofs::Rows::rows))]
fn masked_second(
    table: &mut Table,
    memo: &mut Memo,
    a: Id,
    inner: Id,
    whole: Id,
    zero: Id,
    w: u64,
    first: Id,
) -> Result<Id, Exhausted>
    requires a { IsKnown table.old a }
    requires inner { IsKnown table.old inner }
    requires whole { IsKnown table.old whole }
    requires zero { IsKnown table.old zero }
    requires first { IsKnown table.old first }
    requires memo { IsMemo table.old memo.old }
    ensures known { IfOk result (IsKnown table.new) }
    ensures is { (x i e z : Exp) → tree_at table.old a ≡ exp_encoding x
        → tree_at table.old inner ≡ exp_encoding i → tree_at table.old whole ≡ exp_encoding e
        → tree_at table.old zero ≡ exp_encoding z → IfOk result
        (IsIdOf table.new (masked_second x i e z w (tree_at table.old first))) }
    ensures extends { Extends table.old table.new }
    ensures memo { IsMemo table.new memo.new }
    ensures spends { SpendsResults table.new memo.old memo.new result }
{
    let equal = calc(table, Op::Band, w, 7)?;
    let left = raised(table, memo, whole)?;
    let under = raised(table, memo, a)?;
    let place = table.intern(Node::Var(0))?;
    let right = oper(table, Op::Band, under, place)?;
    let form = relation(table, Rel::Eq, left, right)?;
    let proof = moved(table, form, inner, zero, equal, first)?;
    Ok(proof)
}

/// From there to (eq e 0).
#[tactic(auto, using(hereditary_subst::proofs::Rows::rows))]
fn masked_third(
    table: &mut Table,
    memo: &mut Memo,
    a: Id,
    whole: Id,
    zero: Id,
    second: Id,
) -> Result<Id, Exhausted>
    requires a { IsKnown table.old a }
    requires whole { IsKnown table.old whole }
    requires zero { IsKnown table.old zero }
    requires second { IsKnown table.old second }
    requires memo { IsMemo table.old memo.old }
    ensures known { IfOk result (IsKnown table.new) }
    ensures is { (x e z : Exp) → tree_at table.old a ≡ exp_encoding x
        → tree_at table.old whole ≡ exp_encoding e → tree_at table.old zero ≡ exp_encoding z
        → IfOk result (IsIdOf table.new (masked_third x e z (tree_at table.old second))) }
    ensures extends { Extends table.old table.new }
    ensures memo { IsMemo table.new memo.new }
    ensures spends { SpendsResults table.new memo.old memo.new result }
{
    let from = oper(table, Op::Band, a, zero)?;
    let equal = rule_term(table, AND_ZERO, &[a])?;
    let form = equal_place(table, memo, whole)?;
    Ok(moved(table, form, from, zero, equal, second)?)
}

/// The proof that `band a w` is a multiple of 8, `word` being the word `w`, which is one.
#[tactic(auto, using(hereditary_subst::proofs::Rows::rows))]
fn masked(table: &mut Table, memo: &mut Memo, a: Id, word: Id, w: u64) -> Result<Id, Exhausted>
    requires a { IsKnown table.old a }
    requires word { IsKnown table.old word }
    requires memo { IsMemo table.old memo.old }
    ensures known { IfOk result (IsKnown table.new) }
    ensures is { (x : Exp) → tree_at table.old a ≡ exp_encoding x
        → tree_at table.old word ≡ exp_encoding (ELit w)
        → IfOk result (IsIdOf table.new (masked x w)) }
    ensures extends { Extends table.old table.new }
    ensures memo { IsMemo table.new memo.new }
    ensures spends { SpendsResults table.new memo.old memo.new result }
{
    let seven = table.intern(Node::Lit(7))?;
    let zero = table.intern(Node::Lit(0))?;
    let inner = oper(table, Op::Band, word, seven)?;
    let left = oper(table, Op::Band, a, word)?;
    let whole = oper(table, Op::Band, left, seven)?;
    let first = masked_first(table, memo, a, word, seven, inner, whole)?;
    let second = masked_second(table, memo, a, inner, whole, zero, w, first)?;
    masked_third(table, memo, a, whole, zero, second)
}

/// The alignment of a word.
fn alignment_of_word(table: &mut Table, w: u64) -> Result<Option<Id>, AllocError>
    ensures known { IfOk result (λ o. IfSome o (IsKnown table.new)) }
    ensures exact { (Γ : Hyps) → IfOk result (Stands table.new (alignment_proof Γ (ELit w))) }
    ensures extends { Extends table.old table.new }
{
    if w % 8 == 0 {
        let proof = calc(table, Op::Band, w, 7)?;
        Ok(Some(proof))
    } else {
        Ok(None)
    }
}

/// The alignment of a left shift: that by 3.
fn alignment_of_shift(table: &mut Table, a: Id, b: Id) -> Result<Option<Id>, AllocError>
    requires a { IsKnown table.old a }
    requires b { IsKnown table.old b }
    ensures known { IfOk result (λ o. IfSome o (IsKnown table.new)) }
    ensures exact { (Γ : Hyps) (x y : Exp) → tree_at table.old a ≡ exp_encoding x
        → tree_at table.old b ≡ exp_encoding y
        → IfOk result (Stands table.new (alignment_proof Γ (EOp Sll x y))) }
    ensures extends { Extends table.old table.new }
{
    match literal(table, b) {
        None => Ok(None),
        Some(count) => {
            if count == 3 {
                let proof = rule_term(table, SLL_AL, &[a])?;
                Ok(Some(proof))
            } else {
                Ok(None)
            }
        }
    }
}

/// The alignment of a bitwise and: that with a multiple of 8.
#[tactic(auto, using(hereditary_subst::proofs::Rows::rows))]
fn alignment_of_mask(
    table: &mut Table,
    memo: &mut Memo,
    a: Id,
    b: Id,
) -> Result<Option<Id>, Exhausted>
    requires a { IsKnown table.old a }
    requires b { IsKnown table.old b }
    requires memo { IsMemo table.old memo.old }
    ensures known { IfOk result (λ o. IfSome o (IsKnown table.new)) }
    ensures exact { (Γ : Hyps) (x y : Exp) → tree_at table.old a ≡ exp_encoding x
        → tree_at table.old b ≡ exp_encoding y
        → IfOk result (Stands table.new (alignment_proof Γ (EOp Band x y))) }
    ensures extends { Extends table.old table.new }
    ensures memo { IsMemo table.new memo.new }
    ensures spends { SpendsResults table.new memo.old memo.new result }
{
    match literal(table, b) {
        None => Ok(None),
        Some(w) => {
            if w % 8 == 0 {
                let proof = masked(table, memo, a, b, w)?;
                Ok(Some(proof))
            } else {
                Ok(None)
            }
        }
    }
}

/// Returns the proof that the expression `e` is a multiple of 8 by its head; its parts are proved
/// multiples of 8 by their heads or by `hyps`. Returns None if `prover_class` gives no proof.
/// `kept` has the cached answers.
///
/// Errors: out of memory, or the limit of `memo` is reached; each id keeps its tree.
#[cycle(aligning)]
#[tactic(auto, using(crate::proofs::AlignmentRows::rows))]
pub fn alignment_proof(
    table: &mut Table,
    memo: &mut Memo,
    kept: &mut Alignments,
    hyps: &Hypotheses,
    e: Id,
) -> Result<Option<Id>, Exhausted>
    requires hyps { AreKnownHyps table.old hyps.now }
    requires e { IsKnown table.old e }
    requires memo { IsMemo table.old memo.old }
    requires kept { AreAlignments table.old hyps.now kept.old }
    ensures known { IfOk result (λ o. IfSome o (IsKnown table.new)) }
    ensures exact { IfOk result (IsAlignmentOf table.old table.new hyps.now e) }
    ensures extends { Extends table.old table.new }
    ensures memo { IsMemo table.new memo.new }
    ensures kept { OnOk result (AreAlignments table.new hyps.now kept.new) }
    ensures spends { SpendsResults table.new memo.old memo.new result }
{
    if let Some(answer) = kept.get(table, hyps.as_slice(), &question_of(e)) {
        return Ok(answer);
    }
    match unkept_alignment(table, memo, kept, hyps, e)? {
        None => {
            kept.keep(memo, table, hyps.as_slice(), question_of(e), None)?;
            Ok(None)
        }
        Some(proof) => {
            kept.keep(memo, table, hyps.as_slice(), question_of(e), Some(proof))?;
            Ok(Some(proof))
        }
    }
}

/// The proof that the expression `e` is a multiple of 8 by its head, if none is cached.
#[cycle(aligning)]
#[tactic(auto, using(crate::proofs::AlignmentRows::rows))]
fn unkept_alignment(
    table: &mut Table,
    memo: &mut Memo,
    kept: &mut Alignments,
    hyps: &Hypotheses,
    e: Id,
) -> Result<Option<Id>, Exhausted>
    requires hyps { AreKnownHyps table.old hyps.now }
    requires e { IsKnown table.old e }
    requires memo { IsMemo table.old memo.old }
    requires kept { AreAlignments table.old hyps.now kept.old }
    ensures known { IfOk result (λ o. IfSome o (IsKnown table.new)) }
    ensures exact { IfOk result (IsAlignmentOf table.old table.new hyps.now e) }
    ensures extends { Extends table.old table.new }
    ensures memo { IsMemo table.new memo.new }
    ensures kept { OnOk result (AreAlignments table.new hyps.now kept.new) }
    ensures spends { SpendsResults table.new memo.old memo.new result }
{
    match exp_node(table, e) {
        ExpNode::Word(w) => {
            let proof = alignment_of_word(table, w)?;
            Ok(proof)
        }
        ExpNode::Apply(op, a, b) => match op {
            Op::Sll => {
                let proof = alignment_of_shift(table, a, b)?;
                Ok(proof)
            }
            Op::Band => {
                let proof = alignment_of_mask(table, memo, a, b)?;
                Ok(proof)
            }
            Op::Add => {
                let Some(p) = part_alignment(table, memo, kept, hyps, a)? else {
                    return Ok(None);
                };
                let Some(q) = part_alignment(table, memo, kept, hyps, b)? else {
                    return Ok(None);
                };
                let proof = rule_term(table, ADD_AL, &[a, b, p, q])?;
                Ok(Some(proof))
            }
            _ => Ok(None),
        },
        ExpNode::Var(_) => Ok(None),
        ExpNode::Sel(_, _) => Ok(None),
        ExpNode::Unbound => Ok(None),
    }
}

/// The proof that an addend is a multiple of 8: by a hypothesis, or by its head.
#[cycle(aligning)]
#[tactic(auto, using(crate::proofs::AlignmentRows::rows))]
fn part_alignment(
    table: &mut Table,
    memo: &mut Memo,
    kept: &mut Alignments,
    hyps: &Hypotheses,
    e: Id,
) -> Result<Option<Id>, Exhausted>
    requires hyps { AreKnownHyps table.old hyps.now }
    requires e { IsKnown table.old e }
    requires memo { IsMemo table.old memo.old }
    requires kept { AreAlignments table.old hyps.now kept.old }
    ensures known { IfOk result (λ o. IfSome o (IsKnown table.new)) }
    ensures exact { IfOk result (IsPartOf table.old table.new hyps.now e) }
    ensures extends { Extends table.old table.new }
    ensures memo { IsMemo table.new memo.new }
    ensures kept { OnOk result (AreAlignments table.new hyps.now kept.new) }
    ensures spends { SpendsResults table.new memo.old memo.new result }
{
    let form = aligned_form(table, e)?;
    match find_hyp(table, hyps, form) {
        Some(proof) => Ok(Some(proof)),
        None => {
            let rest = alignment_proof(table, memo, kept, hyps, e)?;
            Ok(rest)
        }
    }
}
