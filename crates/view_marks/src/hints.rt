//! Finding what is missing to prove a goal under hypotheses.
//!
//! The hypotheses are formulas over the goal's own variables: unlike in the class's search, no
//! binder between proves one of them. The variables for their proofs are numbers alone, since a
//! hint shows formulas and words and no proof.
//!
//! Errors: out of memory, and `Results` if the search would cache more results than it may; every
//! id keeps its tree.

ghost use Rattle.std.specs.Prelude.{◌≡◌, ◌<◌, List, [], ◌∷◌, map, false, IfOk, IfSome, OnOk};
ghost use Rattle.term_table.specs.Tree.{Var};
ghost use Rattle.term_table.specs.Table.{IsKnown, AllKnown, tree_at, Extends};
ghost use Rattle.formula_tree.specs.Formulas.{Exp, Form, FRel};
ghost use Rattle.lf_terms.specs.Encoding.{exp_encoding, form_encoding};
ghost use Rattle.prover_ids.specs.Hypotheses.{AreKnownHyps, AreHyps};
ghost use Rattle.prover_class.specs.Hypotheses.{Hyps, split_hyps, with_new};
ghost use Rattle.prover_class.specs.Bounds.{upper_bound, lower_bound};
ghost use Rattle.prover_goals.specs.Search.{IsSearch, IsContext, IsAfter};
ghost use Rattle.prover_conditions.specs.Inside.AccessIds.{access_of};
ghost use Rattle.view_marks.specs.declared.marking.TheConstants.{PART_BINDERS};
ghost use Rattle.view_marks.specs.Hints.{known_hyps, missing_part, missing_parts};
ghost use Rattle.view_marks.specs.Hints.{Bounds, hint_of};
ghost use Rattle.view_marks.specs.Answers.{IsHint, IsKnownHint};
ghost use Rattle.view_marks.specs.Inside.Conjuncts.{HasSides, AreHardParts};
ghost use Rattle.view_marks.specs.Inside.Nearness.{access_at};

use crate::PART_BINDERS;
use crate::nearness::near;
use crate::reached::Asked;
use hereditary_subst::Exhausted;
use prover_bounds::{KeptBounds, bound_words};
use prover_conditions::proof_by_all_means;
use prover_goals::{Context, Search};
use prover_hyps::{Hypotheses, add_split};
use prover_ids::{Access, FormNode, Sides, form_node};
use std::alloc::AllocError;
use term_table::{Id, Node, Table};
use word_ops::Rel;

/// The hint about a formula that isn't easy.
#[derive(Drop)]
pub enum Hint {
    /// No further hint.
    Plain,
    /// For `(ult a b)` or `(ule a b)` under hypotheses: the least upper bound that the search finds
    /// for `a`, and the greatest lower bound that it finds for `b`.
    Bounds(u64, u64),
    /// For a right to load or store: the hypotheses, in order, that give such rights to addresses
    /// with equal summands.
    Rights(Vec<Id>),
}

/// Which hints are asked for.
#[derive(Clone, Copy)]
pub struct Wanted {
    /// Whether steps are counted.
    pub counted: bool,
    /// Whether each missing conjunct is wanted, or else the first alone.
    pub all: bool,
}

/// Adds what a known formula, which has the number `k`, is split into.
#[tactic(auto, using(crate::proofs::Growing::rows))]
fn add_formula(table: &mut Table, hyps: &mut Hypotheses, k: u32, form: Id) -> Result<(), Exhausted>
    requires hyps { AreKnownHyps table.old hyps.old }
    requires form { IsKnown table.old form }
    ensures known { OnOk result (AreKnownHyps table.new hyps.new) }
    ensures exact { (Γ : Hyps) (F : Form) → AreHyps table.old hyps.old Γ
        → tree_at table.old form ≡ form_encoding F → OnOk result
        (AreHyps table.new hyps.new (with_new Γ (split_hyps F (Var k)))) }
    ensures extends { Extends table.old table.new }
{
    let proof = table.intern(Node::Var(k))?;
    add_split(table, hyps, form, proof)?;
    Ok(())
}

/// The hypotheses that known formulas are split into.
pub(crate) fn hypotheses_of(table: &mut Table, known: &[Id]) -> Result<Hypotheses, Exhausted>
    requires { AllKnown table.old known.now }
    ensures known { IfOk result (AreKnownHyps table.new) }
    ensures exact { (Fs : List Form) → map (tree_at table.old) known.now ≡ map form_encoding Fs
        → IfOk result (λ hyps. AreHyps table.new hyps (known_hyps [] 0 Fs)) }
    ensures extends { Extends table.old table.new }
{
    let mut hyps = Hypotheses::new(table.allocator());
    for i in 0..known.len() {
        match u32::try_from(i) {
            Ok(k) => add_formula(table, &mut hyps, k, known[i])?,
            Err(_) => return Err(Exhausted::Memory),
        }
    }
    Ok(hyps)
}

/// Returns the first conjunct of `goal` that isn't easy; the last if all others are.
#[tactic(auto, using(prover_goals::proofs::WordRows::rows))]
fn missing_part(
    table: &mut Table,
    search: &mut Search,
    context: &mut Context,
    counted: bool,
    goal: Id,
) -> Result<Id, Exhausted>
    requires goal { IsKnown table.old goal }
    requires search { IsSearch table.old search.old }
    requires context { IsContext table.old context.old }
    requires outside { context.old.outside ≡ PART_BINDERS }
    ensures known { IfOk result (IsKnown table.new) }
    ensures exact { (Γ : Hyps) (A : Form) → AreHyps table.old context.old.hyps Γ
        → tree_at table.old goal ≡ form_encoding A → IfOk result (λ id.
        tree_at table.new id ≡ form_encoding (missing_part counted Γ A)) }
    ensures extends { Extends table.old table.new }
    ensures after { OnOk result (IsAfter table.new search.new context.old context.new) }
{
    match form_node(table, goal) {
        FormNode::And(a, b) => {
            let proof = proof_by_all_means(table, search, context, counted, a)?;
            if proof.is_some() {
                let part = missing_part(table, search, context, counted, b)?;
                Ok(part)
            } else {
                let part = missing_part(table, search, context, counted, a)?;
                Ok(part)
            }
        }
        FormNode::True => Ok(goal),
        FormNode::False => Ok(goal),
        FormNode::Relation(_, _, _) => Ok(goal),
        FormNode::Right(_, _) => Ok(goal),
        FormNode::Or(_, _) => Ok(goal),
        FormNode::Imp(_, _) => Ok(goal),
        FormNode::All(_) => Ok(goal),
        FormNode::AllMem(_) => Ok(goal),
    }
}

/// The sides of a conjunction, if the formula is one.
fn sides_of(table: &Table, id: Id) -> Option<Sides>
    requires { IsKnown table.now id }
    ensures is { (A : Form) → tree_at table.now id ≡ form_encoding A
        → HasSides table.now A result }
    ensures below { IfSome result (λ s. (s.left < id) × (s.right < id)) }
{
    match form_node(table, id) {
        FormNode::And(left, right) => Some(Sides { left, right }),
        FormNode::True => None,
        FormNode::False => None,
        FormNode::Relation(_, _, _) => None,
        FormNode::Right(_, _) => None,
        FormNode::Or(_, _) => None,
        FormNode::Imp(_, _) => None,
        FormNode::All(_) => None,
        FormNode::AllMem(_) => None,
    }
}

/// The formula alone.
fn alone(table: &Table, goal: Id) -> Result<Vec<Id>, AllocError>
    requires { IsKnown table.now goal }
    ensures { IfOk result (λ v. v.items ≡ goal ∷ []) }
{
    let mut parts = Vec::new(table.allocator());
    parts.push(goal)?;
    Ok(parts)
}

/// Returns the conjuncts of `goal` that aren't easy, in order.
#[tactic(auto, using(prover_goals::proofs::WordRows::rows))]
fn hard_parts(
    table: &mut Table,
    search: &mut Search,
    context: &mut Context,
    counted: bool,
    goal: Id,
) -> Result<Vec<Id>, Exhausted>
    requires goal { IsKnown table.old goal }
    requires search { IsSearch table.old search.old }
    requires context { IsContext table.old context.old }
    requires outside { context.old.outside ≡ PART_BINDERS }
    ensures known { IfOk result (λ v. AllKnown table.new v.items) }
    ensures exact { let hyps = context.old.hyps in
        IfOk result (λ v. AreHardParts counted table.old table.new hyps goal v.items) }
    ensures extends { Extends table.old table.new }
    ensures after { OnOk result (IsAfter table.new search.new context.old context.new) }
{
    search.spend_steps(1)?;
    let proof = proof_by_all_means(table, search, context, counted, goal)?;
    if proof.is_some() {
        return Ok(Vec::new(table.allocator()));
    }
    match sides_of(table, goal) {
        None => {
            let whole = alone(table, goal)?;
            Ok(whole)
        }
        Some(sides) => {
            let mut parts = hard_parts(table, search, context, counted, sides.left)?;
            let others = hard_parts(table, search, context, counted, sides.right)?;
            parts.extend_from_slice(others.as_slice())?;
            Ok(parts)
        }
    }
}

/// Returns the first conjunct of `goal` that isn't easy, alone.
#[tactic(auto, using(prover_goals::proofs::Kept::rows))]
fn first_part(
    table: &mut Table,
    search: &mut Search,
    context: &mut Context,
    counted: bool,
    goal: Id,
) -> Result<Vec<Id>, Exhausted>
    requires goal { IsKnown table.old goal }
    requires search { IsSearch table.old search.old }
    requires context { IsContext table.old context.old }
    requires outside { context.old.outside ≡ PART_BINDERS }
    ensures known { IfOk result (λ v. AllKnown table.new v.items) }
    ensures exact { (Γ : Hyps) (A : Form) → AreHyps table.old context.old.hyps Γ
        → tree_at table.old goal ≡ form_encoding A → IfOk result (λ v.
        map (tree_at table.new) v.items ≡ map form_encoding (missing_parts false counted Γ A)) }
    ensures extends { Extends table.old table.new }
    ensures search { OnOk result (IsSearch table.new search.new) }
{
    let part = missing_part(table, search, context, counted, goal)?;
    let parts = alone(table, part)?;
    Ok(parts)
}

/// Returns the missing conjuncts of `goal`: all, or the first alone.
#[tactic(auto, using(prover_goals::proofs::Kept::rows))]
fn parts_in(
    table: &mut Table,
    search: &mut Search,
    context: &mut Context,
    wanted: Wanted,
    goal: Id,
) -> Result<Vec<Id>, Exhausted>
    requires goal { IsKnown table.old goal }
    requires search { IsSearch table.old search.old }
    requires context { IsContext table.old context.old }
    requires outside { context.old.outside ≡ PART_BINDERS }
    ensures known { IfOk result (λ v. AllKnown table.new v.items) }
    ensures exact { (Γ : Hyps) (A : Form) → AreHyps table.old context.old.hyps Γ
        → tree_at table.old goal ≡ form_encoding A → IfOk result (λ v.
        map (tree_at table.new) v.items
        ≡ map form_encoding (missing_parts wanted.all wanted.counted Γ A)) }
    ensures extends { Extends table.old table.new }
    ensures search { OnOk result (IsSearch table.new search.new) }
{
    let all = wanted.all;
    if all {
        let hard = hard_parts(table, search, context, wanted.counted, goal)?;
        return Ok(hard);
    }
    let first = first_part(table, search, context, wanted.counted, goal)?;
    Ok(first)
}

/// The bounds that are found of both sides of a comparison.
#[tactic(auto, using(prover_goals::proofs::Kept::rows))]
fn bounds_hint(
    table: &Table,
    search: &mut Search,
    context: &Context,
    counted: bool,
    a: Id,
    b: Id,
) -> Result<Hint, Exhausted>
    requires a { IsKnown table.now a }
    requires b { IsKnown table.now b }
    requires search { IsSearch table.now search.old }
    requires context { IsContext table.now context.now }
    ensures known { IfOk result (IsKnownHint table.now) }
    ensures exact { (Γ : Hyps) (x y : Exp) → AreHyps table.now context.now.hyps Γ
        → tree_at table.now a ≡ exp_encoding x → tree_at table.now b ≡ exp_encoding y
        → IfOk result (IsHint table.now
        (Bounds (upper_bound Γ x).value (lower_bound counted Γ y).value)) }
    ensures search { OnOk result (IsSearch table.now search.new) }
{
    let mut kept = KeptBounds::new(table.allocator());
    let hyps = context.hyps.as_slice();
    let memo = &mut search.memo;
    let words = bound_words(table, memo, &mut kept, hyps, counted, a, b)?;
    Ok(Hint::Bounds(words.upper, words.lower))
}

/// What is said of a relation.
#[tactic(auto, using(prover_goals::proofs::Kept::rows))]
fn relation_hint(
    table: &Table,
    search: &mut Search,
    context: &Context,
    counted: bool,
    rel: Rel,
    a: Id,
    b: Id,
) -> Result<Hint, Exhausted>
    requires a { IsKnown table.now a }
    requires b { IsKnown table.now b }
    requires search { IsSearch table.now search.old }
    requires context { IsContext table.now context.now }
    ensures known { IfOk result (IsKnownHint table.now) }
    ensures exact { (Γ : Hyps) (x y : Exp) → AreHyps table.now context.now.hyps Γ
        → tree_at table.now a ≡ exp_encoding x → tree_at table.now b ≡ exp_encoding y
        → IfOk result (IsHint table.now (hint_of counted Γ (FRel rel x y))) }
    ensures search { OnOk result (IsSearch table.now search.new) }
{
    match rel {
        Rel::Ult => bounds_hint(table, search, context, counted, a, b),
        Rel::Ule => bounds_hint(table, search, context, counted, a, b),
        Rel::Eq => Ok(Hint::Plain),
        Rel::Slt => Ok(Hint::Plain),
        Rel::Sle => Ok(Hint::Plain),
    }
}

/// Whether the access is to store.
fn is_store(access: Access) -> bool
    ensures { access_at result ≡ access_of access }
{
    match access {
        Access::Load => false,
        Access::Store => true,
    }
}

/// What is said of a formula that isn't easy.
#[tactic(auto, using(prover_goals::proofs::Kept::rows))]
fn hint_of(
    table: &mut Table,
    search: &mut Search,
    context: &Context,
    counted: bool,
    part: Id,
) -> Result<Hint, Exhausted>
    requires part { IsKnown table.old part }
    requires search { IsSearch table.old search.old }
    requires context { IsContext table.old context.now }
    ensures known { IfOk result (IsKnownHint table.new) }
    ensures exact { (Γ : Hyps) (A : Form) → AreHyps table.old context.now.hyps Γ
        → tree_at table.old part ≡ form_encoding A
        → IfOk result (IsHint table.new (hint_of counted Γ A)) }
    ensures extends { Extends table.old table.new }
    ensures search { OnOk result (IsSearch table.new search.new) }
{
    match form_node(table, part) {
        FormNode::Relation(rel, a, b) => {
            let hint = relation_hint(table, search, context, counted, rel, a, b)?;
            Ok(hint)
        }
        FormNode::Right(access, address) => {
            let store = is_store(access);
            let asked = Asked { store, address };
            let rights = near(table, search, context.hyps.as_slice(), &asked)?;
            Ok(Hint::Rights(rights))
        }
        FormNode::True => Ok(Hint::Plain),
        FormNode::False => Ok(Hint::Plain),
        FormNode::And(_, _) => Ok(Hint::Plain),
        FormNode::Or(_, _) => Ok(Hint::Plain),
        FormNode::Imp(_, _) => Ok(Hint::Plain),
        FormNode::All(_) => Ok(Hint::Plain),
        FormNode::AllMem(_) => Ok(Hint::Plain),
    }
}

/// Returns what is missing to prove `goal` under the hypotheses `known`: each conjunct that isn't
/// easy, in order, or the first alone, as `wanted` says. `known` and `goal` are from a part over the
/// machine's variables, with `PART_BINDERS` binders outside.
///
/// Errors: out of memory, also if there are 2^32 hypotheses, and `Results` if `search` would cache
/// more than it may; every id keeps its tree.
#[tactic(auto, using(prover_goals::proofs::Kept::rows))]
pub fn missing_parts(
    table: &mut Table,
    search: &mut Search,
    wanted: Wanted,
    known: &[Id],
    goal: Id,
) -> Result<Vec<Id>, Exhausted>
    requires known { AllKnown table.old known.now }
    requires goal { IsKnown table.old goal }
    requires search { IsSearch table.old search.old }
    ensures exact { (Fs : List Form) (A : Form)
        → map (tree_at table.old) known.now ≡ map form_encoding Fs
        → tree_at table.old goal ≡ form_encoding A → IfOk result (λ v.
        map (tree_at table.new) v.items
        ≡ map form_encoding (missing_parts wanted.all wanted.counted (known_hyps [] 0 Fs) A)) }
    ensures known { IfOk result (λ v. AllKnown table.new v.items) }
    ensures extends { Extends table.old table.new }
    ensures search { OnOk result (IsSearch table.new search.new) }
{
    let hyps = hypotheses_of(table, known)?;
    let mut context = Context::new(table, PART_BINDERS, hyps)?;
    let parts = parts_in(table, search, &mut context, wanted, goal)?;
    Ok(parts)
}

/// Returns the hint about a missing conjunct `part` under the hypotheses `known`. `known` and `part`
/// are from a part over the machine's variables, with `PART_BINDERS` binders outside. `counted` says
/// whether steps are counted.
///
/// Errors: as for `missing_parts`.
#[tactic(auto, using(prover_goals::proofs::Kept::rows))]
pub fn hint_about(
    table: &mut Table,
    search: &mut Search,
    counted: bool,
    known: &[Id],
    part: Id,
) -> Result<Hint, Exhausted>
    requires known { AllKnown table.old known.now }
    requires part { IsKnown table.old part }
    requires search { IsSearch table.old search.old }
    ensures exact { (Fs : List Form) (A : Form)
        → map (tree_at table.old) known.now ≡ map form_encoding Fs
        → tree_at table.old part ≡ form_encoding A
        → IfOk result (IsHint table.new (hint_of counted (known_hyps [] 0 Fs) A)) }
    ensures known { IfOk result (IsKnownHint table.new) }
    ensures extends { Extends table.old table.new }
    ensures search { OnOk result (IsSearch table.new search.new) }
{
    search.spend_steps(known.len() as u64)?;
    let hyps = hypotheses_of(table, known)?;
    let context = Context::new(table, PART_BINDERS, hyps)?;
    let hint = hint_of(table, search, &context, counted, part)?;
    Ok(hint)
}
