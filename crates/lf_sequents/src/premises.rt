//! Checks whether parameters and premises have a rule's form.

ghost use Rattle.std.specs.Prelude.{◌≡◌, false, ◌↔◌, ◌++◌, [], ◌∷◌, IfOk, IsTrue, map};
ghost use Rattle.term_table.specs.Table.{IsKnown, AllKnown, tree_at, ctx_of, Extends};
ghost use Rattle.lf_signature.specs.Rules.{sort_type};
ghost use Rattle.lf_signature.specs.Schemas.{sort_of, form_of, premise_of, rule_of};
ghost use Rattle.lf_signature.specs.Nodes.{IsIdOf};
ghost use Rattle.lf_signature.specs.Typing.{Checks};
ghost use Rattle.hereditary_subst.specs.Kept.{IsMemo};
ghost use Rattle.hereditary_subst.specs.Limits.{is_limited};
ghost use Rattle.lf_check.specs.Kept.{AreKept};
ghost use Rattle.lf_terms.specs.Instance.{nth_arg, form_with, under_binder};
ghost use Rattle.lf_terms.specs.Instance.{trees_of};
ghost use Rattle.lf_sequents.specs.Sequents.{IsOfTable, AreOfTable};
ghost use Rattle.lf_sequents.specs.Answers.{AreTyped, Binds, FitsPremise, FitPremises, HasForm};
ghost use Rattle.lf_sequents.specs.Room.{sequents_of};

use crate::instance::form_id;
use crate::sequent::Sequent;
use hereditary_subst::Memo;
use lf_check::{Kept, check_term_with};
use lf_signature::numbers::{EXP, FORM, MEM};
use lf_signature::schema::{Form, Premise, Rule, Sort};
use lf_signature::{Signature, pf};
use std::alloc::AllocError;
use term_table::{Id, Node, Table};

/// The type of what a parameter ranges over.
fn sort_id(table: &mut Table, sort: Sort) -> Result<Id, AllocError>
    ensures id { IfOk result (IsIdOf table.new (sort_type (sort_of sort))) }
    ensures extends { Extends table.old table.new }
{
    let argument = match sort {
        Sort::Exp => return table.intern(Node::Fam(EXP)),
        Sort::Mem => return table.intern(Node::Fam(MEM)),
        Sort::Form => return table.intern(Node::Fam(FORM)),
        Sort::ExpForm => table.intern(Node::Fam(EXP))?,
        Sort::MemForm => table.intern(Node::Fam(MEM))?,
    };
    let form = table.intern(Node::Fam(FORM))?;
    table.intern(Node::Pi(argument, form))
}

/// Whether the term checks at the parameter's type.
fn is_typed<S: Signature>(
    table: &mut Table,
    kept: &mut Kept,
    sig: &S,
    hyps: &[Id],
    sort: &Sort,
    param: Id,
) -> Result<bool, AllocError>
    requires holds { S.holds sig.now table.old }
    requires hyps { AllKnown table.old hyps.now }
    requires param { IsKnown table.old param }
    requires kept { AreKept (S.declares sig.now table.old) table.old kept.old }
    requires unlimited { is_limited kept.old.memo ≡ false }
    ensures answer { let ctx = ctx_of table.old hyps.now in
        let sig = S.declares sig.now table.old in
        let holds = Checks sig ctx (tree_at table.old param) (sort_type (sort_of sort.now)) in
        IfOk result (λ b. IsTrue b ↔ holds) }
    ensures extends { Extends table.old table.new }
    ensures kept { AreKept (S.declares sig.now table.new) table.new kept.new }
    ensures unlimited { is_limited kept.new.memo ≡ false }
{
    let kind = sort_id(table, *sort)?;
    match check_term_with(table, kept, sig, hyps, param, kind) {
        Ok(typed) => Ok(typed),
        Err(e) => Err(e.memory()),
    }
}

/// Whether each term checks at its parameter's type.
fn are_typed<S: Signature>(
    table: &mut Table,
    kept: &mut Kept,
    sig: &S,
    hyps: &[Id],
    sorts: &[Sort],
    params: &[Id],
) -> Result<bool, AllocError>
    requires holds { S.holds sig.now table.old }
    requires hyps { AllKnown table.old hyps.now }
    requires params { AllKnown table.old params.now }
    requires kept { AreKept (S.declares sig.now table.old) table.old kept.old }
    requires unlimited { is_limited kept.old.memo ≡ false }
    ensures answer { let sig = S.declares sig.now table.old in
        let ctx = ctx_of table.old hyps.now in
        let holds = AreTyped sig ctx (map sort_of sorts.now) (trees_of table.old params.now) in
        IfOk result (λ b. IsTrue b ↔ holds) }
    ensures extends { Extends table.old table.new }
    ensures kept { AreKept (S.declares sig.now table.new) table.new kept.new }
    ensures unlimited { is_limited kept.new.memo ≡ false }
{
    match sorts {
        [] => Ok(params.is_empty()),
        [sort, sorts @ ..] => match params {
            [] => Ok(false),
            [param, params @ ..] => {
                if !is_typed(table, kept, sig, hyps, sort, *param)? {
                    return Ok(false);
                }
                are_typed(table, kept, sig, hyps, sorts, params)
            }
        },
    }
}

/// Whether the lists of ids are equal.
fn are_same(a: &[Id], b: &[Id]) -> bool
    ensures { IsTrue result ↔ (a.now ≡ b.now) }
{
    a == b
}

/// Whether the ids are the hypotheses and one more.
fn is_under(ids: &[Id], hyps: &[Id], last: Id) -> bool
    ensures { IsTrue result ↔ (ids.now ≡ hyps.now ++ last ∷ []) }
{
    match ids {
        [] => false,
        [front @ .., nearest] => *nearest == last && are_same(front, hyps),
    }
}

/// Whether the sequent proves the formula under the hypotheses.
fn fits_plain(
    table: &mut Table,
    memo: &mut Memo,
    hyps: &[Id],
    params: &[Id],
    form: &Form,
    p: &Sequent,
) -> Result<bool, AllocError>
    requires params { AllKnown table.old params.now }
    requires p { IsOfTable table.old p.now }
    requires kept { IsMemo table.old memo.old }
    requires unlimited { is_limited memo.old ≡ false }
    ensures answer { let wanted =
        form_with (form_of form.now) (nth_arg (trees_of table.old params.now)) in
        let holds = (p.now.hyps.items ≡ hyps.now) × (tree_at table.old p.now.goal ≡ wanted) in
        IfOk result (λ b. IsTrue b ↔ holds) }
    ensures extends { Extends table.old table.new }
    ensures kept { IsMemo table.new memo.new }
    ensures unlimited { is_limited memo.new ≡ false }
{
    let goal = form_id(table, memo, params, 0, form)?;
    Ok(are_same(p.hyps.as_slice(), hyps) && table.same(p.goal, goal))
}

/// Whether the sequent proves the formula under the hypotheses and one more, the parameters' terms
/// being taken under that binder.
fn fits_under(
    table: &mut Table,
    memo: &mut Memo,
    hyps: &[Id],
    params: &[Id],
    kind: Id,
    form: &Form,
    p: &Sequent,
) -> Result<bool, AllocError>
    requires params { AllKnown table.old params.now }
    requires kind { IsKnown table.old kind }
    requires p { IsOfTable table.old p.now }
    requires kept { IsMemo table.old memo.old }
    requires unlimited { is_limited memo.old ≡ false }
    ensures answer { let args = nth_arg (trees_of table.old params.now) in
        let wanted = form_with (form_of form.now) (under_binder args) in
        let binds = Binds table.old hyps.now (tree_at table.old kind) p.now.hyps.items in
        let holds = binds × (tree_at table.old p.now.goal ≡ wanted) in
        IfOk result (λ b. IsTrue b ↔ holds) }
    ensures extends { Extends table.old table.new }
    ensures kept { IsMemo table.new memo.new }
    ensures unlimited { is_limited memo.new ≡ false }
{
    table.laws();
    let goal = form_id(table, memo, params, 1, form)?;
    Ok(is_under(p.hyps.as_slice(), hyps, kind) && table.same(p.goal, goal))
}

/// Whether the sequent has the hypotheses and the goal of the premise.
fn fits(
    table: &mut Table,
    memo: &mut Memo,
    hyps: &[Id],
    params: &[Id],
    premise: &Premise,
    p: &Sequent,
) -> Result<bool, AllocError>
    requires params { AllKnown table.old params.now }
    requires p { IsOfTable table.old p.now }
    requires kept { IsMemo table.old memo.old }
    requires unlimited { is_limited memo.old ≡ false }
    ensures answer { let holds = FitsPremise table.old hyps.now
        (nth_arg (trees_of table.old params.now)) (premise_of premise.now) p.now in
        IfOk result (λ b. IsTrue b ↔ holds) }
    ensures extends { Extends table.old table.new }
    ensures kept { IsMemo table.new memo.new }
    ensures unlimited { is_limited memo.new ≡ false }
{
    match premise {
        Premise::Plain(form) => fits_plain(table, memo, hyps, params, form, p),
        Premise::Under(given, form) => {
            let given = form_id(table, memo, params, 0, given)?;
            let kind = pf(table, given)?;
            fits_under(table, memo, hyps, params, kind, form, p)
        }
        Premise::ForExp(form) => {
            let kind = table.intern(Node::Fam(EXP))?;
            fits_under(table, memo, hyps, params, kind, form, p)
        }
        Premise::ForMem(form) => {
            let kind = table.intern(Node::Fam(MEM))?;
            fits_under(table, memo, hyps, params, kind, form, p)
        }
    }
}

/// Whether each sequent has the hypotheses and the goal of its premise.
fn do_fit(
    table: &mut Table,
    memo: &mut Memo,
    hyps: &[Id],
    params: &[Id],
    rows: &[Premise],
    premises: &[&Sequent],
) -> Result<bool, AllocError>
    requires params { AllKnown table.old params.now }
    requires premises { AreOfTable table.old (sequents_of premises.now) }
    requires kept { IsMemo table.old memo.old }
    requires unlimited { is_limited memo.old ≡ false }
    ensures answer { let args = nth_arg (trees_of table.old params.now) in
        let holds = FitPremises table.old hyps.now args (map premise_of rows.now)
        (sequents_of premises.now) in
        IfOk result (λ b. IsTrue b ↔ holds) }
    ensures extends { Extends table.old table.new }
    ensures kept { IsMemo table.new memo.new }
    ensures unlimited { is_limited memo.new ≡ false }
{
    match rows {
        [] => Ok(premises.is_empty()),
        [row, rows @ ..] => match premises {
            [] => Ok(false),
            [premise, premises @ ..] => {
                if !fits(table, memo, hyps, params, row, premise)? {
                    return Ok(false);
                }
                do_fit(table, memo, hyps, params, rows, premises)
            }
        },
    }
}

/// Checks whether parameters and premises have the rule's form. The parameters' types come first:
/// no formula is made of a term that has none.
pub fn has_form<S: Signature>(
    table: &mut Table,
    kept: &mut Kept,
    sig: &S,
    hyps: &[Id],
    rule: &Rule,
    params: &[Id],
    premises: &[&Sequent],
) -> Result<bool, AllocError>
    requires holds { S.holds sig.now table.old }
    requires hyps { AllKnown table.old hyps.now }
    requires params { AllKnown table.old params.now }
    requires premises { AreOfTable table.old (sequents_of premises.now) }
    requires kept { AreKept (S.declares sig.now table.old) table.old kept.old }
    requires unlimited { is_limited kept.old.memo ≡ false }
    ensures answer { let sig = S.declares sig.now table.old in
        let rule = rule_of rule.now in
        let holds =
        HasForm sig table.old hyps.now params.now rule (sequents_of premises.now) in
        IfOk result (λ b. IsTrue b ↔ holds) }
    ensures extends { Extends table.old table.new }
    ensures kept { AreKept (S.declares sig.now table.new) table.new kept.new }
    ensures unlimited { is_limited kept.new.memo ≡ false }
{
    if !are_typed(table, kept, sig, hyps, rule.parameters, params)? {
        return Ok(false);
    }
    do_fit(table, &mut kept.memo, hyps, params, rule.premises, premises)
}
