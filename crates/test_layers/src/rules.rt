//! Sequents by the rules of the kit. All that a rule's function requires is tested at run time.

ghost use Rattle.std.specs.Prelude.{◌<◌, ◌^◌, [], ◌∷◌, length, OnOk};
ghost use Rattle.term_table.specs.Table.{AllKnown, Extends, IsKnown};
ghost use Rattle.lf_signature.specs.Constants.{declared};
ghost use Rattle.lf_signature.specs.declared.editions.WordSignature.TheVariants.{Sigma3};
ghost use Rattle.lf_lemmas.specs.Lemmas.{formulas_of, with_lemmas};
ghost use Rattle.lf_lemmas.specs.Tables.{lemmas_in, LemmasKnown, HoldsLemmas, HoldsProvedLemmas};
ghost use Rattle.lf_sequents.specs.Sequents.{AreSequents, IsSequent};

use crate::answers::{Made, made};
use crate::nodes::{all_known, known, node_of, raised, variable};
use lf_check::{Kept, MOST_RESULTS, check_term};
use lf_lemma_check::{Asked, first_failing, first_unproved, laws};
use lf_lemmas::WithLemmas;
use lf_sequents::Sequent;
use lf_signature::numbers::rel_number;
use lf_signature::{Known, Sigma3, pf};
use lf_truth::ProvedLemmas;
use proof_kit::{
    add_assoc, all_i, allm_i, and_i, and_l, and_r, calc, cmp_no, eq_refl, eq_sub, fact, imp_i,
    lt_le, not_lt, sub_lo, sub_neg, tt_i, ule_trans,
};
use std::alloc::AllocError;
use term_table::{Id, Node, Table};
use word_ops::{Op, Rel, op_number};

// ---- what is tested at run time

/// Tests that each id of the lemmas is one of the table.
fn ids_known(table: &Table, lemmas: &[(Id, Id)]) -> Made<()>
    ensures { OnOk result (LemmasKnown table.now lemmas.now) }
{
    match lemmas {
        [] => Ok(()),
        [first, rest @ ..] => {
            known(table, first.0)?;
            known(table, first.1)?;
            ids_known(table, rest)
        }
    }
}

/// Tests that there are few lemmas, whose ids are the table's.
pub fn lemmas_known(table: &Table, lemmas: &[(Id, Id)]) -> Made<()>
    ensures known { OnOk result (LemmasKnown table.now lemmas.now) }
    ensures few { OnOk result (length lemmas.now < 2 ^ 32) }
{
    if lemmas.len() >= 4_294_967_296 {
        return Err("many lemmas");
    }
    ids_known(table, lemmas)
}

/// Tests that the formula of each lemma is one.
fn are_formulas(table: &mut Table, lemmas: &[(Id, Id)]) -> Made<()>
    requires known { LemmasKnown table.old lemmas.now }
    requires few { length lemmas.now < 2 ^ 32 }
    ensures holds { OnOk result (HoldsLemmas (declared Sigma3) table.new lemmas.now) }
    ensures extends { Extends table.old table.new }
{
    laws();
    let mut kept = Kept::new(table.allocator(), MOST_RESULTS);
    match first_failing(table, &mut kept, &Sigma3, Asked::Formula, lemmas) {
        Ok(None) => Ok(()),
        Ok(Some(_)) => Err("no formula"),
        Err(_) => Err("no memory"),
    }
}

/// Tests that the proof of each lemma checks with those before it.
fn are_proofs(table: &mut Table, lemmas: &[(Id, Id)]) -> Made<()>
    requires holds { HoldsLemmas (declared Sigma3) table.old lemmas.now }
    requires few { length lemmas.now < 2 ^ 32 }
    ensures holds { OnOk result (HoldsProvedLemmas (declared Sigma3) table.new lemmas.now) }
    ensures extends { Extends table.old table.new }
{
    laws();
    let alloc = table.allocator();
    let mut kept = Kept::new(alloc, MOST_RESULTS);
    match first_unproved(alloc, table, &mut kept, &Sigma3, lemmas) {
        Ok(None) => Ok(()),
        Ok(Some(_)) => Err("no proof"),
        Err(_) => Err("no memory"),
    }
}

/// Tests that the lemmas are proved.
pub fn are_proved(table: &mut Table, lemmas: &[(Id, Id)]) -> Made<()>
    ensures holds { OnOk result (HoldsProvedLemmas (declared Sigma3) table.new lemmas.now) }
    ensures extends { Extends table.old table.new }
{
    lemmas_known(table, lemmas)?;
    are_formulas(table, lemmas)?;
    are_proofs(table, lemmas)
}

/// Tests that the sequent is one of the table with the lemmas.
fn is_sequent(table: &mut Table, lemmas: &[(Id, Id)], s: &Sequent) -> Made<()>
    ensures holds { OnOk result (HoldsProvedLemmas (declared Sigma3) table.new lemmas.now) }
    ensures sequent { let sig = with_lemmas (declared Sigma3)
        (formulas_of (lemmas_in table.new lemmas.now)) in
        OnOk result (IsSequent sig table.new s.now) }
    ensures extends { Extends table.old table.new }
{
    known(table, s.goal)?;
    let Ok(kind) = pf(table, s.goal) else {
        return Err("no memory");
    };
    are_proved(table, lemmas)?;
    known(table, s.term)?;
    all_known(table, s.hyps.as_slice())?;
    let sig = ProvedLemmas {
        extended: WithLemmas {
            sig: &Sigma3,
            lemmas,
        },
    };
    match check_term(
        table.allocator(),
        table,
        &sig,
        s.hyps.as_slice(),
        s.term,
        kind,
    ) {
        Ok(true) => Ok(()),
        Ok(false) => Err("no sequent"),
        Err(_) => Err("no memory"),
    }
}

/// Tests that both sequents are of the table with the lemmas.
fn are_sequents(table: &mut Table, lemmas: &[(Id, Id)], p: &Sequent, q: &Sequent) -> Made<()>
    ensures holds { OnOk result (HoldsProvedLemmas (declared Sigma3) table.new lemmas.now) }
    ensures sequents { let sig = with_lemmas (declared Sigma3)
        (formulas_of (lemmas_in table.new lemmas.now)) in
        OnOk result (AreSequents sig table.new (p.now ∷ q.now ∷ [])) }
    ensures extends { Extends table.old table.new }
{
    is_sequent(table, lemmas, p)?;
    is_sequent(table, lemmas, q)?;
    Ok(())
}

// ---- the rules' functions

/// A rule of the kit.
#[derive(Clone, Copy)]
pub enum Rule {
    TtI,
    AndI,
    AndL,
    AndR,
    ImpI,
    AllI,
    AllmI,
    EqRefl,
    EqSub,
    AddAssoc,
    SubNeg,
    SubLo,
    UleTrans,
    LtLe,
    NotLt,
    UltNo,
}

/// A rule at its parameters, the last of which a rule may lack.
#[derive(Clone, Copy)]
pub struct Step {
    pub rule: Rule,
    pub a: Id,
    pub b: Id,
    pub c: Id,
}

impl Step {
    /// A rule at one parameter.
    pub fn at(rule: Rule, a: Id) -> Step {
        Step {
            rule,
            a,
            b: a,
            c: a,
        }
    }

    /// A rule at two parameters.
    pub fn at_both(rule: Rule, a: Id, b: Id) -> Step {
        Step { rule, a, b, c: b }
    }
}

/// The lemmas and the hypotheses of a sequent.
#[derive(Clone, Copy)]
pub struct Under<'a> {
    pub lemmas: &'a [(Id, Id)],
    pub hyps: &'a [Id],
}

/// The sequent of a rule that has no premise.
fn axiom<S: Known>(
    table: &mut Table,
    sig: &S,
    hyps: &[Id],
    step: &Step,
) -> Result<Option<Sequent>, AllocError>
    requires holds { S.Signature.holds sig.now table.old }
    requires hyps { AllKnown table.old hyps.now }
    requires params { AllKnown table.old (step.now.a ∷ step.now.b ∷ step.now.c ∷ []) }
{
    let alloc = table.allocator();
    let mut kept = Kept::new(alloc, 1_000);
    let Step { rule, a, b, c } = *step;
    match rule {
        Rule::TtI => tt_i(alloc, table, sig, &mut kept, hyps),
        Rule::EqRefl => eq_refl(alloc, table, sig, &mut kept, hyps, a),
        Rule::SubNeg => sub_neg(alloc, table, sig, &mut kept, hyps, a, b),
        Rule::AddAssoc => add_assoc(alloc, table, sig, &mut kept, hyps, a, b, c),
        _ => Ok(None),
    }
}

/// The sequent of a rule that binds in its premise.
fn bound<S: Known>(
    table: &mut Table,
    sig: &S,
    hyps: &[Id],
    step: &Step,
    p: &Sequent,
) -> Result<Option<Sequent>, AllocError>
    requires holds { S.Signature.holds sig.now table.old }
    requires hyps { AllKnown table.old hyps.now }
    requires params { AllKnown table.old (step.now.a ∷ step.now.b ∷ step.now.c ∷ []) }
    requires premise { IsSequent (S.Signature.declares sig.now table.old) table.old p.now }
{
    let alloc = table.allocator();
    let mut kept = Kept::new(alloc, 1_000);
    let Step { rule, a, b, .. } = *step;
    match rule {
        Rule::ImpI => imp_i(alloc, table, sig, &mut kept, hyps, a, b, p),
        Rule::AllI => all_i(alloc, table, sig, &mut kept, hyps, a, p),
        Rule::AllmI => allm_i(alloc, table, sig, &mut kept, hyps, a, p),
        _ => Ok(None),
    }
}

/// The sequent of a rule that has one premise and binds nothing.
fn plain<S: Known>(
    table: &mut Table,
    sig: &S,
    hyps: &[Id],
    step: &Step,
    p: &Sequent,
) -> Result<Option<Sequent>, AllocError>
    requires holds { S.Signature.holds sig.now table.old }
    requires hyps { AllKnown table.old hyps.now }
    requires params { AllKnown table.old (step.now.a ∷ step.now.b ∷ step.now.c ∷ []) }
    requires premise { IsSequent (S.Signature.declares sig.now table.old) table.old p.now }
{
    let alloc = table.allocator();
    let mut kept = Kept::new(alloc, 1_000);
    let Step { rule, a, b, .. } = *step;
    match rule {
        Rule::AndL => and_l(alloc, table, sig, &mut kept, hyps, a, b, p),
        Rule::AndR => and_r(alloc, table, sig, &mut kept, hyps, a, b, p),
        Rule::NotLt => not_lt(alloc, table, sig, &mut kept, hyps, a, b, p),
        Rule::UltNo => cmp_no(alloc, table, sig, &mut kept, hyps, 3, a, b, p),
        _ => Ok(None),
    }
}

/// The sequent of a rule that has two premises.
fn joined<S: Known>(
    table: &mut Table,
    sig: &S,
    hyps: &[Id],
    step: &Step,
    premises: (&Sequent, &Sequent),
) -> Result<Option<Sequent>, AllocError>
    requires holds { S.Signature.holds sig.now table.old }
    requires hyps { AllKnown table.old hyps.now }
    requires params { AllKnown table.old (step.now.a ∷ step.now.b ∷ step.now.c ∷ []) }
    requires premises { AreSequents (S.Signature.declares sig.now table.old) table.old
        (premises.0.now ∷ premises.1.now ∷ []) }
{
    let alloc = table.allocator();
    let mut kept = Kept::new(alloc, 1_000);
    let Step { rule, a, b, c } = *step;
    let (p, q) = premises;
    match rule {
        Rule::AndI => and_i(alloc, table, sig, &mut kept, hyps, a, b, p, q),
        Rule::EqSub => eq_sub(alloc, table, sig, &mut kept, hyps, a, b, c, p, q),
        Rule::SubLo => sub_lo(alloc, table, sig, &mut kept, hyps, a, b, c, p, q),
        Rule::UleTrans => ule_trans(alloc, table, sig, &mut kept, hyps, a, b, c, p, q),
        Rule::LtLe => lt_le(alloc, table, sig, &mut kept, hyps, a, b, c, p, q),
        _ => Ok(None),
    }
}

// ---- conclusions

/// What a rule's function answers, if that is a sequent.
fn answered(answer: Result<Option<Sequent>, AllocError>) -> Made<Sequent> {
    match answer {
        Ok(Some(s)) => Ok(s),
        Ok(None) => Err("another form"),
        Err(_) => Err("no memory"),
    }
}

/// Tests that the hypotheses and the parameters are of the table.
fn are_placed(table: &Table, hyps: &[Id], step: &Step) -> Made<()>
    ensures hyps { OnOk result (AllKnown table.now hyps.now) }
    ensures params { OnOk result (AllKnown table.now (step.now.a ∷ step.now.b ∷ step.now.c ∷ [])) }
{
    all_known(table, hyps)?;
    known(table, step.a)?;
    known(table, step.b)?;
    known(table, step.c)?;
    Ok(())
}

impl Under<'_> {
    /// What a rule without premises concludes.
    pub fn by(self, table: &mut Table, step: Step) -> Made<Sequent> {
        let Under { lemmas, hyps } = self;
        are_proved(table, lemmas)?;
        are_placed(table, hyps, &step)?;
        let sig = &Sigma3;
        let extended = WithLemmas { sig, lemmas };
        let sig = ProvedLemmas { extended };
        answered(axiom(table, &sig, hyps, &step))
    }

    /// What a rule that binds concludes from its premise.
    pub fn binding(self, table: &mut Table, step: Step, p: &Sequent) -> Made<Sequent> {
        let Under { lemmas, hyps } = self;
        is_sequent(table, lemmas, p)?;
        are_placed(table, hyps, &step)?;
        let sig = &Sigma3;
        let extended = WithLemmas { sig, lemmas };
        let sig = ProvedLemmas { extended };
        answered(bound(table, &sig, hyps, &step, p))
    }

    /// What a rule that binds nothing concludes from its one premise.
    pub fn from(self, table: &mut Table, step: Step, p: &Sequent) -> Made<Sequent> {
        let Under { lemmas, hyps } = self;
        is_sequent(table, lemmas, p)?;
        are_placed(table, hyps, &step)?;
        let sig = &Sigma3;
        let extended = WithLemmas { sig, lemmas };
        let sig = ProvedLemmas { extended };
        answered(plain(table, &sig, hyps, &step, p))
    }

    /// What a rule concludes from its two premises.
    pub fn from_both(
        self,
        table: &mut Table,
        step: Step,
        p: &Sequent,
        q: &Sequent,
    ) -> Made<Sequent> {
        let Under { lemmas, hyps } = self;
        are_sequents(table, lemmas, p, q)?;
        are_placed(table, hyps, &step)?;
        let sig = &Sigma3;
        let extended = WithLemmas { sig, lemmas };
        let sig = ProvedLemmas { extended };
        answered(joined(table, &sig, hyps, &step, (p, q)))
    }

    /// What the operator gives at two words.
    pub fn computed(self, table: &mut Table, op: Op, a: u64, b: u64) -> Made<Sequent> {
        let Under { lemmas, hyps } = self;
        are_proved(table, lemmas)?;
        all_known(table, hyps)?;
        let sig = &Sigma3;
        let extended = WithLemmas { sig, lemmas };
        let sig = ProvedLemmas { extended };
        let alloc = table.allocator();
        answered(calc(alloc, table, &sig, hyps, op_number(op), a, b))
    }

    /// That the relation of two words holds.
    pub fn held(self, table: &mut Table, rel: Rel, a: u64, b: u64) -> Made<Sequent> {
        let Under { lemmas, hyps } = self;
        are_proved(table, lemmas)?;
        all_known(table, hyps)?;
        let sig = &Sigma3;
        let extended = WithLemmas { sig, lemmas };
        let sig = ProvedLemmas { extended };
        let alloc = table.allocator();
        answered(fact(alloc, table, &sig, hyps, rel_number(rel), a, b))
    }

    /// The hypothesis at that place, counted from the first.
    pub fn hypothesis(self, table: &mut Table, place: usize) -> Made<Sequent> {
        let hyps = self.hyps;
        let Some(kind) = hyps.get(place).copied() else {
            return Err("no hypothesis");
        };
        let Node::TApp(_, formula) = node_of(table, kind)? else {
            return Err("no formula");
        };
        let from_last = hyps.len().saturating_sub(place) as u64;
        let goal = raised(table, formula, from_last)?;
        let term = variable(table, from_last.saturating_sub(1))?;
        let hyps = made(hyps.to_vec(table.allocator()))?;
        Ok(Sequent { hyps, goal, term })
    }

    /// The formula by the lemma with that number.
    pub fn cited(self, table: &mut Table, lemma: u32, goal: Id) -> Made<Sequent> {
        let term = made(table.intern(Node::Lemma(lemma)))?;
        let hyps = made(self.hyps.to_vec(table.allocator()))?;
        Ok(Sequent { hyps, goal, term })
    }
}
