//! The rules of equality, and of memories with a word written.
//!
//! Each function returns the sequent of its rule's conclusion exactly if the parameters and the
//! premises have the rule's form and its term checks, else None. Errors: out of memory alone; each
//! id keeps its tree.

ghost use Rattle.std.specs.Prelude.{◌≡◌, [], ◌∷◌, IfOk};
ghost use Rattle.term_table.specs.Table.{AllKnown, Extends};
ghost use Rattle.lf_check.specs.Kept.{AreKept};
ghost use Rattle.lf_sequents.specs.Sequents.{AreSequents};
ghost use Rattle.lf_sequents.specs.Answers.{IsRuleAnswer};
ghost use Rattle.lf_signature.specs.declared.numbers.TheConstants.{EQ_REFL, EQ_SUB, SEL_OTHER, SEL_SAME};

use lf_check::Kept;
use lf_sequents::{Sequent, by_rule};
use lf_signature::Known;
use lf_signature::numbers::{EQ_REFL, EQ_SUB, SEL_OTHER, SEL_SAME};
use std::alloc::{AllocError, Global};
use term_table::{Id, Table};

/// Proves that a word equals itself.
///
/// `eq_refl a ; |- (eq a a)`
pub fn eq_refl<S: Known>(
    alloc: Global,
    table: &mut Table,
    sig: &S,
    kept: &mut Kept,
    hyps: &[Id],
    a: Id,
) -> Result<Option<Sequent>, AllocError>
    requires holds { S.Signature.holds sig.now table.old }
    requires hyps { AllKnown table.old hyps.now }
    requires params { AllKnown table.old (a ∷ []) }
    requires kept { AreKept (S.Signature.declares sig.now table.old) table.old kept.old }
    ensures exact { let sig = S.Signature.declares sig.now table.old in
        IfOk result (IsRuleAnswer EQ_REFL sig table.old table.new hyps.now
        (a ∷ []) []) }
    ensures extends { Extends table.old table.new }
    ensures kept { AreKept (S.Signature.declares sig.now table.new) table.new kept.new }
{
    by_rule(alloc, table, sig, kept, hyps, EQ_REFL, &[a], &[])
}

/// Proves of a word what holds of an equal word.
///
/// `eq_sub F a b ; (eq a b), F a |- F b`
pub fn eq_sub<S: Known>(
    alloc: Global,
    table: &mut Table,
    sig: &S,
    kept: &mut Kept,
    hyps: &[Id],
    f: Id,
    a: Id,
    b: Id,
    p: &Sequent,
    q: &Sequent,
) -> Result<Option<Sequent>, AllocError>
    requires holds { S.Signature.holds sig.now table.old }
    requires hyps { AllKnown table.old hyps.now }
    requires params { AllKnown table.old (f ∷ a ∷ b ∷ []) }
    requires premises { AreSequents (S.Signature.declares sig.now table.old) table.old
        (p.now ∷ q.now ∷ []) }
    requires kept { AreKept (S.Signature.declares sig.now table.old) table.old kept.old }
    ensures exact { let sig = S.Signature.declares sig.now table.old in
        IfOk result (IsRuleAnswer EQ_SUB sig table.old table.new hyps.now
        (f ∷ a ∷ b ∷ []) (p.now ∷ q.now ∷ [])) }
    ensures extends { Extends table.old table.new }
    ensures kept { AreKept (S.Signature.declares sig.now table.new) table.new kept.new }
{
    by_rule(alloc, table, sig, kept, hyps, EQ_SUB, &[f, a, b], &[p, q])
}

/// Proves that reading an address after a write to it gives the written word.
///
/// `sel_same m a v ; |- (eq (sel (upd m a v) a) v)`
pub fn sel_same<S: Known>(
    alloc: Global,
    table: &mut Table,
    sig: &S,
    kept: &mut Kept,
    hyps: &[Id],
    m: Id,
    a: Id,
    v: Id,
) -> Result<Option<Sequent>, AllocError>
    requires holds { S.Signature.holds sig.now table.old }
    requires hyps { AllKnown table.old hyps.now }
    requires params { AllKnown table.old (m ∷ a ∷ v ∷ []) }
    requires kept { AreKept (S.Signature.declares sig.now table.old) table.old kept.old }
    ensures exact { let sig = S.Signature.declares sig.now table.old in
        IfOk result (IsRuleAnswer SEL_SAME sig table.old table.new hyps.now
        (m ∷ a ∷ v ∷ []) []) }
    ensures extends { Extends table.old table.new }
    ensures kept { AreKept (S.Signature.declares sig.now table.new) table.new kept.new }
{
    by_rule(alloc, table, sig, kept, hyps, SEL_SAME, &[m, a, v], &[])
}

/// Proves that a write leaves the words at other addresses.
///
/// `sel_other m a b v ; (not (eq a b)) |- (eq (sel (upd m a v) b) (sel m b))`
pub fn sel_other<S: Known>(
    alloc: Global,
    table: &mut Table,
    sig: &S,
    kept: &mut Kept,
    hyps: &[Id],
    m: Id,
    a: Id,
    b: Id,
    v: Id,
    p: &Sequent,
) -> Result<Option<Sequent>, AllocError>
    requires holds { S.Signature.holds sig.now table.old }
    requires hyps { AllKnown table.old hyps.now }
    requires params { AllKnown table.old (m ∷ a ∷ b ∷ v ∷ []) }
    requires premises { AreSequents (S.Signature.declares sig.now table.old) table.old
        (p.now ∷ []) }
    requires kept { AreKept (S.Signature.declares sig.now table.old) table.old kept.old }
    ensures exact { let sig = S.Signature.declares sig.now table.old in
        IfOk result (IsRuleAnswer SEL_OTHER sig table.old table.new hyps.now
        (m ∷ a ∷ b ∷ v ∷ []) (p.now ∷ [])) }
    ensures extends { Extends table.old table.new }
    ensures kept { AreKept (S.Signature.declares sig.now table.new) table.new kept.new }
{
    by_rule(
        alloc,
        table,
        sig,
        kept,
        hyps,
        SEL_OTHER,
        &[m, a, b, v],
        &[p],
    )
}
