//! The rules of the unsigned order.
//!
//! Each function returns the sequent of its rule's conclusion exactly if the parameters and the
//! premises have the rule's form and its term checks, else None. Errors: out of memory alone; each
//! id keeps its tree.

ghost use Rattle.std.specs.Prelude.{◌≡◌, [], ◌∷◌, IfOk};
ghost use Rattle.term_table.specs.Table.{AllKnown, Extends};
ghost use Rattle.lf_check.specs.Kept.{AreKept};
ghost use Rattle.lf_sequents.specs.Sequents.{AreSequents};
ghost use Rattle.lf_sequents.specs.Answers.{IsRuleAnswer};
ghost use Rattle.lf_signature.specs.declared.numbers.TheConstants.{ADD_LE, LE_ANTI, LE_LT, LT_IRR, LT_LE, LT_PRED, MAX_LE, NOT_LT, SLL_MONO, SRL_MONO, ULE_REFL, ULE_TRANS, ULT_ULE, ZERO_LE};

use lf_check::Kept;
use lf_sequents::{Sequent, by_rule};
use lf_signature::Known;
use lf_signature::numbers::{
    ADD_LE, LE_ANTI, LE_LT, LT_IRR, LT_LE, LT_PRED, MAX_LE, NOT_LT, SLL_MONO, SRL_MONO, ULE_REFL,
    ULE_TRANS, ULT_ULE, ZERO_LE,
};
use std::alloc::{AllocError, Global};
use term_table::{Id, Table};

/// Proves that right shifts keep the order.
///
/// `srl_mono a b c ; (ule a b) |- (ule (srl a c) (srl b c))`
pub fn srl_mono<S: Known>(
    alloc: Global,
    table: &mut Table,
    sig: &S,
    kept: &mut Kept,
    hyps: &[Id],
    a: Id,
    b: Id,
    c: Id,
    p: &Sequent,
) -> Result<Option<Sequent>, AllocError>
    requires holds { S.Signature.holds sig.now table.old }
    requires hyps { AllKnown table.old hyps.now }
    requires params { AllKnown table.old (a ∷ b ∷ c ∷ []) }
    requires premises { AreSequents (S.Signature.declares sig.now table.old) table.old
        (p.now ∷ []) }
    requires kept { AreKept (S.Signature.declares sig.now table.old) table.old kept.old }
    ensures exact { let sig = S.Signature.declares sig.now table.old in
        IfOk result (IsRuleAnswer SRL_MONO sig table.old table.new hyps.now
        (a ∷ b ∷ c ∷ []) (p.now ∷ [])) }
    ensures extends { Extends table.old table.new }
    ensures kept { AreKept (S.Signature.declares sig.now table.new) table.new kept.new }
{
    by_rule(alloc, table, sig, kept, hyps, SRL_MONO, &[a, b, c], &[p])
}

/// Proves that left shifts keep the order if no bit is lost.
///
/// `sll_mono a b c ; (ule a b), (ule b (srl MAX c)) |- (ule (sll a c) (sll b c))`
pub fn sll_mono<S: Known>(
    alloc: Global,
    table: &mut Table,
    sig: &S,
    kept: &mut Kept,
    hyps: &[Id],
    a: Id,
    b: Id,
    c: Id,
    p: &Sequent,
    q: &Sequent,
) -> Result<Option<Sequent>, AllocError>
    requires holds { S.Signature.holds sig.now table.old }
    requires hyps { AllKnown table.old hyps.now }
    requires params { AllKnown table.old (a ∷ b ∷ c ∷ []) }
    requires premises { AreSequents (S.Signature.declares sig.now table.old) table.old
        (p.now ∷ q.now ∷ []) }
    requires kept { AreKept (S.Signature.declares sig.now table.old) table.old kept.old }
    ensures exact { let sig = S.Signature.declares sig.now table.old in
        IfOk result (IsRuleAnswer SLL_MONO sig table.old table.new hyps.now
        (a ∷ b ∷ c ∷ []) (p.now ∷ q.now ∷ [])) }
    ensures extends { Extends table.old table.new }
    ensures kept { AreKept (S.Signature.declares sig.now table.new) table.new kept.new }
{
    by_rule(alloc, table, sig, kept, hyps, SLL_MONO, &[a, b, c], &[p, q])
}

/// Proves that 0 is the least word.
///
/// `zero_le a ; |- (ule 0 a)`
pub fn zero_le<S: Known>(
    alloc: Global,
    table: &mut Table,
    sig: &S,
    kept: &mut Kept,
    hyps: &[Id],
    a: Id,
) -> Result<Option<Sequent>, AllocError>
    requires holds { S.Signature.holds sig.now table.old }
    requires hyps { AllKnown table.old hyps.now }
    requires params { AllKnown table.old (a ∷ []) }
    requires kept { AreKept (S.Signature.declares sig.now table.old) table.old kept.old }
    ensures exact { let sig = S.Signature.declares sig.now table.old in
        IfOk result (IsRuleAnswer ZERO_LE sig table.old table.new hyps.now
        (a ∷ []) []) }
    ensures extends { Extends table.old table.new }
    ensures kept { AreKept (S.Signature.declares sig.now table.new) table.new kept.new }
{
    by_rule(alloc, table, sig, kept, hyps, ZERO_LE, &[a], &[])
}

/// Proves that MAX, 2^64 - 1, is the greatest word.
///
/// `max_le a ; |- (ule a MAX)`
pub fn max_le<S: Known>(
    alloc: Global,
    table: &mut Table,
    sig: &S,
    kept: &mut Kept,
    hyps: &[Id],
    a: Id,
) -> Result<Option<Sequent>, AllocError>
    requires holds { S.Signature.holds sig.now table.old }
    requires hyps { AllKnown table.old hyps.now }
    requires params { AllKnown table.old (a ∷ []) }
    requires kept { AreKept (S.Signature.declares sig.now table.old) table.old kept.old }
    ensures exact { let sig = S.Signature.declares sig.now table.old in
        IfOk result (IsRuleAnswer MAX_LE sig table.old table.new hyps.now
        (a ∷ []) []) }
    ensures extends { Extends table.old table.new }
    ensures kept { AreKept (S.Signature.declares sig.now table.new) table.new kept.new }
{
    by_rule(alloc, table, sig, kept, hyps, MAX_LE, &[a], &[])
}

/// Proves that a word is at most itself.
///
/// `ule_refl a ; |- (ule a a)`
pub fn ule_refl<S: Known>(
    alloc: Global,
    table: &mut Table,
    sig: &S,
    kept: &mut Kept,
    hyps: &[Id],
    a: Id,
) -> Result<Option<Sequent>, AllocError>
    requires holds { S.Signature.holds sig.now table.old }
    requires hyps { AllKnown table.old hyps.now }
    requires params { AllKnown table.old (a ∷ []) }
    requires kept { AreKept (S.Signature.declares sig.now table.old) table.old kept.old }
    ensures exact { let sig = S.Signature.declares sig.now table.old in
        IfOk result (IsRuleAnswer ULE_REFL sig table.old table.new hyps.now
        (a ∷ []) []) }
    ensures extends { Extends table.old table.new }
    ensures kept { AreKept (S.Signature.declares sig.now table.new) table.new kept.new }
{
    by_rule(alloc, table, sig, kept, hyps, ULE_REFL, &[a], &[])
}

/// Proves that "at most" is transitive.
///
/// `ule_trans a b c ; (ule a b), (ule b c) |- (ule a c)`
pub fn ule_trans<S: Known>(
    alloc: Global,
    table: &mut Table,
    sig: &S,
    kept: &mut Kept,
    hyps: &[Id],
    a: Id,
    b: Id,
    c: Id,
    p: &Sequent,
    q: &Sequent,
) -> Result<Option<Sequent>, AllocError>
    requires holds { S.Signature.holds sig.now table.old }
    requires hyps { AllKnown table.old hyps.now }
    requires params { AllKnown table.old (a ∷ b ∷ c ∷ []) }
    requires premises { AreSequents (S.Signature.declares sig.now table.old) table.old
        (p.now ∷ q.now ∷ []) }
    requires kept { AreKept (S.Signature.declares sig.now table.old) table.old kept.old }
    ensures exact { let sig = S.Signature.declares sig.now table.old in
        IfOk result (IsRuleAnswer ULE_TRANS sig table.old table.new hyps.now
        (a ∷ b ∷ c ∷ []) (p.now ∷ q.now ∷ [])) }
    ensures extends { Extends table.old table.new }
    ensures kept { AreKept (S.Signature.declares sig.now table.new) table.new kept.new }
{
    by_rule(
        alloc,
        table,
        sig,
        kept,
        hyps,
        ULE_TRANS,
        &[a, b, c],
        &[p, q],
    )
}

/// Proves that a word less than another is at most the other.
///
/// `ult_ule a b ; (ult a b) |- (ule a b)`
pub fn ult_ule<S: Known>(
    alloc: Global,
    table: &mut Table,
    sig: &S,
    kept: &mut Kept,
    hyps: &[Id],
    a: Id,
    b: Id,
    p: &Sequent,
) -> Result<Option<Sequent>, AllocError>
    requires holds { S.Signature.holds sig.now table.old }
    requires hyps { AllKnown table.old hyps.now }
    requires params { AllKnown table.old (a ∷ b ∷ []) }
    requires premises { AreSequents (S.Signature.declares sig.now table.old) table.old
        (p.now ∷ []) }
    requires kept { AreKept (S.Signature.declares sig.now table.old) table.old kept.old }
    ensures exact { let sig = S.Signature.declares sig.now table.old in
        IfOk result (IsRuleAnswer ULT_ULE sig table.old table.new hyps.now
        (a ∷ b ∷ []) (p.now ∷ [])) }
    ensures extends { Extends table.old table.new }
    ensures kept { AreKept (S.Signature.declares sig.now table.new) table.new kept.new }
{
    by_rule(alloc, table, sig, kept, hyps, ULT_ULE, &[a, b], &[p])
}

/// Proves "less than" from "less than" and then "at most", through a third word.
///
/// `lt_le a b c ; (ult a b), (ule b c) |- (ult a c)`
pub fn lt_le<S: Known>(
    alloc: Global,
    table: &mut Table,
    sig: &S,
    kept: &mut Kept,
    hyps: &[Id],
    a: Id,
    b: Id,
    c: Id,
    p: &Sequent,
    q: &Sequent,
) -> Result<Option<Sequent>, AllocError>
    requires holds { S.Signature.holds sig.now table.old }
    requires hyps { AllKnown table.old hyps.now }
    requires params { AllKnown table.old (a ∷ b ∷ c ∷ []) }
    requires premises { AreSequents (S.Signature.declares sig.now table.old) table.old
        (p.now ∷ q.now ∷ []) }
    requires kept { AreKept (S.Signature.declares sig.now table.old) table.old kept.old }
    ensures exact { let sig = S.Signature.declares sig.now table.old in
        IfOk result (IsRuleAnswer LT_LE sig table.old table.new hyps.now
        (a ∷ b ∷ c ∷ []) (p.now ∷ q.now ∷ [])) }
    ensures extends { Extends table.old table.new }
    ensures kept { AreKept (S.Signature.declares sig.now table.new) table.new kept.new }
{
    by_rule(alloc, table, sig, kept, hyps, LT_LE, &[a, b, c], &[p, q])
}

/// Proves "less than" from "at most" and then "less than", through a third word.
///
/// `le_lt a b c ; (ule a b), (ult b c) |- (ult a c)`
pub fn le_lt<S: Known>(
    alloc: Global,
    table: &mut Table,
    sig: &S,
    kept: &mut Kept,
    hyps: &[Id],
    a: Id,
    b: Id,
    c: Id,
    p: &Sequent,
    q: &Sequent,
) -> Result<Option<Sequent>, AllocError>
    requires holds { S.Signature.holds sig.now table.old }
    requires hyps { AllKnown table.old hyps.now }
    requires params { AllKnown table.old (a ∷ b ∷ c ∷ []) }
    requires premises { AreSequents (S.Signature.declares sig.now table.old) table.old
        (p.now ∷ q.now ∷ []) }
    requires kept { AreKept (S.Signature.declares sig.now table.old) table.old kept.old }
    ensures exact { let sig = S.Signature.declares sig.now table.old in
        IfOk result (IsRuleAnswer LE_LT sig table.old table.new hyps.now
        (a ∷ b ∷ c ∷ []) (p.now ∷ q.now ∷ [])) }
    ensures extends { Extends table.old table.new }
    ensures kept { AreKept (S.Signature.declares sig.now table.new) table.new kept.new }
{
    by_rule(alloc, table, sig, kept, hyps, LE_LT, &[a, b, c], &[p, q])
}

/// Proves that a word less than another is at most the other minus 1.
///
/// `lt_pred a b ; (ult a b) |- (ule a (sub b 1))`
pub fn lt_pred<S: Known>(
    alloc: Global,
    table: &mut Table,
    sig: &S,
    kept: &mut Kept,
    hyps: &[Id],
    a: Id,
    b: Id,
    p: &Sequent,
) -> Result<Option<Sequent>, AllocError>
    requires holds { S.Signature.holds sig.now table.old }
    requires hyps { AllKnown table.old hyps.now }
    requires params { AllKnown table.old (a ∷ b ∷ []) }
    requires premises { AreSequents (S.Signature.declares sig.now table.old) table.old
        (p.now ∷ []) }
    requires kept { AreKept (S.Signature.declares sig.now table.old) table.old kept.old }
    ensures exact { let sig = S.Signature.declares sig.now table.old in
        IfOk result (IsRuleAnswer LT_PRED sig table.old table.new hyps.now
        (a ∷ b ∷ []) (p.now ∷ [])) }
    ensures extends { Extends table.old table.new }
    ensures kept { AreKept (S.Signature.declares sig.now table.new) table.new kept.new }
{
    by_rule(alloc, table, sig, kept, hyps, LT_PRED, &[a, b], &[p])
}

/// Proves that two words that are at most each other are equal.
///
/// `le_anti a b ; (ule a b), (ule b a) |- (eq a b)`
pub fn le_anti<S: Known>(
    alloc: Global,
    table: &mut Table,
    sig: &S,
    kept: &mut Kept,
    hyps: &[Id],
    a: Id,
    b: Id,
    p: &Sequent,
    q: &Sequent,
) -> Result<Option<Sequent>, AllocError>
    requires holds { S.Signature.holds sig.now table.old }
    requires hyps { AllKnown table.old hyps.now }
    requires params { AllKnown table.old (a ∷ b ∷ []) }
    requires premises { AreSequents (S.Signature.declares sig.now table.old) table.old
        (p.now ∷ q.now ∷ []) }
    requires kept { AreKept (S.Signature.declares sig.now table.old) table.old kept.old }
    ensures exact { let sig = S.Signature.declares sig.now table.old in
        IfOk result (IsRuleAnswer LE_ANTI sig table.old table.new hyps.now
        (a ∷ b ∷ []) (p.now ∷ q.now ∷ [])) }
    ensures extends { Extends table.old table.new }
    ensures kept { AreKept (S.Signature.declares sig.now table.new) table.new kept.new }
{
    by_rule(alloc, table, sig, kept, hyps, LE_ANTI, &[a, b], &[p, q])
}

/// Proves that a word that isn't less than another is at least the other.
///
/// `not_lt a b ; (not (ult a b)) |- (ule b a)`
pub fn not_lt<S: Known>(
    alloc: Global,
    table: &mut Table,
    sig: &S,
    kept: &mut Kept,
    hyps: &[Id],
    a: Id,
    b: Id,
    p: &Sequent,
) -> Result<Option<Sequent>, AllocError>
    requires holds { S.Signature.holds sig.now table.old }
    requires hyps { AllKnown table.old hyps.now }
    requires params { AllKnown table.old (a ∷ b ∷ []) }
    requires premises { AreSequents (S.Signature.declares sig.now table.old) table.old
        (p.now ∷ []) }
    requires kept { AreKept (S.Signature.declares sig.now table.old) table.old kept.old }
    ensures exact { let sig = S.Signature.declares sig.now table.old in
        IfOk result (IsRuleAnswer NOT_LT sig table.old table.new hyps.now
        (a ∷ b ∷ []) (p.now ∷ [])) }
    ensures extends { Extends table.old table.new }
    ensures kept { AreKept (S.Signature.declares sig.now table.new) table.new kept.new }
{
    by_rule(alloc, table, sig, kept, hyps, NOT_LT, &[a, b], &[p])
}

/// Proves that no word is less than itself.
///
/// `lt_irr a ; (ult a a) |- ff`
pub fn lt_irr<S: Known>(
    alloc: Global,
    table: &mut Table,
    sig: &S,
    kept: &mut Kept,
    hyps: &[Id],
    a: Id,
    p: &Sequent,
) -> Result<Option<Sequent>, AllocError>
    requires holds { S.Signature.holds sig.now table.old }
    requires hyps { AllKnown table.old hyps.now }
    requires params { AllKnown table.old (a ∷ []) }
    requires premises { AreSequents (S.Signature.declares sig.now table.old) table.old
        (p.now ∷ []) }
    requires kept { AreKept (S.Signature.declares sig.now table.old) table.old kept.old }
    ensures exact { let sig = S.Signature.declares sig.now table.old in
        IfOk result (IsRuleAnswer LT_IRR sig table.old table.new hyps.now
        (a ∷ []) (p.now ∷ [])) }
    ensures extends { Extends table.old table.new }
    ensures kept { AreKept (S.Signature.declares sig.now table.new) table.new kept.new }
{
    by_rule(alloc, table, sig, kept, hyps, LT_IRR, &[a], &[p])
}

/// Proves that sums keep the order if the greater one doesn't wrap.
///
/// `add_le a b c d ; (ule a c), (ule b d), (ule c (add c d)) |- (ule (add a b) (add c d))`
pub fn add_le<S: Known>(
    alloc: Global,
    table: &mut Table,
    sig: &S,
    kept: &mut Kept,
    hyps: &[Id],
    a: Id,
    b: Id,
    c: Id,
    d: Id,
    p: &Sequent,
    q: &Sequent,
    r: &Sequent,
) -> Result<Option<Sequent>, AllocError>
    requires holds { S.Signature.holds sig.now table.old }
    requires hyps { AllKnown table.old hyps.now }
    requires params { AllKnown table.old (a ∷ b ∷ c ∷ d ∷ []) }
    requires premises { AreSequents (S.Signature.declares sig.now table.old) table.old
        (p.now ∷ q.now ∷ r.now ∷ []) }
    requires kept { AreKept (S.Signature.declares sig.now table.old) table.old kept.old }
    ensures exact { let sig = S.Signature.declares sig.now table.old in
        IfOk result (IsRuleAnswer ADD_LE sig table.old table.new hyps.now
        (a ∷ b ∷ c ∷ d ∷ []) (p.now ∷ q.now ∷ r.now ∷ [])) }
    ensures extends { Extends table.old table.new }
    ensures kept { AreKept (S.Signature.declares sig.now table.new) table.new kept.new }
{
    by_rule(
        alloc,
        table,
        sig,
        kept,
        hyps,
        ADD_LE,
        &[a, b, c, d],
        &[p, q, r],
    )
}
