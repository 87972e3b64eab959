//! The rules of sums, differences, bits and multiples of 8.
//!
//! Each function returns the sequent of its rule's conclusion exactly if the parameters and the
//! premises have the rule's form and its term checks, else None. Errors: out of memory alone; each
//! id keeps its tree.

ghost use Rattle.std.specs.Prelude.{◌≡◌, [], ◌∷◌, IfOk};
ghost use Rattle.term_table.specs.Table.{AllKnown, Extends};
ghost use Rattle.lf_check.specs.Kept.{AreKept};
ghost use Rattle.lf_sequents.specs.Sequents.{AreSequents};
ghost use Rattle.lf_sequents.specs.Answers.{IsRuleAnswer};
ghost use Rattle.lf_signature.specs.declared.numbers.TheConstants.{ADD_AL, ADD_ASSOC, ADD_COMM, ADD_ZERO, AND_ASSOC, AND_COMM, AND_LE, AND_ZERO, BIS_ZERO, BIS_ZERO_L, SLL_AL, SUB_ADD, SUB_NEG};

use lf_check::Kept;
use lf_sequents::{Sequent, by_rule};
use lf_signature::Known;
use lf_signature::numbers::{
    ADD_AL, ADD_ASSOC, ADD_COMM, ADD_ZERO, AND_ASSOC, AND_COMM, AND_LE, AND_ZERO, BIS_ZERO,
    BIS_ZERO_L, SLL_AL, SUB_ADD, SUB_NEG,
};
use std::alloc::{AllocError, Global};
use term_table::{Id, Table};

/// Proves that sums commute.
///
/// `add_comm a b ; |- (eq (add a b) (add b a))`
pub fn add_comm<S: Known>(
    alloc: Global,
    table: &mut Table,
    sig: &S,
    kept: &mut Kept,
    hyps: &[Id],
    a: Id,
    b: Id,
) -> Result<Option<Sequent>, AllocError>
    requires holds { S.Signature.holds sig.now table.old }
    requires hyps { AllKnown table.old hyps.now }
    requires params { AllKnown table.old (a ∷ b ∷ []) }
    requires kept { AreKept (S.Signature.declares sig.now table.old) table.old kept.old }
    ensures exact { let sig = S.Signature.declares sig.now table.old in
        IfOk result (IsRuleAnswer ADD_COMM sig table.old table.new hyps.now
        (a ∷ b ∷ []) []) }
    ensures extends { Extends table.old table.new }
    ensures kept { AreKept (S.Signature.declares sig.now table.new) table.new kept.new }
{
    by_rule(alloc, table, sig, kept, hyps, ADD_COMM, &[a, b], &[])
}

/// Proves that sums associate.
///
/// `add_assoc a b c ; |- (eq (add (add a b) c) (add a (add b c)))`
pub fn add_assoc<S: Known>(
    alloc: Global,
    table: &mut Table,
    sig: &S,
    kept: &mut Kept,
    hyps: &[Id],
    a: Id,
    b: Id,
    c: Id,
) -> Result<Option<Sequent>, AllocError>
    requires holds { S.Signature.holds sig.now table.old }
    requires hyps { AllKnown table.old hyps.now }
    requires params { AllKnown table.old (a ∷ b ∷ c ∷ []) }
    requires kept { AreKept (S.Signature.declares sig.now table.old) table.old kept.old }
    ensures exact { let sig = S.Signature.declares sig.now table.old in
        IfOk result (IsRuleAnswer ADD_ASSOC sig table.old table.new hyps.now
        (a ∷ b ∷ c ∷ []) []) }
    ensures extends { Extends table.old table.new }
    ensures kept { AreKept (S.Signature.declares sig.now table.new) table.new kept.new }
{
    by_rule(alloc, table, sig, kept, hyps, ADD_ASSOC, &[a, b, c], &[])
}

/// Proves that adding 0 changes nothing.
///
/// `add_zero a ; |- (eq (add a 0) a)`
pub fn add_zero<S: Known>(
    alloc: Global,
    table: &mut Table,
    sig: &S,
    kept: &mut Kept,
    hyps: &[Id],
    a: Id,
) -> Result<Option<Sequent>, AllocError>
    requires holds { S.Signature.holds sig.now table.old }
    requires hyps { AllKnown table.old hyps.now }
    requires params { AllKnown table.old (a ∷ []) }
    requires kept { AreKept (S.Signature.declares sig.now table.old) table.old kept.old }
    ensures exact { let sig = S.Signature.declares sig.now table.old in
        IfOk result (IsRuleAnswer ADD_ZERO sig table.old table.new hyps.now
        (a ∷ []) []) }
    ensures extends { Extends table.old table.new }
    ensures kept { AreKept (S.Signature.declares sig.now table.new) table.new kept.new }
{
    by_rule(alloc, table, sig, kept, hyps, ADD_ZERO, &[a], &[])
}

/// Proves that subtracting a word and adding it again changes nothing.
///
/// `sub_add a b ; |- (eq (add (sub a b) b) a)`
pub fn sub_add<S: Known>(
    alloc: Global,
    table: &mut Table,
    sig: &S,
    kept: &mut Kept,
    hyps: &[Id],
    a: Id,
    b: Id,
) -> Result<Option<Sequent>, AllocError>
    requires holds { S.Signature.holds sig.now table.old }
    requires hyps { AllKnown table.old hyps.now }
    requires params { AllKnown table.old (a ∷ b ∷ []) }
    requires kept { AreKept (S.Signature.declares sig.now table.old) table.old kept.old }
    ensures exact { let sig = S.Signature.declares sig.now table.old in
        IfOk result (IsRuleAnswer SUB_ADD sig table.old table.new hyps.now
        (a ∷ b ∷ []) []) }
    ensures extends { Extends table.old table.new }
    ensures kept { AreKept (S.Signature.declares sig.now table.new) table.new kept.new }
{
    by_rule(alloc, table, sig, kept, hyps, SUB_ADD, &[a, b], &[])
}

/// Proves that a difference is a sum with the negated word.
///
/// `sub_neg a b ; |- (eq (sub a b) (add a (sub 0 b)))`
pub fn sub_neg<S: Known>(
    alloc: Global,
    table: &mut Table,
    sig: &S,
    kept: &mut Kept,
    hyps: &[Id],
    a: Id,
    b: Id,
) -> Result<Option<Sequent>, AllocError>
    requires holds { S.Signature.holds sig.now table.old }
    requires hyps { AllKnown table.old hyps.now }
    requires params { AllKnown table.old (a ∷ b ∷ []) }
    requires kept { AreKept (S.Signature.declares sig.now table.old) table.old kept.old }
    ensures exact { let sig = S.Signature.declares sig.now table.old in
        IfOk result (IsRuleAnswer SUB_NEG sig table.old table.new hyps.now
        (a ∷ b ∷ []) []) }
    ensures extends { Extends table.old table.new }
    ensures kept { AreKept (S.Signature.declares sig.now table.new) table.new kept.new }
{
    by_rule(alloc, table, sig, kept, hyps, SUB_NEG, &[a, b], &[])
}

/// Proves that bitwise and commutes.
///
/// `and_comm a b ; |- (eq (band a b) (band b a))`
pub fn and_comm<S: Known>(
    alloc: Global,
    table: &mut Table,
    sig: &S,
    kept: &mut Kept,
    hyps: &[Id],
    a: Id,
    b: Id,
) -> Result<Option<Sequent>, AllocError>
    requires holds { S.Signature.holds sig.now table.old }
    requires hyps { AllKnown table.old hyps.now }
    requires params { AllKnown table.old (a ∷ b ∷ []) }
    requires kept { AreKept (S.Signature.declares sig.now table.old) table.old kept.old }
    ensures exact { let sig = S.Signature.declares sig.now table.old in
        IfOk result (IsRuleAnswer AND_COMM sig table.old table.new hyps.now
        (a ∷ b ∷ []) []) }
    ensures extends { Extends table.old table.new }
    ensures kept { AreKept (S.Signature.declares sig.now table.new) table.new kept.new }
{
    by_rule(alloc, table, sig, kept, hyps, AND_COMM, &[a, b], &[])
}

/// Proves that bitwise and associates.
///
/// `and_assoc a b c ; |- (eq (band (band a b) c) (band a (band b c)))`
pub fn and_assoc<S: Known>(
    alloc: Global,
    table: &mut Table,
    sig: &S,
    kept: &mut Kept,
    hyps: &[Id],
    a: Id,
    b: Id,
    c: Id,
) -> Result<Option<Sequent>, AllocError>
    requires holds { S.Signature.holds sig.now table.old }
    requires hyps { AllKnown table.old hyps.now }
    requires params { AllKnown table.old (a ∷ b ∷ c ∷ []) }
    requires kept { AreKept (S.Signature.declares sig.now table.old) table.old kept.old }
    ensures exact { let sig = S.Signature.declares sig.now table.old in
        IfOk result (IsRuleAnswer AND_ASSOC sig table.old table.new hyps.now
        (a ∷ b ∷ c ∷ []) []) }
    ensures extends { Extends table.old table.new }
    ensures kept { AreKept (S.Signature.declares sig.now table.new) table.new kept.new }
{
    by_rule(alloc, table, sig, kept, hyps, AND_ASSOC, &[a, b, c], &[])
}

/// Proves that bitwise and with 0 is 0.
///
/// `and_zero a ; |- (eq (band a 0) 0)`
pub fn and_zero<S: Known>(
    alloc: Global,
    table: &mut Table,
    sig: &S,
    kept: &mut Kept,
    hyps: &[Id],
    a: Id,
) -> Result<Option<Sequent>, AllocError>
    requires holds { S.Signature.holds sig.now table.old }
    requires hyps { AllKnown table.old hyps.now }
    requires params { AllKnown table.old (a ∷ []) }
    requires kept { AreKept (S.Signature.declares sig.now table.old) table.old kept.old }
    ensures exact { let sig = S.Signature.declares sig.now table.old in
        IfOk result (IsRuleAnswer AND_ZERO sig table.old table.new hyps.now
        (a ∷ []) []) }
    ensures extends { Extends table.old table.new }
    ensures kept { AreKept (S.Signature.declares sig.now table.new) table.new kept.new }
{
    by_rule(alloc, table, sig, kept, hyps, AND_ZERO, &[a], &[])
}

/// Proves that bitwise and is at most its right operand.
///
/// `and_le a b ; |- (ule (band a b) b)`
pub fn and_le<S: Known>(
    alloc: Global,
    table: &mut Table,
    sig: &S,
    kept: &mut Kept,
    hyps: &[Id],
    a: Id,
    b: Id,
) -> Result<Option<Sequent>, AllocError>
    requires holds { S.Signature.holds sig.now table.old }
    requires hyps { AllKnown table.old hyps.now }
    requires params { AllKnown table.old (a ∷ b ∷ []) }
    requires kept { AreKept (S.Signature.declares sig.now table.old) table.old kept.old }
    ensures exact { let sig = S.Signature.declares sig.now table.old in
        IfOk result (IsRuleAnswer AND_LE sig table.old table.new hyps.now
        (a ∷ b ∷ []) []) }
    ensures extends { Extends table.old table.new }
    ensures kept { AreKept (S.Signature.declares sig.now table.new) table.new kept.new }
{
    by_rule(alloc, table, sig, kept, hyps, AND_LE, &[a, b], &[])
}

/// Proves that bitwise or with 0 on the right changes nothing.
///
/// `bis_zero a ; |- (eq (bis a 0) a)`
pub fn bis_zero<S: Known>(
    alloc: Global,
    table: &mut Table,
    sig: &S,
    kept: &mut Kept,
    hyps: &[Id],
    a: Id,
) -> Result<Option<Sequent>, AllocError>
    requires holds { S.Signature.holds sig.now table.old }
    requires hyps { AllKnown table.old hyps.now }
    requires params { AllKnown table.old (a ∷ []) }
    requires kept { AreKept (S.Signature.declares sig.now table.old) table.old kept.old }
    ensures exact { let sig = S.Signature.declares sig.now table.old in
        IfOk result (IsRuleAnswer BIS_ZERO sig table.old table.new hyps.now
        (a ∷ []) []) }
    ensures extends { Extends table.old table.new }
    ensures kept { AreKept (S.Signature.declares sig.now table.new) table.new kept.new }
{
    by_rule(alloc, table, sig, kept, hyps, BIS_ZERO, &[a], &[])
}

/// Proves that bitwise or with 0 on the left changes nothing.
///
/// `bis_zero_l a ; |- (eq (bis 0 a) a)`
pub fn bis_zero_l<S: Known>(
    alloc: Global,
    table: &mut Table,
    sig: &S,
    kept: &mut Kept,
    hyps: &[Id],
    a: Id,
) -> Result<Option<Sequent>, AllocError>
    requires holds { S.Signature.holds sig.now table.old }
    requires hyps { AllKnown table.old hyps.now }
    requires params { AllKnown table.old (a ∷ []) }
    requires kept { AreKept (S.Signature.declares sig.now table.old) table.old kept.old }
    ensures exact { let sig = S.Signature.declares sig.now table.old in
        IfOk result (IsRuleAnswer BIS_ZERO_L sig table.old table.new hyps.now
        (a ∷ []) []) }
    ensures extends { Extends table.old table.new }
    ensures kept { AreKept (S.Signature.declares sig.now table.new) table.new kept.new }
{
    by_rule(alloc, table, sig, kept, hyps, BIS_ZERO_L, &[a], &[])
}

/// Proves that the sum of two multiples of 8 is a multiple of 8.
///
/// `add_al a b ; (eq (band a 7) 0), (eq (band b 7) 0) |- (eq (band (add a b) 7) 0)`
pub fn add_al<S: Known>(
    alloc: Global,
    table: &mut Table,
    sig: &S,
    kept: &mut Kept,
    hyps: &[Id],
    a: Id,
    b: Id,
    p: &Sequent,
    q: &Sequent,
) -> Result<Option<Sequent>, AllocError>
    requires holds { S.Signature.holds sig.now table.old }
    requires hyps { AllKnown table.old hyps.now }
    requires params { AllKnown table.old (a ∷ b ∷ []) }
    requires premises { AreSequents (S.Signature.declares sig.now table.old) table.old
        (p.now ∷ q.now ∷ []) }
    requires kept { AreKept (S.Signature.declares sig.now table.old) table.old kept.old }
    ensures exact { let sig = S.Signature.declares sig.now table.old in
        IfOk result (IsRuleAnswer ADD_AL sig table.old table.new hyps.now
        (a ∷ b ∷ []) (p.now ∷ q.now ∷ [])) }
    ensures extends { Extends table.old table.new }
    ensures kept { AreKept (S.Signature.declares sig.now table.new) table.new kept.new }
{
    by_rule(alloc, table, sig, kept, hyps, ADD_AL, &[a, b], &[p, q])
}

/// Proves that a word shifted left by 3 is a multiple of 8.
///
/// `sll_al a ; |- (eq (band (sll a 3) 7) 0)`
pub fn sll_al<S: Known>(
    alloc: Global,
    table: &mut Table,
    sig: &S,
    kept: &mut Kept,
    hyps: &[Id],
    a: Id,
) -> Result<Option<Sequent>, AllocError>
    requires holds { S.Signature.holds sig.now table.old }
    requires hyps { AllKnown table.old hyps.now }
    requires params { AllKnown table.old (a ∷ []) }
    requires kept { AreKept (S.Signature.declares sig.now table.old) table.old kept.old }
    ensures exact { let sig = S.Signature.declares sig.now table.old in
        IfOk result (IsRuleAnswer SLL_AL sig table.old table.new hyps.now
        (a ∷ []) []) }
    ensures extends { Extends table.old table.new }
    ensures kept { AreKept (S.Signature.declares sig.now table.new) table.new kept.new }
{
    by_rule(alloc, table, sig, kept, hyps, SLL_AL, &[a], &[])
}
