//! The rules that only the later signatures have.
//!
//! Each function returns the sequent of its rule's conclusion exactly if the signature has the
//! rule, the parameters and the premises have its form, and its term checks, else None. Errors: out
//! of memory alone; each id keeps its tree.

ghost use Rattle.std.specs.Prelude.{◌≡◌, [], ◌∷◌, IfOk};
ghost use Rattle.term_table.specs.Table.{AllKnown, Extends};
ghost use Rattle.lf_check.specs.Kept.{AreKept};
ghost use Rattle.lf_sequents.specs.Sequents.{AreSequents};
ghost use Rattle.lf_sequents.specs.Answers.{IsRuleAnswer};
ghost use Rattle.lf_signature.specs.declared.numbers.TheConstants.{BIC_DEF, BIC_LE, EXTB_LE, EXTL_LE, EXTW_LE, S4_DEF, S8_DEF, SUB_LO, XOR_SELF};

use lf_check::Kept;
use lf_sequents::{Sequent, by_rule};
use lf_signature::Known;
use lf_signature::numbers::{
    BIC_DEF, BIC_LE, EXTB_LE, EXTL_LE, EXTW_LE, S4_DEF, S8_DEF, SUB_LO, XOR_SELF,
};
use std::alloc::{AllocError, Global};
use term_table::{Id, Table};

/// Proves that exclusive or of a word with itself is 0.
///
/// `xor_self a ; |- (eq (xor a a) 0)`
pub fn xor_self<S: Known>(
    alloc: Global,
    table: &mut Table,
    sig: &S,
    kept: &mut Kept,
    hyps: &[Id],
    a: Id,
) -> Result<Option<Sequent>, AllocError>
    requires holds { S.Signature.holds sig.now table.old }
    requires hyps { AllKnown table.old hyps.now }
    requires params { AllKnown table.old (a ∷ []) }
    requires kept { AreKept (S.Signature.declares sig.now table.old) table.old kept.old }
    ensures exact { let sig = S.Signature.declares sig.now table.old in
        IfOk result (IsRuleAnswer XOR_SELF sig table.old table.new hyps.now
        (a ∷ []) []) }
    ensures extends { Extends table.old table.new }
    ensures kept { AreKept (S.Signature.declares sig.now table.new) table.new kept.new }
{
    by_rule(alloc, table, sig, kept, hyps, XOR_SELF, &[a], &[])
}

/// Proves that a word with some bits cleared is at most the word.
///
/// `bic_le a b ; |- (ule (bic a b) a)`
pub fn bic_le<S: Known>(
    alloc: Global,
    table: &mut Table,
    sig: &S,
    kept: &mut Kept,
    hyps: &[Id],
    a: Id,
    b: Id,
) -> Result<Option<Sequent>, AllocError>
    requires holds { S.Signature.holds sig.now table.old }
    requires hyps { AllKnown table.old hyps.now }
    requires params { AllKnown table.old (a ∷ b ∷ []) }
    requires kept { AreKept (S.Signature.declares sig.now table.old) table.old kept.old }
    ensures exact { let sig = S.Signature.declares sig.now table.old in
        IfOk result (IsRuleAnswer BIC_LE sig table.old table.new hyps.now
        (a ∷ b ∷ []) []) }
    ensures extends { Extends table.old table.new }
    ensures kept { AreKept (S.Signature.declares sig.now table.new) table.new kept.new }
{
    by_rule(alloc, table, sig, kept, hyps, BIC_LE, &[a, b], &[])
}

/// Proves that four times a word plus another is the sum of the word shifted by 2 and the other.
///
/// `s4_def a b ; |- (eq (s4add a b) (add (sll a 2) b))`
pub fn s4_def<S: Known>(
    alloc: Global,
    table: &mut Table,
    sig: &S,
    kept: &mut Kept,
    hyps: &[Id],
    a: Id,
    b: Id,
) -> Result<Option<Sequent>, AllocError>
    requires holds { S.Signature.holds sig.now table.old }
    requires hyps { AllKnown table.old hyps.now }
    requires params { AllKnown table.old (a ∷ b ∷ []) }
    requires kept { AreKept (S.Signature.declares sig.now table.old) table.old kept.old }
    ensures exact { let sig = S.Signature.declares sig.now table.old in
        IfOk result (IsRuleAnswer S4_DEF sig table.old table.new hyps.now
        (a ∷ b ∷ []) []) }
    ensures extends { Extends table.old table.new }
    ensures kept { AreKept (S.Signature.declares sig.now table.new) table.new kept.new }
{
    by_rule(alloc, table, sig, kept, hyps, S4_DEF, &[a, b], &[])
}

/// Proves that eight times a word plus another is the sum of the word shifted by 3 and the other.
///
/// `s8_def a b ; |- (eq (s8add a b) (add (sll a 3) b))`
pub fn s8_def<S: Known>(
    alloc: Global,
    table: &mut Table,
    sig: &S,
    kept: &mut Kept,
    hyps: &[Id],
    a: Id,
    b: Id,
) -> Result<Option<Sequent>, AllocError>
    requires holds { S.Signature.holds sig.now table.old }
    requires hyps { AllKnown table.old hyps.now }
    requires params { AllKnown table.old (a ∷ b ∷ []) }
    requires kept { AreKept (S.Signature.declares sig.now table.old) table.old kept.old }
    ensures exact { let sig = S.Signature.declares sig.now table.old in
        IfOk result (IsRuleAnswer S8_DEF sig table.old table.new hyps.now
        (a ∷ b ∷ []) []) }
    ensures extends { Extends table.old table.new }
    ensures kept { AreKept (S.Signature.declares sig.now table.new) table.new kept.new }
{
    by_rule(alloc, table, sig, kept, hyps, S8_DEF, &[a, b], &[])
}

/// Proves that a byte of a word is at most 255.
///
/// `extb_le a b ; |- (ule (extb a b) 255)`
pub fn extb_le<S: Known>(
    alloc: Global,
    table: &mut Table,
    sig: &S,
    kept: &mut Kept,
    hyps: &[Id],
    a: Id,
    b: Id,
) -> Result<Option<Sequent>, AllocError>
    requires holds { S.Signature.holds sig.now table.old }
    requires hyps { AllKnown table.old hyps.now }
    requires params { AllKnown table.old (a ∷ b ∷ []) }
    requires kept { AreKept (S.Signature.declares sig.now table.old) table.old kept.old }
    ensures exact { let sig = S.Signature.declares sig.now table.old in
        IfOk result (IsRuleAnswer EXTB_LE sig table.old table.new hyps.now
        (a ∷ b ∷ []) []) }
    ensures extends { Extends table.old table.new }
    ensures kept { AreKept (S.Signature.declares sig.now table.new) table.new kept.new }
{
    by_rule(alloc, table, sig, kept, hyps, EXTB_LE, &[a, b], &[])
}

/// Proves that two bytes of a word are at most 65,535.
///
/// `extw_le a b ; |- (ule (extw a b) 65535)`
pub fn extw_le<S: Known>(
    alloc: Global,
    table: &mut Table,
    sig: &S,
    kept: &mut Kept,
    hyps: &[Id],
    a: Id,
    b: Id,
) -> Result<Option<Sequent>, AllocError>
    requires holds { S.Signature.holds sig.now table.old }
    requires hyps { AllKnown table.old hyps.now }
    requires params { AllKnown table.old (a ∷ b ∷ []) }
    requires kept { AreKept (S.Signature.declares sig.now table.old) table.old kept.old }
    ensures exact { let sig = S.Signature.declares sig.now table.old in
        IfOk result (IsRuleAnswer EXTW_LE sig table.old table.new hyps.now
        (a ∷ b ∷ []) []) }
    ensures extends { Extends table.old table.new }
    ensures kept { AreKept (S.Signature.declares sig.now table.new) table.new kept.new }
{
    by_rule(alloc, table, sig, kept, hyps, EXTW_LE, &[a, b], &[])
}

/// Proves that four bytes of a word are at most 4,294,967,295.
///
/// `extl_le a b ; |- (ule (extl a b) 4294967295)`
pub fn extl_le<S: Known>(
    alloc: Global,
    table: &mut Table,
    sig: &S,
    kept: &mut Kept,
    hyps: &[Id],
    a: Id,
    b: Id,
) -> Result<Option<Sequent>, AllocError>
    requires holds { S.Signature.holds sig.now table.old }
    requires hyps { AllKnown table.old hyps.now }
    requires params { AllKnown table.old (a ∷ b ∷ []) }
    requires kept { AreKept (S.Signature.declares sig.now table.old) table.old kept.old }
    ensures exact { let sig = S.Signature.declares sig.now table.old in
        IfOk result (IsRuleAnswer EXTL_LE sig table.old table.new hyps.now
        (a ∷ b ∷ []) []) }
    ensures extends { Extends table.old table.new }
    ensures kept { AreKept (S.Signature.declares sig.now table.new) table.new kept.new }
{
    by_rule(alloc, table, sig, kept, hyps, EXTL_LE, &[a, b], &[])
}

/// Proves that clearing another word's bits is bitwise and with the other word's complement.
///
/// `bic_def a b ; |- (eq (bic a b) (band a (xor b MAX)))`
pub fn bic_def<S: Known>(
    alloc: Global,
    table: &mut Table,
    sig: &S,
    kept: &mut Kept,
    hyps: &[Id],
    a: Id,
    b: Id,
) -> Result<Option<Sequent>, AllocError>
    requires holds { S.Signature.holds sig.now table.old }
    requires hyps { AllKnown table.old hyps.now }
    requires params { AllKnown table.old (a ∷ b ∷ []) }
    requires kept { AreKept (S.Signature.declares sig.now table.old) table.old kept.old }
    ensures exact { let sig = S.Signature.declares sig.now table.old in
        IfOk result (IsRuleAnswer BIC_DEF sig table.old table.new hyps.now
        (a ∷ b ∷ []) []) }
    ensures extends { Extends table.old table.new }
    ensures kept { AreKept (S.Signature.declares sig.now table.new) table.new kept.new }
{
    by_rule(alloc, table, sig, kept, hyps, BIC_DEF, &[a, b], &[])
}

/// Proves that subtracting a word keeps the order if the lesser difference doesn't wrap.
///
/// `sub_lo a b c ; (ule b a), (ule c b) |- (ule (sub b c) (sub a c))`
pub fn sub_lo<S: Known>(
    alloc: Global,
    table: &mut Table,
    sig: &S,
    kept: &mut Kept,
    hyps: &[Id],
    a: Id,
    b: Id,
    c: Id,
    p: &Sequent,
    q: &Sequent,
) -> Result<Option<Sequent>, AllocError>
    requires holds { S.Signature.holds sig.now table.old }
    requires hyps { AllKnown table.old hyps.now }
    requires params { AllKnown table.old (a ∷ b ∷ c ∷ []) }
    requires premises { AreSequents (S.Signature.declares sig.now table.old) table.old
        (p.now ∷ q.now ∷ []) }
    requires kept { AreKept (S.Signature.declares sig.now table.old) table.old kept.old }
    ensures exact { let sig = S.Signature.declares sig.now table.old in
        IfOk result (IsRuleAnswer SUB_LO sig table.old table.new hyps.now
        (a ∷ b ∷ c ∷ []) (p.now ∷ q.now ∷ [])) }
    ensures extends { Extends table.old table.new }
    ensures kept { AreKept (S.Signature.declares sig.now table.new) table.new kept.new }
{
    by_rule(alloc, table, sig, kept, hyps, SUB_LO, &[a, b, c], &[p, q])
}
