//! The rules of the compare instructions, each for five pairs of operator and relation.
//!
//! Each function returns the sequent of its rule's conclusion exactly if the parameters and the
//! premises have the rule's form and its term checks, else None. Errors: out of memory alone; each
//! id keeps its tree.

ghost use Rattle.std.specs.Prelude.{◌≡◌, ◌≤◌, [], ◌∷◌, IfOk};
ghost use Rattle.term_table.specs.Table.{AllKnown, Extends};
ghost use Rattle.lf_check.specs.Kept.{AreKept};
ghost use Rattle.lf_sequents.specs.Sequents.{AreSequents};
ghost use Rattle.proof_kit.specs.Pairs.{of_pair, IsPairAnswer};
ghost use Rattle.lf_signature.specs.declared.numbers.TheConstants.{CMP_LE1, CMP_NO, CMP_YES};

use lf_check::Kept;
use lf_sequents::{Sequent, by_rule};
use lf_signature::Known;
use lf_signature::numbers::{CMP_LE1, CMP_NO, CMP_YES};
use std::alloc::{AllocError, Global};
use term_table::{Id, Table};

/// The number of the rule of a pair, the first pair's being given.
fn of_pair(first: u32, pair: u32) -> Option<u32>
    requires { first ≤ 83 }
    ensures { result ≡ of_pair first pair }
{
    if pair < 5 { Some(first + pair) } else { None }
}

/// Proves a relation from a compare instruction's result that isn't 0.
///
/// `cmp_yes a b ; (not (eq (o a b) 0)) |- (p a b)`
///
/// `pair` is 0 to 4, for cmpeq and eq, cmplt and slt, cmple and sle, cmpult and ult, cmpule and
/// ule; a greater `pair` doesn't have the rule's form.
pub fn cmp_yes<S: Known>(
    alloc: Global,
    table: &mut Table,
    sig: &S,
    kept: &mut Kept,
    hyps: &[Id],
    pair: u32,
    a: Id,
    b: Id,
    p: &Sequent,
) -> Result<Option<Sequent>, AllocError>
    requires holds { S.Signature.holds sig.now table.old }
    requires hyps { AllKnown table.old hyps.now }
    requires params { AllKnown table.old (a ∷ b ∷ []) }
    requires premises { AreSequents (S.Signature.declares sig.now table.old) table.old
        (p.now ∷ []) }
    requires kept { AreKept (S.Signature.declares sig.now table.old) table.old kept.old }
    ensures exact { let sig = S.Signature.declares sig.now table.old in
        IfOk result (IsPairAnswer (of_pair CMP_YES pair) sig table.old table.new hyps.now
        (a ∷ b ∷ []) (p.now ∷ [])) }
    ensures extends { Extends table.old table.new }
    ensures kept { AreKept (S.Signature.declares sig.now table.new) table.new kept.new }
{
    match of_pair(CMP_YES, pair) {
        Some(number) => by_rule(alloc, table, sig, kept, hyps, number, &[a, b], &[p]),
        None => Ok(None),
    }
}

/// Proves that a relation doesn't hold from a compare instruction's result 0.
///
/// `cmp_no a b ; (eq (o a b) 0) |- (not (p a b))`
///
/// `pair` is 0 to 4, for cmpeq and eq, cmplt and slt, cmple and sle, cmpult and ult, cmpule and
/// ule; a greater `pair` doesn't have the rule's form.
pub fn cmp_no<S: Known>(
    alloc: Global,
    table: &mut Table,
    sig: &S,
    kept: &mut Kept,
    hyps: &[Id],
    pair: u32,
    a: Id,
    b: Id,
    p: &Sequent,
) -> Result<Option<Sequent>, AllocError>
    requires holds { S.Signature.holds sig.now table.old }
    requires hyps { AllKnown table.old hyps.now }
    requires params { AllKnown table.old (a ∷ b ∷ []) }
    requires premises { AreSequents (S.Signature.declares sig.now table.old) table.old
        (p.now ∷ []) }
    requires kept { AreKept (S.Signature.declares sig.now table.old) table.old kept.old }
    ensures exact { let sig = S.Signature.declares sig.now table.old in
        IfOk result (IsPairAnswer (of_pair CMP_NO pair) sig table.old table.new hyps.now
        (a ∷ b ∷ []) (p.now ∷ [])) }
    ensures extends { Extends table.old table.new }
    ensures kept { AreKept (S.Signature.declares sig.now table.new) table.new kept.new }
{
    match of_pair(CMP_NO, pair) {
        Some(number) => by_rule(alloc, table, sig, kept, hyps, number, &[a, b], &[p]),
        None => Ok(None),
    }
}

/// Proves that a compare instruction's result is at most 1.
///
/// `cmp_le1 a b ; |- (ule (o a b) 1)`
///
/// `pair` is 0 to 4, for cmpeq and eq, cmplt and slt, cmple and sle, cmpult and ult, cmpule and
/// ule; a greater `pair` doesn't have the rule's form.
pub fn cmp_le1<S: Known>(
    alloc: Global,
    table: &mut Table,
    sig: &S,
    kept: &mut Kept,
    hyps: &[Id],
    pair: u32,
    a: Id,
    b: Id,
) -> Result<Option<Sequent>, AllocError>
    requires holds { S.Signature.holds sig.now table.old }
    requires hyps { AllKnown table.old hyps.now }
    requires params { AllKnown table.old (a ∷ b ∷ []) }
    requires kept { AreKept (S.Signature.declares sig.now table.old) table.old kept.old }
    ensures exact { let sig = S.Signature.declares sig.now table.old in
        IfOk result (IsPairAnswer (of_pair CMP_LE1 pair) sig table.old table.new hyps.now
        (a ∷ b ∷ []) []) }
    ensures extends { Extends table.old table.new }
    ensures kept { AreKept (S.Signature.declares sig.now table.new) table.new kept.new }
{
    match of_pair(CMP_LE1, pair) {
        Some(number) => by_rule(alloc, table, sig, kept, hyps, number, &[a, b], &[]),
        None => Ok(None),
    }
}
