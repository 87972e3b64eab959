//! The rules of the quantifiers over words and over memories.
//!
//! Each function returns the sequent of its rule's conclusion exactly if the parameters and the
//! premises have the rule's form and its term checks, else None. Errors: out of memory alone; each
//! id keeps its tree.

ghost use Rattle.std.specs.Prelude.{◌≡◌, [], ◌∷◌, IfOk};
ghost use Rattle.term_table.specs.Table.{AllKnown, Extends};
ghost use Rattle.lf_check.specs.Kept.{AreKept};
ghost use Rattle.lf_sequents.specs.Sequents.{AreSequents};
ghost use Rattle.lf_sequents.specs.Answers.{IsRuleAnswer};
ghost use Rattle.lf_signature.specs.declared.numbers.TheConstants.{ALLM_E, ALLM_I, ALL_E, ALL_I};

use lf_check::Kept;
use lf_sequents::{Sequent, by_rule};
use lf_signature::Known;
use lf_signature::numbers::{ALL_E, ALL_I, ALLM_E, ALLM_I};
use std::alloc::{AllocError, Global};
use term_table::{Id, Table};

/// Proves a formula for all words from its proof for an arbitrary word.
///
/// `all_i F ; [x] F x |- (all F)`
pub fn all_i<S: Known>(
    alloc: Global,
    table: &mut Table,
    sig: &S,
    kept: &mut Kept,
    hyps: &[Id],
    f: Id,
    p: &Sequent,
) -> Result<Option<Sequent>, AllocError>
    requires holds { S.Signature.holds sig.now table.old }
    requires hyps { AllKnown table.old hyps.now }
    requires params { AllKnown table.old (f ∷ []) }
    requires premises { AreSequents (S.Signature.declares sig.now table.old) table.old
        (p.now ∷ []) }
    requires kept { AreKept (S.Signature.declares sig.now table.old) table.old kept.old }
    ensures exact { let sig = S.Signature.declares sig.now table.old in
        IfOk result (IsRuleAnswer ALL_I sig table.old table.new hyps.now
        (f ∷ []) (p.now ∷ [])) }
    ensures extends { Extends table.old table.new }
    ensures kept { AreKept (S.Signature.declares sig.now table.new) table.new kept.new }
{
    by_rule(alloc, table, sig, kept, hyps, ALL_I, &[f], &[p])
}

/// Proves a formula for one word from the formula for all words.
///
/// `all_e F a ; (all F) |- F a`
pub fn all_e<S: Known>(
    alloc: Global,
    table: &mut Table,
    sig: &S,
    kept: &mut Kept,
    hyps: &[Id],
    f: Id,
    a: Id,
    p: &Sequent,
) -> Result<Option<Sequent>, AllocError>
    requires holds { S.Signature.holds sig.now table.old }
    requires hyps { AllKnown table.old hyps.now }
    requires params { AllKnown table.old (f ∷ a ∷ []) }
    requires premises { AreSequents (S.Signature.declares sig.now table.old) table.old
        (p.now ∷ []) }
    requires kept { AreKept (S.Signature.declares sig.now table.old) table.old kept.old }
    ensures exact { let sig = S.Signature.declares sig.now table.old in
        IfOk result (IsRuleAnswer ALL_E sig table.old table.new hyps.now
        (f ∷ a ∷ []) (p.now ∷ [])) }
    ensures extends { Extends table.old table.new }
    ensures kept { AreKept (S.Signature.declares sig.now table.new) table.new kept.new }
{
    by_rule(alloc, table, sig, kept, hyps, ALL_E, &[f, a], &[p])
}

/// Proves a formula for all memories from its proof for an arbitrary memory.
///
/// `allm_i G ; [m] G m |- (allm G)`
pub fn allm_i<S: Known>(
    alloc: Global,
    table: &mut Table,
    sig: &S,
    kept: &mut Kept,
    hyps: &[Id],
    g: Id,
    p: &Sequent,
) -> Result<Option<Sequent>, AllocError>
    requires holds { S.Signature.holds sig.now table.old }
    requires hyps { AllKnown table.old hyps.now }
    requires params { AllKnown table.old (g ∷ []) }
    requires premises { AreSequents (S.Signature.declares sig.now table.old) table.old
        (p.now ∷ []) }
    requires kept { AreKept (S.Signature.declares sig.now table.old) table.old kept.old }
    ensures exact { let sig = S.Signature.declares sig.now table.old in
        IfOk result (IsRuleAnswer ALLM_I sig table.old table.new hyps.now
        (g ∷ []) (p.now ∷ [])) }
    ensures extends { Extends table.old table.new }
    ensures kept { AreKept (S.Signature.declares sig.now table.new) table.new kept.new }
{
    by_rule(alloc, table, sig, kept, hyps, ALLM_I, &[g], &[p])
}

/// Proves a formula for one memory from the formula for all memories.
///
/// `allm_e G m ; (allm G) |- G m`
pub fn allm_e<S: Known>(
    alloc: Global,
    table: &mut Table,
    sig: &S,
    kept: &mut Kept,
    hyps: &[Id],
    g: Id,
    m: Id,
    p: &Sequent,
) -> Result<Option<Sequent>, AllocError>
    requires holds { S.Signature.holds sig.now table.old }
    requires hyps { AllKnown table.old hyps.now }
    requires params { AllKnown table.old (g ∷ m ∷ []) }
    requires premises { AreSequents (S.Signature.declares sig.now table.old) table.old
        (p.now ∷ []) }
    requires kept { AreKept (S.Signature.declares sig.now table.old) table.old kept.old }
    ensures exact { let sig = S.Signature.declares sig.now table.old in
        IfOk result (IsRuleAnswer ALLM_E sig table.old table.new hyps.now
        (g ∷ m ∷ []) (p.now ∷ [])) }
    ensures extends { Extends table.old table.new }
    ensures kept { AreKept (S.Signature.declares sig.now table.new) table.new kept.new }
{
    by_rule(alloc, table, sig, kept, hyps, ALLM_E, &[g, m], &[p])
}
