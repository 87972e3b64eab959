//! Finds the first lemma whose formula or proof doesn't check.

ghost use Rattle.std.specs.Prelude.{◌≡◌, ◌<◌, ◌+◌, ◌^◌, [], length, IfOk};
ghost use Rattle.term_table.specs.Table.{IsKnown, tree_at, Extends};
ghost use Rattle.lf_signature.specs.Decide.{checks_of};
ghost use Rattle.lf_check.specs.Kept.{AreKept};
ghost use Rattle.lf_lemmas.specs.Tables.{lemmas_in, LemmasKnown};
ghost use Rattle.lf_lemma_check.specs.First.{lemma_passes, first_failing};
ghost use Rattle.hereditary_subst.specs.Limits.{SpendsResults};

use lf_check::{Exhausted, Kept, check_term_with};
use lf_signature::numbers::FORM;
use lf_signature::{Signature, pf, typing_laws};
use term_table::{Id, Node, Table};

/// Whether the term checks at the type in the empty context.
fn checks<S: Signature>(
    table: &mut Table,
    kept: &mut Kept,
    sig: &S,
    term: Id,
    a: Id,
) -> Result<bool, Exhausted>
    requires holds { S.holds sig.now table.old }
    requires term { IsKnown table.old term }
    requires a { IsKnown table.old a }
    requires kept { AreKept (S.declares sig.now table.old) table.old kept.old }
    ensures exact { let sig = S.declares sig.now table.old in IfOk result
        (λ b. b ≡ checks_of sig (tree_at table.old term) [] (tree_at table.old a)) }
    ensures extends { Extends table.old table.new }
    ensures kept { AreKept (S.declares sig.now table.new) table.new kept.new }
    ensures spends { SpendsResults table.new kept.old.memo kept.new.memo result }
{
    typing_laws();
    check_term_with(table, kept, sig, &[], term, a)
}

/// The test of a lemma.
#[derive(Clone, Copy, Debug, PartialEq, Eq)]
pub enum Asked {
    /// Its formula checks against the type of formulas.
    Formula,
    /// Its proof checks against the type of the proofs of its formula.
    Proof,
}

/// Whether it is so over `sig`, in the empty context.
fn passes<S: Signature>(
    table: &mut Table,
    kept: &mut Kept,
    sig: &S,
    asked: Asked,
    formula: Id,
    proof: Id,
) -> Result<bool, Exhausted>
    requires holds { S.holds sig.now table.old }
    requires formula { IsKnown table.old formula }
    requires proof { IsKnown table.old proof }
    requires kept { AreKept (S.declares sig.now table.old) table.old kept.old }
    ensures exact { let sig = S.declares sig.now table.old in IfOk result
        (λ b. b ≡ lemma_passes sig asked (tree_at table.old formula, tree_at table.old proof)) }
    ensures extends { Extends table.old table.new }
    ensures kept { AreKept (S.declares sig.now table.new) table.new kept.new }
    ensures spends { SpendsResults table.new kept.old.memo kept.new.memo result }
{
    match asked {
        Asked::Formula => {
            let forms = table.intern(Node::Fam(FORM))?;
            checks(table, kept, sig, formula, forms)
        }
        Asked::Proof => {
            let proofs = pf(table, formula)?;
            checks(table, kept, sig, proof, proofs)
        }
    }
}

/// The first lemma, counted from `from`, of which it isn't so.
fn failing_from<S: Signature>(
    table: &mut Table,
    kept: &mut Kept,
    sig: &S,
    asked: Asked,
    lemmas: &[(Id, Id)],
    from: u32,
) -> Result<Option<u32>, Exhausted>
    requires holds { S.holds sig.now table.old }
    requires known { LemmasKnown table.old lemmas.now }
    requires few { from + length lemmas.now < 2 ^ 32 }
    requires kept { AreKept (S.declares sig.now table.old) table.old kept.old }
    ensures exact { let test = lemma_passes (S.declares sig.now table.old) asked in IfOk result
        (λ found. found ≡ first_failing (λ n. test) from (lemmas_in table.old lemmas.now)) }
    ensures extends { Extends table.old table.new }
    ensures kept { AreKept (S.declares sig.now table.new) table.new kept.new }
    ensures spends { SpendsResults table.new kept.old.memo kept.new.memo result }
{
    match lemmas {
        [] => Ok(None),
        [first, rest @ ..] => {
            let (formula, proof) = *first;
            if !passes(table, kept, sig, asked, formula, proof)? {
                return Ok(Some(from));
            }
            failing_from(table, kept, sig, asked, rest, from + 1)
        }
    }
}

/// Returns the number of the first lemma that fails the test `asked` over `sig`: None if each
/// passes. A lemma is the id of its formula and of its proof; there are fewer than 2^32. Over a
/// signature with these lemmas each proof may cite all of them; `first_late` finds one that cites
/// itself or a later lemma. `kept` has the cached results of earlier calls on the table over the
/// signature.
///
/// Errors: out of memory, and `Exhausted::Results` past the limit of `kept`; each id keeps its
/// tree.
pub fn first_failing<S: Signature>(
    table: &mut Table,
    kept: &mut Kept,
    sig: &S,
    asked: Asked,
    lemmas: &[(Id, Id)],
) -> Result<Option<u32>, Exhausted>
    requires holds { S.holds sig.now table.old }
    requires known { LemmasKnown table.old lemmas.now }
    requires few { length lemmas.now < 2 ^ 32 }
    requires kept { AreKept (S.declares sig.now table.old) table.old kept.old }
    ensures exact { let test = lemma_passes (S.declares sig.now table.old) asked in IfOk result
        (λ found. found ≡ first_failing (λ n. test) 0 (lemmas_in table.old lemmas.now)) }
    ensures extends { Extends table.old table.new }
    ensures kept { AreKept (S.declares sig.now table.new) table.new kept.new }
    ensures spends { SpendsResults table.new kept.old.memo kept.new.memo result }
{
    failing_from(table, kept, sig, asked, lemmas, 0)
}
