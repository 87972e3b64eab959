//! Finds the first lemma whose proof doesn't check with the lemmas before it.

ghost use Rattle.std.specs.Prelude.{◌≡◌, ◌<◌, ◌^◌, ℕ, Bool, List, length, IfOk};
ghost use Rattle.term_table.specs.Tree.{Tree};
ghost use Rattle.term_table.specs.Table.{Extends};
ghost use Rattle.lf_check.specs.Kept.{AreKept};
ghost use Rattle.lf_lemmas.specs.Lemmas.{formulas_of, with_lemmas};
ghost use Rattle.lf_lemmas.specs.Tables.{lemmas_in, LemmasKnown, HoldsLemmas};
ghost use Rattle.lf_lemma_check.specs.First.{first_failing, cites_before, proves_before};
ghost use Rattle.lf_lemma_check.specs.Inside.Joined.{checks_backwards};
ghost use Rattle.hereditary_subst.specs.Limits.{SpendsResults};

use crate::citations::first_late;
use crate::searches::{Asked, first_failing};
use lf_check::{Exhausted, Kept};
use lf_lemmas::WithLemmas;
use lf_signature::Signature;
use std::alloc::Global;
use term_table::{Id, Table};

/// The first lemma whose proof doesn't check over `sig`, or cites itself or a later one; `late` is
/// the first that does the latter.
fn failing_or_late<S: Signature>(
    table: &mut Table,
    kept: &mut Kept,
    sig: &S,
    lemmas: &[(Id, Id)],
    late: Option<u32>,
) -> Result<Option<u32>, Exhausted>
    requires holds { S.holds sig.now table.old }
    requires known { LemmasKnown table.old lemmas.now }
    requires few { length lemmas.now < 2 ^ 32 }
    requires late { late ≡ first_failing cites_before 0 (lemmas_in table.old lemmas.now) }
    requires kept { AreKept (S.declares sig.now table.old) table.old kept.old }
    ensures exact { let test : ℕ → Tree × Tree → Bool =
        checks_backwards (S.declares sig.now table.old) in
        IfOk result (λ found. found ≡ first_failing test 0 (lemmas_in table.old lemmas.now)) }
    ensures extends { Extends table.old table.new }
    ensures kept { AreKept (S.declares sig.now table.new) table.new kept.new }
    ensures spends { SpendsResults table.new kept.old.memo kept.new.memo result }
{
    match late {
        None => first_failing(table, kept, sig, Asked::Proof, lemmas),
        Some(number) => {
            let before = &lemmas[..number as usize];
            match first_failing(table, kept, sig, Asked::Proof, before)? {
                None => Ok(Some(number)),
                Some(earlier) => Ok(Some(earlier)),
            }
        }
    }
}

/// Returns the number of the first lemma whose proof doesn't check with the lemmas before it: None
/// if each proof does. A lemma is the id of its formula and of its proof; there are fewer than
/// 2^32. Each formula is a formula over `sig`, which has no lemmas. `kept` has the cached results
/// of earlier calls on the table over `sig`, and after the call results that are right over the
/// signature with these lemmas.
///
/// Errors: out of memory, and `Exhausted::Results` past the limit of `kept`; each id keeps its
/// tree.
pub fn first_unproved<S: Signature>(
    alloc: Global,
    table: &mut Table,
    kept: &mut Kept,
    sig: &S,
    lemmas: &[(Id, Id)],
) -> Result<Option<u32>, Exhausted>
    requires holds { S.holds sig.now table.old }
    requires lemmas { HoldsLemmas (S.declares sig.now table.old) table.old lemmas.now }
    requires few { length lemmas.now < 2 ^ 32 }
    requires kept { AreKept (S.declares sig.now table.old) table.old kept.old }
    ensures exact { let all : List (Tree × Tree) = lemmas_in table.old lemmas.now in
        let test : ℕ → Tree × Tree → Bool =
        proves_before (S.declares sig.now table.old) (formulas_of all) in
        IfOk result (λ found. found ≡ first_failing test 0 all) }
    ensures extends { Extends table.old table.new }
    ensures kept { let all : List (Tree × Tree) = lemmas_in table.new lemmas.now in
        AreKept (with_lemmas (S.declares sig.now table.new) (formulas_of all)) table.new kept.new }
    ensures spends { SpendsResults table.new kept.old.memo kept.new.memo result }
{
    let late = first_late(alloc, table, lemmas)?;
    let extended = WithLemmas { sig, lemmas };
    failing_or_late(table, kept, &extended, lemmas, late)
}
