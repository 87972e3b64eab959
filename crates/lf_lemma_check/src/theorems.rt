//! Theorems about the searches' results; their functions run nothing.

ghost use Rattle.std.specs.Prelude.{◌≡◌, ◌↔◌, ℕ, Bool, true, Option, Some, None, List, [], take};
ghost use Rattle.term_table.specs.Tree.{Tree, Const};
ghost use Rattle.term_table.specs.Table.{TableView, Extends};
ghost use Rattle.lf_signature.specs.Terms.{form, pf};
ghost use Rattle.lf_signature.specs.Typing.{Checks};
ghost use Rattle.lf_check.specs.Kept.{AreKept};
ghost use Rattle.lf_check.specs.declared.judgements.Kept.{Kept};
ghost use Rattle.lf_lemmas.specs.Lemmas.{formulas_of, with_lemmas, HasNoLemmas, AreFormulas};
ghost use Rattle.lf_lemmas.specs.Tables.{lemmas_in, LemmasKnown, HoldsLemmas};
ghost use Rattle.lf_lemmas.specs.Checking.{AllProve, CiteBackwards, LemmasCheck};
ghost use Rattle.lf_lemma_check.specs.First.{first_failing, lemma_passes, cites_before};
ghost use Rattle.lf_lemma_check.specs.First.{proves_before, IsFirst};
ghost use Rattle.lf_lemma_check.specs.declared.searches.Asked.TheVariants.{Formula, Proof};

/// States what the searches' results mean. A number that is found is the number of the first lemma
/// that fails the test (`first`). None is found exactly if all formulas check against the type of
/// formulas (`formulas`), all proofs against the proofs of their formulas (`proofs`), or all proofs
/// cite earlier lemmas alone (`citations`). If all formulas check, the table holds the lemmas for a
/// signature with them, also after it has grown (`holds`). The tests are those of typing
/// (`is_formula`, `is_proof`). Each proof is tested with the lemmas before it (`unproved`,
/// `is_proof_before`), and results cached over a signature without lemmas are right with them
/// (`kept`).
pub fn laws()
    ensures first { (test : ℕ → Tree × Tree → Bool) (lemmas : List (Tree × Tree)) (n : ℕ) →
        first_failing test 0 lemmas ≡ Some n → IsFirst test lemmas n }
    ensures formulas { (sig : Const → Option Tree) (lemmas : List (Tree × Tree)) →
        (first_failing (λ n. lemma_passes sig Formula) 0 lemmas ≡ None)
        ↔ AreFormulas sig (formulas_of lemmas) }
    ensures proofs { (sig : Const → Option Tree) (lemmas : List (Tree × Tree)) →
        (first_failing (λ n. lemma_passes sig Proof) 0 lemmas ≡ None) ↔ AllProve sig lemmas }
    ensures citations { (lemmas : List (Tree × Tree)) →
        (first_failing cites_before 0 lemmas ≡ None) ↔ CiteBackwards lemmas }
    ensures holds { (sig : Const → Option Tree) (t u : TableView) (ids : List (ℕ × ℕ)) →
        HasNoLemmas sig → LemmasKnown t ids → Extends t u →
        first_failing (λ n. lemma_passes sig Formula) 0 (lemmas_in t ids) ≡ None →
        HoldsLemmas sig u ids }
    ensures is_formula { (sig : Const → Option Tree) (l : Tree × Tree) →
        (lemma_passes sig Formula l ≡ true) ↔ Checks sig [] l.0 form }
    ensures is_proof { (sig : Const → Option Tree) (l : Tree × Tree) →
        (lemma_passes sig Proof l ≡ true) ↔ Checks sig [] l.1 (pf l.0) }
    ensures unproved { (sig : Const → Option Tree) (lemmas : List (Tree × Tree)) →
        (first_failing (proves_before sig (formulas_of lemmas)) 0 lemmas ≡ None)
        ↔ LemmasCheck sig lemmas }
    ensures is_proof_before { (sig : Const → Option Tree) (forms : List Tree) (n : ℕ)
        (l : Tree × Tree) → (proves_before sig forms n l ≡ true)
        ↔ Checks (with_lemmas sig (take n forms)) [] l.1 (pf l.0) }
    ensures kept { (sig : Const → Option Tree) (t : TableView) (k : Kept) (forms : List Tree) →
        HasNoLemmas sig → AreKept sig t k → AreKept (with_lemmas sig forms) t k }
{}
