//! Theorems about lemmas; their functions run nothing.

ghost use Rattle.std.specs.Prelude.{◌≡◌, ◌↔◌, ℕ, true, Option, List, [], length, take, ◌∷◌, ◌++◌};
ghost use Rattle.std.specs.Prelude.{◌⊎◌};
ghost use Rattle.term_table.specs.Tree.{Tree, Const, fits, shift};
ghost use Rattle.term_table.specs.Table.{IsSmall};
ghost use Rattle.lf_signature.specs.Terms.{form};
ghost use Rattle.lf_signature.specs.Typing.{Checks};
ghost use Rattle.lf_signature.specs.Constants.{declared};
ghost use Rattle.lf_signature.specs.declared.editions.WordSignature.{WordSignature};
ghost use Rattle.lf_lemmas.specs.Lemmas.{formulas_of, proofs_of, with_lemmas, AreFormulas};
ghost use Rattle.lf_lemmas.specs.WrittenOut.{cites_below, inlined, written_out};
ghost use Rattle.lf_lemmas.specs.Checking.{LemmasCheck, AllProve, CiteBackwards, CiteNone, AllFit};
ghost use Rattle.lf_lemmas.specs.Checking.{ChecksWithLemmas, ChecksWrittenOut};
ghost use Rattle.lf_lemmas.specs.Orderly.{AdmitsLemmas};
ghost use Rattle.term_table.specs.Subst.{Simple, erase, HSub};
ghost use Rattle.lf_signature.specs.Simply.{simply, erased};
ghost use Rattle.lf_lemmas.specs.Overflow.{Overflows, HasOneResult};

/// States that lemmas add no proving power. Over a signature that admits lemmas, take lemmas whose
/// formulas are formulas, and a proof of the formula `G`. Their proofs check with the lemmas
/// exactly if they check with all lemmas inlined (`written_out`). Inlining changes no formula, and
/// if lemmas cite earlier ones alone, no citation is left (`same_formulas`, `none_left`,
/// `nothing_left`). Each signature of word arithmetic admits lemmas (`words`), and the trees of a
/// table fit (`fit`).
///
/// For a caller that checks lemmas by number: a term checks with the lemmas below `j` exactly if it
/// checks with all lemmas and cites those below `j` alone (`part`). So the proofs of all lemmas
/// check, each with those before it, exactly if they check over the one signature with all and cite
/// backwards (`at_once`).
pub fn laws()
    ensures written_out { (sig : Const → Option Tree) (lemmas : List (Tree × Tree)) (t G : Tree) →
        AdmitsLemmas sig → AreFormulas sig (formulas_of lemmas) → AllFit lemmas →
        Checks sig [] G form →
        ChecksWithLemmas sig lemmas t G ↔ ChecksWrittenOut sig lemmas t G }
    ensures same_formulas { (lemmas : List (Tree × Tree)) →
        formulas_of (written_out lemmas) ≡ formulas_of lemmas }
    ensures none_left { (lemmas : List (Tree × Tree)) → CiteBackwards lemmas →
        CiteNone (written_out lemmas) }
    ensures nothing_left { (lemmas : List (Tree × Tree)) (t : Tree) → CiteBackwards lemmas →
        cites_below (length lemmas) t ≡ true →
        cites_below 0 (inlined (proofs_of (written_out lemmas)) t) ≡ true }
    ensures words { (s : WordSignature) → AdmitsLemmas (declared s) }
    ensures fit { (t : Tree) → IsSmall t → fits t ≡ true }
    ensures part { (sig : Const → Option Tree) (forms : List Tree) (j : ℕ) (ctx : List Tree)
        (t a : Tree) → Checks (with_lemmas sig (take j forms)) ctx t a
        ↔ (Checks (with_lemmas sig forms) ctx t a × (cites_below j t ≡ true)) }
    ensures at_once { (sig : Const → Option Tree) (lemmas : List (Tree × Tree)) →
        LemmasCheck sig lemmas
        ↔ (AllProve (with_lemmas sig (formulas_of lemmas)) lemmas × CiteBackwards lemmas) }
{}

/// States that substitution on well-typed input has exactly one result. Let `m` check against `a`
/// in a context, and `n` against `b` in that context extended by a variable of type `a` and then by
/// the types `inner`. Then `m` put for that variable in `n` has exactly one result, which checks
/// against the simple type of `b`, unless a variable would reach 2 ^ 32 (`typed`). The theorem
/// doesn't say that the result checks against the substituted type. If a variable would reach 2 ^
/// 32, there is no result (`overflow`), so "unless" is exact.
pub fn typed_laws()
    ensures typed { (sig : Const → Option Tree) (ctx inner : List Tree) (m n a b : Tree) →
        Checks sig ctx m a → Checks sig (inner ++ a ∷ ctx) n b →
        HasOneResult (simply sig) (erased (inner ++ ctx)) (erase a) (shift (length inner) 0 m)
        (length inner) n (erase b)
        ⊎ Overflows (erase a) (shift (length inner) 0 m) (length inner) n }
    ensures overflow { (s : Simple) (m : Tree) (x : ℕ) (n : Tree) → Overflows s m x n →
        (out : Tree) → HSub s m x n out → ⊥ }
{}
