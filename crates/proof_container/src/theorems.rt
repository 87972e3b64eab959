//! Theorems about the definitions; their functions run nothing.

ghost use Rattle.std.specs.Prelude.{◌≡◌, ℕ, List, ◌<◌, ◌↔◌, length, take, Ok, Err};
ghost use Rattle.term_table.specs.Tree.{Tree};
ghost use Rattle.term_table.specs.Table.{AreDifferent, tree_in};
ghost use Rattle.proof_container.specs.Contents.{Contents};
ghost use Rattle.proof_container.specs.Postorder.{entries, HasPartsFirst, AreEmitted};
ghost use Rattle.term_table.specs.Bytes.{IsBytes};
ghost use Rattle.proof_container.specs.Encoding.{EncodesContents};
ghost use Rattle.proof_container.specs.Decoding.{decoded_container};
ghost use Rattle.proof_container.specs.FieldTests.{container_tests, IsFirstFault};
ghost use Rattle.word_ops.specs.Tests.{AllPass};
ghost use Rattle.proof_container.specs.declared.fault.Flaw as flaws;
ghost use Rattle.proof_container.specs.Views.{IsCanonical, AreSame, contents_of};
ghost use Rattle.proof_container.specs.declared.container.Container.{Container};

/// States that contents have exactly one encoding, and that bytes encode at most one content, which
/// is what they are read as. Bytes encode contents exactly if they pass the tests of their fields
/// (`passes`). Reading them gives a fault exactly if it is the first of these tests that fails, in
/// both directions (`faulty`), and then they encode nothing (`nothing`). A walk lists each root, no tree twice, and each tree after its
/// children. Containers whose terms are their entries are equal if their contents are.
pub fn laws()
    ensures decided { (bytes : List ℕ) (c : Contents) →
        IsBytes bytes → (EncodesContents bytes c ↔ (decoded_container bytes ≡ Ok c)) }
    ensures passes { (bytes : List ℕ) → IsBytes bytes →
        (((c : Contents) × EncodesContents bytes c) ↔ AllPass (container_tests bytes)) }
    ensures faulty { (bytes : List ℕ) (at : ℕ) (flaw : flaws.Flaw) →
        ((decoded_container bytes ≡ Err (at, flaw)) ↔ IsFirstFault bytes at flaw) }
    ensures nothing { (bytes : List ℕ) (at : ℕ) (flaw : flaws.Flaw) (c : Contents) →
        IsFirstFault bytes at flaw → EncodesContents bytes c → ⊥ }
    ensures one_content { (bytes : List ℕ) (c d : Contents) →
        EncodesContents bytes c → EncodesContents bytes d → c ≡ d }
    ensures one_encoding { (a b : List ℕ) (c : Contents) → EncodesContents a c →
        EncodesContents b c → a ≡ b }
    ensures rooted { (rs : List Tree) → AreEmitted (entries rs) rs }
    ensures different { (rs : List Tree) → AreDifferent (entries rs) }
    ensures earlier { (rs : List Tree) (i : ℕ) → i < length (entries rs) →
        HasPartsFirst (take i (entries rs)) (tree_in (entries rs) i) }
    ensures canonical { (c d : Container) → IsCanonical c → IsCanonical d →
        contents_of c ≡ contents_of d → AreSame c d }
{}
