//! Theorems about the verification condition of a program's code; nothing here runs.

ghost use Rattle.std.specs.Prelude.{◌≡◌, ℕ, ◌+◌, ◌*◌, ◌≤◌, All, Contains, List, length, None};
ghost use Rattle.std.specs.Prelude.{false, ◌∷◌, ◌++◌, true, [], Some};
ghost use Rattle.alpha_cfg.specs.Cuts.{AreFlags, IsCut, unfolded_of};
ghost use Rattle.vcgen.specs.Conditions.{condition};
ghost use Rattle.vcgen.specs.Safety.{IsAnnotated};
ghost use Rattle.vcgen.specs.declared.condition.TheConstants.{MAX_HEIGHT, MAX_UNFOLDED};
ghost use Rattle.prover_class.specs.Parts.{conjoined, first_not_easy, condition_proof};
ghost use Rattle.bpf_words.specs.declared.insn.Bpf.{Bpf};
ghost use Rattle.bpf_words.specs.declared.insn.TheConstants.{MAX_PROGRAM};
ghost use Rattle.bpf_words.specs.Programs.{IsProgram};
ghost use Rattle.bpf_code.specs.Blocks.{bpf_code};
ghost use Rattle.bpf_condition.specs.Invariants.{annotated_words};
ghost use Rattle.bpf_condition.specs.PartForms.{part_forms};
ghost use Rattle.bpf_condition.specs.Condition.{HasClassProof, annotated_bpf, bpf_flags, bpf_parts};
ghost use Rattle.bpf_condition.specs.Condition.{most_height};
ghost use Rattle.term_table.specs.Tree.{Tree};
ghost use Rattle.proof_container.specs.Postorder.{AreEmitted, HasPartsFirst, entries, is_emitted};
ghost use Rattle.bpf_condition.specs.Parts.{HoldsParts, subtree_count, subtrees};
ghost use Rattle.bpf_condition.specs.declared.limits.TheConstants.{MOST_ENTRIES};

/// States the theorems about the verification condition of a program's code. The code of a program
/// with its invariants is annotated code: the flags are those of the words that have an invariant,
/// they cut the code, and its unfolded length is within the limit of conditions. The parts are
/// those of its condition, one more than two for each instruction, and each is one of 22 formulas.
/// Each part is easy, so none is the first that isn't, wherever their numbers begin. The class's
/// proof of all parts keeps to a weight and a height that grow with the number of instructions;
/// heights are within the limit.
pub fn laws()
    ensures annotated { (program : List Bpf) → IsProgram program
        → IsAnnotated (annotated_bpf program) }
    ensures flags { (program : List Bpf) → IsProgram program
        → AreFlags (annotated_words program) (length (bpf_code program)) (bpf_flags program) }
    ensures cut { (program : List Bpf) → IsProgram program
        → IsCut (bpf_code program) (bpf_flags program) }
    ensures unfolded { (program : List Bpf) → IsProgram program
        → unfolded_of (bpf_code program) (bpf_flags program) ≤ MAX_UNFOLDED }
    ensures parts { (program : List Bpf)
        → conjoined (bpf_parts program) ≡ condition (annotated_bpf program) }
    ensures count { (program : List Bpf) → IsProgram program
        → length (bpf_parts program) ≡ 1 + 2 * length program }
    ensures known { (program : List Bpf) → IsProgram program
        → All (Contains part_forms) (bpf_parts program) }
    ensures easy { (program : List Bpf) (n : ℕ) → IsProgram program
        → first_not_easy false n (bpf_parts program) ≡ None }
    ensures proved { (program : List Bpf) → IsProgram program → HasClassProof program }
    ensures low { (n : ℕ) → n ≤ MAX_PROGRAM → most_height n ≤ MAX_HEIGHT }
{}

/// States the theorems about lists that hold the parts of each of their trees. From roots that such
/// a list holds, a walk leaves at most as many trees as the list is long (`few`). The subtrees of a
/// tree are such a list (`subtrees`), which holds the tree (`root`) and is as long as the tree has
/// nodes (`count`). Two such lists, one after the other, are such a list (`both`), and so is a list
/// with one more tree in front whose parts it holds (`one_more`).
pub fn entry_laws()
    ensures few { (held roots : List Tree) → HoldsParts held → AreEmitted held roots
        → length (entries roots) ≤ length held }
    ensures subtrees { (t : Tree) → HoldsParts (subtrees t) }
    ensures root { (t : Tree) → is_emitted t (subtrees t) ≡ true }
    ensures count { (t : Tree) → length (subtrees t) ≡ subtree_count t }
    ensures both { (held more : List Tree) → HoldsParts held → HoldsParts more
        → HoldsParts (held ++ more) }
    ensures one_more { (held : List Tree) (t : Tree) → HoldsParts held → HasPartsFirst held t
        → HoldsParts (t ∷ held) }
{}

/// States the bound. From the class's proof of a program's condition, after other roots, a walk
/// leaves at most `MOST_ENTRIES` trees, and as many more as the length of a list that holds the
/// other roots and the parts of each of its trees.
pub fn limit_laws()
    ensures entries { (program : List Bpf) (proof : Tree) (others roots : List Tree)
        → IsProgram program → condition_proof false (bpf_parts program) ≡ Some proof
        → HoldsParts others → AreEmitted others roots
        → length (entries (roots ++ proof ∷ [])) ≤ MOST_ENTRIES + length others }
{}
