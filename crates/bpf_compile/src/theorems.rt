//! Theorems about the definitions; nothing here runs.

ghost use Rattle.std.specs.Prelude.{◌≡◌, ℕ, List, Ok, Some, false};
ghost use Rattle.policy_set.specs.declared.kind.PolicyKind.TheVariants.{Filter};
ghost use Rattle.policy_set.specs.Views.{built_in};
ghost use Rattle.term_table.specs.Tree.{Tree};
ghost use Rattle.proof_container.specs.Encoding.{IsContents, encoding_of};
ghost use Rattle.pcc_gate.specs.Passing.{Passes};
ghost use Rattle.prover_class.specs.Parts.{condition_proof};
ghost use Rattle.bounds_prover.specs.Proving.{proved_container, with_proof};
ghost use Rattle.pcc_asm.specs.Assembling.{plain_contents};
ghost use Rattle.bpf_words.specs.declared.insn.Bpf.{Bpf};
ghost use Rattle.bpf_words.specs.Programs.{IsProgram};
ghost use Rattle.bpf_code.specs.Blocks.{bpf_code};
ghost use Rattle.bpf_condition.specs.Invariants.{bpf_invariants};
ghost use Rattle.bpf_condition.specs.Condition.{bpf_flags, bpf_parts};
ghost use Rattle.bpf_compile.specs.Compiled.{IsCompiled};
ghost use Rattle.bpf_compile.specs.Contents.{AreCodeBytes, bpf_contents};
ghost use Rattle.alpha_words.specs.declared.insn.Insn.{Insn};
ghost use Rattle.alpha_cfg.specs.CodeBytes.{EncodesCode};
ghost use Rattle.alpha_cfg.specs.CodeDecoding.{decoded_code};
ghost use Rattle.alpha_cfg.specs.Flow.{IsCode, AreOfProfile};
ghost use Rattle.term_table.specs.Bytes.{IsBytes};
ghost use Rattle.pcc_asm.specs.Words.{code_bytes};
ghost use Rattle.word_ops.specs.declared.Profile.{Profile};

use prover_class::class_laws;

/// States the theorems about the container of a program. What it holds, with any bytes that encode
/// the program's code, are contents. Their encoding passes the checks of the gate before the proof,
/// with the program's code and the flags of the words that have an invariant. What `prove` makes of
/// that encoding is the encoding of the contents with the class's proof. That is accepted under
/// `filter`, and whatever code it is accepted with returns 0 if the program's value is 0, else
/// 1. So `prove` makes of it a container that is all this; it also does so with the bytes that the
/// assembler writes for the code.
pub fn laws()
    ensures contents { (program : List Bpf) (code : List ℕ) → IsProgram program
        → AreCodeBytes program code → IsContents (bpf_contents program code) }
    ensures passes { (program : List Bpf) (code : List ℕ) → IsProgram program
        → AreCodeBytes program code
        → Passes (built_in Filter) (encoding_of (bpf_contents program code))
        (bpf_contents program code)
        (bpf_code program) (bpf_flags program) }
    ensures made { (program : List Bpf) (code : List ℕ) (proof : Tree) → IsProgram program
        → AreCodeBytes program code
        → condition_proof false (bpf_parts program) ≡ Some proof
        → proved_container (built_in Filter) (encoding_of (bpf_contents program code))
        ≡ Ok (encoding_of (with_proof (bpf_contents program code) proof)) }
    ensures accepted { (program : List Bpf) (code : List ℕ) (proof : Tree) → IsProgram program
        → AreCodeBytes program code
        → condition_proof false (bpf_parts program) ≡ Some proof
        → IsCompiled program (encoding_of (with_proof (bpf_contents program code) proof)) }
    ensures compiles { (program : List Bpf) (code : List ℕ) → IsProgram program
        → AreCodeBytes program code
        → (out : List ℕ)
        × (proved_container (built_in Filter) (encoding_of (bpf_contents program code)) ≡ Ok out)
        × IsCompiled program out }
    ensures plain { (program : List Bpf) → IsProgram program
        → (out : List ℕ) × (proved_container (built_in Filter) (encoding_of
        (plain_contents 1 None (built_in Filter) (bpf_invariants program)
        (bpf_code program))) ≡ Ok out)
        × IsCompiled program out }
{
    class_laws();
}

/// States that what the assembler writes for instructions is bytes (`bytes`). If the instructions
/// are code of a profile, the bytes encode it under that profile (`encode`), and are read as it
/// (`read`).
pub fn written_laws()
    ensures bytes { (code : List Insn) → IsBytes (code_bytes code) }
    ensures encode { (p : Profile) (code : List Insn) → IsCode code → AreOfProfile p code
        → EncodesCode p (code_bytes code) code }
    ensures read { (p : Profile) (code : List Insn) → IsCode code → AreOfProfile p code
        → decoded_code p (code_bytes code) ≡ Ok code }
{}
