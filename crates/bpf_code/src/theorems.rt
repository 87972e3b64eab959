//! Theorems about the definitions; nothing here runs.

ghost use Rattle.std.specs.Prelude.{◌≡◌, ℕ, ◌*◌, List, length, ◌≢◌, ◌<◌, ◌≤◌, Bool, slice_get, Ok};
ghost use Rattle.std.specs.Prelude.{Some};
ghost use Rattle.alpha_cfg.specs.Machine.{State};
ghost use Rattle.bpf_words.specs.declared.insn.Bpf.{Bpf};
ghost use Rattle.bpf_words.specs.Programs.{IsProgram};
ghost use Rattle.bpf_code.specs.declared.blocks.TheConstants.{BLOCK};
ghost use Rattle.bpf_code.specs.Blocks.{bpf_code, nonzero_flag};
ghost use Rattle.bpf_words.specs.Reading.{AreBytes};
ghost use Rattle.bpf_code.specs.Simulation.{ReturnsFlag, Simulates, StartsOn};
ghost use Rattle.alpha_words.specs.declared.insn.Insn.{Insn};
ghost use Rattle.alpha_cfg.specs.CodeBytes.{EncodesCode};
ghost use Rattle.alpha_cfg.specs.CodeDecoding.{decoded_code};
ghost use Rattle.alpha_cfg.specs.Cuts.{IsCut, StepsTo, unfolded_of};
ghost use Rattle.alpha_cfg.specs.Flow.{IsCode, jump_of, AreOfProfile};
ghost use Rattle.alpha_cfg.specs.Graph.{IsMarked};
ghost use Rattle.alpha_cfg.specs.declared.outcome.Kind.{Kind};
ghost use Rattle.alpha_cfg.specs.declared.outcome.Outcome.TheVariants.{Blocked, Returned};
ghost use Rattle.policy_set.specs.declared.kind.PolicyKind.TheVariants.{Filter};
ghost use Rattle.policy_set.specs.Views.{built_in};
ghost use Rattle.reference_machine.specs.declared.layout.TheConstants.{ARENA};
ghost use Rattle.reference_machine.specs.Starts.{StartView, start_state};
ghost use Rattle.packet_store.specs.declared.results.PacketResult.TheVariants.{Ran, Short};
ghost use Rattle.packet_store.specs.PolicyStarts.{start_of};
ghost use Rattle.packet_store.specs.Results.{packet_result};
ghost use Rattle.bpf_words.specs.declared.insn.TheConstants.{LOADABLE};
ghost use Rattle.bpf_words.specs.Values.{bpf_value};
ghost use Rattle.word_ops.specs.declared.Profile.TheVariants.{One};

/// States the theorems about the code of a program. It has twenty words for each instruction
/// (`length`). Run on a packet, it returns 0 if the program's value on the packet is 0, else 1,
/// within twenty steps for each instruction (`simulates`); so within 1,000 steps (`thousand`).
pub fn laws()
    ensures length { (program : List Bpf) → length (bpf_code program) ≡ BLOCK * length program }
    ensures simulates { Simulates }
    ensures thousand { (program : List Bpf) (packet : List ℕ) (s : State) → IsProgram program
        → AreBytes packet → StartsOn packet s → ReturnsFlag program packet 1000 s }
{}

/// States the theorems about runs under `filter`. The start of `filter` on a packet is a state from
/// which the code of a program is run. So the code returns 0 if the program's value on the packet
/// is 0, else 1, within 1,000 steps; this is also the packet's result, with a budget of twenty
/// steps or more for each instruction. Whatever the budget, no access is blocked. A packet is too
/// short if it has fewer than the 64 bytes that loads may read.
pub fn start_laws()
    ensures starts { (packet : List ℕ) (setup : StartView)
        → start_of (built_in Filter) packet ≡ Some setup
        → StartsOn packet (start_state ARENA setup) }
    ensures returns { (program : List Bpf) (packet : List ℕ) (setup : StartView)
        → IsProgram program → AreBytes packet → start_of (built_in Filter) packet ≡ Some setup
        → ReturnsFlag program packet 1000 (start_state ARENA setup) }
    ensures outcome { (program : List Bpf) (packet : List ℕ) (budget : ℕ) → IsProgram program
        → AreBytes packet → LOADABLE ≤ length packet → BLOCK * length program ≤ budget
        → packet_result (built_in Filter) (bpf_code program) budget packet
        ≡ Ran (Returned (nonzero_flag (bpf_value program packet))) 0 }
    ensures safe { (program : List Bpf) (packet : List ℕ) (budget i a sum : ℕ) (kind : Kind)
        → IsProgram program → AreBytes packet
        → packet_result (built_in Filter) (bpf_code program) budget packet
        ≢ Ran (Blocked i kind a) sum }
    ensures short { (code : List Insn) (packet : List ℕ) (budget : ℕ) → length packet < LOADABLE
        → packet_result (built_in Filter) code budget packet ≡ Short }
{}

/// States the theorems about a program's code as code of the first profile. It has at most 1,024
/// words, each encodes an instruction, branches lead inside, and it can't run off its end; bytes
/// that encode it are read as it. Each branch leads to the first word of a block, and each step
/// leads forward, so no cycle is left uncut, whichever indices are annotated. If the first word of
/// each block is annotated, the unfolded length is at most twenty for each flag.
pub fn code_laws()
    ensures code { (program : List Bpf) → IsProgram program → IsCode (bpf_code program) }
    ensures profile { (program : List Bpf) → IsProgram program
        → AreOfProfile One (bpf_code program) }
    ensures read { (program : List Bpf) (bytes : List ℕ) → IsProgram program
        → EncodesCode One bytes (bpf_code program)
        → decoded_code One bytes ≡ Ok (bpf_code program) }
    ensures lands { (program : List Bpf) (i j : ℕ) (insn : Insn) → IsProgram program
        → slice_get (bpf_code program) i ≡ Some insn → jump_of i insn ≡ Some j
        → (block : ℕ) × (block < length program) × (j ≡ BLOCK * block) }
    ensures forward { (program : List Bpf) (i j : ℕ) → IsProgram program
        → StepsTo (bpf_code program) i j → i < j }
    ensures cut { (program : List Bpf) (marks : List Bool) → IsProgram program
        → IsCut (bpf_code program) marks }
    ensures unfolded { (program : List Bpf) (marks : List Bool) → IsProgram program
        → ((i : ℕ) → i < length program → IsMarked marks (BLOCK * i))
        → unfolded_of (bpf_code program) marks ≤ BLOCK * length marks }
{}
