//! Theorems about the definitions, with nothing to run.

ghost use Rattle.std.specs.Prelude.{◌≡◌, ℕ, ◌↔◌, true, List};
ghost use Rattle.alpha_words.specs.declared.insn.Insn.{Insn};
ghost use Rattle.native_code.specs.Heads.{IsLoopHead, is_loop_head};
ghost use Rattle.native_code.specs.Layout.{AlignedHeads, SmallOffsets, InnerTargets};
ghost use Rattle.native_code.specs.Calls.{Called, SimulatesRuns, Spends};
ghost use Rattle.native_code.specs.Ends.{EndingCalls, ReturningCalls, SafeCalls};

/// Proves that the test for loop heads is exact.
pub fn head_laws()
    ensures heads { (code : List Insn) (head : ℕ) → (is_loop_head code head ≡ true)
        ↔ IsLoopHead code head }
{}

/// Proves that displacements fit: native code is short (`small`), and its jumps lead to blocks
/// (`targets`). The blocks of loop heads begin at multiples of 32 (`aligned`).
pub fn layout_laws()
    ensures small { SmallOffsets }
    ensures targets { InnerTargets }
    ensures aligned { AlignedHeads }
{}

/// Proves what calls of native code do, for lawful places and a right certificate.
///
/// Every call comes to the first block, in agreement with the Alpha state at index 0 (`called`): the
/// states are the same but for registers that are dead. From there native code follows the Alpha run,
/// if the fuel is enough for its arrivals at loop heads (`simulates`); if not, the call ends with 1 in
/// rdx (`spends`).
///
/// If no Alpha run is blocked, the call is never stuck (`safe`). It ends in time by its fuel (`ends`),
/// or, if fuel isn't counted, by the length of the Alpha run (`bounded`).
pub fn laws()
    ensures called { Called }
    ensures simulates { SimulatesRuns }
    ensures spends { Spends }
    ensures safe { SafeCalls }
    ensures ends { EndingCalls }
    ensures bounded { ReturningCalls }
{}
