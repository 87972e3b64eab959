//! Theorems about the definitions, with nothing to run.

ghost use Rattle.std.specs.Prelude.{◌≡◌, ◌≢◌, ℕ, suc, ◌+◌, ◌*◌, Bool, true, false, List, slice_get, Some, None, option_map, if◌then◌else◌};
ghost use Rattle.alpha_words.specs.declared.insn.Insn.{Insn};
ghost use Rattle.alpha_cfg.specs.Machine.{State, run_of};
ghost use Rattle.word_ops.specs.Rights.{Rights};
ghost use Rattle.alpha_turns.specs.declared.turns.Turn.{Turn};
ghost use Rattle.alpha_turns.specs.Turns.{Agent, may_go_on, run_on, after_turn, after_turns, budget_of, answer_from};
ghost use Rattle.alpha_turns.specs.Parts.{World, turn_in, turns_in, AreApart, AreAsAlone, LieIn, LieInParts, IsWhereAlone, part_from, LieBetween};

/// Proves that each agent is in the state that one run alone gives it, whatever the turns, with the
/// sum of its own budgets (`alone`).
///
/// So neither the order of turns nor how budgets are split changes the agents' states (`order`). A
/// turn leaves every other agent unchanged (`others`). Two runs of an agent, one after the other,
/// are one run with both budgets (`joined`). If a run has ended, more steps change nothing
/// (`ended`). A turn returns how the run alone ends with all budgets up to it. It returns none if
/// that run ended with the budgets before it (`answer`).
pub fn laws()
    ensures alone { (turns : List Turn) (agents : List Agent) (a : ℕ)
        → slice_get (after_turns turns agents) a
        ≡ option_map (run_on (budget_of a turns)) (slice_get agents a) }
    ensures order { (turns others : List Turn) (agents : List Agent)
        → ((a : ℕ) → budget_of a turns ≡ budget_of a others)
        → after_turns turns agents ≡ after_turns others agents }
    ensures others { (turn : Turn) (agents : List Agent) (a : ℕ) → a ≢ turn.agent
        → slice_get (after_turn turn agents) a ≡ slice_get agents a }
    ensures joined { (n k : ℕ) (agent : Agent) → run_on k (run_on n agent) ≡ run_on (n + k) agent }
    ensures ended { (code : List Insn) (n k : ℕ) (s : State)
        → may_go_on (run_of code n s).0 ≡ false → run_of code (n + k) s ≡ run_of code n s }
    ensures answer { (n k : ℕ) (agent : Agent) → may_go_on agent.outcome ≡ true
        → answer_from k (run_on n agent)
        ≡ (if may_go_on (run_of agent.code n agent.state).0
        then Some (run_of agent.code (n + k) agent.state).0 else None) }
{}

/// Proves that agents which share one memory, each with rights only in its own part, end a turn as
/// if each had a memory of its own (`turn`).
///
/// That also holds for every list of turns (`turns`). So each agent is in the state that one run
/// alone gives it from the initial arena: its outcome, its index, its registers and all of its part
/// (`each`). Parts of one size, one after the other, are disjoint (`apart`). Rights whose spans are
/// in a part are rights in that part (`spans`).
pub fn part_laws()
    ensures turn { (part : ℕ → ℕ → Bool) (turn : Turn) (world : World) (alone : List Agent)
        → AreApart part → AreAsAlone part world alone
        → AreAsAlone part (turn_in turn world) (after_turn turn alone) }
    ensures turns { (part : ℕ → ℕ → Bool) (turns : List Turn) (world : World) (alone : List Agent)
        → AreApart part → AreAsAlone part world alone
        → AreAsAlone part (turns_in turns world) (after_turns turns alone) }
    ensures each { (part : ℕ → ℕ → Bool) (turns : List Turn) (world : World) (i : ℕ)
        → AreApart part → LieInParts part world.agents → IsWhereAlone part turns world i }
    ensures apart { (base size : ℕ) → AreApart (part_from base size) }
    ensures spans { (base size i : ℕ) (rights : Rights)
        → LieBetween (base + size * i) (base + size * suc i) rights.reads
        → LieBetween (base + size * i) (base + size * suc i) rights.writes
        → LieIn (part_from base size i) rights }
{}
