//! Cached results of goals under one list of hypotheses.

ghost use Rattle.std.specs.Prelude.{◌≡◌};

use prover_ids::{Kept, Question, number};
use term_table::Id;

/// The proof methods for goals that have no connective: alignment, normal forms and bounds, and
/// those selected here.
#[derive(Clone, Copy, PartialEq, Eq, PartialOrd, Ord)]
pub struct Means {
    /// Whether hypotheses may prove access to memory.
    pub access: bool,
    /// Whether lower bounds of differences are used, whose rule exists if steps are counted.
    pub counted: bool,
}

/// A cache key: a goal, how many binders are outside it, and the methods of the search for a proof.
#[derive(Clone, Copy, PartialEq, Eq, PartialOrd, Ord)]
pub struct Goal {
    means: Means,
    outside: u32,
    goal: u64,
}

impl Question for Goal {
    ghost use Rattle.std.proofs.Common.{rules};
    ghost use Rattle.prover_goals.specs.Answers.{IsAnswer};
    ghost use Rattle.prover_goals.specs.Lasting.{answer-lasts};

    // The proof, or none.
    type Answer = Option<Id>;

    ghost is_right = { λ l t. IsAnswer t l };

    ghost same = { Prim.search rules };

    ghost lasts = { λ l t u q o e k h. answer-lasts t u l q o k e h };
}

/// Cached results of goals under one list of hypotheses. They count in the limit of a `Memo`.
pub type Answers = Kept<Goal>;

/// The question of a goal.
pub(crate) fn question_of(means: Means, outside: u32, goal: Id) -> Goal
    ensures means { result.means ≡ means }
    ensures outside { result.outside ≡ outside }
    ensures goal { result.goal ≡ goal }
{
    let goal = number(goal);
    Goal {
        means,
        outside,
        goal,
    }
}
