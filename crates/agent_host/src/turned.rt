//! How a turn ended.

ghost use Rattle.std.specs.Prelude.{◌≡◌};
ghost use Rattle.agent_host.specs.Turns.{outcome_shown};

use alpha_cfg::Outcome;

/// How a turn ended. No end is `blocked`, since no access is tested.
#[derive(Clone, Copy, Debug, PartialEq, Eq)]
pub enum Turned {
    /// The code returned, with this word in register 0.
    Returned(u64),
    /// The run made all steps of its budget, and none of them was a return.
    OutOfSteps,
    /// The agent had already returned since its last load: nothing was run.
    Done,
}

impl Turned {
    /// Returns the outcome that the machine that tests each access has, or None if nothing was run.
    pub fn outcome(self) -> Option<Outcome>
        ensures { result ≡ outcome_shown self }
    {
        match self {
            Turned::Returned(word) => Some(Outcome::Returned(word)),
            Turned::OutOfSteps => Some(Outcome::OutOfSteps),
            Turned::Done => None,
        }
    }
}
