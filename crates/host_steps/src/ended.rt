//! How a run ends that tests no access.

ghost use Rattle.std.specs.Prelude.{◌≡◌};
ghost use Rattle.host_steps.specs.RunEnds.{outcome_of, goes_on_after};

use alpha_cfg::Outcome;

/// How a run that tests no access ended. No end is `blocked`, since no access is tested.
#[derive(Clone, Copy, Debug, PartialEq, Eq)]
pub enum Ended {
    /// The code returned, with this word in register 0.
    Returned(u64),
    /// The run made all steps of its budget, and none of them was a return.
    OutOfSteps,
}

impl Ended {
    /// Returns this end as an outcome of the machine that tests each access.
    pub fn outcome(self) -> Outcome
        ensures { result ≡ outcome_of self }
    {
        match self {
            Ended::Returned(word) => Outcome::Returned(word),
            Ended::OutOfSteps => Outcome::OutOfSteps,
        }
    }

    /// Returns whether the run may go on, that is, whether it ended out of steps.
    pub fn goes_on(self) -> bool
        ensures { result ≡ goes_on_after self }
    {
        match self {
            Ended::Returned(_) => false,
            Ended::OutOfSteps => true,
        }
    }
}
