//! Whether an agent may run.

ghost use Rattle.std.specs.Prelude.{◌≡◌};
ghost use Rattle.agent_host.specs.Turns.{phase_after};

use host_steps::Ended;

/// Whether an agent may run, and if not, why.
#[derive(Clone, Copy, Debug, PartialEq, Eq)]
pub enum Phase {
    /// No packet is loaded.
    Unloaded,
    /// A packet is loaded, and the agent hasn't returned since; it may run.
    Ready,
    /// The agent has returned since its last load.
    Returned,
}

impl Phase {
    /// Returns the phase of an agent after a run that ended so.
    pub fn after(ended: Ended) -> Phase
        ensures { result ≡ phase_after ended }
    {
        match ended {
            Ended::Returned(_) => Phase::Returned,
            Ended::OutOfSteps => Phase::Ready,
        }
    }
}
