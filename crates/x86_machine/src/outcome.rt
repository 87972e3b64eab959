//! The results of steps and runs of the machine.

/// The result of one step.
#[derive(Clone, Copy, Debug, PartialEq, Eq)]
pub enum X86Step {
    /// The machine moved to another state.
    Moved,
    /// The instruction is `ret`; the state is unchanged.
    Left,
    /// There is no step: no instruction at the offset, an access that isn't allowed, undefined flags
    /// that the instruction needs, or a jump to before the code. The state is unchanged.
    Stuck,
}

/// The result of a run with a step limit.
#[derive(Clone, Copy, Debug, PartialEq, Eq)]
pub enum X86Outcome {
    /// The run made as many steps as the limit allows.
    OutOfSteps,
    /// The code returned.
    Left,
    /// A step was missing.
    Stuck,
}
