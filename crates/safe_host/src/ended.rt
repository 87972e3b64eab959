//! How a counted run ends.

use host_steps::Ended;

/// How a host's run ended, and how many steps it made (a return counts).
#[derive(Clone, Copy, Debug, PartialEq, Eq)]
pub struct Counted {
    /// How the run ended.
    pub ended: Ended,
    /// The number of steps that the run made.
    pub steps: u64,
}
