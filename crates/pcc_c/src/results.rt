//! The result of a packet, for C.

ghost use Rattle.safe_host.specs.Runners.{ended_result};
ghost use Rattle.pcc_c.specs.Hosting.{ShowsResult};

use safe_host::Ended;

/// The packet is too short for the policy; nothing was run.
pub const SHORT: u32 = 0;

/// The code returned.
pub const RETURNED: u32 = 1;

/// The code made all steps that it had, and none was a return.
pub const OUT_OF_STEPS: u32 = 2;

/// The result of running code on a packet.
#[repr(C)]
#[derive(Clone, Copy)]
pub struct PccResult {
    /// How the run ended: `SHORT`, `RETURNED` or `OUT_OF_STEPS`.
    pub end: u32,
    /// The word in register 0 if the code returned, else 0.
    pub r0: u64,
    /// The sum of the region's quadwords, modulo 2^64; 0 if nothing was run.
    pub sum: u64,
}

/// Returns the result of a run that ended so, or of a packet that is too short.
pub fn shown(ended: Option<(Ended, u64)>) -> PccResult
    ensures { ShowsResult (ended_result ended) result }
{
    match ended {
        None => PccResult {
            end: SHORT,
            r0: 0,
            sum: 0,
        },
        Some((Ended::Returned(r0), sum)) => PccResult {
            end: RETURNED,
            r0,
            sum,
        },
        Some((Ended::OutOfSteps, sum)) => PccResult {
            end: OUT_OF_STEPS,
            r0: 0,
            sum,
        },
    }
}
