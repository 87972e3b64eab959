//! The line of a verdict, in the caller's buffer.

ghost use Rattle.std.specs.Prelude.{◌≤◌};
ghost use Rattle.pcc_c.specs.declared.buffers.TheConstants.{LINE};
ghost use Rattle.pcc_c.specs.Statuses.{IsShortage};
ghost use Rattle.pcc_c.specs.Checking.{explain_answer, SafeIfDone};
ghost use Rattle.pcc_c.specs.Buffers.{AnswersIn};

use crate::buffers::{store, tell_fault};
use crate::checking::check_answer;
use crate::statuses::DONE;
use std::alloc::Global;

/// Checks a container as `pcc_check` does, and stores the line that `pcc check` prints, without LF.
///
/// `written` gets the length of the line, which is at most `LINE`. If the buffer is too small for
/// it, the call returns `NO_ROOM` and leaves the buffer unchanged. If it returns `NO_MEMORY` or
/// `TOO_MANY_RESULTS`, `written` gets 0, the buffer is unchanged, and nothing is said about the
/// bytes.
#[unsafe(no_mangle)]
pub extern "C" fn pcc_explain(
    alloc: Global,
    policy: &[u8],
    bytes: &[u8],
    out: &mut [u8],
    written: &mut usize,
) -> u32
    ensures exact { AnswersIn IsShortage (explain_answer policy.now bytes.now)
        out.old out.new written.new result }
    ensures safe { SafeIfDone policy.now bytes.now result }
    ensures short { written.new ≤ LINE }
{
    match check_answer(alloc, policy, bytes) {
        Ok(()) => store(b"accepted", DONE, out, written),
        Err(fault) => tell_fault(alloc, fault, out, written),
    }
}
