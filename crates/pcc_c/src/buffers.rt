//! Buffers of the caller's.

ghost use Rattle.std.specs.Prelude.{◌≡◌, ◌<◌, ◌≤◌, length, IfOk};
ghost use Rattle.pcc_c.specs.declared.buffers.TheConstants.{LINE};
ghost use Rattle.pcc_c.specs.Reasons.{reason_line};
ghost use Rattle.pcc_c.specs.Buffers.{StoresIn};
ghost use Rattle.pcc_c.specs.Inside.Answers.{TellsReason, TellsFault, TellsMade};

use crate::fault::Fault;
use crate::reason::Reason;
use crate::statuses::{DONE, NO_MEMORY, NO_ROOM, TOO_MANY_RESULTS};
use file_port::{MemSink, Put};
use std::alloc::{AllocError, Global};

/// The room that any line of a reason needs, in bytes.
pub const LINE: u32 = 128;

/// Copies the bytes to the front of the buffer and returns `status`, or returns `NO_ROOM` if the
/// buffer is too small. `written` gets the number of the bytes in either case.
pub fn store(bytes: &[u8], status: u32, out: &mut [u8], written: &mut usize) -> u32
    ensures { StoresIn bytes.now status out.old out.new written.new result }
{
    let count = bytes.len();
    *written = count;
    if count > out.len() {
        return NO_ROOM;
    }
    out[..count].copy_from_slice(bytes);
    status
}

/// Returns the line of the reason. Errors: out of memory.
fn line_of(alloc: Global, why: Reason) -> Result<MemSink, AllocError>
    ensures exact { IfOk result (λ sink. sink.bytes ≡ reason_line why) }
    ensures short { IfOk result (λ sink. length sink.bytes ≤ LINE) }
{
    let mut sink = MemSink::new(alloc, LINE, Vec::new(alloc))?;
    let put = why.print(&mut sink);
    if let Put::Failed = put {
        return Err(AllocError);
    }
    if sink.bytes().len() > LINE as usize {
        return Err(AllocError); // tells the prover that the sink had room for the line
    }
    Ok(sink)
}

/// Stores the line of the reason, without LF, and returns its status.
fn tell_reason(alloc: Global, why: Reason, out: &mut [u8], written: &mut usize) -> u32
    ensures exact { TellsReason why out.old out.new written.new result }
    ensures short { written.new ≤ LINE }
{
    match line_of(alloc, why) {
        Ok(sink) => {
            let line = sink.bytes();
            let end = line.len().saturating_sub(1);
            store(&line[..end], why.status(), out, written)
        }
        Err(_) => {
            *written = 0;
            NO_MEMORY
        }
    }
}

/// Stores the line of the fault's reason, without LF, and returns its status. If memory or cached
/// results ran out, `written` gets 0.
pub fn tell_fault(alloc: Global, fault: Fault, out: &mut [u8], written: &mut usize) -> u32
    ensures exact { TellsFault fault out.old out.new written.new result }
    ensures short { written.new ≤ LINE }
{
    match fault {
        Fault::At(why) => tell_reason(alloc, why, out, written),
        Fault::Memory => {
            *written = 0;
            NO_MEMORY
        }
        Fault::Results => {
            *written = 0;
            TOO_MANY_RESULTS
        }
    }
}

/// Stores what was made, or the line that says why nothing was, and returns the status.
pub fn tell(alloc: Global, made: Result<Vec<u8>, Fault>, out: &mut [u8], written: &mut usize) -> u32
    ensures { TellsMade made out.old out.new written.new result }
{
    match made {
        Ok(bytes) => store(&bytes, DONE, out, written),
        Err(fault) => tell_fault(alloc, fault, out, written),
    }
}
