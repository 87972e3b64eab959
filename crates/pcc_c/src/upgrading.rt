//! Containers of version 2 from those of version 1.

ghost use Rattle.std.specs.Prelude.{◌≡◌, ◌<◌, ℕ, IfOk, take, slice_index};
ghost use Rattle.gate_upgrade.specs.Upgrades.{IsUpgrade};
ghost use Rattle.pcc_c.specs.declared.statuses.TheConstants.{DONE};
ghost use Rattle.pcc_c.specs.Statuses.{IsNoMemory};
ghost use Rattle.pcc_c.specs.Upgrading.{upgrade_answer, upgrade_reason, KeepsAcceptance};
ghost use Rattle.pcc_c.specs.Buffers.{AnswersIn};
ghost use Rattle.pcc_c.specs.Inside.Answers.{IsDue};

use crate::buffers::tell;
use crate::fault::Fault;
use crate::reason::Reason;
use bounds_prover::Measure;
use gate_upgrade::{UpgradeFault, UpgradeFlaw, laws, upgraded};
use pcc_gate::Refusal;
use proof_container::Head;
use std::alloc::Global;

/// Tells Rattle that each byte is below 256; does nothing when it runs.
fn octets(bytes: &[u8])
    ensures { (i : ℕ) → slice_index bytes.now i < 256 }
{
    let _ = bytes;
}

/// Returns why a container with this flaw isn't upgraded.
fn upgrade_reason(flaw: UpgradeFlaw) -> Reason
    ensures { result ≡ upgrade_reason flaw }
{
    match flaw {
        UpgradeFlaw::TooLong(length) => Reason::Refused(Refusal::TooLong(length)),
        UpgradeFlaw::Malformed(offset, what) => Reason::Refused(Refusal::Malformed(offset, what)),
        UpgradeFlaw::Already => Reason::Already,
        UpgradeFlaw::OtherPolicy(number) => {
            Reason::Refused(Refusal::OtherPolicy(Head::Number(number)))
        }
        UpgradeFlaw::TooBig(size) => Reason::TooBig(Measure::Bytes, size),
    }
}

/// Returns the container of version 2 that the one in the bytes is upgraded to. Errors: why there
/// is none, or out of memory.
fn upgrade_answer(alloc: Global, bytes: &[u8]) -> Result<Vec<u8>, Fault>
    ensures exact { IsDue ⊥ (λ made. made.items) (upgrade_answer bytes.now) result }
    ensures upgrade { IfOk result (λ made. IsUpgrade bytes.now made.items) }
    ensures accepted { IfOk result (λ made. KeepsAcceptance bytes.now made.items) }
{
    laws();
    octets(bytes);
    match upgraded(alloc, bytes) {
        Ok(made) => Ok(made),
        Err(UpgradeFault::At(flaw)) => Err(Fault::At(upgrade_reason(flaw))),
        Err(UpgradeFault::Memory) => Err(Fault::Memory),
    }
}

/// Stores the container of version 2 with the code, the invariants and the proof of the container of
/// version 1 in the bytes, for its built-in policy. If that is accepted, so is this.
///
/// `written` gets the number of bytes that are stored. If there is no such container, the line that
/// says why is stored, without LF. The status is 1, 2 or 3, as for a container that isn't accepted,
/// `ALREADY` or `TOO_BIG`. If the buffer is too small, the call returns `NO_ROOM`, leaves the buffer
/// unchanged, and `written` gets the number needed. If it returns `NO_MEMORY`, `written` gets 0 and
/// the buffer is unchanged.
#[unsafe(no_mangle)]
pub extern "C" fn pcc_upgrade(
    alloc: Global,
    bytes: &[u8],
    out: &mut [u8],
    written: &mut usize,
) -> u32
    ensures exact { AnswersIn IsNoMemory (upgrade_answer bytes.now)
        out.old out.new written.new result }
    ensures upgrade { result ≡ DONE → IsUpgrade bytes.now (take written.new out.new) }
    ensures accepted { result ≡ DONE → KeepsAcceptance bytes.now (take written.new out.new) }
{
    let made = upgrade_answer(alloc, bytes);
    tell(alloc, made, out, written)
}
