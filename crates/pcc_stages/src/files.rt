//! Stages that read the bytes of a file.

ghost use Rattle.std.specs.Prelude.{◌≤◌, ◌<◌, ℕ, length, slice_index, IfOk};
ghost use Rattle.pcc_stages.specs.Stage.{reads, gives};
ghost use Rattle.pcc_stages.specs.Stages.Common.{refused};
ghost use Rattle.pcc_stages.specs.Answers.{Gives};
ghost use Rattle.pcc_stages.specs.Stops.{refused_text};

use crate::refused_line::RefusedLine;
use crate::stops::Stop;
use file_port::{Files, Got};
use std::alloc::Global;

/// The maximal length in bytes of a container and of a packet file.
pub const MAX_FILE: u32 = 4_194_304;

/// The maximal number of bytes that are read of a policy's file; no file that holds a policy is
/// longer than 8,196.
pub const MAX_POLICY_FILE: u32 = 65_536;

/// Tells Rattle that each byte is below 256; does nothing when it runs.
pub fn octets(bytes: &[u8])
    ensures { (i : ℕ) → slice_index bytes.now i < 256 }
{
    let _ = bytes;
}

/// Reads the bytes of the file with this name; stops with `too_long` if it has more than `max`.
pub fn bytes_of<'a, F: Files>(
    alloc: Global,
    name: &'a str,
    max: u32,
    too_long: RefusedLine,
    files: &mut F,
) -> Result<Vec<u8>, Stop<'a>>
    ensures exact { Gives (λ bytes. bytes.items)
        (reads name.entry.now max (refused (refused_text too_long)) gives)
        (F.log files.old) (F.log files.new) (F.state files.old) (F.state files.new) result }
    ensures short { IfOk result (λ bytes. length bytes.items ≤ max) }
{
    match files.read(alloc, name, max) {
        Got::Bytes(bytes) => {
            octets(&bytes);
            Ok(bytes)
        }
        Got::Missing => Err(Stop::Missing(name)),
        Got::TooLong => Err(Stop::Refused(too_long)),
        Got::Failed => Err(Stop::ReadFault(name)),
        Got::Memory => Err(Stop::Memory),
    }
}
