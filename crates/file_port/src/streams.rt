//! Reads to the end and complete writes, over any reader and writer.

ghost use Rattle.std.specs.Prelude.{◌≡◌, ◌≢◌, ℕ, List, [], IfSome};
ghost use Rattle.std.specs.IoError.{error_kind};
ghost use Rattle.file_port.specs.declared.port.Put.{Put};
ghost use Rattle.file_port.specs.Events.{given_of};
ghost use Rattle.file_port.specs.Files.{GivesAtMost};
ghost use Rattle.file_port.specs.Inside.Streams.{MayRead};
ghost use Rattle.file_port.specs.StdSink.{TakesUp};

use crate::port::{Got, Put};
use std::alloc::Global;
use std::io::{Error, ErrorKind, Read, Write};

/// The maximal number of bytes that one system call reads.
const PIECE: usize = 4096;

/// Returns the result of a read for an error of the system: `Memory` if it is out of memory, else
/// `Failed`.
pub fn answer_to(error: Error) -> Got
    ensures within { (max : ℕ) → GivesAtMost max (given_of result) }
    ensures right { (max : ℕ) (bytes : List ℕ) → MayRead max bytes result }
    ensures memory { error_kind error ≡ ErrorKind.OutOfMemory → result ≡ Got.Memory }
    ensures failed { error_kind error ≢ ErrorKind.OutOfMemory → result ≡ Got.Failed }
{
    match error.kind() {
        ErrorKind::OutOfMemory => Got::Memory,
        _ => Got::Failed,
    }
}

/// Reads to the end, to the first error or until one byte more than `max` is read.
pub fn read_to_end<S: Read>(source: &mut S, alloc: Global, max: u32) -> Got
    ensures within { GivesAtMost max (given_of result) }
    ensures right { IfSome (S.remaining source.old) (λ bytes. MayRead max bytes result) }
{
    let mut bytes = Vec::new(alloc);
    let mut piece = [0u8; PIECE];
    while bytes.len() <= max as usize {
        let wanted = (max as usize + 1 - bytes.len()).min(PIECE);
        let count = match source.read(&mut piece[..wanted]) {
            Ok(count) => count,
            Err(error) => return answer_to(error),
        };
        if count == 0 {
            return Got::Bytes(bytes);
        }
        if bytes.extend_from_slice(&piece[..count]).is_err() {
            return Got::Memory;
        }
    }
    Got::TooLong
}

/// Writes all of the bytes, or stops at the first error. A writer that takes none of them counts as
/// failed.
pub fn write_whole<W: Write>(out: &mut W, bytes: &[u8]) -> Put
    ensures empty { bytes.now ≡ [] → result ≡ Put.Done }
    ensures taken { TakesUp (W.contents out.old) (W.contents out.new) bytes.now result }
{
    let mut at = 0;
    while at < bytes.len() {
        match out.write(&bytes[at..]) {
            Ok(count) if count > 0 => at += count,
            _ => return Put::Failed,
        }
    }
    Put::Done
}

/// Writes all of the bytes and flushes them, or stops at the first error.
pub fn write_through<W: Write>(out: &mut W, bytes: &[u8]) -> Put
    ensures empty { bytes.now ≡ [] → result ≡ Put.Done }
    ensures taken { TakesUp (W.contents out.old) (W.contents out.new) bytes.now result }
{
    if bytes.is_empty() {
        return Put::Done;
    }
    match write_whole(out, bytes) {
        Put::Done if out.flush().is_ok() => Put::Done,
        _ => Put::Failed,
    }
}
