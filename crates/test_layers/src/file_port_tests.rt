//! What reads, writes and puts answer and leave, in memory and at the system.

ghost use Rattle.std.specs.Prelude.{◌≡◌, [], ◌∷◌, ◌++◌};
ghost use Rattle.file_port.specs.Events.{Given, was_read};

use file_port::{DiskFiles, Files, MemFiles, MemSink, Put, Sink, StdSink};
use std::alloc::{AllocError, Global};
use std::io::{ErrorKind, Write};
use std::test::Fail;
use std::{fs, io};

/// The answer of a read, as it is printed, and the count of faults after it. The read is in the log.
fn read_text<F: Files>(
    alloc: Global,
    files: &mut F,
    name: &str,
    max: u32,
) -> Result<(String, u64), AllocError>
    ensures logged { (given : Given)
        × (F.log files.new ≡ F.log files.old ++ was_read name.now max given ∷ []) }
{
    let got = files.read(alloc, name, max);
    Ok((format!(in alloc; "{got:?}")?, files.read_faults()))
}

/// Whether a read of the file answers so, and counts so many faults.
fn is_read<F: Files>(
    alloc: Global,
    files: &mut F,
    row: (&str, u32, &str, u64),
) -> Result<bool, AllocError> {
    let (name, max, want, faults) = row;
    let (got, count) = read_text(alloc, files, name, max)?;
    Ok(got.as_str() == want && count == faults)
}

/// The answer of a write, and the count of faults after it.
fn write_text<F: Files>(files: &mut F, name: &str, text: &str) -> (Put, u64) {
    let put = files.write(name, text.as_bytes());
    (put, files.write_faults())
}

/// The answer of a put, and the count of faults after it.
fn put_text<S: Sink>(sink: &mut S, text: &str) -> (Put, u64) {
    let put = sink.put(text.as_bytes());
    (put, sink.faults())
}

fn file(alloc: Global, name: &str, text: &str) -> Result<(String, Vec<u8>), AllocError> {
    Ok((
        String::from_str(alloc, name)?,
        Vec::from_slice(alloc, text.as_bytes())?,
    ))
}

/// The file `a`, of which the second text counts, with so much room.
fn two_texts(alloc: Global, room: u32, failing: &[u32]) -> Result<MemFiles, AllocError> {
    let mut files = Vec::new(alloc);
    files.push(file(alloc, "a", "older")?)?;
    files.push(file(alloc, "a", "old")?)?;
    MemFiles::new(alloc, files, room, Vec::from_slice(alloc, failing)?)
}

fn is_file(files: &MemFiles, name: &str, text: &str) -> bool {
    files.get(name) == Some(text.as_bytes())
}

/// The second call fails.
#[test]
fn reads_in_memory(rt: HostRuntime) -> Result<(), Fail> {
    let mut files = two_texts(rt.alloc(), 0, &[1])?;
    let rows = [
        ("a", 3, "Bytes([111, 108, 100])", 0),
        ("a", 3, "Failed", 1),
        ("a", 2, "TooLong", 1),
        ("b", 3, "Missing", 1),
    ];
    for (name, max, want, faults) in rows {
        let row = (name, max, want, faults);
        assert!(rt; is_read(rt.alloc(), &mut files, row)?, "{name}");
    }
    Ok(())
}

/// Whether a write of the text answers so, and leaves that in the file.
fn is_written(files: &mut MemFiles, text: &str, want: (Put, u64), left: &str) -> bool {
    write_text(files, "a", text) == want && is_file(files, "a", left)
}

/// Whether the first write is done, and the two behind it fail.
fn are_written(files: &mut MemFiles) -> bool {
    is_written(files, "abcd", (Put::Done, 0), "abcd")
        && is_written(files, "efghi", (Put::Failed, 1), "ef")
        && is_written(files, "past", (Put::Failed, 2), "ef")
}

/// The second call fails, and there is room for two writes.
#[test]
fn writes_in_memory(rt: HostRuntime) -> Result<(), Fail> {
    let mut files = two_texts(rt.alloc(), 2, &[1])?;
    assert!(rt; are_written(&mut files));
    assert!(rt; files.get("b").is_none());
    Ok(())
}

/// Whether a put of the text answers so, and leaves that in the output.
fn is_put(sink: &mut MemSink, text: &str, want: (Put, u64), left: &str) -> bool {
    put_text(sink, text) == want && sink.bytes() == left.as_bytes()
}

/// Whether the third and the fourth of five calls alone fail.
fn are_put(sink: &mut MemSink) -> bool {
    is_put(sink, "abcd", (Put::Done, 0), "abcd")
        && is_put(sink, "past", (Put::Failed, 1), "abcd")
        && is_put(sink, "", (Put::Done, 1), "abcd")
        && is_put(sink, "efg", (Put::Failed, 2), "abcde")
        && is_put(sink, "fg", (Put::Done, 2), "abcdefg")
}

/// The third and the fourth call fail, and there is room for seven bytes.
#[test]
fn puts_in_memory(rt: HostRuntime) -> Result<(), Fail> {
    let mut sink = MemSink::new(rt.alloc(), 7, Vec::from_slice(rt.alloc(), &[2, 3])?)?;
    assert!(rt; are_put(&mut sink));
    Ok(())
}

#[test]
fn writes_at_the_system(rt: HostRuntime) -> Result<(), Fail> {
    let mut files = DiskFiles::new(&rt);
    assert!(rt; write_text(&mut files, "a", "long") == (Put::Done, 0));
    assert!(rt; write_text(&mut files, "a", "old") == (Put::Done, 0));
    assert!(rt; write_text(&mut files, "none/a", "x") == (Put::Failed, 1));
    assert!(rt; fs::read(&rt, "a")?.as_slice() == b"old".as_slice());
    fs::remove_file(&rt, "a")?;
    Ok(())
}

/// A name that is longer than the system's names.
fn long_name(alloc: Global) -> Result<String, AllocError> {
    let mut long = String::new(alloc);
    for _ in 0..300 {
        long.push('a')?;
    }
    Ok(long)
}

/// Whether reads of the file `r`, and of names that name none, answer so and count three faults.
fn are_read<F: Files>(alloc: Global, files: &mut F, long: &str) -> Result<bool, AllocError> {
    let rows = [
        ("r", 3, "Bytes([111, 108, 100])", 0),
        ("r", 2, "TooLong", 0),
        ("b", 3, "Missing", 0),
        ("", 3, "Missing", 0),
        (".", 3, "Failed", 1),
        (long, 3, "Failed", 2),
        ("r/b", 3, "Failed", 3),
    ];
    for row in rows {
        if !is_read(alloc, files, row)? {
            return Ok(false);
        }
    }
    Ok(true)
}

#[test]
fn reads_at_the_system(rt: HostRuntime) -> Result<(), Fail> {
    let long = long_name(rt.alloc())?;
    let mut files = DiskFiles::new(&rt);
    assert!(rt; write_text(&mut files, "r", "old") == (Put::Done, 0));
    assert!(rt; are_read(rt.alloc(), &mut files, long.as_str())?);
    fs::remove_file(&rt, "r")?;
    Ok(())
}

/// A device with so much room, which takes at most three bytes at a time.
#[derive(Drop)]
struct Device {
    taken: Vec<u8>,
    room: usize,
    full: Option<ErrorKind>,
    flush: Option<ErrorKind>,
}

impl Write for Device {
    fn write(&mut self, bytes: &[u8]) -> io::Result<usize> {
        let count = bytes.len().min(self.room).min(3);
        match self.full {
            Some(kind) if count == 0 => return Err(io::Error::from(kind)),
            _ => {}
        }
        self.taken.extend_from_slice(&bytes[..count])?;
        self.room -= count;
        Ok(count)
    }

    fn flush(&mut self) -> io::Result<()> {
        match self.flush {
            Some(kind) => Err(io::Error::from(kind)),
            None => Ok(()),
        }
    }
}

/// Whether a put of `abcdefgh` answers so and leaves that, and one of nothing is done.
fn is_put_at(mut device: Device, want: (Put, u64), left: &str) -> bool {
    let mut sink = StdSink::new(&mut device);
    let is_answered = put_text(&mut sink, "abcdefgh") == want;
    let is_done = put_text(&mut sink, "").0 == Put::Done;
    is_answered && is_done && device.taken.as_slice() == left.as_bytes()
}

/// An empty device with so much room, which is full and flushes so.
fn empty_device(
    alloc: Global,
    room: usize,
    full: Option<ErrorKind>,
    flush: Option<ErrorKind>,
) -> Device {
    Device {
        taken: Vec::new(alloc),
        room,
        full,
        flush,
    }
}

/// A full device takes nothing, or says so; one that can't flush has taken all.
#[test]
fn puts_at_a_writer(rt: HostRuntime) {
    let alloc = rt.alloc();
    let full = Some(ErrorKind::StorageFull);
    let broken = Some(ErrorKind::BrokenPipe);
    let failed = (Put::Failed, 1);
    assert!(rt;
        is_put_at(
            empty_device(alloc, 8, None, None),
            (Put::Done, 0),
            "abcdefgh"
        )
    );
    assert!(rt; is_put_at(empty_device(alloc, 7, None, None), failed, "abcdefg"));
    assert!(rt; is_put_at(empty_device(alloc, 7, full, None), failed, "abcdefg"));
    assert!(rt; is_put_at(empty_device(alloc, 8, None, broken), failed, "abcdefgh"));
}
