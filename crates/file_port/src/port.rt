//! The two traits for input and output, and the results of their calls.

ghost use Rattle.std.specs.Prelude.{◌≡◌, List, [], ◌∷◌, ◌++◌};
ghost use Rattle.file_port.specs.Events.{Event, was_read, was_written, given_of};
ghost use Rattle.file_port.specs.Files.{FilesState, Reads, Writes};
ghost use Rattle.file_port.specs.Sink.{SinkState, Puts};

use std::alloc::Global;

/// The result of a read.
#[derive(Debug, Drop)]
pub enum Got {
    /// The file's bytes.
    Bytes(Vec<u8>),
    /// There is no such file.
    Missing,
    /// The file has more bytes than the read allows.
    TooLong,
    /// The read failed, and the failure was counted.
    Failed,
    /// There was no memory for the bytes.
    Memory,
}

/// The result of a write to a file or to the output.
#[derive(Clone, Copy, Debug, PartialEq, Eq)]
pub enum Put {
    /// All bytes were written.
    Done,
    /// At most a part of the bytes was written, and the failure was counted.
    Failed,
}

/// Files, each read and written as a whole, by name.
pub trait Files {
    /// The content of the files, if it is known, and the failures so far.
    ghost state: { Self → FilesState };

    /// The reads and writes so far, with their results, in order.
    ghost log: { Self → List Event };

    /// Returns the bytes of the file with this name, if it has at most `max` of them. The files
    /// don't change.
    fn read(&mut self, alloc: Global, name: &str, max: u32) -> Got
        ensures meaning { Reads name.now max
            (state self.old) (state self.new) (given_of result) }
        ensures logged { log self.new
            ≡ log self.old ++ was_read name.now max (given_of result) ∷ [] };

    /// Sets the bytes of the file with this name, which need not exist before.
    ///
    /// After a failure the file is unchanged, or holds a prefix of the bytes.
    fn write(&mut self, name: &str, bytes: &[u8]) -> Put
        ensures meaning { Writes name.now bytes.now (state self.old) (state self.new) result }
        ensures logged { log self.new
            ≡ log self.old ++ was_written name.now bytes.now result ∷ [] };

    /// Returns how many reads have failed. The count stays at the greatest u64.
    fn read_faults(&self) -> u64
        ensures { result ≡ (state self.now).read_faults };

    /// Returns how many writes have failed. The count stays at the greatest u64.
    fn write_faults(&self) -> u64
        ensures { result ≡ (state self.now).write_faults };
}

/// Output, to which bytes are appended.
pub trait Sink {
    /// The bytes so far, if they are known, the failures, and what was written.
    ghost state: { Self → SinkState };

    /// Appends a piece to the output. An empty piece never fails. After a failure a prefix of the
    /// piece has been appended.
    fn put(&mut self, bytes: &[u8]) -> Put
        ensures { Puts bytes.now (state self.old) (state self.new) result };

    /// Returns how many calls of `put` have failed. The count stays at the greatest u64.
    fn faults(&self) -> u64
        ensures { result ≡ (state self.now).faults };
}
