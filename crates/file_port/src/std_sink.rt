//! A writer, such as standard output, as a sink.

ghost use Rattle.std.specs.Prelude.{◌≡◌, [], None};
ghost use Rattle.file_port.specs.Inside.Takes.{Takes};
ghost use Rattle.file_port.specs.Sink.{Puts};
ghost use Rattle.file_port.specs.StdSink.{state_of_std_sink, writer_of, TakesUp};

use crate::log::{Asked, Log};
use crate::port::{Put, Sink};
use crate::streams::write_through;
use std::io::Write;

/// A writer, such as standard output. As a sink it says nothing of its bytes.
///
/// Each piece is written and flushed. A device that takes none of the remaining bytes counts as
/// failed, and so does one whose flush fails.
#[derive(Drop)]
pub struct StdSink<W> {
    out: W,
    faults: u64,
    log: Log,
}

impl<W: Write> StdSink<W> {
    /// Returns the writer as a sink, with no call and no failure so far.
    pub fn new(out: W) -> StdSink<W>
        ensures writer { writer_of result ≡ out }
        ensures state { state_of_std_sink result ≡ record {
          contents = None;
          faults = 0;
          asked = [];
        } }
    {
        StdSink {
            out,
            faults: 0,
            log: Log::new(),
        }
    }
}

impl<W: Write> StdSink<W> {
    /// Writes the piece, or a part of it.
    fn take(&mut self, bytes: &[u8]) -> Put
        ensures meaning { Takes bytes.now
            (state_of_std_sink self.old) (state_of_std_sink self.new) result }
        ensures taken { TakesUp (W.contents (writer_of self.old))
            (W.contents (writer_of self.new)) bytes.now result }
        ensures same { self.new.log ≡ self.old.log }
    {
        let answer = write_through(&mut self.out, bytes);
        if let Put::Failed = answer {
            self.faults = self.faults.saturating_add(1);
        }
        answer
    }
}

impl<W: Write> Sink for StdSink<W> {
    ghost state = { state_of_std_sink };

    fn put(&mut self, bytes: &[u8]) -> Put
        ensures meaning { Puts bytes.now
            (state_of_std_sink self.old) (state_of_std_sink self.new) result }

        // Where the writer's bytes are known, it was given the piece, or after a fault a prefix of it.
        ensures taken { TakesUp (W.contents (writer_of self.old))
            (W.contents (writer_of self.new)) bytes.now result }
    {
        let answer = self.take(bytes);
        self.log = self.log.then(&Asked::Put(bytes, answer));
        answer
    }

    fn faults(&self) -> u64 {
        self.faults
    }
}
