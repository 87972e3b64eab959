//! Output in memory, with a list of the calls that are made to fail.

ghost use Rattle.std.specs.Prelude.{◌≡◌, ◌≤◌, ◌+◌, IfOk, false, length, []};
ghost use Rattle.file_port.specs.Inside.Takes.{Takes};
ghost use Rattle.file_port.specs.Sink.{Puts};
ghost use Rattle.file_port.specs.MemSink.{state_of_mem_sink, sink_fails_next, taken_put, after_put};

use crate::calls::is_failing;
use crate::log::{Asked, Log};
use crate::port::{Put, Sink};
use std::alloc::{AllocError, Global};
use std::marker::Model;

/// Output in memory, whose contracts say which bytes it holds.
///
/// There is room for a number of bytes in all. The calls of `put` are numbered from 0, and those in
/// the list `failing` fail, unless their piece is empty. A call in the list adds the first half of
/// its bytes, rounded down. A call past the room fails and adds nothing.
#[derive(Drop)]
pub struct MemSink {
    bytes: Vec<u8>,
    room: u32,
    faults: u64,
    calls: u64,
    failing: Vec<u32>,
    log: Log,
}

impl Model for MemSink {
    ghost use Rattle.std.specs.Prelude.{◌≤◌, vec_capacity};
    ghost use Rattle.file_port.specs.MemSink.{MemSinkView, mem_sink_code};

    ghost Value = { MemSinkView };

    ghost coded = { mem_sink_code };

    ghost view = { λ a. record {
      bytes = a.bytes.items;
      faults = a.faults;
      room = a.room;
      calls = a.calls;
      failing = a.failing.items;
      log = a.log.events;
    } };

    ghost invariant = { λ a. a.room ≤ vec_capacity a.bytes };
}

impl MemSink {
    /// Creates an empty output, with room for `room` bytes.
    ///
    /// Errors: out of memory for the room.
    pub fn new(alloc: Global, room: u32, failing: Vec<u32>) -> Result<MemSink, AllocError>
        ensures { IfOk result (λ sink. sink ≡ record {
          bytes = [];
          faults = 0;
          room = room;
          calls = 0;
          failing = failing.items;
          log = [];
        }) }
    {
        Ok(MemSink {
            bytes: Vec::with_capacity(alloc, room as usize)?,
            room,
            faults: 0,
            calls: 0,
            failing,
            log: Log::new(),
        })
    }

    /// Returns the bytes so far.
    pub fn bytes(&self) -> &[u8]
        ensures { result.now ≡ self.now.bytes }
    {
        self.bytes.as_slice()
    }
}

impl MemSink {
    /// Takes the piece, or a part of it.
    fn take(&mut self, bytes: &[u8]) -> Put
        ensures meaning { Takes bytes.now
            (state_of_mem_sink self.old) (state_of_mem_sink self.new) result }
        ensures exact { (self.new, result) ≡ taken_put self.old bytes.now }
        ensures sure { sink_fails_next self.old ≡ false
            → length self.old.bytes + length bytes.now ≤ self.old.room → result ≡ Put.Done }
        ensures same { self.new.log ≡ self.old.log }
    {
        let fails = is_failing(self.failing.as_slice(), self.calls);
        self.calls = self.calls.saturating_add(1);
        if bytes.is_empty() {
            return Put::Done;
        }
        let room = (self.room as usize).saturating_sub(self.bytes.len());
        if bytes.len() > room {
            self.faults = self.faults.saturating_add(1);
            return Put::Failed;
        }
        let kept = if fails { bytes.len() / 2 } else { bytes.len() };
        self.bytes.extend_from_slice(&bytes[..kept]).unwrap();
        if fails {
            self.faults = self.faults.saturating_add(1);
            return Put::Failed;
        }
        Put::Done
    }
}

impl Sink for MemSink {
    ghost state = { state_of_mem_sink };

    fn put(&mut self, bytes: &[u8]) -> Put
        ensures meaning { Puts bytes.now
            (state_of_mem_sink self.old) (state_of_mem_sink self.new) result }
        ensures exact { (self.new, result) ≡ after_put self.old bytes.now }

        // Only a listed put fails, and one past the room.
        ensures sure { sink_fails_next self.old ≡ false
            → length self.old.bytes + length bytes.now ≤ self.old.room → result ≡ Put.Done }
    {
        let answer = self.take(bytes);
        self.log = self.log.then(&Asked::Put(bytes, answer));
        answer
    }

    fn faults(&self) -> u64 {
        self.faults
    }
}
