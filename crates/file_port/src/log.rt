//! The log of calls of an I/O object, and their results. Only proofs read it: it takes no memory,
//! and its calls do nothing when they run.

ghost use Rattle.std.specs.Prelude.{◌≡◌, List, [], ◌∷◌, ◌++◌};
ghost use Rattle.std.specs.Borrow.{ftrue};
ghost use Rattle.file_port.specs.Events.{Event};
ghost use Rattle.file_port.specs.Stored.{events_code};

use crate::port::{Got, Put};
use std::marker::Model;

/// A call of an I/O object, with its result.
#[derive(Clone, Copy, Drop)]
pub enum Asked<'a> {
    /// A read of the file with this name, of at most so many bytes.
    Read(&'a str, u32, &'a Got),
    /// A write of the bytes to the file with this name.
    Write(&'a str, &'a [u8], Put),
    /// A write of the piece to the output.
    Put(&'a [u8], Put),
}

/// The calls so far, in order.
#[derive(Drop)]
pub struct Log {
    /// The events of these calls, as clauses see them.
    pub ghost events: { List Event } by { events_code },
}

impl Model for Log {
    ghost also_owns = { λ _. ftrue };
}

impl Log {
    ghost use Rattle.file_port.specs.Logs.{event_of};

    /// Returns the log of no call.
    pub fn new() -> Log
        ensures { result.events ≡ [] }
    {
        Log {}
    }

    /// Returns the log of these calls, and then one more.
    #[inline(always)]
    pub fn then(&self, _asked: &Asked<'_>) -> Log
        ensures { result.events ≡ self.now.events ++ event_of _asked.now ∷ [] }
    {
        Log {}
    }
}
