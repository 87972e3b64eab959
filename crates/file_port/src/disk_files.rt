//! The real files; contracts say nothing of their content.

ghost use Rattle.std.specs.Prelude.{◌≡◌, [], None};
ghost use Rattle.file_port.specs.Events.{given_of};
ghost use Rattle.file_port.specs.Files.{GivesAtMost};
ghost use Rattle.file_port.specs.DiskFiles.{state_of_disk_files, log_of_disk_files};

use crate::log::{Asked, Log};
use crate::port::{Files, Got, Put};
use crate::streams::{answer_to, read_to_end, write_whole};
use std::alloc::Global;
use std::fs::File;
use std::io::ErrorKind;
use std::rt;

/// The files of a runtime. Contracts say nothing of what they hold.
///
/// Only a file that isn't found is missing. Running out of memory while opening or reading is
/// `Memory`, and isn't counted. Any other error of the system there, such as a name that is too
/// long, is a failed read; an error while creating or writing is a failed write. A device that
/// takes none of the remaining bytes counts as failed.
///
/// A write creates the file, or empties it if it exists, and then writes from its start. So if a
/// write fails, or the machine stops in the middle, the file holds its old bytes or a prefix of the
/// new ones, at worst none of them. An existing file keeps its permissions.
#[derive(Drop)]
pub struct DiskFiles<R> {
    rt: R,
    read_faults: u64,
    write_faults: u64,
    log: Log,
}

impl<R: rt::Files> DiskFiles<R> {
    /// Returns the files of this runtime, with no call and no failure so far.
    pub fn new(rt: R) -> DiskFiles<R>
        ensures state { state_of_disk_files result ≡ record {
          contents = None;
          read_faults = 0;
          write_faults = 0;
        } }
        ensures logged { log_of_disk_files result ≡ [] }
    {
        DiskFiles {
            rt,
            read_faults: 0,
            write_faults: 0,
            log: Log::new(),
        }
    }
}

/// Opens and reads a file.
fn read_file<R: rt::Files>(rt: &R, alloc: Global, name: &str, max: u32) -> Got
    ensures { GivesAtMost max (given_of result) }
{
    match File::open(rt, name) {
        Ok(mut file) => read_to_end(&mut file, alloc, max),
        Err(error) => match error.kind() {
            ErrorKind::NotFound => Got::Missing,
            _ => answer_to(error),
        },
    }
}

/// Makes and writes a file.
fn write_file<R: rt::Files>(rt: &R, name: &str, bytes: &[u8]) -> Put {
    match File::create(rt, name) {
        Ok(mut file) => write_whole(&mut file, bytes),
        Err(_) => Put::Failed,
    }
}

impl<R: rt::Files> Files for DiskFiles<R> {
    ghost state = { state_of_disk_files };

    ghost log = { log_of_disk_files };

    fn read(&mut self, alloc: Global, name: &str, max: u32) -> Got {
        let answer = read_file(&self.rt, alloc, name, max);
        if let Got::Failed = answer {
            self.read_faults = self.read_faults.saturating_add(1);
        }
        self.log = self.log.then(&Asked::Read(name, max, &answer));
        answer
    }

    fn write(&mut self, name: &str, bytes: &[u8]) -> Put {
        let answer = write_file(&self.rt, name, bytes);
        if let Put::Failed = answer {
            self.write_faults = self.write_faults.saturating_add(1);
        }
        self.log = self.log.then(&Asked::Write(name, bytes, answer));
        answer
    }

    fn read_faults(&self) -> u64 {
        self.read_faults
    }

    fn write_faults(&self) -> u64 {
        self.write_faults
    }
}
