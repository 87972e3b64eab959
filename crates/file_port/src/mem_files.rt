//! Files in memory, with a list of the calls that are made to fail.

ghost use Rattle.std.specs.Prelude.{◌≡◌, ◌↔◌, ◌≤◌, ◌<◌, ◌+◌, IfOk, true, false, option_map, string_bytes, [], ◌∷◌, ◌++◌, length, find, reverse};
ghost use Rattle.std.specs.Str.{bytes_eq};
ghost use Rattle.std.specs.FinMap as finmap;
ghost use Rattle.file_port.specs.Files.{Reads, Writes};
ghost use Rattle.file_port.specs.declared.spare.TheConstants.{MAX_NAME, MAX_BYTES};
ghost use Rattle.file_port.specs.Events.{was_read, was_written, given_of, given_by};
ghost use Rattle.file_port.specs.MemFiles.{state_of_mem_files, log_map, files_fail_next, next_given, IsGiven, counted_read, after_read, stored_write, after_write};

use crate::calls::is_failing;
use crate::log::{Asked, Log};
use crate::port::{Files, Got, Put};
use crate::spare::{MAX_BYTES, MAX_NAME, Spare};
use std::alloc::{AllocError, Global};
use std::marker::Model;

/// Files in memory, whose contracts say what they hold.
///
/// There is room for a number of writes, each with a name of at most 255 bytes and with at most
/// 4,194,304 bytes. Each write within the room takes up one of them, also if it fails. The calls of
/// `read` and `write` together are numbered from 0, and those in the list `failing` fail. A write
/// in the list leaves the first half of its bytes, rounded down, as the file. A write past the room
/// fails and leaves all files unchanged.
#[derive(Drop)]
pub struct MemFiles {
    // a log of writes: the last of a name counts
    files: Vec<(String, Vec<u8>)>,
    spares: Vec<Spare>,
    read_faults: u64,
    write_faults: u64,
    calls: u64,
    failing: Vec<u32>,
    log: Log,
}

impl Model for MemFiles {
    ghost use Rattle.std.specs.Prelude.{◌+◌, ◌≤◌, length, vec_capacity};
    ghost use Rattle.file_port.specs.MemFiles.{MemFilesView, mem_files_code, log_map};

    ghost Value = { MemFilesView };

    ghost coded = { mem_files_code };

    ghost view = { λ a. record {
      files = log_map a.files.items;
      read_faults = a.read_faults;
      write_faults = a.write_faults;
      room = length a.spares.items;
      calls = a.calls;
      failing = a.failing.items;
      log = a.log.events;
    } };

    ghost invariant = { λ a. length a.files.items + length a.spares.items ≤ vec_capacity a.files };
}

/// The bytes of the last file of this name.
fn search_files<'a>(files: &'a [(String, Vec<u8>)], name: &str) -> Option<&'a [u8]>
    ensures { option_map (λ b. b.now) result ≡ option_map (λ e. e.1.items)
        (find (λ e. bytes_eq name.now (string_bytes e.0)) (reverse files.now)) }
{
    files
        .iter()
        .rev()
        .find(|e| name == e.0.as_str())
        .map(|e| e.1.as_slice())
}

/// What the map of the files has of this name.
fn find_file<'a>(files: &'a [(String, Vec<u8>)], name: &str) -> Option<&'a [u8]>
    ensures { option_map (λ b. b.now) result ≡ finmap.get (log_map files.now) name.now }
{
    search_files(files, name)
}

/// Returns the result of a read that doesn't fail.
fn copy_file(alloc: Global, file: Option<&[u8]>, max: u32) -> Got
    ensures { IsGiven (given_by max (option_map (λ b. b.now) file.entry)) (given_of result) }
{
    let Some(bytes) = file else {
        return Got::Missing;
    };
    if bytes.len() > max as usize {
        return Got::TooLong;
    }
    match Vec::from_slice(alloc, bytes) {
        Ok(copy) => Got::Bytes(copy),
        Err(_) => Got::Memory,
    }
}

fn make_spares(alloc: Global, room: u32) -> Result<Vec<Spare>, AllocError>
    ensures { IfOk result (λ v. length v.items ≡ room) }
{
    let mut spares = Vec::new(alloc);
    for _ in 0..room {
        spares.push(Spare::new(alloc)?)?;
    }
    Ok(spares)
}

impl MemFiles {
    /// Creates files with this content, and room for `room` writes, of which none is made yet. If a
    /// name occurs twice the last one counts.
    ///
    /// Errors: out of memory for the room.
    pub fn new(
        alloc: Global,
        mut files: Vec<(String, Vec<u8>)>,
        room: u32,
        failing: Vec<u32>,
    ) -> Result<MemFiles, AllocError>
        ensures { IfOk result (λ m. m ≡ record {
          files = log_map files.items;
          read_faults = 0;
          write_faults = 0;
          room = room;
          calls = 0;
          failing = failing.items;
          log = [];
        }) }
    {
        let spares = make_spares(alloc, room)?;
        files.reserve(room as usize)?;
        Ok(MemFiles {
            files,
            spares,
            read_faults: 0,
            write_faults: 0,
            calls: 0,
            failing,
            log: Log::new(),
        })
    }

    /// Returns the bytes of the file with this name, or None if there is none.
    pub fn get(&self, name: &str) -> Option<&[u8]>
        ensures { option_map (λ b. b.now) result ≡ finmap.get self.now.files name.now }
    {
        find_file(self.files.as_slice(), name)
    }
}

impl MemFiles {
    /// Returns the result of a read, and counts the read.
    fn answer(&mut self, alloc: Global, name: &str, max: u32) -> Got
        ensures meaning { Reads name.now max
            (state_of_mem_files self.old) (state_of_mem_files self.new) (given_of result) }
        ensures listed { (result ≡ Got.Failed) ↔ (files_fail_next self.old ≡ true) }
        ensures answer { IsGiven (next_given self.old name.now max) (given_of result) }
        ensures after { self.new ≡ counted_read self.old }
    {
        let fails = is_failing(self.failing.as_slice(), self.calls);
        self.calls = self.calls.saturating_add(1);
        if fails {
            self.read_faults = self.read_faults.saturating_add(1);
            return Got::Failed;
        }
        copy_file(alloc, find_file(self.files.as_slice(), name), max)
    }

    /// Stores the bytes, or a part of them, and counts the write.
    fn store(&mut self, name: &str, bytes: &[u8]) -> Put
        ensures meaning { Writes name.now bytes.now
            (state_of_mem_files self.old) (state_of_mem_files self.new) result }
        ensures exact { (self.new, result) ≡ stored_write self.old name.now bytes.now }
        ensures sure { files_fail_next self.old ≡ false → 0 < self.old.room →
            length name.now ≤ MAX_NAME
            → length bytes.now ≤ MAX_BYTES → result ≡ Put.Done }
    {
        let fails = is_failing(self.failing.as_slice(), self.calls);
        self.calls = self.calls.saturating_add(1);
        if name.len() > MAX_NAME || bytes.len() > MAX_BYTES {
            self.write_faults = self.write_faults.saturating_add(1);
            return Put::Failed;
        }
        let Some(spare) = self.spares.pop() else {
            self.write_faults = self.write_faults.saturating_add(1);
            return Put::Failed;
        };
        let kept = if fails { bytes.len() / 2 } else { bytes.len() };
        let file = spare.filled(name, &bytes[..kept]);
        self.files.push(file).unwrap();
        if fails {
            self.write_faults = self.write_faults.saturating_add(1);
            return Put::Failed;
        }
        Put::Done
    }
}

impl Files for MemFiles {
    ghost state = { state_of_mem_files };

    ghost log = { λ files. files.log };

    fn read(&mut self, alloc: Global, name: &str, max: u32) -> Got
        ensures meaning { Reads name.now max
            (state_of_mem_files self.old) (state_of_mem_files self.new) (given_of result) }
        ensures logged { self.new.log
            ≡ self.old.log ++ was_read name.now max (given_of result) ∷ [] }
        ensures listed { (result ≡ Got.Failed) ↔ (files_fail_next self.old ≡ true) }
        ensures answer { IsGiven (next_given self.old name.now max) (given_of result) }
        ensures after { self.new ≡ after_read self.old name.now max (given_of result) }
    {
        let answer = self.answer(alloc, name, max);
        self.log = self.log.then(&Asked::Read(name, max, &answer));
        answer
    }

    fn write(&mut self, name: &str, bytes: &[u8]) -> Put
        ensures meaning { Writes name.now bytes.now
            (state_of_mem_files self.old) (state_of_mem_files self.new) result }
        ensures logged { self.new.log
            ≡ self.old.log ++ was_written name.now bytes.now result ∷ [] }
        ensures exact { (self.new, result) ≡ after_write self.old name.now bytes.now }

        // Only a listed write fails, and one past the room.
        ensures sure { files_fail_next self.old ≡ false → 0 < self.old.room →
            length name.now ≤ MAX_NAME
            → length bytes.now ≤ MAX_BYTES → result ≡ Put.Done }
    {
        let answer = self.store(name, bytes);
        self.log = self.log.then(&Asked::Write(name, bytes, answer));
        answer
    }

    fn read_faults(&self) -> u64 {
        self.read_faults
    }

    fn write_faults(&self) -> u64 {
        self.write_faults
    }
}
