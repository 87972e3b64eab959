//! The state while files of rows are read.

use crate::files::placed;
use crate::row::Row;
use crate::tally::Tally;
use std::alloc::{AllocError, Global};
use std::mem;

/// Where the bytes of a piece go.
#[derive(Clone, Copy)]
pub enum Target {
    /// Nowhere.
    Nothing,
    /// To the file named last.
    File,
    /// To what the row's last file must hold.
    Left,
}

/// The state while files of rows are read: files, the row that has begun, and the tally.
#[derive(Drop)]
pub struct Scene {
    pub(crate) alloc: Global,
    pub(crate) name: String,
    pub(crate) files: Vec<(String, Vec<u8>)>,
    pub(crate) given: usize,
    pub(crate) at: String,
    pub(crate) bytes: Vec<u8>,
    pub(crate) row: Row,
    pub(crate) target: Target,
    pub(crate) tally: Tally,
}

impl Scene {
    /// Returns the state with no files and no rows.
    pub fn new(alloc: Global) -> Scene {
        Scene {
            alloc,
            name: String::new(alloc),
            files: Vec::new(alloc),
            given: 0,
            at: String::new(alloc),
            bytes: Vec::new(alloc),
            row: Row::new(alloc),
            target: Target::Nothing,
            tally: Tally::new(alloc),
        }
    }

    /// Adds a file that exists for every later row, and removes what earlier rows left.
    pub fn give(&mut self, name: &str, bytes: Vec<u8>) -> Result<(), AllocError> {
        self.clear();
        placed(self.alloc, &mut self.files, name, bytes)?;
        self.given = self.files.len();
        Ok(())
    }

    /// Sets the bytes of the file with this name.
    pub(crate) fn place(&mut self, name: &str, bytes: &[u8]) -> Result<(), AllocError> {
        let copy = Vec::from_slice(self.alloc, bytes)?;
        placed(self.alloc, &mut self.files, name, copy)
    }

    /// Begins a row at this line with these words.
    pub(crate) fn begin(&mut self, line: u32, words: &str) -> Result<(), AllocError> {
        self.row = Row::of(self.alloc, line, words)?;
        Ok(())
    }

    /// Removes all files but the ones that were given.
    pub(crate) fn clear(&mut self) {
        self.files.truncate(self.given);
    }

    /// Begins the bytes of the file with this name, which exists or is expected.
    pub(crate) fn aim(&mut self, target: Target, name: &str) -> Result<(), AllocError> {
        self.at = String::from_str(self.alloc, name)?;
        self.target = target;
        Ok(())
    }

    /// Puts the bytes that were begun to where they go.
    pub(crate) fn settle(&mut self) -> Result<(), AllocError> {
        let name = mem::replace(&mut self.at, String::new(self.alloc));
        let bytes = mem::replace(&mut self.bytes, Vec::new(self.alloc));
        match self.target {
            Target::Nothing => {}
            Target::File => placed(self.alloc, &mut self.files, name.as_str(), bytes)?,
            Target::Left => self.row.expect_bytes(self.alloc, name.as_str(), bytes)?,
        }
        self.target = Target::Nothing;
        Ok(())
    }

    /// Begins the file of rows with this name.
    pub(crate) fn open(&mut self, name: &str) -> Result<(), AllocError> {
        self.clear();
        self.name = String::from_str(self.alloc, name)?;
        Ok(())
    }

    /// Counts that a line of the file of rows differs, and stores why.
    pub fn differs(&mut self, line: u32, why: &str) -> Result<(), AllocError> {
        let name = self.name.as_str();
        let text = format!(in self.alloc; "{name} {line}: {why}")?;
        self.tally.differs(text.as_str())
    }

    /// Returns the rows that differ, and the last line: `N rows, M differ`.
    pub fn report(&self) -> Result<String, AllocError> {
        self.tally.report(self.alloc)
    }
}
