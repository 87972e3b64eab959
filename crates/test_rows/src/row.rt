//! What a row says.

use std::alloc::{AllocError, Global};

/// What a file must hold after the command.
#[derive(Drop)]
pub struct Left {
    /// The file's name.
    pub name: String,
    /// Its bytes, as far as pieces give them.
    pub bytes: Vec<u8>,
    /// Its SHA-256 and size instead of its bytes, or `nothing` if there must be no file.
    pub digest: Option<String>,
}

impl Left {
    /// Returns an expectation of an empty file with this name.
    ///
    /// Errors: out of memory.
    pub fn of(alloc: Global, name: &str) -> Result<Left, AllocError> {
        let name = String::from_str(alloc, name)?;
        Ok(Left {
            name,
            bytes: Vec::new(alloc),
            digest: None,
        })
    }

    /// Returns whether there must be no file.
    pub fn is_nothing(&self) -> bool {
        match &self.digest {
            None => false,
            Some(digest) => digest.as_str() == "nothing",
        }
    }
}

/// A row: a command, and how it must end.
#[derive(Drop)]
pub struct Row {
    /// Whether a row has begun.
    pub is_begun: bool,
    /// Whether the row is a goal, so that `asm` runs before its command and `check` after it.
    pub is_goal: bool,
    /// The goal's hypothesis.
    pub hypothesis: String,
    /// Whether the row must come out otherwise than it says.
    pub is_wrong: bool,
    /// The number of its first line.
    pub line: u32,
    /// The words of its command, separated by blanks.
    pub words: String,
    /// The calls of read and write that fail, counted from 1.
    pub calls: Vec<u32>,
    /// The writes to the output that fail, counted from 1.
    pub puts: Vec<u32>,
    /// How many writes there is room for.
    pub room: u32,
    /// How many bytes of output there is room for.
    pub space: u32,
    /// The expected exit status, if the row says it.
    pub status: Option<u8>,
    /// The expected output.
    pub output: Vec<u8>,
    /// The SHA-256 and size of the expected output, instead of its bytes.
    pub digest: Option<String>,
    /// What files must hold afterwards.
    pub left: Vec<Left>,
}

impl Row {
    /// Returns a row that hasn't begun.
    pub fn new(alloc: Global) -> Row {
        Row {
            is_begun: false,
            is_goal: false,
            hypothesis: String::new(alloc),
            is_wrong: false,
            line: 0,
            words: String::new(alloc),
            calls: Vec::new(alloc),
            puts: Vec::new(alloc),
            room: 1,
            space: 65_536,
            status: None,
            output: Vec::new(alloc),
            digest: None,
            left: Vec::new(alloc),
        }
    }

    /// Returns a row that begins at this line with these words.
    pub fn of(alloc: Global, line: u32, words: &str) -> Result<Row, AllocError> {
        let words = String::from_str(alloc, words)?;
        let mut row = Row::new(alloc);
        row.is_begun = true;
        row.line = line;
        row.words = words;
        Ok(row)
    }

    /// Returns a row that begins at this line with these words, and expects that the container is
    /// accepted.
    pub fn accepting(alloc: Global, line: u32, words: &str) -> Result<Row, AllocError> {
        let output = Vec::from_slice(alloc, b"accepted\n")?;
        let mut row = Row::of(alloc, line, words)?;
        row.status = Some(0);
        row.output = output;
        Ok(row)
    }

    /// Adds the expectation that the file with this name has this SHA-256 and size, or is nothing.
    pub fn expect(&mut self, alloc: Global, name: &str, digest: &str) -> Result<(), AllocError> {
        let mut left = Left::of(alloc, name)?;
        left.digest = Some(String::from_str(alloc, digest)?);
        self.left.push(left)?;
        Ok(())
    }

    /// Adds the expectation that the file with this name has these bytes.
    pub fn expect_bytes(
        &mut self,
        alloc: Global,
        name: &str,
        bytes: Vec<u8>,
    ) -> Result<(), AllocError> {
        let mut left = Left::of(alloc, name)?;
        left.bytes = bytes;
        self.left.push(left)?;
        Ok(())
    }

    /// Returns whether the row says what the file with this name must hold.
    pub fn names(&self, name: &str) -> bool {
        self.left.iter().any(|left| name == left.name.as_str())
    }
}
