//! What is wrong with a row.

use std::alloc::AllocError;

/// What is wrong with a row of text.
#[derive(Clone, Copy)]
pub enum RowFault {
    /// A call ran out of memory.
    Memory,
    /// The row ends within a term, or before an answer.
    Ends,
    /// Something follows the end of the row.
    Longer,
    /// A bracket that closes nothing, or a bracket instead of a word.
    Bracket,
    /// A word that isn't a name there.
    Word,
    /// A number that isn't one, or is too large.
    Number,
    /// A type instead of a term, or a term instead of a type.
    Sort,
    /// An id that isn't the table's.
    Unknown,
}

/// What was read, or what is wrong.
pub type Read<T> = Result<T, RowFault>;

impl From<AllocError> for RowFault {
    fn from(_error: AllocError) -> RowFault {
        RowFault::Memory
    }
}

impl RowFault {
    /// Returns a message that says what is wrong.
    pub fn words(self) -> &'static str {
        match self {
            RowFault::Memory => "no memory",
            RowFault::Ends => "the row ends too early",
            RowFault::Longer => "the row goes on",
            RowFault::Bracket => "a bracket that doesn't belong there",
            RowFault::Word => "a word that names nothing there",
            RowFault::Number => "a number that is none or too large",
            RowFault::Sort => "a term for a type or a type for a term",
            RowFault::Unknown => "a tree that isn't the table's",
        }
    }
}
