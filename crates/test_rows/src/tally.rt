//! The number of rows, and the rows that came out otherwise.

use std::alloc::{AllocError, Global};

/// The number of rows, and a text about the rows that came out otherwise.
#[derive(Drop)]
pub struct Tally {
    rows: u64,
    differ: u64,
    text: String,
}

impl Tally {
    /// Returns the tally of no rows.
    pub fn new(alloc: Global) -> Tally {
        Tally {
            rows: 0,
            differ: 0,
            text: String::new(alloc),
        }
    }

    /// Counts a row.
    pub fn count(&mut self) {
        self.rows = self.rows.saturating_add(1);
    }

    /// Counts a row that differs, and stores this line about it.
    pub fn differs(&mut self, line: &str) -> Result<(), AllocError> {
        self.differ = self.differ.saturating_add(1);
        self.text.push_str(line)?;
        self.text.push('\n')
    }

    /// Returns the rows that differ, and the last line: `N rows, M differ`.
    pub fn report(&self, alloc: Global) -> Result<String, AllocError> {
        let text = self.text.as_str();
        let rows = self.rows;
        let differ = self.differ;
        format!(in alloc; "{text}{rows} rows, {differ} differ")
    }
}
