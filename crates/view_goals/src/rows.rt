//! Goals in a flat list of rows.

use term_table::Id;

/// Why the code asks for a goal.
#[derive(Clone, Copy)]
pub enum Why {
    /// An access needs the right to load.
    Load,
    /// An access needs the right to store.
    Store,
    /// At least one step has to be left.
    Step,
    /// The postcondition has to hold.
    Return,
    /// The invariant of this index has to hold.
    Reach(u32),
    /// No instruction follows, so code that gets here would leave its end.
    Leave,
}

/// A row of a list of goals. The rows of what a row contains follow it.
#[derive(Clone, Copy)]
pub enum Row {
    /// A goal that the index `at` asks for, under `depth` branches.
    Goal {
        at: u32,
        why: Why,
        formula: Id,
        depth: u32,
    },
    /// A conjunction: the rows of its first side follow, then those of its second side.
    Both,
    /// What is asked if the branch at `at` is taken, or isn't, under the hypothesis `known`; the
    /// branch itself is under `depth` others.
    Under {
        at: u32,
        taken: bool,
        known: Id,
        depth: u32,
    },
}

/// A part of the verification condition.
#[derive(Drop)]
pub struct PartRows {
    /// The index at which the part begins.
    pub at: u32,
    /// The part as a formula.
    pub formula: Id,
    /// The hypothesis at the beginning of the part.
    pub known: Id,
    /// The goals of the part.
    pub rows: Vec<Row>,
}
