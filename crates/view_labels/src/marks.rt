//! What a goal's line says of the goal.

use view_goals::Why;

/// How a goal is marked.
#[derive(Clone, Copy, Debug, PartialEq, Eq)]
pub enum Mark {
    /// `prove` proves the goal.
    Easy,
    /// The goal isn't easy, and is false by computing, so no state makes it true.
    False,
    /// The goal isn't easy for another reason.
    Hard,
}

/// A goal without its formula.
#[derive(Clone, Copy)]
pub struct GoalName {
    /// The index that asks for the goal.
    pub at: u32,
    /// Why it is asked.
    pub why: Why,
    /// How many branches it is under.
    pub depth: u32,
    /// How it is marked.
    pub mark: Mark,
}
