//! How goals are listed.

/// How goals are listed.
#[derive(Drop)]
pub struct Style {
    /// The lines of a source that the instructions are in, by index; empty if no source is given.
    pub lines: Vec<u32>,
    /// Whether goals that are easy are left out, and with them branches without other goals under
    /// them, and parts without other goals.
    pub only_missing: bool,
    /// Whether each goal that isn't easy has hints about each missing conjunct; else only the first
    /// such goal of a part has a hint, about the first.
    pub all: bool,
}

/// What the functions on rows hand on: the step bound and the style.
#[derive(Clone, Copy)]
pub(crate) struct Manner<'a> {
    pub(crate) bound: Option<u32>,
    pub(crate) style: &'a Style,
}
