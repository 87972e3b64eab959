//! Reports on texts.

/// What is reported about a text.
#[derive(Debug, PartialEq, Eq, Drop)]
pub struct Report {
    /// Whether the text is right.
    pub right: bool,
    /// The report: whole lines of text, each with its LF.
    pub text: Vec<u8>,
}
