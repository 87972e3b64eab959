//! Parsed sources.

use crate::insns::SrcInsn;
use crate::labels::Label;
use formula_tree::Form;

/// The instructions, labels and invariants of a source.
#[derive(Debug, PartialEq, Eq, Drop)]
pub struct Source {
    /// The instructions in order, each with the number of its line, from 1.
    pub insns: Vec<(u32, SrcInsn)>,
    /// The labels in order, each with the index of the next instruction, or the number of all
    /// instructions if none follows.
    pub labels: Vec<(Label, u32)>,
    /// The invariants in order, each with the index of its instruction.
    pub invs: Vec<(u32, Form)>,
}
