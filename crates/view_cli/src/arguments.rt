//! The commands of pcc_view, with their arguments.

use pcc_words::PolicyWord;
use word_ops::Profile;

/// The arguments of `list`: `FILE [SOURCE]`.
#[derive(Clone, Copy, Debug, PartialEq, Eq)]
pub struct ListArgs<'a> {
    /// The name of the container's file.
    pub file: &'a str,
    /// The name of the source file that the container was assembled from, if it is given.
    pub source: Option<&'a str>,
}

/// The arguments of `goals`: `POLICY FILE [SOURCE] [--only-missing] [--all]`.
#[derive(Clone, Copy, Debug, PartialEq, Eq)]
pub struct GoalsArgs<'a> {
    /// The policy, by its name or by its file's name.
    pub policy: PolicyWord<'a>,
    /// The name of the container's file.
    pub file: &'a str,
    /// The name of the source file that the container was assembled from, if it is given.
    pub source: Option<&'a str>,
    /// Whether goals that are easy are left out.
    pub only_missing: bool,
    /// Whether each goal that isn't easy has hints about all that is missing.
    pub all: bool,
}

/// The arguments of `packet`: `POLICY FILE PACKETS K [--steps N]`.
#[derive(Clone, Copy, Debug, PartialEq, Eq)]
pub struct PacketArgs<'a> {
    /// The policy, by its name or by its file's name.
    pub policy: PolicyWord<'a>,
    /// The name of the container's file.
    pub file: &'a str,
    /// The name of the packet file.
    pub packets: &'a str,
    /// The number of the packet, from 0.
    pub number: u64,
    /// The maximal number of steps of the packet's run.
    pub steps: u64,
}

/// The arguments of `formula`: `FILE [--v2] [--bound]`.
#[derive(Clone, Copy, Debug, PartialEq, Eq)]
pub struct FormulaArgs<'a> {
    /// The name of the formula's file.
    pub file: &'a str,
    /// The profile of the operators that the formula may have: the second if `--v2` or `--bound` is
    /// given, else the first.
    pub profile: Profile,
    /// Whether the formula may name the remaining steps, as `--bound` says.
    pub left: bool,
}

/// The arguments of `source`: `FILE [--v2] [--bound N]`.
#[derive(Clone, Copy, Debug, PartialEq, Eq)]
pub struct SourceArgs<'a> {
    /// The name of the source's file.
    pub file: &'a str,
    /// The version of the container that the source is for: 3 if it has a step bound, else 2 if
    /// `--v2` is given, else 1.
    pub version: u32,
    /// The step bound of that container, from 1 to `MAX_BOUND` of pcc_words, if it has one.
    pub bound: Option<u32>,
}

/// A command with its arguments.
#[derive(Clone, Copy, Debug, PartialEq, Eq)]
pub enum Command<'a> {
    /// Lists a container.
    List(ListArgs<'a>),
    /// Lists the goals of a container's verification condition under a policy.
    Goals(GoalsArgs<'a>),
    /// Shows the run of a packet step by step.
    Packet(PacketArgs<'a>),
    /// Shows the formula in a file, or what is wrong with it.
    Formula(FormulaArgs<'a>),
    /// Shows the policy in the file with this name, or what is wrong with it.
    PolicyText(&'a str),
    /// Shows what is in a source, or what is wrong with it.
    Source(SourceArgs<'a>),
    /// Shows how to call the program.
    Help,
    /// Shows the program's version.
    Version,
}
