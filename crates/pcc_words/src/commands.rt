//! The commands of pcc, with their arguments.

/// A policy as a command-line word names it.
#[derive(Clone, Copy, Debug, PartialEq, Eq)]
pub enum PolicyWord<'a> {
    /// The name of a built-in policy; there may be none with this name.
    Named(&'a str),
    /// The name of a policy's file, which follows `@`.
    FromFile(&'a str),
}

/// The arguments of `asm`: `POLICY IN OUT [--v2] [--bound N]`.
#[derive(Clone, Copy, Debug, PartialEq, Eq)]
pub struct AsmArgs<'a> {
    /// The policy's name.
    pub policy: &'a str,
    /// The name of the source's file.
    pub input: &'a str,
    /// The name of the file that is written, which may be the source's file.
    pub output: &'a str,
    /// The container's version: 3 if it has a step bound, else 2 if `--v2` is given, else 1.
    pub version: u32,
    /// The container's step bound, from 1 to `MAX_BOUND`, if it has one.
    pub bound: Option<u32>,
}

/// The arguments of a command that makes one file from another: `POLICY IN OUT`.
#[derive(Clone, Copy, Debug, PartialEq, Eq)]
pub struct CopyArgs<'a> {
    /// The policy's name.
    pub policy: &'a str,
    /// The name of the file that is read.
    pub input: &'a str,
    /// The name of the file that is written, which may be the file that is read.
    pub output: &'a str,
}

/// The arguments of a command that makes one file from another and names no policy: `IN OUT`.
#[derive(Clone, Copy, Debug, PartialEq, Eq)]
pub struct PathArgs<'a> {
    /// The name of the file that is read.
    pub input: &'a str,
    /// The name of the file that is written, which may be the file that is read.
    pub output: &'a str,
}

/// The arguments of `check`: `POLICY FILE`.
#[derive(Clone, Copy, Debug, PartialEq, Eq)]
pub struct CheckArgs<'a> {
    /// The policy, by its name or by its file's name.
    pub policy: PolicyWord<'a>,
    /// The name of the container's file.
    pub file: &'a str,
}

/// The arguments of a command that runs packets: `POLICY FILE PACKETS [--steps N]`.
#[derive(Clone, Copy, Debug, PartialEq, Eq)]
pub struct RunArgs<'a> {
    /// The policy's name.
    pub policy: &'a str,
    /// The name of the container's file.
    pub file: &'a str,
    /// The name of the packet file.
    pub packets: &'a str,
    /// The maximal number of steps for each packet.
    pub steps: u64,
}

/// A command with its arguments.
#[derive(Clone, Copy, Debug, PartialEq, Eq)]
pub enum Command<'a> {
    /// Assembles a source into a container without a proof.
    Asm(AsmArgs<'a>),
    /// Adds a proof to a container.
    Prove(CopyArgs<'a>),
    /// Checks a container.
    Check(CheckArgs<'a>),
    /// Runs accepted code on packets, by the host that tests no access.
    Run(RunArgs<'a>),
    /// Runs code on packets, by the machine that tests each access.
    Ref(RunArgs<'a>),
    /// Makes a source with so many loads, proves, checks and runs it.
    Demo(u64),
    /// Makes a container of version 2 from one of version 1.
    Upgrade(PathArgs<'a>),
    /// Runs the agents that the script in the file of this name loads, by turns, by the host that
    /// tests no access.
    Host(&'a str),
    /// Compiles a program of classic BPF to an accepted container.
    Bpf(PathArgs<'a>),
}
