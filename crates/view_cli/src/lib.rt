//! The verified program pcc_view, with its command line: displays containers, goals, runs and parse
//! errors.
//!
//! The top call is `pcc_view`; the program, view_main, calls it over the real files and output.
//! `specs/Tasks` says what arguments ask for, over a stage for each command in `specs/Commands`;
//! `specs/Headline` says what a run of each command shows, and `specs/Texts` has the lines on how
//! to call the program. How a run ends, and what that says about exit status and counts, is defined
//! in pcc_stages, as for pcc.
//!
//! The arguments are parsed by `clap`. `read_arguments` returns the command that they are by
//! `view_command_of`, of `specs/Invocations`. There clap's own definitions at the literal command
//! line give the arguments of a command; words that ask for help (`asks_help`), and `--version` as the
//! only argument, are commands too. A `ViewInvocation` is a command with its values, without where
//! they lie in memory; `view_invocation_of` and `IsInViewRange` are defined in `specs/Arguments`.
#![tactic(auto)]

mod arguments;
mod builders;
mod commands;
mod limits;
mod report;
mod texts;
mod top_call;
mod trace_job;
mod values;
mod words;

pub use arguments::{Command, FormulaArgs, GoalsArgs, ListArgs, PacketArgs, SourceArgs};
pub use limits::{MAX_FORMULA, MAX_PACKET_NUMBER};
pub use top_call::{laws, pcc_view};
pub use words::read_arguments;
