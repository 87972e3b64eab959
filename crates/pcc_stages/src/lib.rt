//! Steps that commands share: finding a policy, reading containers and packets, and how a run ends.
//!
//! A stage returns its value or a `Stop`, which has a line and an exit status; a `Stop` that
//! refuses is a `RefusedLine`. `specs/Stage` defines what a stage is, `specs/Stages` the result of
//! each stage under its name, `specs/Stops` the lines of stops, and `specs/Answers` what it means
//! that a function returns what a stage gives (`Gives`, `GivesPure`). `Decides` of
//! `specs/Decisions` says how a command made of such stages ends, over whatever a program reports
//! that it has done.
//!
//! How a program's run may end, and what exit status and failure counts imply, are theorems about a
//! request: what the arguments are, what the answer over files is, and which files it reads
//! (`specs/Requests`). `specs/Ends` defines the ways in which a run may end, and `specs/Accounts`
//! what a caller learns from it, sentence by sentence. The layer above shows that its run ends so,
//! and has the sentences by `laws`; a new command adds nothing here.
#![tactic(auto)]

mod agent_stop;
mod containers;
mod files;
mod packets;
mod policies;
mod refused_line;
mod stops;
mod theorems;

pub use agent_stop::AgentStop;
pub use containers::{code_of, container_bytes_of, container_in};
pub use files::{MAX_FILE, MAX_POLICY_FILE, bytes_of, octets};
pub use packets::packets_of;
pub use policies::{policy_named, policy_told};
pub use refused_line::RefusedLine;
pub use stops::{Stop, status_after};
pub use theorems::laws;
