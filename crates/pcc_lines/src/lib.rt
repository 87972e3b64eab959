//! Prints each output line of the programs, acceptance and refusals among them, as specified.
//!
//! Each function has one clause: it writes the line, or a prefix of it if a write fails. A line is
//! made in a fixed buffer and written as one piece; a line with a name is three pieces. No call
//! takes memory. The parts that lines are made of (`Line`, `push_text`, `push_decimal`, `push_hex`)
//! serve lines of other crates too. A file of `src/` has its definitions in the file of `specs/`
//! with its name: lines that never vary (`Fixed`), lines with a name (`Named`), faults of packet
//! files (`PacketFaults`), why there is no proof (`Proving`), refusals (`Refusals`), result lines
//! (`Results`), lines about a source (`Sources`), faults of programs of classic BPF (`Bpf`), faults
//! of scripts (`Scripts`), faults of policies from files (`Policies`), lines of agents (`Agents`),
//! and the lines of `demo` (`Demo`). The crates that define the kinds of faults, and the measures,
//! have their names.
#![tactic(auto)]

mod agents;
mod bpf;
mod demo;
mod fixed;
mod line;
mod named;
mod packet_faults;
mod policies;
mod proving;
mod refusals;
mod results;
mod scripts;
mod sources;

pub use agents::{
    print_agent_no_packet, print_agent_packet_fault, print_agent_packets_too_long,
    print_agent_refusal, print_agent_short, print_agent_too_long, print_agent_unknown_policy,
    print_turn,
};
pub use bpf::print_bpf_flaw;
pub use demo::{DemoSummary, print_demo};
pub use fixed::{
    print_accepted, print_already, print_bpf_too_long, print_container_too_long,
    print_packets_too_long, print_policy_too_long, print_script_too_long, print_source_too_long,
    print_unknown_policy, print_usage,
};
pub use line::{DIGITS, LINE, Line, push_decimal, push_hex, push_text};
pub use named::{print_missing, print_read_fault, print_write_fault};
pub use packet_faults::print_packet_fault;
pub use policies::{MAX_FORM_KIND, print_policy_form, print_policy_length, print_policy_lines};
pub use proving::{MAX_MEASURE, print_not_easy, print_too_big};
pub use refusals::{print_refusal, refusal_number};
pub use results::{print_result, print_results};
pub use scripts::{MAX_SCRIPT_KIND, print_script_fault};
pub use sources::{MAX_SOURCE_KIND, print_source_fault, print_written};
