//! What a command that is done prints.

ghost use Rattle.file_port.specs.Sink.{Puts};
ghost use Rattle.pcc_lines.specs.Results.{result_lines};
ghost use Rattle.pcc_commands.specs.Reports.{report_text};

use crate::turns::TurnJob;
use file_port::{Put, Sink};
use packet_store::{PacketFile, PacketRunner, TestingRunner};
use pcc_lines::{DemoSummary, print_accepted, print_demo, print_results, print_written};
use policy_set::PolicyKind;
use safe_host::HostRunner;

/// A runner for packets, the packets of a file, and the kind of the policy that they are run under.
/// All memory that the runs need is reserved.
#[derive(Drop)]
pub struct Job<R> {
    pub kind: Option<PolicyKind>,
    pub runner: R,
    pub packets: PacketFile,
}

impl<R: PacketRunner + Drop> Job<R> {
    /// Runs the packets, and prints the result line of each; stops at the first write that fails.
    fn print<S: Sink>(self, out: &mut S) -> Put
        ensures { Puts (result_lines self.kind (R.results self.runner) 0 self.packets)
            (S.state out.old) (S.state out.new) result }
    {
        let Job {
            kind,
            runner,
            packets,
        } = self;
        let mut runner = runner;
        print_results(kind, &mut runner, packets.packets(), out)
    }
}

/// What a command that is done prints.
#[derive(Drop)]
pub enum Report {
    /// The container is accepted.
    Accepted,
    /// So many bytes were written.
    Written(u64),
    /// The result line of each packet, run by the machine that tests each access.
    Results(Job<TestingRunner>),
    /// The result line of each packet, run by the host that tests no access.
    Hosted(Job<HostRunner>),
    /// The line of each turn of agents, run by the host that tests no access.
    Turns(TurnJob),
    /// The figures about the runs of `demo`.
    Demo(DemoSummary),
}

impl Report {
    /// Makes the report's lines and prints them; stops at the first write that fails.
    pub fn print<S: Sink>(self, out: &mut S) -> Put
        ensures { Puts (report_text self) (S.state out.old) (S.state out.new) result }
    {
        match self {
            Report::Accepted => print_accepted(out),
            Report::Written(count) => print_written(count, out),
            Report::Results(job) => job.print(out),
            Report::Hosted(job) => job.print(out),
            Report::Turns(job) => job.print(out),
            Report::Demo(summary) => print_demo(summary, out),
        }
    }
}
