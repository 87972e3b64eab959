//! `run POLICY FILE PACKETS [--steps N]`: runs accepted code on packets, by the host that tests no
//! access.

ghost use Rattle.std.specs.Prelude.{◌≡◌, Some, IfSome};
ghost use Rattle.packet_store.specs.Results.{packet_result};
ghost use Rattle.safe_host.specs.Runners.{host_results};
ghost use Rattle.pcc_words.specs.Invocations.{run};
ghost use Rattle.pcc_stages.specs.Decisions.{Decides};
ghost use Rattle.pcc_stages.specs.Answers.{Gives};
ghost use Rattle.pcc_commands.specs.Tasks.{stage_of};
ghost use Rattle.pcc_commands.specs.Inside.Behind.{results_on, run_under};
ghost use Rattle.pcc_commands.specs.Reports.{report_exit, effect_of};

use crate::report::{Job, Report};
use crate::stages::accepted_of;
use file_port::Files;
use pcc_gate::Accepted;
use pcc_stages::{Stop, packets_of, policy_named};
use pcc_words::RunArgs;
use policy_set::Policy;
use safe_host::{Host, HostRunner};
use std::alloc::Global;

/// Returns a runner of accepted code, with the arena reserved; None if it is out of memory.
fn runner_of(alloc: Global, accepted: Accepted, steps: u64) -> Option<HostRunner>
    ensures { IfSome result (λ runner. host_results runner
        ≡ packet_result accepted.policy accepted.code steps) }
{
    match Host::new(alloc, accepted) {
        Ok(host) => Some(HostRunner::new(host, steps)),
        Err(_) => None,
    }
}

/// Reads the packets, and reserves all that the runs of the accepted code need.
fn results_of<'a, F: Files>(
    alloc: Global,
    accepted: Accepted,
    args: RunArgs<'a>,
    files: &mut F,
) -> Result<Report, Stop<'a>>
    ensures { let a = args.entry in
        Gives effect_of (results_on a.packets.now a.steps accepted.policy accepted.code)
        (F.log files.old) (F.log files.new) (F.state files.old) (F.state files.new) result }
{
    let under = accepted.policy().kind();
    let packets = match packets_of(alloc, args.packets, files) {
        Ok(packets) => packets,
        Err(stop) => {
            drop(accepted);
            return Err(stop);
        }
    };
    match runner_of(alloc, accepted, args.steps) {
        Some(runner) => Ok(Report::Hosted(Job {
            kind: under,
            runner,
            packets,
        })),
        None => Err(Stop::Memory),
    }
}

/// Reads the container and judges it under the policy, and reads the packets.
fn run_under<'a, F: Files>(
    alloc: Global,
    policy: &Policy,
    args: RunArgs<'a>,
    files: &mut F,
) -> Result<Report, Stop<'a>>
    ensures { let a = args.entry in
        Gives effect_of (run_under a.file.now a.packets.now a.steps policy.now)
        (F.log files.old) (F.log files.new) (F.state files.old) (F.state files.new) result }
{
    let accepted = accepted_of(alloc, policy, args.file, files)?;
    results_of(alloc, accepted, args, files)
}

/// Reads the container and checks it, reads the packets, and reserves all memory that the runs
/// need.
pub fn run_command<'a, F: Files>(
    alloc: Global,
    args: RunArgs<'a>,
    files: &mut F,
) -> Result<Report, Stop<'a>>
    ensures { let a = args.entry in
        Decides report_exit (stage_of (run a.policy.now a.file.now a.packets.now a.steps))
        (F.log files.old) (F.log files.new) (F.state files.old) (F.state files.new) result }
{
    let policy = policy_named(alloc, args.policy)?;
    run_under(alloc, &policy, args, files)
}
