//! `ref POLICY FILE PACKETS [--steps N]`: runs the code of a container on packets, by the machine
//! that tests every access.

ghost use Rattle.pcc_words.specs.Invocations.{ref};
ghost use Rattle.pcc_stages.specs.Decisions.{Decides};
ghost use Rattle.pcc_stages.specs.Answers.{Gives};
ghost use Rattle.pcc_commands.specs.Tasks.{stage_of};
ghost use Rattle.pcc_commands.specs.Inside.Behind.{results_on};
ghost use Rattle.pcc_commands.specs.Reports.{report_exit, effect_of};

use crate::report::{Job, Report};
use alpha_cfg::Code;
use file_port::Files;
use packet_store::TestingRunner;
use pcc_stages::{Stop, code_of, packets_of, policy_named};
use pcc_words::RunArgs;
use policy_set::Policy;
use std::alloc::Global;

/// Reads the packets, and reserves all that the runs of the code need.
fn results_of<'a, F: Files>(
    alloc: Global,
    policy: Policy,
    code: Code,
    args: RunArgs<'a>,
    files: &mut F,
) -> Result<Report, Stop<'a>>
    ensures { let a = args.entry in
        Gives effect_of (results_on a.packets.now a.steps policy code)
        (F.log files.old) (F.log files.new) (F.state files.old) (F.state files.new) result }
{
    let under = policy.kind();
    let packets = match packets_of(alloc, args.packets, files) {
        Ok(packets) => packets,
        Err(stop) => {
            drop(policy);
            drop(code);
            return Err(stop);
        }
    };
    match TestingRunner::new(alloc, policy, code, args.steps) {
        Ok(runner) => Ok(Report::Results(Job {
            kind: under,
            runner,
            packets,
        })),
        Err(_) => Err(Stop::Memory),
    }
}

/// Reads the container and the packets, and reserves all memory that the runs need.
pub fn ref_command<'a, F: Files>(
    alloc: Global,
    args: RunArgs<'a>,
    files: &mut F,
) -> Result<Report, Stop<'a>>
    ensures { let a = args.entry in
        Decides report_exit (stage_of (ref a.policy.now a.file.now a.packets.now a.steps))
        (F.log files.old) (F.log files.new) (F.state files.old) (F.state files.new) result }
{
    let policy = policy_named(alloc, args.policy)?;
    let code = code_of(alloc, &policy, args.file, files)?;
    results_of(alloc, policy, code, args, files)
}
