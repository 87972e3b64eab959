//! `demo N`: assembles, proves and checks a source of N loads and a loop, and runs it on 16
//! packets.

ghost use Rattle.std.specs.Prelude.{◌≡◌, ◌≤◌, ◌<◌, IfOk, Some, length};
ghost use Rattle.packet_store.specs.declared.reader.TheConstants.{MAX_PACKET};
ghost use Rattle.packet_store.specs.PolicyStarts.{start_of};
ghost use Rattle.pcc_words.specs.Invocations.{demo};
ghost use Rattle.pcc_demo.specs.declared.sources.TheConstants.{MAX_DEMO};
ghost use Rattle.pcc_demo.specs.declared.packets.TheConstants.{PACKETS};
ghost use Rattle.pcc_demo.specs.Packets as packets;
ghost use Rattle.safe_host.specs.Runs.{outcome_of};
ghost use Rattle.pcc_stages.specs.Answers.{GivesPure};
ghost use Rattle.pcc_stages.specs.Decisions.{Decides};
ghost use Rattle.pcc_commands.specs.Commands.Demo.{ones_of, count_from, packet_counts, summary_of};
ghost use Rattle.pcc_commands.specs.Commands.Demo.{demo_container, demo_told, demo_effect};
ghost use Rattle.pcc_commands.specs.Tasks.{stage_of};
ghost use Rattle.pcc_commands.specs.Reports.{report_exit, effect_of};
ghost use Rattle.pcc_commands.specs.Inside.Shows.{shown_by};

use crate::report::Report;
use crate::stages::{accepted_in, assembled_in, proved_in};
use file_port::Files;
use pcc_demo::{PACKETS, demo_packet, demo_source};
use pcc_gate::Accepted;
use pcc_lines::DemoSummary;
use pcc_stages::{Stop, policy_named};
use policy_set::Policy;
use safe_host::{Ended, Host};
use std::alloc::{AllocError, Global};

/// The maximal number of steps for each packet.
pub const DEMO_STEPS: u64 = 1_000_000;

/// The results of runs, counted.
#[derive(Clone, Copy, Debug, PartialEq, Eq)]
pub struct Counts {
    /// The number of steps of all runs (a return counts).
    pub steps: u64,
    /// The number of runs that returned 1.
    pub ones: u64,
}

/// Returns 1 if a run returned 1, else 0.
fn one_where(ended: Ended) -> u64
    ensures exact { result ≡ ones_of (outcome_of ended) }
    ensures few { result ≤ 1 }
{
    match ended {
        Ended::Returned(word) => u64::from(word == 1),
        Ended::OutOfSteps => 0,
    }
}

/// Runs the code of the host on a packet with at most `budget` steps, and counts them.
fn count(host: &mut Host, packet: &[u8], budget: u64) -> Counts
    requires { length packet.now ≤ MAX_PACKET }
    ensures exact { result ≡ count_from host.old.accepted.code budget
        (start_of host.old.accepted.policy packet.now) }
    ensures steps { result.steps ≤ budget }
    ensures ones { result.ones ≤ 1 }
    ensures accepted { host.new.accepted ≡ host.old.accepted }
{
    if !host.load(packet) {
        return Counts { steps: 0, ones: 0 };
    }
    let counted = host.run_counted(budget);
    Counts {
        steps: counted.steps,
        ones: one_where(counted.ended),
    }
}

/// Runs the code of the host on packet `k` of `demo n`, and counts. Errors: out of memory.
fn count_at(
    alloc: Global,
    host: &mut Host,
    n: u32,
    k: u32,
    budget: u64,
) -> Result<Counts, AllocError>
    requires loads { n ≤ MAX_DEMO }
    requires number { k < PACKETS }
    ensures exact { IfOk result (λ one. one ≡ count_from host.old.accepted.code budget
        (start_of host.old.accepted.policy (packets.demo_packet n k))) }
    ensures steps { IfOk result (λ one. one.steps ≤ budget) }
    ensures ones { IfOk result (λ one. one.ones ≤ 1) }
    ensures accepted { host.new.accepted ≡ host.old.accepted }
{
    let packet = demo_packet(alloc, n, k)?;
    Ok(count(host, &packet, budget))
}

/// Runs the code of the host on all packets of `demo n`, and counts. Errors: out of memory.
fn count_all(alloc: Global, host: &mut Host, n: u32, budget: u64) -> Result<Counts, AllocError>
    requires loads { n ≤ MAX_DEMO }
    requires budget { budget ≤ DEMO_STEPS }
    ensures { IfOk result (λ counts. counts
        ≡ packet_counts host.old.accepted.policy host.old.accepted.code budget n PACKETS) }
{
    let mut all = Counts { steps: 0, ones: 0 };
    for k in 0..PACKETS {
        let one = count_at(alloc, host, n, k, budget)?;
        all = Counts {
            steps: all.steps + one.steps,
            ones: all.ones + one.ones,
        };
    }
    Ok(all)
}

/// Runs accepted code on all packets of `demo n`, and counts. Errors: out of memory.
fn counts_of(alloc: Global, accepted: Accepted, n: u32) -> Result<Counts, AllocError>
    requires { n ≤ MAX_DEMO }
    ensures { IfOk result (λ counts. counts
        ≡ packet_counts accepted.policy accepted.code DEMO_STEPS n PACKETS) }
{
    let mut host = Host::new(alloc, accepted)?;
    let counts = count_all(alloc, &mut host, n, DEMO_STEPS);
    drop(host);
    counts
}

/// Runs accepted code, and returns the figures about it.
fn summary(alloc: Global, accepted: Accepted, n: u32) -> Result<DemoSummary, AllocError>
    requires { n ≤ MAX_DEMO }
    ensures { IfOk result (λ told. told ≡ summary_of accepted.policy n (shown_by accepted)) }
{
    let words = u64::from(accepted.cut().code().count());
    let invariants = accepted.invs().len() as u64;
    let counts = counts_of(alloc, accepted, n)?;
    Ok(DemoSummary {
        words,
        invariants,
        packets: u64::from(PACKETS),
        steps: counts.steps,
        ones: counts.ones,
    })
}

/// The container of the source, with its proof.
fn proved_demo<'a>(alloc: Global, policy: &Policy, n: u32) -> Result<Vec<u8>, Stop<'a>>
    requires { n ≤ MAX_DEMO }
    ensures { GivesPure (λ bytes. bytes.items) (demo_container policy.now n) result }
{
    let Ok(source) = demo_source(alloc, n) else {
        return Err(Stop::Memory);
    };
    let container = match assembled_in(alloc, 1, None, policy, &source) {
        Ok(container) => container,
        Err(stop) => return Err(stop),
    };
    proved_in(alloc, policy, &container)
}

/// Makes, proves, checks and runs the container of `demo n`, and returns the figures about it.
fn told<'a>(alloc: Global, policy: &Policy, n: u32) -> Result<DemoSummary, Stop<'a>>
    requires { n ≤ MAX_DEMO }
    ensures { GivesPure (λ told. told) (demo_told policy.now n) result }
{
    let container = match proved_demo(alloc, policy, n) {
        Ok(container) => container,
        Err(stop) => return Err(stop),
    };
    let accepted = match accepted_in(alloc, policy, &container) {
        Ok(accepted) => accepted,
        Err(stop) => return Err(stop),
    };
    match summary(alloc, accepted, n) {
        Ok(told) => Ok(told),
        Err(_) => Err(Stop::Memory),
    }
}

/// The report of it.
fn report<'a>(alloc: Global, policy: &Policy, n: u32) -> Result<Report, Stop<'a>>
    requires { n ≤ MAX_DEMO }
    ensures { GivesPure effect_of (demo_effect policy.now n) result }
{
    match told(alloc, policy, n) {
        Ok(told) => Ok(Report::Demo(told)),
        Err(stop) => Err(stop),
    }
}

/// Makes the source, proves it, checks it and runs it; takes all memory before the first line.
pub fn demo_command<'a, F: Files>(alloc: Global, n: u64, files: &mut F) -> Result<Report, Stop<'a>>
    requires { n ≤ MAX_DEMO }
    ensures { Decides report_exit (stage_of (demo n))
        (F.log files.old) (F.log files.new) (F.state files.old) (F.state files.new) result }
{
    let _ = files; // only the clause speaks of them
    let policy = policy_named(alloc, "filter")?;
    report(alloc, &policy, n as u32)
}
