//! Stages that read a container: its bytes, its contents, and its code for a policy.

ghost use Rattle.std.specs.Prelude.{IfOk};
ghost use Rattle.proof_container.specs.Views.{contents_of};
ghost use Rattle.pcc_stages.specs.Stages.Containers as containers;
ghost use Rattle.pcc_stages.specs.Answers.{Gives, GivesPure, HasWholeCode};

use crate::files::{MAX_FILE, bytes_of};
use crate::refused_line::RefusedLine;
use crate::stops::Stop;
use alpha_cfg::{Code, CodeFault};
use file_port::Files;
use pcc_gate::{Refusal, is_for};
use policy_set::Policy;
use proof_container::{Container, Malformed, profile_of, read};
use std::alloc::Global;

/// Reads the bytes of the container file with this name.
pub fn container_bytes_of<'a, F: Files>(
    alloc: Global,
    name: &'a str,
    files: &mut F,
) -> Result<Vec<u8>, Stop<'a>>
    ensures { Gives (λ bytes. bytes.items) (containers.container_bytes_of name.entry.now)
        (F.log files.old) (F.log files.new) (F.state files.old) (F.state files.new) result }
{
    bytes_of(alloc, name, MAX_FILE, RefusedLine::ContainerTooLong, files)
}

/// Parses the bytes as a container, and returns it if it is for the policy.
#[tactic(auto, unfolding(crate::specs::Stages::Containers::container_in))]
pub fn container_in<'a, 'b>(
    alloc: Global,
    policy: &Policy,
    bytes: &'b [u8],
) -> Result<Container<'b>, Stop<'a>>
    ensures exact { GivesPure contents_of
        (containers.container_in policy.now bytes.entry.now) result }
    ensures code { IfOk result (λ container. HasWholeCode container.code.now) }
{
    match read(alloc, bytes) {
        Ok(container) => match is_for(alloc, policy, container.head) {
            Ok(true) => Ok(container),
            Ok(false) => Err(Stop::Refused(RefusedLine::Container(Refusal::OtherPolicy(
                container.head,
            )))),
            Err(_) => Err(Stop::Memory),
        },
        Err(Malformed::At(offset, flaw)) => Err(Stop::Refused(RefusedLine::Container(
            Refusal::Malformed(offset, flaw),
        ))),
        Err(Malformed::Memory) => Err(Stop::Memory),
    }
}

/// Returns the code of the container in the bytes if it is for the policy.
fn code_in<'a>(alloc: Global, policy: &Policy, bytes: &[u8]) -> Result<Code, Stop<'a>>
    ensures { GivesPure (λ code. code) (containers.code_in policy.now bytes.now) result }
{
    let container = match container_in(alloc, policy, bytes) {
        Ok(container) => container,
        Err(stop) => return Err(stop),
    };
    let profile = profile_of(container.version);
    match Code::of(alloc, container.code, profile) {
        Ok(code) => Ok(code),
        Err(CodeFault::At(flaw)) => Err(Stop::Refused(RefusedLine::Container(Refusal::BadCode(
            flaw,
        )))),
        Err(CodeFault::Memory) => Err(Stop::Memory),
    }
}

/// Reads the container file with this name, and returns its code if the container is for the
/// policy.
pub fn code_of<'a, F: Files>(
    alloc: Global,
    policy: &Policy,
    name: &'a str,
    files: &mut F,
) -> Result<Code, Stop<'a>>
    ensures { Gives (λ code. code) (containers.code_of policy.now name.entry.now)
        (F.log files.old) (F.log files.new) (F.state files.old) (F.state files.new) result }
{
    let bytes = container_bytes_of(alloc, name, files)?;
    code_in(alloc, policy, &bytes)
}
