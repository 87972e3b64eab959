//! Stages that find the policy that a word names.

ghost use Rattle.pcc_words.specs.Commands.{word_view};
ghost use Rattle.pcc_stages.specs.Stages.Common as common;
ghost use Rattle.pcc_stages.specs.Stages.Policies as policies;
ghost use Rattle.pcc_stages.specs.Answers.{Gives, GivesPure};

use crate::files::{MAX_POLICY_FILE, bytes_of};
use crate::refused_line::RefusedLine;
use crate::stops::Stop;
use file_port::Files;
use pcc_words::PolicyWord;
use policy_set::{Policy, PolicyFault, PolicyFlaw, by_name, read_policy};
use std::alloc::Global;

/// Returns the built-in policy with this name; stops if there is none.
pub fn policy_named<'a>(alloc: Global, name: &str) -> Result<Policy, Stop<'a>>
    ensures { GivesPure (λ policy. policy) (common.policy_named name.now) result }
{
    match by_name(alloc, name) {
        Ok(Some(policy)) => Ok(policy),
        Ok(None) => Err(Stop::Refused(RefusedLine::UnknownPolicy)),
        Err(_) => Err(Stop::Memory),
    }
}

/// The policy that the bytes spell.
#[tactic(auto, unfolding(crate::specs::Stages::Policies::policy_in))]
fn policy_in<'a>(alloc: Global, bytes: &[u8]) -> Result<Policy, Stop<'a>>
    ensures { GivesPure (λ policy. policy) (policies.policy_in bytes.now) result }
{
    match read_policy(alloc, bytes) {
        Ok(policy) => Ok(policy),
        Err(PolicyFault::At(PolicyFlaw::Lines(count))) => {
            Err(Stop::Refused(RefusedLine::PolicyLines(count as u64)))
        }
        Err(PolicyFault::At(PolicyFlaw::Length(line))) => {
            Err(Stop::Refused(RefusedLine::PolicyLength(line)))
        }
        Err(PolicyFault::At(PolicyFlaw::Form(line, position, flaw))) => Err(Stop::Refused(
            RefusedLine::PolicyForm(line, position as u64, flaw),
        )),
        Err(PolicyFault::Memory) => Err(Stop::Memory),
    }
}

/// The policy that the file of the name spells.
fn policy_from<'a, F: Files>(
    alloc: Global,
    name: &'a str,
    files: &mut F,
) -> Result<Policy, Stop<'a>>
    ensures { Gives (λ policy. policy) (policies.policy_from name.entry.now)
        (F.log files.old) (F.log files.new) (F.state files.old) (F.state files.new) result }
{
    let bytes = bytes_of(
        alloc,
        name,
        MAX_POLICY_FILE,
        RefusedLine::PolicyTooLong,
        files,
    )?;
    policy_in(alloc, &bytes)
}

/// Returns the policy that the word names: a built-in policy by its name, or the policy in a file.
pub fn policy_told<'a, F: Files>(
    alloc: Global,
    word: PolicyWord<'a>,
    files: &mut F,
) -> Result<Policy, Stop<'a>>
    ensures { Gives (λ policy. policy) (policies.policy_told (word_view word.entry))
        (F.log files.old) (F.log files.new) (F.state files.old) (F.state files.new) result }
{
    match word {
        PolicyWord::Named(name) => policy_named(alloc, name),
        PolicyWord::FromFile(name) => policy_from(alloc, name, files),
    }
}
