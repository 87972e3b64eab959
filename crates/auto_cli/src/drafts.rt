//! What IN is: a container as it stands, or the one that a source is assembled into.

ghost use Rattle.std.specs.Prelude.{◌≡◌, false, IfOk};
ghost use Rattle.pcc_gate.specs.First.{lemma_refusal};
ghost use Rattle.pcc_stages.specs.Answers.{GivesPure};
ghost use Rattle.pcc_words.specs.Commands.{IsVersionOf};
ghost use Rattle.auto_cli.specs.Arguments.{auto_args_view};
ghost use Rattle.auto_cli.specs.Drafts.{is_container, has_vain_flags, is_mended};
ghost use Rattle.auto_cli.specs.Drafts.{draft_with, draft_from, container_from, draft_in};

use crate::arguments::AutoArgs;
use asm_text::MAX_SOURCE;
use pcc_commands::assembled_in;
use pcc_gate::{GateFault, Refusal, front_with_lemmas};
use pcc_stages::{RefusedLine, Stop};
use policy_set::Policy;
use std::alloc::{AllocError, Global};

/// Whether the bytes begin as a container does.
#[tactic(auto, unfolding(crate::specs::Drafts::is_container))]
fn is_container(bytes: &[u8]) -> bool
    ensures { result ≡ is_container bytes.now }
{
    bytes.starts_with(b"PCCA")
}

/// Returns whether a flag is given, and what was read is a container.
pub(crate) fn has_vain_flags(args: &AutoArgs<'_>, bytes: &[u8]) -> bool
    ensures { result ≡ has_vain_flags (auto_args_view args.now) bytes.now }
{
    args.flagged && is_container(bytes)
}

/// Whether invariants may mend what the checker refuses.
fn is_mended(refusal: &Refusal) -> bool
    ensures { result ≡ is_mended refusal.now }
{
    match refusal {
        Refusal::Uncut(_) => true,
        Refusal::UnfoldLimit(_) => true,
        _ => false,
    }
}

/// What is refused of the bytes by the checks up to the invariants, or by those of the lemmas.
///
/// Errors: out of memory, or too many results are cached.
fn refusal_of(alloc: Global, policy: &Policy, bytes: &[u8]) -> Result<Option<Refusal>, AllocError>
    ensures { IfOk result (λ o. lemma_refusal policy.now bytes.now ≡ o) }
{
    match front_with_lemmas(alloc, true, policy, bytes) {
        Ok(_) => Ok(None),
        Err(GateFault::Refused(refusal)) => Ok(Some(refusal)),
        Err(GateFault::Memory | GateFault::Results) => Err(AllocError),
    }
}

/// Returns the bytes, unless a check up to the invariants fails, or one of the lemmas alone.
fn checked<'a>(alloc: Global, policy: &Policy, bytes: Vec<u8>) -> Result<Vec<u8>, Stop<'a>>
    ensures { GivesPure (λ v. draft_with policy.now v.items)
        (draft_from policy.now bytes.items) result }
{
    match refusal_of(alloc, policy, &bytes) {
        Ok(None) => Ok(bytes),
        Ok(Some(refusal)) => {
            if is_mended(&refusal) {
                Ok(bytes)
            } else {
                Err(Stop::Refused(RefusedLine::Container(refusal)))
            }
        }
        Err(_) => Err(Stop::Memory),
    }
}

/// The container that the bytes are, or that the source in them is assembled into.
fn container_from<'a>(
    alloc: Global,
    args: &AutoArgs<'a>,
    policy: &Policy,
    bytes: Vec<u8>,
) -> Result<Vec<u8>, Stop<'a>>
    requires fits { IsVersionOf args.now.bound args.now.version }
    ensures { GivesPure (λ v. v.items)
        (container_from (auto_args_view args.now) policy.now bytes.items) result }
{
    if is_container(&bytes) {
        return Ok(bytes);
    }
    if bytes.len() > MAX_SOURCE {
        return Err(Stop::Refused(RefusedLine::SourceTooLong));
    }
    assembled_in(alloc, args.version, args.bound, policy, &bytes)
}

/// Returns the container that was read, or the one that the source which was read is assembled
/// into, unless it is refused.
pub(crate) fn draft_in<'a>(
    alloc: Global,
    args: &AutoArgs<'a>,
    policy: &Policy,
    bytes: Vec<u8>,
) -> Result<Vec<u8>, Stop<'a>>
    requires fits { IsVersionOf args.now.bound args.now.version }
    requires flags { has_vain_flags (auto_args_view args.now) bytes.items ≡ false }
    ensures { GivesPure (λ v. draft_with policy.now v.items)
        (draft_in (auto_args_view args.now) policy.now bytes.items) result }
{
    let container = match container_from(alloc, args, policy, bytes) {
        Ok(container) => container,
        Err(stop) => return Err(stop),
    };
    checked(alloc, policy, container)
}
