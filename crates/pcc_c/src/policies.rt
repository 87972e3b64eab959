//! The policy that bytes give, and its digest.

ghost use Rattle.std.specs.Prelude.{◌≡◌, IfOk, take};
ghost use Rattle.policy_set.specs.Names.{policy_of};
ghost use Rattle.pcc_c.specs.Statuses.{IsNoMemory};
ghost use Rattle.pcc_c.specs.Policies.{policy_reason, policy_given, policy_for, digest_answer};
ghost use Rattle.pcc_c.specs.Buffers.{AnswersIn};
ghost use Rattle.pcc_c.specs.Inside.Answers.{IsDue};

use crate::buffers::tell;
use crate::fault::Fault;
use crate::reason::Reason;
use policy_set::{Policy, PolicyFault, PolicyFlaw, PolicyKind, digest, read_policy};
use proof_container::is_numbered;
use std::alloc::{AllocError, Global};

/// Returns the built-in policy with this name, or None. Errors: out of memory.
fn policy_named(alloc: Global, name: &[u8]) -> Result<Option<Policy>, AllocError>
    ensures { IfOk result (λ found. found ≡ policy_of name.now) }
{
    match PolicyKind::named(name) {
        Some(kind) => Ok(Some(Policy::of(alloc, kind)?)),
        None => Ok(None),
    }
}

/// Returns why bytes with this error give no policy: at most one line is taken for a name, and more
/// for a policy file.
fn policy_reason(flaw: PolicyFlaw) -> Reason
    ensures { result ≡ policy_reason flaw }
{
    match flaw {
        PolicyFlaw::Lines(count) => {
            if count < 2 {
                Reason::UnknownPolicy
            } else {
                Reason::BadPolicy(PolicyFlaw::Lines(count))
            }
        }
        PolicyFlaw::Length(line) => Reason::BadPolicy(PolicyFlaw::Length(line)),
        PolicyFlaw::Form(line, at, what) => Reason::BadPolicy(PolicyFlaw::Form(line, at, what)),
    }
}

/// Returns the policy that the bytes give: the name of a built-in policy, or the two lines of a
/// policy file. Errors: they give none, or out of memory.
pub fn policy_given(alloc: Global, given: &[u8]) -> Result<Policy, Fault>
    ensures { IsDue ⊥ (λ policy. policy) (policy_given given.now) result }
{
    if let Some(policy) = policy_named(alloc, given)? {
        return Ok(policy);
    }
    match read_policy(alloc, given) {
        Ok(policy) => Ok(policy),
        Err(PolicyFault::At(flaw)) => Err(Fault::At(policy_reason(flaw))),
        Err(PolicyFault::Memory) => Err(Fault::Memory),
    }
}

/// Returns the policy that the bytes give for a container of the version; one whose policy a number
/// names takes names alone. Errors: they give none, or out of memory.
pub fn policy_for(alloc: Global, version: u32, given: &[u8]) -> Result<Policy, Fault>
    ensures { IsDue ⊥ (λ policy. policy) (policy_for version given.now) result }
{
    if !is_numbered(version) {
        return policy_given(alloc, given);
    }
    match policy_named(alloc, given)? {
        Some(policy) => Ok(policy),
        None => Err(Fault::At(Reason::UnknownPolicy)),
    }
}

/// Returns the digest of the policy that the bytes give. Errors: they give none, or out of memory.
fn digest_answer(alloc: Global, given: &[u8]) -> Result<Vec<u8>, Fault>
    ensures { IsDue ⊥ (λ made. made.items) (digest_answer given.now) result }
{
    let policy = policy_given(alloc, given)?;
    let made = digest(alloc, &policy)?;
    Ok(Vec::from_slice(alloc, &made)?)
}

/// Stores the digest of the policy that the bytes give, by which containers name it: the SHA-256 of
/// its text, 32 bytes.
///
/// `written` gets the number of bytes that are stored. If the bytes give no policy, the line that
/// says why is stored, without LF, and the status is `UNKNOWN_POLICY` or `BAD_POLICY`. If the
/// buffer is too small, the call returns `NO_ROOM`, leaves the buffer unchanged, and `written` gets
/// the number needed. If it returns `NO_MEMORY`, `written` gets 0 and the buffer is unchanged.
#[unsafe(no_mangle)]
pub extern "C" fn pcc_policy(
    alloc: Global,
    policy: &[u8],
    out: &mut [u8],
    written: &mut usize,
) -> u32
    ensures exact { AnswersIn IsNoMemory (digest_answer policy.now)
        out.old out.new written.new result }
{
    let made = digest_answer(alloc, policy);
    tell(alloc, made, out, written)
}
