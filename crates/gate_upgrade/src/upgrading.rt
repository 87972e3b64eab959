//! Builds the version 2 container of a version 1 container.

ghost use Rattle.std.specs.Prelude.{◌≡◌, ◌≤◌, length, IfOk, OnOk};
ghost use Rattle.policy_set.specs.Views.{built_in};
ghost use Rattle.policy_set.specs.Digest.{digest_of};
ghost use Rattle.proof_container.specs.declared.container.Head.TheVariants.{Digest};
ghost use Rattle.proof_container.specs.declared.container.View.{View};
ghost use Rattle.proof_container.specs.declared.limits.TheConstants.{MAX_BYTES};
ghost use Rattle.proof_container.specs.Views.{contents_of, IsWritable, Shows};
ghost use Rattle.policy_set.specs.Names.{kind_numbered};
ghost use Rattle.gate_upgrade.specs.Upgrading.{contents_in};
ghost use Rattle.gate_upgrade.specs.Upgrading.{number_in, kind_found, size_within};
ghost use Rattle.gate_upgrade.specs.Upgrading.{upgraded_container, IsUpgraded};

use crate::fault::{UpgradeFault, UpgradeFlaw};
use crate::limits::{GROWTH, NEW_VERSION};
use policy_set::{Policy, PolicyKind, digest};
use proof_container::{Container, Head, MAX_BYTES, Malformed, View, read, write};
use std::alloc::{AllocError, Global};

/// The container in the bytes. Errors: `TooLong`, `Malformed` and `Memory`.
fn container_in(alloc: Global, bytes: &[u8]) -> Result<Container<'_>, UpgradeFault>
    ensures exact { IsUpgraded contents_of (contents_in bytes.now) result }
    ensures writable { IfOk result (λ c. (v : View) → Shows c v → IsWritable v) }
    ensures short { OnOk result (length bytes.now ≤ MAX_BYTES) }
{
    if bytes.len() > MAX_BYTES as usize {
        return Err(UpgradeFault::At(UpgradeFlaw::TooLong(bytes.len() as u64)));
    }
    match read(alloc, bytes) {
        Ok(container) => Ok(container),
        Err(Malformed::At(offset, flaw)) => {
            Err(UpgradeFault::At(UpgradeFlaw::Malformed(offset, flaw)))
        }
        Err(Malformed::Memory) => Err(UpgradeFault::Memory),
    }
}

/// The number that a container names its policy by, which those of version 1 do, and no others.
/// Errors: `Already`.
fn number_in(head: Head) -> Result<u32, UpgradeFlaw>
    ensures { result ≡ number_in head }
{
    match head {
        Head::Number(number) => Ok(number),
        Head::Digest(_) => Err(UpgradeFlaw::Already),
    }
}

/// The kind of the built-in policy of a number. Errors: `OtherPolicy`.
fn kind_found(number: u32) -> Result<PolicyKind, UpgradeFlaw>
    ensures { result ≡ kind_found number (kind_numbered number) }
{
    match PolicyKind::numbered(number) {
        Some(kind) => Ok(kind),
        None => Err(UpgradeFlaw::OtherPolicy(number)),
    }
}

/// A size that a container may have. Errors: `TooBig`.
fn size_within(size: u64) -> Result<u64, UpgradeFlaw>
    ensures { result ≡ size_within size }
{
    if size > u64::from(MAX_BYTES) {
        return Err(UpgradeFlaw::TooBig(size));
    }
    Ok(size)
}

/// The field that names the built-in policy of the kind in a container of version 2.
///
/// Errors: out of memory alone.
fn head_of(alloc: Global, kind: PolicyKind) -> Result<Head, AllocError>
    ensures { IfOk result (λ h. h ≡ Digest (digest_of (built_in kind))) }
{
    let policy = Policy::of(alloc, kind)?;
    let made = digest(alloc, &policy)?;
    Ok(Head::Digest(made))
}

/// Returns the container of version 2, as bytes, with the code, the invariants and the proof of the
/// container of version 1 that the bytes are, for its built-in policy.
///
/// Errors: `At` the first of these: `TooLong` past `MAX_BYTES`; `Malformed` if the bytes are no
/// container; `Already` if the container is of a later version; `OtherPolicy` if no built-in policy
/// has the number that it names; `TooBig` if there would be more than `MAX_BYTES` bytes.
/// `Memory` says nothing about the bytes.
#[tactic(auto, unfolding(crate::specs::Upgrading::upgraded_container))]
pub fn upgraded(alloc: Global, bytes: &[u8]) -> Result<Vec<u8>, UpgradeFault>
    ensures exact { IsUpgraded (λ out. out.items) (upgraded_container bytes.now) result }
{
    let container = container_in(alloc, bytes)?;
    let number = number_in(container.head)?;
    let kind = kind_found(number)?;
    size_within(bytes.len() as u64 + u64::from(GROWTH))?;
    let head = head_of(alloc, kind)?;
    let shown = container.view();
    let view = View {
        version: NEW_VERSION,
        head,
        bound: None,
        code: shown.code,
        table: shown.table,
        invs: shown.invs,
        lemmas: &[],
        proof: shown.proof,
    };
    Ok(write(alloc, &view)?)
}
