//! Assembling of sources.

ghost use Rattle.std.specs.Prelude.{IfOk, IfErr, is_some};
ghost use Rattle.asm_text.specs.Views.{source_view};
ghost use Rattle.std.specs.Prelude.{◌≡◌};
ghost use Rattle.proof_container.specs.Versions.{profile_of, IsVersion, IsHead, IsBoundOf};
ghost use Rattle.pcc_asm.specs.Assembling.{head_for, Assembles, assembled_code};
ghost use Rattle.pcc_asm.specs.Limits.{IsWithinLimits};
ghost use Rattle.pcc_asm.specs.Views.{IsSpelled, IsAsmAnswer, AssemblesNone};
ghost use Rattle.pcc_asm.specs.Inside.Views.{IsStepAnswer, bytes_or_flaw};

use crate::assembled::Assembled;
use crate::checking::check;
use crate::fault::AsmFault;
use crate::invariants::encode_invs;
use crate::labels::index_labels;
use crate::resolving::resolve_all;
use crate::words::bytes_of;
use asm_text::Source;
use policy_set::{Policy, digest};
use proof_container::{Head, is_numbered, profile_of, signature_of};
use std::alloc::{AllocError, Global};
use term_table::Table;
use word_ops::Profile;

/// Returns the bytes of the source's code in the profile. Errors: the first wrong line, or out of
/// memory.
fn code_of(
    alloc: Global,
    source: &Source,
    profile: Profile,
    left: bool,
) -> Result<Vec<u8>, AsmFault>
    requires spelled { IsSpelled profile left (source_view source.now) }
    ensures exact { IsStepAnswer (λ v. v.items)
        (bytes_or_flaw (assembled_code profile (source_view source.now))) result }
{
    let _ = left; // only the clauses speak of it
    let labels = index_labels(alloc, &source.labels)?;
    let code = resolve_all(alloc, &labels, &source.insns)?;
    check(&source.insns, &code, profile)?;
    let bytes = bytes_of(alloc, &code, profile)?;
    Ok(bytes)
}

/// Returns the header that names the policy in a container of the version. Errors: out of memory.
fn head_for(alloc: Global, policy: &Policy, version: u32) -> Result<Head, AllocError>
    ensures exact { IfOk result (λ h. h ≡ head_for version policy.now) }
    ensures lawful { IfOk result (IsHead version) }
{
    if is_numbered(version) {
        Ok(Head::Number(policy.number()))
    } else {
        let made = digest(alloc, policy)?;
        Ok(Head::Digest(made))
    }
}

/// Returns what a container of the source holds in the version, with the bound. Errors: the first
/// wrong line, or out of memory.
fn make(
    alloc: Global,
    source: &Source,
    policy: &Policy,
    version: u32,
    bound: Option<u32>,
) -> Result<Assembled, AsmFault>
    requires spelled { IsSpelled (profile_of version) (is_some bound) (source_view source.now) }
    requires version { IsVersion version }
    requires bound { IsBoundOf version bound }
    ensures { IsAsmAnswer version bound policy.now (source_view source.now) result }
{
    let left = bound.is_some();
    let code = code_of(alloc, source, profile_of(version), left)?;
    let head = head_for(alloc, policy, version)?;
    let mut table = Table::new(alloc, signature_of(version).places());
    let invs = encode_invs(alloc, &mut table, &source.invs, left)?;
    Ok(Assembled {
        version,
        head,
        bound,
        code,
        table,
        invs,
    })
}

/// Assembles `source` for `policy` into the contents of a container of `version`, 1 to 4.
///
/// Labels become displacements. Each invariant becomes the term that encodes it over m and r0 to
/// r30, and in version 3 over the remaining steps too. The profile is the version's, and `bound` is
/// the maximum number of steps that the code may make.
///
/// Errors: the first line whose label is undefined; else the first whose instruction the profile
/// refuses; else the first that branches outside the code; else the line of the last instruction,
/// if control can flow past it. `Memory` says nothing about `source`.
///
/// Words are encoded as in the Alpha Architecture Handbook, "Instruction Formats", a return with
/// hint 1. No invariant's term is higher than the maximum length of a line, and the container has
/// at most `proof_container::MAX_BYTES` bytes.
///
/// Some text must spell `source` in that profile, as `asm_text::read_source` promises, and its
/// invariants may name the remaining steps only if there is a bound. There must be a bound, from 1
/// to `proof_container::MAX_BOUND`, exactly in version 3.
pub fn assemble(
    alloc: Global,
    source: &Source,
    policy: &Policy,
    version: u32,
    bound: Option<u32>,
) -> Result<Assembled, AsmFault>
    requires spelled { IsSpelled (profile_of version) (is_some bound) (source_view source.now) }
    requires version { IsVersion version }
    requires bound { IsBoundOf version bound }
    ensures exact { IsAsmAnswer version bound policy.now (source_view source.now) result }
    ensures assembles { IfOk result
        (λ a. Assembles version bound policy.now (source_view source.now) a) }
    ensures none { IfErr result
        (λ e. AssemblesNone version bound policy.now (source_view source.now) e) }
    ensures limits { IfOk result (λ a. IsWithinLimits a) }
{
    make(alloc, source, policy, version, bound)
}
