//! Containers from sources.

ghost use Rattle.std.specs.Prelude.{◌≡◌, ◌≤◌, length, take, is_some, IfOk, IfErr, OnOk};
ghost use Rattle.proof_container.specs.Versions.{profile_of, IsVersion, IsBoundOf};
ghost use Rattle.asm_text.specs.Views.{source_view};
ghost use Rattle.asm_text.specs.declared.limits.TheConstants.{MAX_SOURCE};
ghost use Rattle.asm_text.specs.Sources.{Source as SourceView, SpellsSource};
ghost use Rattle.proof_container.specs.Contents.{Contents};
ghost use Rattle.pcc_asm.specs.Assembling.{Assembles, assembled_contents};
ghost use Rattle.pcc_asm.specs.Views.{IsSpelled};
ghost use Rattle.pcc_c.specs.declared.statuses.TheConstants.{DONE, BAD_SOURCE};
ghost use Rattle.pcc_c.specs.Statuses.{IsNoMemory};
ghost use Rattle.pcc_c.specs.Assembling.{is_version, bound_given, source_given, container_written, asm_answer};
ghost use Rattle.pcc_c.specs.Assembling.{IsContainerOf, IsAssemblyFor, HasNoAssembly};
ghost use Rattle.pcc_c.specs.Buffers.{AnswersIn};
ghost use Rattle.pcc_c.specs.Inside.Answers.{IsDue, IfAt};

use crate::buffers::tell;
use crate::fault::Fault;
use crate::policies::policy_for;
use crate::reason::Reason;
use asm_text::{LineFault, MAX_SOURCE, Source, read_source};
use pcc_asm::{AsmFault, assemble};
use policy_set::Policy;
use proof_container::{MAX_BOUND, MAX_VERSION, is_bounded, profile_of, write};
use std::alloc::Global;

/// Checks whether there is such a version of containers.
fn is_version(version: u32) -> bool
    ensures { result ≡ is_version version }
{
    1 <= version && version <= MAX_VERSION
}

/// Returns the step bound for a container of the version, where 0 says that there is none. Errors:
/// `BadVersion`, if there is no such version, or it may not have this bound.
fn bound_given(version: u32, bound: u32) -> Result<Option<u32>, Reason>
    ensures exact { result ≡ bound_given version bound }
    ensures fits { IfOk result (λ steps. IsVersion version × IsBoundOf version steps) }
{
    if !is_version(version) {
        return Err(Reason::BadVersion);
    }
    if is_bounded(version) && 0 < bound && bound <= MAX_BOUND {
        return Ok(Some(bound));
    }
    if !is_bounded(version) && bound == 0 {
        return Ok(None);
    }
    Err(Reason::BadVersion)
}

/// Returns the source that the text spells in the profile of the version; its invariants may name
/// the remaining steps if there is a bound. Errors: why the text is no source, or out of memory.
fn source_given(
    alloc: Global,
    version: u32,
    steps: Option<u32>,
    text: &[u8],
) -> Result<Source, Fault>
    ensures exact { IsDue ⊥ source_view (source_given version steps text.now) result }
    ensures short { OnOk result (length text.now ≤ MAX_SOURCE) }
    ensures spells { let p = profile_of version in
        IfOk result (λ s. SpellsSource p (is_some steps) text.now (source_view s)) }
    ensures none { let p = profile_of version in IfErr result (IfAt (length text.now ≤ MAX_SOURCE
        → (s : SourceView) → SpellsSource p (is_some steps) text.now s → ⊥)) }
{
    if text.len() > MAX_SOURCE {
        return Err(Fault::At(Reason::SourceTooLong));
    }
    match read_source(alloc, text, profile_of(version), steps.is_some()) {
        Ok(source) => Ok(source),
        Err(LineFault::At(line, flaw)) => Err(Fault::At(Reason::BadLine(line, flaw))),
        Err(LineFault::Memory) => Err(Fault::Memory),
    }
}

/// Returns the container that the source is assembled into. Errors: why there is none, or out of
/// memory.
fn container_of(
    alloc: Global,
    version: u32,
    steps: Option<u32>,
    policy: &Policy,
    source: &Source,
) -> Result<Vec<u8>, Fault>
    requires version { IsVersion version }
    requires steps { IsBoundOf version steps }
    requires spelled { IsSpelled (profile_of version) (is_some steps) (source_view source.now) }
    ensures exact { IsDue ⊥ (λ made. made.items) (container_written
        (assembled_contents version steps policy.now (source_view source.now))) result }
    ensures assembles { IfOk result (λ made. IsContainerOf version steps policy.now
        (source_view source.now) made.items) }
    ensures none { IfErr result (IfAt ((c : Contents)
        → Assembles version steps policy.now (source_view source.now) c → ⊥)) }
{
    match assemble(alloc, source, policy, version, steps) {
        Ok(assembled) => Ok(write(alloc, &assembled.view())?),
        Err(AsmFault::At(flaw)) => Err(Fault::At(Reason::BadCode(flaw))),
        Err(AsmFault::Memory) => Err(Fault::Memory),
    }
}

/// Returns the container of the version that the source in the text is assembled into, for the
/// policy that `policy` gives and with the bound. Errors: why there is none, or out of memory.
#[tactic(auto, unfolding(crate::specs::Assembling::asm_answer))]
fn asm_answer(
    alloc: Global,
    version: u32,
    bound: u32,
    policy: &[u8],
    text: &[u8],
) -> Result<Vec<u8>, Fault>
    ensures exact { IsDue ⊥ (λ made. made.items)
        (asm_answer version bound policy.now text.now) result }
    ensures assembles { IfOk result
        (λ made. IsAssemblyFor version bound policy.now text.now made.items) }
    ensures none { IfErr result (IfAt (HasNoAssembly version bound policy.now text.now)) }
{
    asm_text::laws(); // tells the prover that a text spells one source at most
    let steps = bound_given(version, bound)?;
    let under = policy_for(alloc, version, policy)?;
    let source = source_given(alloc, version, steps, text)?;
    let made = container_of(alloc, version, steps, &under, &source)?;
    Ok(made)
}

/// Assembles the source in the text, and stores the container of the version, 1 to 4, for the policy
/// that `policy` gives. Version 3 has a step bound, from 1 to `proof_container::MAX_BOUND`; in the
/// others `bound` is 0. Version 1 takes built-in policies alone.
///
/// `written` gets the number of bytes that are stored. If there is no container, the line that says
/// why is stored, without LF, and the status is `BAD_SOURCE`, `UNKNOWN_POLICY` or `BAD_POLICY`; or
/// it is `BAD_VERSION`, which has no line. If the buffer is too small, the call returns `NO_ROOM`,
/// leaves the buffer unchanged, and `written` gets the number needed. If it returns `NO_MEMORY`,
/// `written` gets 0 and the buffer is unchanged.
#[unsafe(no_mangle)]
pub extern "C" fn pcc_asm(
    alloc: Global,
    version: u32,
    bound: u32,
    policy: &[u8],
    text: &[u8],
    out: &mut [u8],
    written: &mut usize,
) -> u32
    ensures exact { AnswersIn IsNoMemory (asm_answer version bound policy.now text.now)
        out.old out.new written.new result }
    ensures assembles { result ≡ DONE
        → IsAssemblyFor version bound policy.now text.now (take written.new out.new) }
    ensures none { result ≡ BAD_SOURCE → HasNoAssembly version bound policy.now text.now }
{
    let made = asm_answer(alloc, version, bound, policy, text);
    tell(alloc, made, out, written)
}
