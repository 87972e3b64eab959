//! The search: the prover on what stands, else candidates, dropped and shrunk, and the checker.

ghost use Rattle.std.specs.Prelude.{IfOk, IfErr, IfSome};
ghost use Rattle.proof_container.specs.Encoding.{IsContents};
ghost use Rattle.proof_container.specs.Views.{contents_of};
ghost use Rattle.pcc_gate.specs.Accepted.{IsAccepted};
ghost use Rattle.bounds_prover.specs.ProvedLaws.{IsProvedOf};
ghost use Rattle.auto_search.specs.Outcomes.{outcome_view, IsOutcome, HasNoProof, IsSearchFault};
ghost use Rattle.auto_search.specs.Inside.Terms.{IsKeptOf, IsKeptIfAny};

use crate::containers::{
    bare_of, copy_of, count_if_same, if_container, invariants_in, with_invariants, with_proof,
};
use crate::heads::{Head, add_head, copied_heads, invariants};
use crate::houdini::Drafting;
use crate::outcome::{Outcome, SearchFault, Stop};
use alpha_cfg::{Code, CodeFault};
use auto_candidates::{Facts, facts_of, known, split};
use auto_rounds::{RoundFault, find_proof};
use bounds_prover::{ProveFault, prove};
use lf_signature::LONGEST;
use pcc_gate::{GateFault, Refusal, front, gate};
use policy_set::Policy;
use proof_container::{Container, MAX_INVS, Malformed, profile_of, read};
use std::alloc::{AllocError, Global};
use term_table::{Id, Table};

/// The most results that a search caches in all its rounds, in which goals and rounds count too.
pub const MOST_STEPS: usize = 3_000_000;

/// The heads that the container has, with the formulas that their invariants join, as terms of the
/// table.
fn own_heads(
    alloc: Global,
    table: &mut Table,
    container: &Container<'_>,
) -> Result<Vec<Head>, AllocError> {
    let mut heads = Vec::new(alloc);
    for inv in &container.invs {
        let mut forms = Vec::new(alloc);
        if let Some(copy) = copy_of(&container.table, table, inv.1)? {
            if let Some(form) = known(table, copy) {
                split(table, form, &mut forms)?;
            }
        }
        heads.push(Head {
            index: inv.0,
            forms,
        })?;
    }
    Ok(heads)
}

/// Adds the heads that the code needs, so that each loop has one: each is the least index on a loop
/// without one.
fn add_heads(
    alloc: Global,
    policy: &Policy,
    drafting: &mut Drafting,
    heads: &mut Vec<Head>,
) -> Result<(), Stop> {
    for _head in 0..=MAX_INVS {
        let bytes = drafting.bytes_with(alloc, heads)?;
        match front(alloc, policy, &bytes) {
            Ok(_) => return Ok(()),
            Err(GateFault::Refused(Refusal::Uncut(index))) => {
                if heads.len() >= MAX_INVS as usize {
                    return Err(Stop::GivesUp);
                }
                add_head(alloc, heads, index)?;
            }
            Err(GateFault::Refused(_)) | Err(GateFault::Results) => return Err(Stop::GivesUp),
            Err(GateFault::Memory) => return Err(Stop::Memory),
        }
    }
    Err(Stop::GivesUp)
}

/// Searches for formulas of the heads, and leaves in them what it found. Returns how many goals
/// that aren't invariants aren't easy.
fn fill(
    alloc: Global,
    policy: &Policy,
    drafting: &mut Drafting,
    heads: &mut Vec<Head>,
    groups: &[Vec<Vec<Id>>],
) -> Result<u32, Stop> {
    drafting.settle(alloc, policy, heads)?;
    drafting.grow(alloc, policy, heads, groups)?;
    let mut found = drafting.ask(alloc, policy, heads, false)?;
    if found.hard > 0 {
        drafting.grow(alloc, policy, heads, groups)?;
        found = drafting.ask(alloc, policy, heads, false)?;
    }
    Ok(found.hard)
}

/// Searches for formulas of the heads in the wider class, among more candidates, and leaves in them
/// what it found, if each goal is easy with that.
fn fill_wider(
    alloc: Global,
    policy: &Policy,
    drafting: &mut Drafting,
    heads: &mut Vec<Head>,
) -> Result<(), Stop> {
    drafting.wider = true;
    drafting.facts.widen();
    let groups = drafting.groups(alloc, policy, heads)?;
    let hard = fill(alloc, policy, drafting, heads, &groups)?;
    if hard > 0 {
        return Err(Stop::GivesUp);
    }
    drafting.shrink(alloc, policy, heads, 0)
}

/// Searches for formulas of the heads that the code needs, first in the class of `prove`, and then,
/// if goals aren't easy, in the wider one. Leaves in `heads` what it found in the second if each
/// goal is easy with that, else what it found in the first.
fn fill_all(
    alloc: Global,
    policy: &Policy,
    drafting: &mut Drafting,
    heads: &mut Vec<Head>,
) -> Result<(), Stop> {
    add_heads(alloc, policy, drafting, heads)?;
    let groups = drafting.groups(alloc, policy, heads)?;
    let mut others = copied_heads(alloc, heads)?;
    let hard = fill(alloc, policy, drafting, heads, &groups)?;
    drafting.shrink(alloc, policy, heads, hard)?;
    if hard == 0 {
        return Ok(());
    }
    match fill_wider(alloc, policy, drafting, &mut others) {
        Ok(()) => *heads = others,
        Err(Stop::Memory) => return Err(Stop::Memory),
        Err(Stop::GivesUp | Stop::Refused) => drafting.wider = false,
    }
    Ok(())
}

/// What the container's code shows of itself.
fn facts_in(alloc: Global, container: &Container<'_>) -> Result<Facts, Stop>
    requires contents { IsContents (contents_of container.now) }
{
    match Code::of(alloc, container.code, profile_of(container.version)) {
        Ok(code) => Ok(facts_of(alloc, code.insns())?),
        Err(CodeFault::Memory) => Err(Stop::Memory),
        Err(CodeFault::At(_)) => Err(Stop::GivesUp),
    }
}

/// The search over the container in the bytes, whose heads come to `heads`; None if there is no
/// container.
fn drafting_of(
    alloc: Global,
    bytes: &[u8],
    bare: Vec<u8>,
    heads: &mut Vec<Head>,
) -> Result<Drafting, Stop> {
    let container = match read(alloc, bytes) {
        Ok(container) => container,
        Err(Malformed::At(_, _)) => return Err(Stop::GivesUp),
        Err(Malformed::Memory) => return Err(Stop::Memory),
    };
    let facts = facts_in(alloc, &container)?;
    let mut table = Table::new(alloc, LONGEST.places());
    *heads = own_heads(alloc, &mut table, &container)?;
    Ok(Drafting {
        bare,
        words: container.code.len() / 4,
        facts,
        counted: container.bound.is_some(),
        wider: false,
        table,
        left: MOST_STEPS,
    })
}

/// The container in the bytes with the invariants of these heads, which are in the search's table,
/// and without proof; None if there is none, or it would be past a limit.
fn container_with(
    alloc: Global,
    bytes: &[u8],
    drafting: Drafting,
    heads: &[Head],
) -> Result<Option<Vec<u8>>, AllocError>
    ensures { IfOk result (λ o. IfSome o (λ out. IsKeptOf bytes.now out.items)) }
{
    let mut drafting = drafting;
    let invs = invariants(alloc, &mut drafting.table, heads)?;
    let out = with_invariants(alloc, bytes, &drafting.table, &invs)?;
    Ok(out)
}

/// The container in the bytes with the invariants that the search finds, without proof; None if the
/// search ends before it has any. `steps` becomes what the search has left for a proof in the wider
/// class, if there is one with these invariants, else 0.
fn kept_by_search(
    alloc: Global,
    policy: &Policy,
    bytes: &[u8],
    bare: Vec<u8>,
    steps: &mut usize,
) -> Result<Option<Vec<u8>>, AllocError>
    ensures { IfOk result (λ o. IfSome o (λ out. IsKeptOf bytes.now out.items)) }
{
    let mut heads = Vec::new(alloc);
    let mut drafting = match drafting_of(alloc, bytes, bare, &mut heads) {
        Ok(drafting) => drafting,
        Err(Stop::GivesUp | Stop::Refused) => return Ok(None),
        Err(Stop::Memory) => return Err(AllocError),
    };
    match fill_all(alloc, policy, &mut drafting, &mut heads) {
        Ok(()) | Err(Stop::GivesUp | Stop::Refused) => {}
        Err(Stop::Memory) => return Err(AllocError),
    }
    *steps = if drafting.wider { drafting.left } else { 0 };
    container_with(alloc, bytes, drafting, &heads)
}

/// The container in the bytes with the invariants that the search keeps, without proof; None if
/// there is no container. `steps` becomes what `kept_by_search` says.
fn kept_of(
    alloc: Global,
    policy: &Policy,
    bytes: &[u8],
    steps: &mut usize,
) -> Result<Option<Vec<u8>>, AllocError>
    ensures { IfOk result (λ o. IsKeptIfAny bytes.now o) }
{
    let Some(bare) = bare_of(alloc, bytes)? else {
        // where the bare one is past a limit, which no clause says can't be, all of it is kept
        let whole = if_container(alloc, bytes)?;
        return Ok(whole);
    };
    let mut copy = Vec::new(alloc);
    copy.extend_from_slice(&bare)?;
    match kept_by_search(alloc, policy, bytes, copy, steps)? {
        Some(kept) => Ok(Some(kept)),
        None => Ok(Some(bare)),
    }
}

/// The bytes with a proof in the wider class, if there is one that takes at most `steps` results.
fn proved_wider(
    alloc: Global,
    policy: &Policy,
    bytes: &[u8],
    steps: usize,
) -> Result<Option<Vec<u8>>, AllocError> {
    match find_proof(alloc, policy, bytes, steps) {
        Ok(Some(found)) => with_proof(alloc, bytes, &found),
        Ok(None) | Err(RoundFault::Refused(_) | RoundFault::Steps) => Ok(None),
        Err(RoundFault::Memory) => Err(AllocError),
    }
}

/// The bytes with the proof of the prover, or else with one in the wider class if `steps` isn't 0.
fn proved_somehow(
    alloc: Global,
    policy: &Policy,
    bytes: &[u8],
    steps: usize,
) -> Result<Option<Vec<u8>>, AllocError> {
    match prove(alloc, policy, bytes) {
        Ok(proved) => Ok(Some(proved)),
        Err(ProveFault::At(_) | ProveFault::Results) => {
            if steps == 0 {
                return Ok(None);
            }
            proved_wider(alloc, policy, bytes, steps)
        }
        Err(ProveFault::Memory) => Err(AllocError),
    }
}

/// What the checker accepts of the bytes with a proof, or else the bytes as they are kept.
fn judged(
    alloc: Global,
    policy: &Policy,
    bytes: &[u8],
    kept: Vec<u8>,
    steps: usize,
) -> Result<Outcome, SearchFault>
    requires kept { IsKeptOf bytes.now kept.items }
    requires unproved { HasNoProof policy.now bytes.now }
    ensures outcome { IfOk result (λ o. IsOutcome policy.now bytes.now (outcome_view o)) }
    ensures fault { IfErr result (IsSearchFault bytes.now) }
{
    let Some(proved) = proved_somehow(alloc, policy, &kept, steps)? else {
        return Ok(Outcome::Unfound(kept));
    };
    match gate(alloc, policy, &proved) {
        Ok(_) => {}
        Err(GateFault::Refused(_) | GateFault::Results) => return Ok(Outcome::Unfound(kept)),
        Err(GateFault::Memory) => return Err(SearchFault::Memory),
    }
    match count_if_same(alloc, bytes, &proved)? {
        Some(invariants) => Ok(Outcome::Found(proved, invariants)),
        None => Ok(Outcome::Unfound(kept)),
    }
}

/// What the search finds that the prover has no proof of as it stands.
fn searched(alloc: Global, policy: &Policy, bytes: &[u8]) -> Result<Outcome, SearchFault>
    requires { HasNoProof policy.now bytes.now }
    ensures outcome { IfOk result (λ o. IsOutcome policy.now bytes.now (outcome_view o)) }
    ensures fault { IfErr result (IsSearchFault bytes.now) }
{
    let mut steps = 0;
    match kept_of(alloc, policy, bytes, &mut steps)? {
        Some(kept) => judged(alloc, policy, bytes, kept, steps),
        None => Err(SearchFault::NoContainer),
    }
}

/// What the prover makes of the bytes as they stand, with the number of its invariants.
fn found(
    alloc: Global,
    policy: &Policy,
    bytes: &[u8],
    proved: Vec<u8>,
) -> Result<Outcome, SearchFault>
    requires accepted { IsAccepted policy.now proved.items }
    requires same { IsProvedOf bytes.now proved.items }
    ensures outcome { IfOk result (λ o. IsOutcome policy.now bytes.now (outcome_view o)) }
    ensures fault { IfErr result (IsSearchFault bytes.now) }
{
    let _ = policy; // only the clauses speak of these two
    let _ = bytes;
    let count = invariants_in(alloc, &proved)?;
    Ok(Outcome::Found(proved, count))
}

/// Searches for invariants of the container in the bytes, and for a proof: what is found is
/// accepted under the policy, and is the container but for its invariants and its proof. If the
/// prover has a proof of the container as it stands, that is found.
///
/// Errors: `NoContainer`, the bytes are no container; `Memory`, out of memory, or the prover would
/// cache more results for the container as it stands than it may.
pub fn search(alloc: Global, policy: &Policy, bytes: &[u8]) -> Result<Outcome, SearchFault>
    ensures outcome { IfOk result (λ o. IsOutcome policy.now bytes.now (outcome_view o)) }
    ensures fault { IfErr result (IsSearchFault bytes.now) }
{
    match prove(alloc, policy, bytes) {
        Ok(proved) => found(alloc, policy, bytes, proved),
        Err(ProveFault::At(_)) => searched(alloc, policy, bytes),
        Err(ProveFault::Memory | ProveFault::Results) => Err(SearchFault::Memory),
    }
}
