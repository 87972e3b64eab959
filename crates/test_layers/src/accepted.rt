//! What is accepted shows, and a host of it, by calls that `pcc` doesn't make: no steps, a sum where
//! no packet was loaded, and what a host gives back. What else is accepted or refused is in rows of
//! `check` and `prove` (test_commands: `check.rows`, `bounded.rows`, `lemmas.rows`), runs of packets in
//! rows of `run` (`run.rows`, `gate.rows`).

use crate::answers::{Made, made};
use bounds_prover::prove;
use lf_signature::numbers::TT;
use pcc_gate::{Accepted, gate};
use policy_set::{Policy, PolicyKind, digest};
use safe_host::{Counted, Ended, Host};
use std::alloc::{AllocError, Global};
use std::test::Fail;
use term_table::Node;

/// `ret`.
pub const RETURN: u32 = 0x6bfa_8001;

/// Returns without a proof: the version, the fields behind the digest, and the bound that is shown.
/// Without a bound `tt` is the invariant of index 0, and in version 4 a lemma, too.
const RETURNS: [(u32, &[u32], Option<u32>); 4] = [
    (2, &[1, RETURN, 1, 1, 13, 1, 0, 0, 0], None),
    (3, &[1, 1, RETURN, 0, 0, 0], Some(1)),
    (3, &[1_000_000_000, 1, RETURN, 0, 0, 0], Some(1_000_000_000)),
    (4, &[1, RETURN, 2, 1, 13, 1, 27, 1, 0, 0, 1, 0, 1, 0], None),
];

/// The container of the version for the policy, with these fields behind the digest.
pub fn container(
    alloc: Global,
    policy: &Policy,
    version: u32,
    behind: &[u32],
) -> Result<Vec<u8>, AllocError> {
    let named = digest(alloc, policy)?;
    let mut bytes = Vec::new(alloc);
    bytes.extend_from_slice(b"PCCA")?;
    bytes.extend_from_slice(&version.to_le_bytes())?;
    bytes.extend_from_slice(&named)?;
    for field in behind {
        bytes.extend_from_slice(&field.to_le_bytes())?;
    }
    Ok(bytes)
}

/// What is accepted of it, once it has a proof.
fn accepted_under(alloc: Global, policy: &Policy, version: u32, behind: &[u32]) -> Made<Accepted> {
    let bytes = made(container(alloc, policy, version, behind))?;
    let proved = made(prove(alloc, policy, &bytes))?;
    made(gate(alloc, policy, &proved))
}

/// What is accepted of it under the policy tag.
fn accepted_of(alloc: Global, version: u32, behind: &[u32]) -> Made<Accepted> {
    let policy = made(Policy::of(alloc, PolicyKind::Tag))?;
    accepted_under(alloc, &policy, version, behind)
}

/// Whether there is one invariant, at index 0, which is truth by the table.
fn shows_truth(accepted: &Accepted) -> bool {
    let table = accepted.table();
    match accepted.invs() {
        [first] => {
            let (index, inv) = *first;
            let is_known = (inv.index() as u64) < table.count();
            is_known && index == 0 && table.node(inv) == Node::Const(TT)
        }
        _ => false,
    }
}

/// Whether that bound is shown, and truth where there is none.
fn shows(accepted: &Accepted, bound: Option<u32>) -> bool {
    accepted.bound() == bound && (bound.is_some() || shows_truth(accepted))
}

/// The quadwords 5 and 7.
pub const FIVE_SEVEN: [u8; 16] = [5, 0, 0, 0, 0, 0, 0, 0, 7, 0, 0, 0, 0, 0, 0, 0];

/// Whether the host keeps what was accepted, and sums up nothing.
fn is_new(host: &Host) -> bool {
    host.laws();
    host.accepted().policy().number() == 2 && host.sum() == 0
}

/// Whether a run of no steps of the packet is out of steps, and has its sum.
fn is_out_of_steps(host: &mut Host) -> bool {
    host.load(&FIVE_SEVEN) && host.run(0) == Ended::OutOfSteps && host.sum() == 12
}

/// Whether a counted run of no steps counts none.
fn counts_none(host: &mut Host) -> bool {
    let none = Counted {
        ended: Ended::OutOfSteps,
        steps: 0,
    };
    host.load(&FIVE_SEVEN) && host.run_counted(0) == none
}

/// Whether a counted run counts the one step of the code.
fn counts_one(host: &mut Host) -> bool {
    let one = Counted {
        ended: Ended::Returned(0),
        steps: 1,
    };
    host.load(&FIVE_SEVEN) && host.run_counted(1_000) == one
}

/// Whether the sum of a packet stays where a short one comes.
fn is_unchanged(host: &mut Host) -> bool {
    host.load(&FIVE_SEVEN) && !host.load(&[1; 15]) && host.sum() == 12
}

/// Whether all that holds, call by call.
fn is_right(host: &mut Host) -> bool {
    is_new(host)
        && is_out_of_steps(host)
        && counts_none(host)
        && counts_one(host)
        && is_unchanged(host)
}

/// The number of the policy under which it was accepted.
fn policy_number(accepted: Accepted) -> u32 {
    accepted.policy().number()
}

/// Whether that holds of the host, and what it gives back was accepted under the policy tag.
fn gives_back(host: Host) -> bool {
    let mut host = host;
    let right = is_right(&mut host);
    let number = policy_number(host.into_accepted());
    right && number == 2
}

/// Whether that holds of a host of what is accepted.
fn is_hosted(alloc: Global, accepted: Accepted) -> Made<bool> {
    match Host::new(alloc, accepted) {
        Ok(host) => Ok(gives_back(host)),
        Err(_) => Err("no memory"),
    }
}

/// Whether what is accepted of a return shows the bound, and a host of it is right.
fn is_accepted(alloc: Global, version: u32, behind: &[u32], bound: Option<u32>) -> Made<bool> {
    let accepted = accepted_of(alloc, version, behind)?;
    let shown = shows(&accepted, bound);
    Ok(is_hosted(alloc, accepted)? && shown)
}

/// A host's fields are what was accepted and the state of a run, and no rights.
#[test]
fn returns_are_accepted(rt: HostRuntime) -> Result<(), Fail> {
    for (version, behind, bound) in RETURNS {
        assert!(rt;
            is_accepted(rt.alloc(), version, behind, bound)?,
            "version {version}"
        );
    }
    Ok(())
}
