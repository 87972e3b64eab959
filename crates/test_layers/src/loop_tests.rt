//! A loop whose number of rounds depends on a register, within a bound on its steps. `prove` has no
//! proof of its condition (test_commands: `bounded.rows`); one that calls of proof_kit make is
//! accepted, and the loop's host runs it.

ghost use Rattle.proof_container.specs.Views.{contents_of};
ghost use Rattle.pcc_gate.specs.Answers.{IsHeld};
ghost use Rattle.pcc_gate.specs.Passing.{Passes};

use crate::accepted::{FIVE_SEVEN, container};
use crate::answers::{Made, made};
use crate::connectives;
use crate::entries::{put_entries, put_number, put_proof};
use crate::nodes::known;
use crate::rules::Under;
use pcc_gate::{Accepted, Passed, front, gate};
use policy_set::{Policy, PolicyKind};
use proof_container::walk_from;
use safe_host::{Ended, Host};
use std::alloc::Global;
use std::test::Fail;
use term_table::{Id, Table};
use vcgen::vc;

/// The bound, and the code.
const CODE: [u32; 8] = [
    41, // steps at most
    6, // words
    0x209f_0028, //       lda r4,40(r31)
    0x4081_13a5, // loop: cmpult r4,8,r5
    0xf4a0_0002, //       bne r5,done
    0x4080_9524, //       subq r4,4,r4
    0xc3ff_fffc, //       br loop
    0x6bfa_8001, // done: ret
];

/// The entries of the invariant of index 1, `(and (eq left r4) (ule 4 r4))`, and no proof.
const INVARIANT: [u32; 36] = [
    12, 1, 22, 1, 15, 0, 32, 6, 1, 2, 0, 26, 6, 3, 4, 6, 0, 5, 1, 17, 2, 4, 0, 6, 7, 8, 6, 9, 4, 6,
    6, 10, 1, 1, 11, 0,
];

/// The container of the loop, without a proof.
fn unproved(alloc: Global, policy: &Policy) -> Made<Vec<u8>> {
    let mut fields = Vec::new(alloc);
    made(fields.extend_from_slice(&CODE))?;
    made(fields.extend_from_slice(&INVARIANT))?;
    made(container(alloc, policy, 3, fields.as_slice()))
}

/// The kit's proof of the condition.
fn proof_of(table: &mut Table, condition: Id) -> Made<Id> {
    let under = Under {
        lemmas: &[],
        hyps: &[],
    };
    Ok(connectives::proved(table, under, condition, 64)?.term)
}

/// The fields behind the digest of the loop with its invariant and a proof.
fn fields_of(table: &Table, inv: Id, proof: Id) -> Made<Vec<u32>> {
    known(table, inv)?;
    known(table, proof)?;
    let alloc = table.allocator();
    let walk = made(walk_from(alloc, table, &[(1, inv)], &[], Some(proof)))?;
    let mut fields = Vec::new(alloc);
    made(fields.extend_from_slice(&CODE))?;
    put_entries(&mut fields, table, &walk)?;
    made(fields.extend_from_slice(&[1, 1]))?;
    put_number(&mut fields, &walk, inv)?;
    put_proof(&mut fields, &walk, proof)?;
    Ok(fields)
}

/// The fields of the loop, which passed the checks before the proof, with the kit's proof of its
/// condition.
fn proved_fields(policy: &Policy, bytes: &[u8], passed: Passed<'_>) -> Made<Vec<u32>>
    requires passes { let contents = contents_of passed.container in
        Passes policy.now bytes.now contents passed.cut.code passed.cut.marks }
    requires held { IsHeld passed.container }
{
    let _ = bytes; // only the clauses speak of it
    let container = passed.container;
    let cut = passed.cut;
    let bound = container.bound;
    let mut table = container.table;
    let invs = container.invs;
    let condition = made(vc(&mut table, &cut, policy, &invs, bound))?;
    let proof = proof_of(&mut table, condition)?;
    match invs.first() {
        Some(inv) => fields_of(&table, inv.1, proof),
        None => Err("no invariant"),
    }
}

/// The container of the loop with the kit's proof.
fn proved_loop(alloc: Global, policy: &Policy) -> Made<Vec<u8>> {
    let container_bytes = unproved(alloc, policy)?;
    let bytes = container_bytes.as_slice();
    let Ok(passed) = front(alloc, policy, bytes) else {
        return Err("it doesn't pass the checks before the proof");
    };
    let fields = proved_fields(policy, bytes, passed)?;
    made(container(alloc, policy, 3, fields.as_slice()))
}

/// Whether the host returns within the bound, and leaves the packet as it was.
fn returns(host: &mut Host) -> bool {
    host.load(&FIVE_SEVEN) && host.run(41) == Ended::Returned(0) && host.sum() == 12
}

/// Whether a host of it does.
fn is_run(alloc: Global, accepted: Accepted) -> Made<bool> {
    let Ok(host) = Host::new(alloc, accepted) else {
        return Err("no memory");
    };
    let mut host = host;
    Ok(returns(&mut host))
}

/// A loop that counts a register down is accepted with the kit's proof, and returns.
#[test]
fn a_counted_loop_is_accepted_with_the_kits_proof(rt: HostRuntime) -> Result<(), Fail> {
    let policy = made(Policy::of(rt.alloc(), PolicyKind::Tag))?;
    let bytes = proved_loop(rt.alloc(), &policy)?;
    let accepted = made(gate(rt.alloc(), &policy, &bytes))?;
    assert!(rt; accepted.bound() == Some(41));
    assert!(rt; is_run(rt.alloc(), accepted)?);
    Ok(())
}
