//! A host's fields, which this crate alone sees.

use crate::Host;
use pcc_gate::{Accepted, gate};
use policy_set::{Policy, PolicyKind};
use reference_machine::QUADWORDS;
use std::alloc::{AllocError, Global};
use std::test::Fail;

/// What comes after the code in a container for `ret` under the policy tag: the entries, no
/// invariants, and the proof, by a prover that isn't this project's.
const PROOF: [u32; 544] = [
    208, 1, 29, 1, 26, 1, 25, 1, 24, 1, 22, 1, 20, 1, 0, 0, 14, 6, 6, 7, 2, 0, 0, 6, 8, 9, 6, 5,
    10, 6, 4, 11, 2, 8, 0, 6, 8, 13, 6, 5, 14, 6, 4, 15, 1, 15, 1, 11, 0, 31, 6, 18, 19, 6, 20, 10,
    6, 17, 21, 6, 22, 9, 6, 3, 23, 1, 14, 6, 24, 25, 6, 3, 26, 1, 21, 6, 28, 14, 6, 27, 29, 6, 16,
    30, 6, 12, 31, 6, 3, 32, 1, 13, 6, 33, 34, 7, 35, 6, 2, 36, 7, 37, 6, 2, 38, 7, 39, 6, 2, 40,
    7, 41, 6, 2, 42, 7, 43, 6, 2, 44, 7, 45, 6, 2, 46, 7, 47, 6, 2, 48, 7, 49, 6, 2, 50, 7, 51, 6,
    2, 52, 7, 53, 6, 2, 54, 7, 55, 6, 2, 56, 7, 57, 6, 2, 58, 7, 59, 6, 2, 60, 7, 61, 6, 2, 62, 7,
    63, 6, 2, 64, 7, 65, 6, 2, 66, 7, 67, 6, 2, 68, 7, 69, 6, 2, 70, 7, 71, 6, 2, 72, 7, 73, 6, 2,
    74, 7, 75, 6, 2, 76, 7, 77, 6, 2, 78, 7, 79, 6, 2, 80, 7, 81, 6, 2, 82, 7, 83, 6, 2, 84, 7, 85,
    6, 2, 86, 7, 87, 6, 2, 88, 7, 89, 6, 2, 90, 7, 91, 6, 2, 92, 7, 93, 6, 2, 94, 7, 95, 6, 2, 96,
    7, 97, 6, 1, 98, 6, 0, 99, 6, 100, 34, 1, 40, 6, 102, 98, 1, 38, 6, 104, 96, 6, 104, 94, 6,
    104, 92, 6, 104, 90, 6, 104, 88, 6, 104, 86, 6, 104, 84, 6, 104, 82, 6, 104, 80, 6, 104, 78, 6,
    104, 76, 6, 104, 74, 6, 104, 72, 6, 104, 70, 6, 104, 68, 6, 104, 66, 6, 104, 64, 6, 104, 62, 6,
    104, 60, 6, 104, 58, 6, 104, 56, 6, 104, 54, 6, 104, 52, 6, 104, 50, 6, 104, 48, 6, 104, 46, 6,
    104, 44, 6, 104, 42, 6, 104, 40, 6, 104, 38, 6, 104, 36, 1, 35, 6, 136, 32, 6, 137, 34, 1, 27,
    7, 139, 6, 138, 140, 7, 141, 6, 135, 142, 7, 143, 6, 134, 144, 7, 145, 6, 133, 146, 7, 147, 6,
    132, 148, 7, 149, 6, 131, 150, 7, 151, 6, 130, 152, 7, 153, 6, 129, 154, 7, 155, 6, 128, 156,
    7, 157, 6, 127, 158, 7, 159, 6, 126, 160, 7, 161, 6, 125, 162, 7, 163, 6, 124, 164, 7, 165, 6,
    123, 166, 7, 167, 6, 122, 168, 7, 169, 6, 121, 170, 7, 171, 6, 120, 172, 7, 173, 6, 119, 174,
    7, 175, 6, 118, 176, 7, 177, 6, 117, 178, 7, 179, 6, 116, 180, 7, 181, 6, 115, 182, 7, 183, 6,
    114, 184, 7, 185, 6, 113, 186, 7, 187, 6, 112, 188, 7, 189, 6, 111, 190, 7, 191, 6, 110, 192,
    7, 193, 6, 109, 194, 7, 195, 6, 108, 196, 7, 197, 6, 107, 198, 7, 199, 6, 106, 200, 7, 201, 6,
    105, 202, 7, 203, 6, 103, 204, 6, 101, 205, 6, 206, 139, 0, 208,
];

/// Returns the bytes of the container.
fn container(alloc: Global) -> Result<Vec<u8>, AllocError> {
    let mut bytes = Vec::new(alloc);
    for field in [0x4143_4350u32, 1, 2, 1, 0x6bfa_8001] {
        bytes.extend_from_slice(&field.to_le_bytes())?;
    }
    for field in PROOF {
        bytes.extend_from_slice(&field.to_le_bytes())?;
    }
    Ok(bytes)
}

/// Returns a host of what is accepted of the container.
fn new_host(alloc: Global) -> Result<Host, AllocError> {
    let policy = Policy::of(alloc, PolicyKind::Tag)?;
    let bytes = container(alloc)?;
    match gate(alloc, &policy, &bytes) {
        Ok(accepted) => Host::new(alloc, accepted),
        Err(_) => Err(AllocError),
    }
}

/// Takes the host apart by the names of all its fields, without `..`, and returns whether they have
/// what a host of the container holds after a load. A host with a field more, for rights or for the
/// packet's length, doesn't compile here.
fn has_these_fields(host: Host) -> bool {
    let Host {
        accepted,
        operations,
        index,
        slots,
        words,
        end,
        region,
        live,
    } = host;
    let state = (index, slots.result(), words.len(), end, region, live);
    accepted.policy().number() == 2
        && operations.len() == 1
        && state == (0, 0, QUADWORDS, 2, 2, true)
}

/// Returns the `end` of a host after a load of the packet.
fn end_after(host: &mut Host, packet: &[u8; 40]) -> usize {
    host.load(packet);
    host.end
}

#[test]
fn host_fields(rt: HostRuntime) -> Result<(), Fail> {
    let mut host = new_host(rt.alloc())?;
    assert_eq!(rt; host.end, 0);
    assert_eq!(rt; end_after(&mut host, &[0; 40]), 2);
    assert_eq!(rt; end_after(&mut host, &[1; 40]), 2);
    assert!(rt; has_these_fields(host));
    Ok(())
}
