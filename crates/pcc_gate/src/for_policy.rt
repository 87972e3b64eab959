//! Decides which containers are for a policy.

ghost use Rattle.std.specs.Prelude.{◌≡◌, IfOk};
ghost use Rattle.std.specs.Str.{bytes_eq};
ghost use Rattle.pcc_gate.specs.ForPolicy.{is_for};

use policy_set::{Policy, digest};
use proof_container::Head;
use std::alloc::{AllocError, Global};

/// Whether the digests are one.
fn same_digest(a: &[u8; 32], b: &[u8; 32]) -> bool
    ensures { result ≡ bytes_eq a.now b.now }
{
    a.as_slice() == b.as_slice()
}

/// Returns whether a container with this header field is for the policy: whether the field has the
/// policy's number, which a policy from a file doesn't have, or the digest of its text. Computes
/// that digest only if the field has one.
///
/// Errors: out of memory alone.
pub fn is_for(alloc: Global, policy: &Policy, head: Head) -> Result<bool, AllocError>
    ensures exact { IfOk result (λ b. b ≡ is_for policy.now head) }
{
    match head {
        Head::Number(number) => Ok(policy.has_number(number)),
        Head::Digest(given) => {
            let made = digest(alloc, policy)?;
            Ok(same_digest(&given, &made))
        }
    }
}
