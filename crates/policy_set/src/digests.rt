//! The digest by which containers name a policy.

ghost use Rattle.std.specs.Prelude.{◌≡◌, ◌∷◌, ◌++◌, [], IfOk};
ghost use Rattle.sha2.specs.Sha256.{sha256};
ghost use Rattle.policy_set.specs.Digest.{digest_of};

use crate::policy::Policy;
use formula_text::print_form;
use sha2::{Digest, Sha256};
use std::alloc::{AllocError, Global};

/// Returns the SHA-256 of two lines, each with its LF.
fn lines_digest(first: &[u8], second: &[u8]) -> [u8; 32]
    ensures { result ≡ sha256 ((first.now ++ 10 ∷ []) ++ (second.now ++ 10 ∷ [])) }
{
    let mut hasher = Sha256::new();
    hasher.update(first);
    hasher.update(b"\n");
    hasher.update(second);
    hasher.update(b"\n"); // the second line has its LF too
    hasher.finalize()
}

/// Returns the SHA-256 of the policy's text: its precondition and its postcondition as `print_form`
/// prints them, each followed by an LF. Errors: out of memory.
pub fn digest(alloc: Global, policy: &Policy) -> Result<[u8; 32], AllocError>
    ensures exact { IfOk result (λ d. d ≡ digest_of policy.now) }
{
    let pre = print_form(alloc, policy.pre())?;
    let post = print_form(alloc, policy.post())?;
    Ok(lines_digest(&pre, &post))
}
