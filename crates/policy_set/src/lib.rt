//! Safety policies (pre- and postcondition): built in (`filter`, `tag`, `table`), or from files.
//!
//! Two formulas of a policy say what holds before a program starts and what must hold when it ends.
//! The layers above rely on three functions and one invariant:
//!
//! - `by_name` finds exactly the built-in policy of a name, with the formulas of `specs/Policies`;
//! - `read_policy` returns the policy that a file's bytes spell (`specs/PolicyText`);
//! - `digest` returns the SHA-256 of a policy's text (`specs/Digest`), which pins both formulas;
//! - `IsPolicy` (`specs/Views`) holds for every policy.
//!
//! Names and numbers are in `specs/Names`. A function that depends on a policy's kind takes an
//! option, since a policy from a file has no kind.
#![tactic(auto)]

mod digests;
mod fault;
mod formulas;
mod kind;
mod limits;
mod policy;
mod reading;
mod theorems;

pub use digests::digest;
pub use fault::{PolicyFault, PolicyFlaw};
pub use kind::PolicyKind;
pub use limits::{MAX_FORM_HEIGHT, MAX_FORM_LINE};
pub use policy::{Policy, by_name};
pub use reading::read_policy;
pub use theorems::laws;
