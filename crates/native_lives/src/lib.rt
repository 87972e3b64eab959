//! Certificates of what native code leaves out.
//!
//! `right_certificate` returns one that is right (`right`). It looks for the registers that are live, and
//! for compares that a branch can be joined to, and checks what it found. If the check says no, it
//! returns the certificate that leaves nothing out, which is always right. So nothing has to be proved
//! of the search.
//!
//! The definitions are in `specs/`: `Certificates` has what a certificate says.
#![tactic(auto)]

mod certificate;
mod checking;
mod pairs;
mod sweeps;
mod targets;

pub use certificate::{Certificate, right_certificate};
pub use targets::is_jumped_to;
