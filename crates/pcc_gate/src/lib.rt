//! The container checker: accepts a container under a policy, or names the first failed check.
//!
//! The layers above use four facts. `gate` accepts bytes exactly if all acceptance checks pass, and
//! else names the first that fails. `front` decides the checks before the proof in this way, and
//! `front_with_lemmas` these checks and the checks of the lemmas alone. Whatever is accepted is
//! also accepted with every lemma inlined. Accepted code is safe, and returns within its step bound
//! if it has one (`Accepted::laws`, `laws`).
//!
//! `specs/ForPolicy` defines which container is for a policy; the dependence on the version is in
//! proof_container (`specs/Versions`). The checks, in order, each with its refusal, are lists of
//! tests in `specs/Clauses`; what passes them is in `specs/Passing` and `specs/Accepted`. The first
//! check that fails, as a function, is in `specs/First`, acceptance with lemmas inlined in
//! `specs/WrittenOut`, what the calls return in `specs/Answers`, and the safety promise in
//! `specs/Safe`. Source: Necula, Proof-Carrying Code, POPL 1997.
#![tactic(auto)]

mod acceptance;
mod clauses;
mod fault;
mod for_policy;
mod judging;
mod limits;
mod passing;
mod proving;
mod refusal;
mod theorems;

pub use acceptance::Accepted;
pub use clauses::{context_types, first_formless};
pub use fault::GateFault;
pub use for_policy::is_for;
pub use judging::gate;
pub use limits::MAX_WEIGHT;
pub use passing::{Passed, front, front_with_lemmas};
pub use proving::lemmas_weight;
pub use refusal::Refusal;
pub use theorems::laws;
