//! The acceptance checks that may fail, with their values.

use alpha_cfg::CodeFlaw;
use proof_container::{Flaw, Head};
use thiserror::Error;

/// The first acceptance check that fails, with the value that its printed line shows. The checks
/// are tried in this order.
#[derive(Clone, Copy, Debug, PartialEq, Eq, Error)]
pub enum Refusal {
    /// There are more bytes than `MAX_BYTES`: this many.
    #[error("{0} bytes are too many")]
    TooLong(u64),
    /// The bytes encode no container: the byte offset of the first error, and what is wrong there.
    #[error("no container: at offset {0}, {1}")]
    Malformed(u64, Flaw),
    /// The container is for another policy, which this names.
    #[error("for the policy {0:?}")]
    OtherPolicy(Head),
    /// The code isn't well formed.
    #[error("no code: {0}")]
    BadCode(CodeFlaw),
    /// A root is higher than `MAX_HEIGHT`: the height of the first such root.
    #[error("a term is {0} high")]
    Height(u32),
    /// An invariant isn't a formula over m and r0 to r30, and the remaining steps if these are
    /// bounded: the lowest such invariant, counted from 0.
    #[error("invariant {0} is no formula")]
    InvNotForm(u32),
    /// A lemma's formula isn't a formula over no variables: the lowest such lemma, counted from 0.
    #[error("the formula of lemma {0} is none")]
    LemmaNotForm(u32),
    /// A loop has no invariant: the lowest index on a cycle without a cut point.
    #[error("index {0} is on a cycle without an annotated index")]
    Uncut(u32),
    /// The total length of the paths between cut points, which is above `MAX_UNFOLDED`.
    #[error("the unfolded length is {0}")]
    UnfoldLimit(u32),
    /// The container has no proof.
    #[error("there is no proof")]
    NoProof,
    /// The total weight of the proof and of the lemmas' proofs, which is above `MAX_WEIGHT`.
    #[error("the proof weighs {0}")]
    ProofWeight(u32),
    /// A lemma's proof doesn't prove its formula with the lemmas before it: the lowest such lemma,
    /// counted from 0.
    #[error("the proof of lemma {0} isn't one of its formula")]
    LemmaNotProof(u32),
    /// The proof doesn't prove the verification condition.
    #[error("the proof isn't one of the verification condition")]
    NotProof,
}
