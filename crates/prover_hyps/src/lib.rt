//! The prover's hypotheses with their proofs: looked up, split, raised and refuted.
//!
//! The layer above uses that each function returns what the definition of its name in
//! `prover_class` (`specs/Hypotheses` and `specs/Goals`) gives for the formulas and proofs that the
//! ids stand for. The first hypothesis with a given formula is found without a search, and a shared
//! conjunction is split once. Whether an expression is a multiple of 8 is found once for each
//! expression (`alignment_proof`); for its parts hypotheses count too.
#![tactic(auto)]

mod alignments;
mod collection;
mod comparing;
mod finding;
mod raising;
mod refuting;
mod splitting;

pub use alignments::{Aligned, Alignments, alignment_proof};
pub use collection::Hypotheses;
pub use finding::find_hyp;
pub use raising::raised_hyps;
pub use refuting::absurdity;
pub use splitting::add_split;
