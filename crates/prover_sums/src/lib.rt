//! Proves that expressions equal their normal forms, and compares normal forms as sums.
//!
//! The layer above uses that `normal_form`, `proof_by_forms`, `rest_of`, `eighth` and `occurs`
//! return what the definitions of `prover_class` give (`specs/NormalForms`, `specs/Goals` and
//! `specs/Access`): the id of the expression, and the id of the proof term. `prover_forms` decides
//! which rule rewrites an expression, and whether a proof is needed at all. Normal forms with their
//! proofs, and occurrences, are cached by the expression's id, so each is found once for a shared
//! expression. Source: Necula, Proof-Carrying Code, POPL 1997 (the rules of arithmetic).
#![tactic(auto)]

mod equations;
mod form_proofs;
mod occurrences;
mod rewriting;
mod sums;

pub use equations::{NormalForms, Place, Rewritten, normal_form};
pub use form_proofs::{equal_proof, proof_by_forms};
pub use occurrences::{Occurrences, Occurring, occurs};
pub use sums::{eighth, rest_of, summand_count};
