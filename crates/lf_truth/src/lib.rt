//! Soundness of the logic: every formula that a proof proves is true over 64-bit words.
//!
//! The layers above use that `proved_formula_with` returns the formula that a proof proves, that
//! `prove_true` returns true exactly if a proof checks against a formula, and that the formula is
//! then true in every structure. A proof may cite lemmas that are proved (`ProvedLemmas`). The laws
//! say why: the signature is sound, since each inference rule is true over 64-bit words, whatever
//! its parameters stand for (`specs/RuleTruth`). Sources: Necula, Proof-Carrying Code, POPL 1997
//! (soundness of the rules); Harper, Honsell and Plotkin, A Framework for Defining Logics, JACM
//! 1993.
#![tactic(auto)]

mod lemmas;
mod proving;
mod theorems;

pub use lemmas::ProvedLemmas;
pub use proving::{Truthful, prove_true, prove_true_with, proved_formula_with, proved_with};
pub use theorems::truth_laws;
