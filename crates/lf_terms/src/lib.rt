//! Formulas and proofs as LF terms: their encoding, and one theorem for all inference rules.
//!
//! The layers above use these theorems:
//!
//! - The encoding of formulas (`specs/Encoding`) is injective and commutes with shifts of
//!   expressions and memories (`encoding_laws`).
//! - A rule's constant, applied to terms for its parameters and to proofs of its premises, proves
//!   its conclusion at these terms (`specs/Instance`, `rule_laws`); no rule needs a proof of its
//!   own. `rule_term` builds that term; `specs/ProofTerms` has the terms of proofs.
//! - The rules' numbers have names (`lf_signature::numbers`), each with its row written out
//!   (`specs/Named`, `name_laws`).
//!
//! Sources: Necula, Proof-Carrying Code, POPL 1997 (the logic); Harper, Honsell and Plotkin, A
//! Framework for Defining Logics, JACM 1993 (adequacy; rules as constants); Harper and Licata,
//! Mechanizing Metatheory in a Logical Framework, JFP 2007, section 2 (hereditary substitution).
#![tactic(auto)]

mod rule_terms;
mod theorems;

pub use rule_terms::rule_term;
pub use theorems::{encoding_laws, name_laws, plain_laws, rule_laws};
