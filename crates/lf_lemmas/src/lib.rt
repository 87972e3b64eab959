//! LF signatures extended by lemmas: constants that prove formulas which a proof brings along.
//!
//! A proof that proves one formula many times may state it once, as a lemma, and cite the lemma by
//! its number. The layers above use [`WithLemmas`], a signature that gives the lemmas of a list
//! their types, and two theorems:
//!
//! - Lemmas add no proving power (`laws`). To inline lemmas is to replace each by its proof until
//!   none is left. The lemmas' proofs and one more proof check with lemmas exactly if each lemma
//!   cites earlier ones alone and all proofs check with every lemma inlined. This holds if no type
//!   depends on a proof (`specs/Orderly`), as in every signature of word arithmetic.
//! - Hereditary substitution of well-typed input has exactly one result, whose simple type is
//!   unchanged, unless a variable on the way would reach 2 ^ 32 (`typed_laws`; `specs/Overflow`
//!   says when one would).
//!
//! `specs/Lemmas` defines lemmas, `specs/WrittenOut` inlining, `specs/Checking` what checks, and
//! `specs/Tables` what a table has to hold.
//!
//! Sources: Appel and Felty, Lightweight Lemmas in Lambda Prolog, ICLP 1999 (lemmas; the numbers
//! and the theorem are this project's own); Harper and Licata, Mechanizing Metatheory in a Logical
//! Framework, JFP 2007, section 2 (substitution).
#![tactic(auto)]

mod extended;
mod theorems;

pub use extended::WithLemmas;
pub use theorems::{laws, typed_laws};
