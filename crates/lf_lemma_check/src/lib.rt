//! Checks the lemmas of a proof, each with the lemmas before it.
//!
//! The layers above use three searches and what their results mean (`laws`). [`first_failing`]
//! finds the first lemma whose formula or whose proof doesn't check. [`first_late`] finds the first
//! whose proof cites itself or a later lemma. [`first_unproved`] finds the first whose proof
//! doesn't check with those before it. One signature with all lemmas serves all proofs, and so do
//! the results cached over it: a proof checks with the lemmas below a number exactly if it checks
//! over that signature and cites those lemmas alone. The lemmas are those of `lf_lemmas`.
//!
//! Source: Appel and Felty, Lightweight Lemmas in Lambda Prolog, ICLP 1999.
#![tactic(auto)]

mod citations;
mod searches;
mod theorems;
mod unproved;

pub use citations::first_late;
pub use searches::{Asked, first_failing};
pub use theorems::laws;
pub use unproved::first_unproved;
