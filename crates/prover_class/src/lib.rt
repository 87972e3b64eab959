//! Defines which verification conditions `prove` can prove (the easy ones), and their proofs.
//!
//! A producer reads here what the prover can do. A condition is proved part by part
//! (`specs/Parts`). For a goal under hypotheses, the proof is that of the first of these that gives
//! one (`specs/Goals`): the goal is a hypothesis; the hypotheses are absurd; the goal's connective.
//! A goal without a connective is proved as a multiple of 8, by normal forms (`specs/NormalForms`)
//! or by bounds (`specs/Bounds`). If it is the right to load or store, it is proved by a hypothesis
//! that gives it (`specs/Access`). Hypotheses are split as they are added (`specs/Hypotheses`).
//!
//! All these are functions on formulas, which return the proof as a term (`lf_terms`); they
//! are this project's own. `class_laws` says that the term is a proof; `repeat_laws` says that
//! repeated hypotheses would change no proof. `test_class` compares the proofs with those of
//! another implementation.
#![tactic(auto)]

mod theorems;

pub use theorems::{class_laws, repeat_laws};
