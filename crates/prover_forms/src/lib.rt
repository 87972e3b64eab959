//! Computes normal forms of expressions, without proofs, and chooses rewriting rules.
//!
//! The layer above uses three calls. `plain_form` returns the normal form that `prover_class`
//! defines (`specs/NormalForms`), and builds no equation. `rule_at` returns the rule by which an
//! operator with two operands is rewritten (`specs/Rules`). `is_by_forms` returns whether the
//! normal forms of two expressions prove a relation between them. So whether there is a proof is
//! known before it is built. Normal forms are cached by the expression's id, so a shared
//! expression's is found once; only expressions of at most 64 leaves are rewritten. Source: Necula,
//! Proof-Carrying Code, POPL 1997 (the rules of arithmetic).
#![tactic(auto)]

mod deciding;
mod plain_forms;
mod results;
mod rules;

pub use deciding::{is_by_forms, word_at};
pub use plain_forms::{ExpAt, PlainForms, leaves_up_to, plain_form};
pub use results::{
    cleared_bits, negated_sum, regrouped_sum, scaled_sum, swapped_sum, value_of, zero_word,
};
pub use rules::{Rule, rule_at};
