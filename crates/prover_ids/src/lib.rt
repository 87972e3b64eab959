//! Reads formulas and expressions, as ids of a table, one node at a time.
//!
//! The layers above use that `form_node` and `exp_node` return the head of the formula or
//! expression that an id encodes, with the ids of its parts (`specs/Nodes`); a part's id is lower.
//! So a shared part is one id, and equal formulas are equal ids. This crate also has the steps that
//! all proofs are made of (`steps`) and cached answers (`Kept`). Sources: Harper, Honsell and
//! Plotkin, A Framework for Defining Logics, JACM 1993 (adequacy of encodings); Necula,
//! Proof-Carrying Code, POPL 1997 (rules).
#![tactic(auto)]

mod forms;
mod hypotheses;
mod kept;
mod nodes;
mod put_forms;
mod puts;
mod steps;

pub use forms::{Access, FormNode, form_node};
pub use hypotheses::{Hypothesis, raised};
pub use kept::{Kept, Question, number};
pub use nodes::{ExpNode, MemNode, Sides, exp_node, literal, mem_node, operands};
pub use put_forms::{put_word, put_word_exp};
pub use puts::{Put, Puts};
pub use steps::{calc, fact, moved, oper, reflexive, relation, right, swapped};
