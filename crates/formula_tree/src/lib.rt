//! First-order formulas over registers, memory and bound variables: trees, truth and substitution.
//!
//! The definitions that all layers above share are in `specs/`, over plain data: formulas and
//! shifts (`Formulas`), simultaneous substitution (`Substitution`), substitution for one variable
//! (`Variables`), formulas over a context (`Scope`) and truth (`Truth`). The layers above rely on
//! this: `subst_regs` computes that substitution, and truth has the properties that `laws` proves.
//! `specs/Views` maps the trees in memory to the plain data. Source: Necula, POPL 1997.
#![tactic(auto)]

mod exp;
mod form;
mod theorems;

pub use exp::{Exp, MemExp};
pub use form::Form;
pub use theorems::laws;
