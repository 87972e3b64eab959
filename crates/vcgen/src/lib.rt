//! The verification condition generator, with the theorem that code whose condition is true is
//! safe.
//!
//! The layers above use that `vc` builds the encoding of the verification condition of annotated
//! code under a policy, and the laws: code whose condition is true is safe, and if its steps are
//! counted it returns within the step bound. Conditions are defined in `specs/Conditions`, safety
//! in `specs/Safety`.
//!
//! The walk over code that builds the condition uses terms for the machine's variables (`Symbols`)
//! and the effect of each instruction on them (`effect_at`, `counted_step`). `gate_match`,
//! which compares a formula with the condition, uses these too. The walk on trees is
//! `specs/WalkTree`, its terms on ids `specs/Symbols`. Source: Necula, Proof-Carrying Code, POPL
//! 1997; Necula and Lee, Safe Kernel Extensions Without Run-Time Checking, OSDI 1996.
#![tactic(auto)]

mod branches;
mod condition;
mod effects;
mod fault;
mod symbols;
mod theorems;
mod walk;

pub use condition::{MAX_HEIGHT, MAX_UNFOLDED, vc, vc_with};
pub use effects::{Effect, counted_step, effect_at};
pub use fault::VcFault;
pub use symbols::Symbols;
pub use theorems::{condition_laws, encoding_laws, left_laws, worked_conditions};
pub use walk::{Program, invariant};
