//! Native code of containers that the gate accepts.
//!
//! `text_of` translates accepted code. `specs/Translated` says what native code of a container is, and
//! `specs/Calls` what calls of it do, which `call_laws` proves.
#![tactic(auto)]

mod theorems;
mod translating;

pub use theorems::call_laws;
pub use translating::text_of;
