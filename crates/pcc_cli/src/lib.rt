//! The verified program pcc: assembles, proves, checks and runs proof-carrying Alpha code.
//!
//! The top call is `pcc`; the program, pcc_main, calls it over the real files and output.
//! pcc_commands says what arguments ask for, and what each command does. `specs/Clauses` has the
//! clause of each command, over the relations of `specs/Headline`, which also says what accepted code
//! is worth. pcc_stages says how a run may end, and what that says of exit status and counts, sentence
//! by sentence.
#![tactic(auto)]

mod top_call;

pub use top_call::{accepted_laws, laws, pcc};
