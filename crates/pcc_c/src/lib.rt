//! Makes and checks containers for C programs, runs them on packets, and says why a call does nothing.
//!
//! `c/pcc.h` declares the exports. Bytes come as a pointer and a length, a result goes into a buffer
//! of the caller's, and each call returns a status. For each export `specs/` has a file that says
//! what its answer is: bytes, or the reason why there are none (`specs/Checking`, `Assembling`,
//! `Proving`, `Compiling`, `Translating`, `Upgrading`, `Policies`). `specs/Hosting` says which host a handle has,
//! and what it makes of a packet. `specs/Statuses` says which number a reason has, `specs/Reasons`
//! which line, and `specs/Buffers` what a buffer holds after a call.
#![tactic(auto)]

mod abi;
mod assembling;
mod buffers;
mod checking;
mod compiling;
mod explaining;
mod fault;
mod held;
mod host;
mod hosting;
mod policies;
mod proving;
mod reason;
mod results;
mod statuses;
mod translating;
mod upgrading;

pub use abi::pcc_abi;
pub use assembling::pcc_asm;
pub use checking::pcc_check;
pub use compiling::pcc_bpf;
pub use explaining::pcc_explain;
pub use host::PccHost;
pub use hosting::{pcc_host_free, pcc_host_new, pcc_host_run};
pub use policies::pcc_policy;
pub use proving::pcc_prove;
pub use results::PccResult;
pub use translating::pcc_native;
pub use upgrading::pcc_upgrade;
