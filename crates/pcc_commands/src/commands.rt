//! The commands, each in a file of its own.

mod assemble;
mod bpf;
mod check;
mod demo;
mod host;
mod prove;
mod reference;
mod running;
mod upgrade;

pub use assemble::asm_command;
pub use bpf::bpf_command;
pub use check::check_command;
pub use demo::demo_command;
pub use host::host_command;
pub use prove::prove_command;
pub use reference::ref_command;
pub use running::run_command;
pub use upgrade::upgrade_command;
