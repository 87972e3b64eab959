//! The commands, a file each.

mod faults;
mod goals;
mod list;
mod packet;

pub use faults::{formula_command, policy_command, source_command};
pub use goals::goals_command;
pub use list::list_command;
pub use packet::packet_command;
