//! What a script holds: agents to load and their turns.

use alpha_turns::Turn;

/// The maximal length of a script in bytes.
pub const MAX_SCRIPT: usize = 65_536;

/// The maximal number of agents that a script loads.
pub const MAX_LOADS: usize = 16;

/// The maximal number of steps of a turn.
pub const MAX_TURN: u64 = 1_000_000_000;

/// An agent to be loaded.
#[derive(Drop)]
pub struct Load {
    /// The policy's name.
    pub policy: String,
    /// The name of the container's file.
    pub file: String,
    /// The name of the packet file, whose first packet the agent gets.
    pub packets: String,
}

/// The agents that a script loads, and then their turns. An agent's number is its index in `loads`.
#[derive(Drop)]
pub struct Script {
    /// The agents, in order.
    pub loads: Vec<Load>,
    /// The turns, in order.
    pub turns: Vec<Turn>,
}
