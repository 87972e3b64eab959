//! Turns, and the number of steps that they give an agent.

ghost use Rattle.std.specs.Prelude.{◌≡◌, ◌<◌, ◌^◌};
ghost use Rattle.alpha_turns.specs.Turns.{budget_of};

/// A turn: the agent that may run, by its place in the list, and its step limit.
#[derive(Clone, Copy)]
pub struct Turn {
    /// The agent's place in the list of agents, from 0.
    pub agent: u32,
    /// The maximum number of steps.
    pub budget: u64,
}

/// Returns the sum of the budgets of the agent's own turns, which must be below 2^64. One run alone
/// with this budget takes the agent to the state to which these turns take it.
pub fn own_budget(turns: &[Turn], agent: u32) -> u64
    requires { budget_of agent turns.now < 2 ^ 64 }
    ensures exact { result ≡ budget_of agent turns.now }
{
    let mut budget = 0;
    for turn in turns {
        if turn.agent == agent {
            budget += turn.budget;
        }
    }
    budget
}
