//! The budgets of an agent's own turns.

use alpha_turns::{Turn, own_budget};

#[test]
fn an_agent_has_the_budgets_of_its_own_turns(rt: HostRuntime) {
    let turns = [
        Turn {
            agent: 1,
            budget: 2,
        },
        Turn {
            agent: 0,
            budget: 1,
        },
        Turn {
            agent: 1,
            budget: 5,
        },
    ];
    assert!(rt; own_budget(&turns, 1) == 7);
    assert!(rt; own_budget(&turns, 0) == 1);
}
