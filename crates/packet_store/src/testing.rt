//! The checked reference interpreter as a runner of packets.

ghost use Rattle.std.specs.Prelude.{◌≡◌, IfOk};
ghost use Rattle.packet_store.specs.Results.{packet_result};
ghost use Rattle.packet_store.specs.Runners.{testing_results};

use crate::results::{PacketResult, PacketRunner};
use crate::starting::start;
use alpha_cfg::Code;
use policy_set::Policy;
use reference_machine::Agent;
use std::alloc::{AllocError, Global};

/// Code that the checked reference interpreter runs on packets, from the starts of a policy, with
/// one step limit for every packet.
#[derive(Drop)]
pub struct TestingRunner {
    policy: Policy,
    code: Code,
    steps: u64,
    agent: Agent,
}

impl TestingRunner {
    /// Creates a runner of the code under the policy, with at most `steps` steps for a packet, and
    /// reserves all memory that the runs need. Errors: out of memory.
    pub fn new(
        alloc: Global,
        policy: Policy,
        code: Code,
        steps: u64,
    ) -> Result<TestingRunner, AllocError>
        ensures { IfOk result (λ runner. testing_results runner ≡ packet_result policy code steps) }
    {
        Ok(TestingRunner {
            policy,
            code,
            steps,
            agent: Agent::new(alloc)?,
        })
    }
}

impl PacketRunner for TestingRunner {
    ghost results = { testing_results };

    fn run_packet(&mut self, packet: &[u8]) -> PacketResult {
        let Some(begin) = start(&self.policy, packet) else {
            return PacketResult::Short;
        };
        self.agent.load(begin);
        let _some = self.code.count(); // tells the prover that code has an instruction
        let outcome = self.agent.run(&self.code, self.steps);
        PacketResult::Ran(outcome, self.agent.sum())
    }
}
