//! Printing the run of a packet.

ghost use Rattle.std.specs.Prelude.{◌≡◌, ◌≤◌, length, IfOk};
ghost use Rattle.file_port.specs.Sink.{Puts};
ghost use Rattle.view_trace.specs.Texts.{code_texts};
ghost use Rattle.view_trace.specs.Traces.{packet_text};

use crate::steps::print_steps;
use crate::texts::Texts;
use alpha_cfg::Code;
use file_port::{Put, Sink};
use packet_store::{MAX_PACKET, PacketResult, start};
use pcc_lines::print_result;
use policy_set::Policy;
use reference_machine::Agent;
use std::alloc::{AllocError, Global};

/// Code whose runs are printed step by step, from the start states of a policy, with one budget of
/// steps for each packet.
#[derive(Drop)]
pub struct Tracer {
    policy: Policy,
    code: Code,
    steps: u64,
    agent: Agent,
    texts: Texts,
    ghost printed: { texts ≡ code_texts code },
}

impl Tracer {
    ghost use Rattle.view_trace.specs.Tracers.{traced_text};

    /// Creates a tracer of the code under the policy, with at most `steps` steps for each packet,
    /// and reserves all memory that it needs.
    ///
    /// Errors: out of memory.
    pub fn new(alloc: Global, policy: Policy, code: Code, steps: u64) -> Result<Tracer, AllocError>
        ensures { IfOk result (λ tracer. traced_text tracer ≡ packet_text policy code steps) }
    {
        let texts = Texts::of(alloc, &code)?;
        let agent = Agent::new(alloc)?;
        Ok(Tracer {
            policy,
            code,
            steps,
            agent,
            texts,
        })
    }

    /// Runs packet `number`, whose bytes are `packet`, at most `MAX_PACKET`. Prints the line of
    /// each step, as one piece, before the next step is made, and then the packet's result line;
    /// stops at the first write that fails. If the packet is too short for the policy, prints the
    /// result line alone. Takes no memory.
    pub fn print_packet<S: Sink>(&mut self, number: u64, packet: &[u8], out: &mut S) -> Put
        requires { length packet.now ≤ MAX_PACKET }
        ensures exact { Puts (traced_text self.old number packet.now)
            (S.state out.old) (S.state out.new) result }
        ensures unchanged { traced_text self.new ≡ traced_text self.old }
    {
        let kind = self.policy.kind();
        let Some(begin) = start(&self.policy, packet) else {
            return print_result(kind, number, PacketResult::Short, out);
        };
        self.agent.load(begin);
        let _some = self.code.count(); // tells the prover that code has an instruction
        match print_steps(&mut self.agent, &self.code, &self.texts, self.steps, out) {
            None => Put::Failed,
            Some(outcome) => {
                let end = PacketResult::Ran(outcome, self.agent.sum());
                print_result(kind, number, end, out)
            }
        }
    }
}
