//! The memory accesses of instructions.

ghost use Rattle.std.specs.Prelude.{◌≡◌, ◌+◌, ◌≤◌, ◌++◌};
ghost use Rattle.arrayvec.specs.ArrayVec.{array_vec_len};
ghost use Rattle.alpha_cfg.specs.Actions.{action_of};
ghost use Rattle.view_trace.specs.Accesses.{action_access, access_text};

use alpha_cfg::Step;
use alpha_words::Insn;
use pcc_lines::{LINE, Line, push_hex, push_text};
use reference_machine::{Agent, aligned};

/// The maximal length in bytes of an access's text, which a store that is made has.
pub const ACCESS: usize = 40;

/// The memory access that a step asks for.
#[derive(Clone, Copy)]
pub enum Access {
    /// No access.
    Nothing,
    /// A load of the word at an address.
    Loads(u64),
    /// A store to an address, of a word.
    Stores(u64, u64),
}

/// Returns the access that an instruction asks for in the state of the agent.
pub fn access_of(agent: &Agent, insn: &Insn) -> Access
    ensures { result ≡ action_access agent.now.state.regs (action_of insn.now) }
{
    match *insn {
        Insn::Ldq { rb, disp, .. } => Access::Loads(agent.address(rb, disp)),
        Insn::LdqU { rb, disp, .. } => Access::Loads(aligned(agent.address(rb, disp))),
        Insn::Stq { ra, rb, disp } => Access::Stores(agent.address(rb, disp), agent.reg(ra)),
        _ => Access::Nothing,
    }
}

/// Appends a store: its address and, if it is made, the word.
fn push_store(line: &mut Line, addr: u64, word: u64, step: &Step)
    requires { array_vec_len line.old + ACCESS ≤ LINE }
    ensures items { line.new.items
        ≡ line.old.items ++ access_text (Access.Stores addr word) step.now }
    ensures len { array_vec_len line.new ≤ array_vec_len line.old + ACCESS }
{
    push_text(line, " store ");
    push_hex(line, 16, addr);
    match *step {
        Step::Moved => {
            push_text(line, "=");
            push_hex(line, 16, word);
        }
        Step::Returned => {}
        Step::Blocked { .. } => {}
    }
}

/// Appends the access that a step asked for: its kind and address, and the word of a store that is
/// made.
pub fn push_access(line: &mut Line, access: Access, step: &Step)
    requires { array_vec_len line.old + ACCESS ≤ LINE }
    ensures items { line.new.items ≡ line.old.items ++ access_text access step.now }
    ensures len { array_vec_len line.new ≤ array_vec_len line.old + ACCESS }
{
    match access {
        Access::Nothing => {}
        Access::Loads(addr) => {
            push_text(line, " load ");
            push_hex(line, 16, addr);
        }
        Access::Stores(addr, word) => push_store(line, addr, word, step),
    }
}
