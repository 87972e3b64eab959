//! Printing the lines of a run.

ghost use Rattle.std.specs.Prelude.{◌≡◌, ◌+◌, ◌≤◌, ◌<◌, ◌++◌, length, slice_get, Some, codes, decimal};
ghost use Rattle.arrayvec.specs.ArrayVec.{array_vec_len};
ghost use Rattle.alpha_cfg.specs.Flow.{IsCode};
ghost use Rattle.alpha_cfg.specs.Machine.{step_of};
ghost use Rattle.file_port.specs.Sink.{Puts};
ghost use Rattle.asm_print.specs.Printing.{insn_text};
ghost use Rattle.view_trace.specs.Texts.{code_texts};
ghost use Rattle.view_trace.specs.Traces.{step_text};
ghost use Rattle.view_trace.specs.Inside.Ends.{PrintsRun};

use crate::accesses::{access_of, push_access};
use crate::changes::{push_change, register_written};
use crate::texts::Texts;
use alpha_cfg::{Code, Outcome, Step};
use arrayvec::ArrayVec;
use asm_print::{MAX_INSN_TEXT, insn_laws};
use file_port::{Put, Sink};
use pcc_lines::{DIGITS, LINE, Line, push_decimal, push_text};
use reference_machine::Agent;

/// The most bytes that a line has before what is said of memory and registers.
const FRONT: usize = DIGITS + 1 + MAX_INSN_TEXT;

/// Adds an index and the text of its instruction.
fn push_front(line: &mut Line, index: u32, text: &[u8])
    requires room { array_vec_len line.old + FRONT ≤ LINE }
    requires short { length text.now ≤ MAX_INSN_TEXT }
    ensures items { line.new.items
        ≡ line.old.items ++ (decimal index ++ codes " " ++ text.now) }
    ensures len { array_vec_len line.new ≤ array_vec_len line.old + FRONT }
{
    push_decimal(line, u64::from(index));
    push_text(line, " ");
    line.try_extend_from_slice(text).unwrap();
}

/// Makes a step and appends its line to an empty one; returns how the step ended.
fn push_step(line: &mut Line, agent: &mut Agent, code: &Code, texts: &Texts) -> Step
    requires empty { array_vec_len line.old ≡ 0 }
    requires within { agent.old.state.index < length code.now }
    requires texts { texts.now ≡ code_texts code.now }
    ensures items { line.new.items ≡ line.old.items ++ step_text code.now agent.old.state }
    ensures step { (result, agent.new.state) ≡ step_of code.now agent.old.state }
    ensures region { (agent.new.region_at ≡ agent.old.region_at)
        × (agent.new.region ≡ agent.old.region) }
    ensures within { agent.new.state.index < length code.now }
{
    insn_laws(); // tells the prover that texts are short
    let _some = code.count(); // tells the prover that this is code
    let index = agent.index();
    let insn = code.insn(index);
    let text = texts.text(index);
    push_front(line, index, text);
    let access = access_of(agent, &insn);
    let reg = register_written(&insn);
    let before = agent.reg(reg);
    let step = agent.step(code);
    push_access(line, access, &step);
    push_change(line, reg, before, agent.reg(reg));
    push_text(line, "\n");
    step
}

/// Makes a step and prints its line as one piece; returns how the step ended, and how the write
/// went.
fn print_step<S: Sink>(agent: &mut Agent, code: &Code, texts: &Texts, out: &mut S) -> (Step, Put)
    requires within { agent.old.state.index < length code.now }
    requires texts { texts.now ≡ code_texts code.now }
    ensures puts { Puts (step_text code.now agent.old.state)
        (S.state out.old) (S.state out.new) result.1 }
    ensures step { (result.0, agent.new.state) ≡ step_of code.now agent.old.state }
    ensures region { (agent.new.region_at ≡ agent.old.region_at)
        × (agent.new.region ≡ agent.old.region) }
    ensures within { agent.new.state.index < length code.now }
{
    let mut line: Line = ArrayVec::new();
    let step = push_step(&mut line, agent, code, texts);
    let put = out.put(line.as_slice());
    (step, put)
}

/// Runs at most `budget` steps and prints the line of each before the next step is made. Returns
/// how the run ended, or None at the first write that fails.
pub fn print_steps<S: Sink>(
    agent: &mut Agent,
    code: &Code,
    texts: &Texts,
    budget: u64,
    out: &mut S,
) -> Option<Outcome>
    requires within { agent.old.state.index < length code.now }
    requires texts { texts.now ≡ code_texts code.now }
    ensures prints { PrintsRun code.now budget agent.old.state agent.new.state
        (S.state out.old) (S.state out.new) result }
    ensures region { (agent.new.region_at ≡ agent.old.region_at)
        × (agent.new.region ≡ agent.old.region) }
{
    for _ in 0..budget {
        let (step, put) = print_step(agent, code, texts, out);
        match put {
            Put::Done => {}
            Put::Failed => return None,
        }
        match step {
            Step::Moved => {}
            Step::Returned => return Some(Outcome::Returned(agent.result())),
            Step::Blocked { index, kind, addr } => {
                return Some(Outcome::Blocked { index, kind, addr });
            }
        }
    }
    Some(Outcome::OutOfSteps)
}
