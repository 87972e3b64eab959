//! A compare and the branch behind it.

ghost use Rattle.std.specs.Prelude.{◌≡◌, ◌<◌, length, slice_get, Some, IfSome};
ghost use Rattle.alpha_cfg.specs.Actions.{action_of};
ghost use Rattle.native_code.specs.Lives as lives;
ghost use Rattle.native_steps.specs.Compares as compares;
ghost use Rattle.native_lives.specs.Inside.Pairs.{IsBranchOn, IsPair};

use crate::targets::is_jumped_to;
use alpha_cfg::Code;
use alpha_words::{Cond, Insn, Reg};
use word_ops::Op;
use x86_words::X86Cond;

/// Checks whether a branch is taken where the flag that it tests is 1, or where it is 0; returns
/// `None` of other branches.
fn taken_on(cond: Cond) -> Option<bool>
    ensures { result ≡ compares.taken_on cond }
{
    match cond {
        Cond::NotZero | Cond::LowSet => Some(true),
        Cond::Zero | Cond::LowClear => Some(false),
        _ => None,
    }
}

/// Returns the condition that holds, after `cmp`, where the compare gives 1 (`one`), or where it gives
/// 0; `None` of an operator that is no compare.
fn compare_cond(op: Op, one: bool) -> Option<X86Cond>
    ensures { result ≡ compares.compare_cond op one }
{
    match (op, one) {
        (Op::Cmpeq, true) => Some(X86Cond::Equal),
        (Op::Cmpeq, false) => Some(X86Cond::NotEqual),
        (Op::Cmplt, true) => Some(X86Cond::Less),
        (Op::Cmplt, false) => Some(X86Cond::GreaterOrEqual),
        (Op::Cmple, true) => Some(X86Cond::LessOrEqual),
        (Op::Cmple, false) => Some(X86Cond::Greater),
        (Op::Cmpult, true) => Some(X86Cond::Below),
        (Op::Cmpult, false) => Some(X86Cond::AboveOrEqual),
        (Op::Cmpule, true) => Some(X86Cond::BelowOrEqual),
        (Op::Cmpule, false) => Some(X86Cond::Above),
        _ => None,
    }
}

/// Returns the condition of the jump that a compare and a branch on its register become, if they can
/// be joined.
fn joined_cond(op: Op, cond: Cond) -> Option<X86Cond>
    ensures { result ≡ compares.joined_cond op cond }
{
    match taken_on(cond) {
        Some(one) => compare_cond(op, one),
        None => None,
    }
}

/// The register that a compare writes, and the condition of the jump that it becomes with the branch
/// behind it.
#[derive(Clone, Copy)]
pub(crate) struct Pair {
    pub(crate) to: Reg,
    pub(crate) jump: X86Cond,
}

/// Returns the pair of a compare that writes `to` and the branch at an index, if that is on `to`, can
/// be joined, and no jump leads to it.
fn with_branch(code: &Code, i: u32, op: Op, to: Reg) -> Option<Pair>
    requires { i < length code.now }
    ensures { IfSome result (λ p. IsBranchOn code.now i op to p.to p.jump) }
{
    let Insn::Branch { cond, ra, .. } = code.insn(i) else {
        return None;
    };
    if to.number() == 31 || ra.number() != to.number() || is_jumped_to(code, i, 0) {
        return None;
    }
    match joined_cond(op, cond) {
        Some(jump) => Some(Pair { to, jump }),
        None => None,
    }
}

/// Returns the pair of the compare at an index and the branch behind it, if they can be joined.
pub(crate) fn pair_at(code: &Code, i: u32) -> Option<Pair>
    requires { i < length code.now }
    ensures { IfSome result (λ p. IsPair code.now i p.to p.jump) }
{
    let insn = code.insn(i);
    if i + 1 >= code.count() {
        return None;
    }
    match insn {
        Insn::Oper { op, rc, .. } => with_branch(code, i + 1, op, rc),
        _ => None,
    }
}
