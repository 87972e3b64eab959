//! Indices that jumps lead to.

ghost use Rattle.std.specs.Prelude.{◌≡◌, ◌≤◌, ◌<◌, drop, length, slice_get};
ghost use Rattle.native_code.specs.Heads as heads;
ghost use Rattle.native_lives.specs.Inside.Jumps.{jumps_at};

use alpha_cfg::Code;
use alpha_words::Insn;

/// Checks whether the instruction at index `i` jumps to the head.
fn jumps_to(code: &Code, i: u32, head: u32) -> bool
    requires { i < length code.now }
    ensures { result ≡ jumps_at head i (slice_get code.now i) }
{
    let insn = code.insn(i);
    match insn {
        Insn::Branch { .. } => code.jump(i, &insn) == head,
        Insn::Br { .. } => code.jump(i, &insn) == head,
        Insn::Lda { .. } | Insn::Ldah { .. } | Insn::Ldq { .. } | Insn::LdqU { .. } => false,
        Insn::Stq { .. } | Insn::Oper { .. } | Insn::Ret => false,
    }
}

/// Checks whether an instruction at index `from` or later jumps to the head.
pub fn is_jumped_to(code: &Code, head: u32, from: u32) -> bool
    requires { from ≤ length code.now }
    ensures { result ≡ heads.jump_to head from (drop from code.now) }
{
    for i in from..code.count() {
        if jumps_to(code, i, head) {
            return true;
        }
    }
    false
}
