//! The register that a step changes.

ghost use Rattle.std.specs.Prelude.{◌≡◌, ◌+◌, ◌≤◌, ◌++◌};
ghost use Rattle.arrayvec.specs.ArrayVec.{array_vec_len};
ghost use Rattle.alpha_cfg.specs.Actions.{action_of};
ghost use Rattle.view_trace.specs.Inside.Written.{register_written, memory_written, word_change};

use alpha_words::{Format, Insn, MemoryKind, Reg, memory_kind};
use pcc_lines::{LINE, Line, push_decimal, push_hex, push_text};

/// The maximal length in bytes of a register change's text.
pub const CHANGE: usize = 39;

/// The register that an instruction of the memory format writes, by what it does with its first one.
fn memory_written(kind: MemoryKind, ra: Reg) -> Reg
    ensures { result ≡ memory_written kind ra }
{
    match kind {
        MemoryKind::Address | MemoryKind::Load => ra,
        MemoryKind::Store => Reg::new(31),
    }
}

/// Returns the register that an instruction writes, or register 31, which never changes, if it
/// writes none.
pub fn register_written(insn: &Insn) -> Reg
    ensures { result ≡ register_written (action_of insn.now) }
{
    match insn.format() {
        Format::Memory { op, ra, .. } => memory_written(memory_kind(op), ra),
        Format::Operate { rc, .. } => rc,
        Format::Branch { .. } | Format::Br { .. } | Format::Ret => Reg::new(31),
    }
}

/// Appends a register and its word, if that isn't the word before.
pub fn push_change(line: &mut Line, reg: Reg, before: u64, after: u64)
    requires { array_vec_len line.old + CHANGE ≤ LINE }
    ensures items { line.new.items ≡ line.old.items ++ word_change reg before after }
    ensures len { array_vec_len line.new ≤ array_vec_len line.old + CHANGE }
{
    if before != after {
        push_text(line, " r");
        push_decimal(line, u64::from(reg.number()));
        push_text(line, "=");
        push_hex(line, 16, after);
    }
}
