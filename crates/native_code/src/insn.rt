//! Instructions whose jumps name a block.

ghost use Rattle.std.specs.Prelude.{◌≡◌, ◌<◌};
ghost use Rattle.native_code.specs.Layout.{native_length};

use x86_words::{X86Cond, X86Insn};

/// An instruction of native code. A jump names its target by the index of a block: that of an Alpha
/// instruction, or the one after the last, which ends runs that are out of fuel.
#[derive(Clone, Copy, Debug, PartialEq, Eq)]
pub enum NativeInsn {
    /// An instruction that doesn't jump.
    Plain(X86Insn),
    /// `jmp` to a block.
    Go(u32),
    /// `jCOND` to a block, if the condition holds.
    GoIf(X86Cond, u32),
}

impl NativeInsn {
    /// Returns the length of the instruction in bytes, 1 to 10, wherever it leads.
    pub fn length(self) -> usize
        ensures value { result ≡ native_length self }
        ensures below { result < 11 }
    {
        match self {
            NativeInsn::Plain(insn) => insn.length(),
            NativeInsn::Go(_) => 5,
            NativeInsn::GoIf(_, _) => 6,
        }
    }
}

/// What native code has of an instruction.
#[derive(Clone, Copy, Debug, PartialEq, Eq)]
pub enum Form {
    /// All that it does.
    Whole,
    /// Nothing: the register that it writes is dead.
    Dead,
    /// The flags of a compare, on which the branch behind it goes.
    Compare,
    /// Only a jump: the branch behind such a compare, where this condition holds.
    Joined(X86Cond),
    /// Nothing: no run comes to it.
    Gone,
}
