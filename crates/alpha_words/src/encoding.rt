//! Encoding of instructions as 32-bit words.

ghost use Rattle.std.specs.Prelude.{◌≡◌, ◌+◌, ◌*◌, ◌^◌, ◌≤◌, ◌<◌, MatchResult, Some, None, Ok};
ghost use Rattle.alpha_words.specs.Encoding as encoding;
ghost use Rattle.alpha_words.specs.Decoding.{decoded};
ghost use Rattle.alpha_words.specs.Lawful.{fault_of, operand_fault, missing_fault, kept_fault};
ghost use Rattle.alpha_words.specs.Lawful.{register_fault};
ghost use Rattle.alpha_words.specs.Lawful.{HasFormat, target_of};

use crate::conditions::cond_opcode_of;
use crate::fault::BadWord;
use crate::insn::{Format, Insn, Rhs};
use crate::memory::{MemoryKind, has_memory_op, memory_kind, memory_opcode};
use crate::reg::Reg;
use word_ops::{Op, Profile, has_op, op_code};

/// Checks whether the profile has an instruction of this kind.
fn has_insn(insn: &Insn, profile: Profile) -> bool
    ensures { result ≡ encoding.has_insn profile insn.now }
{
    match insn.format() {
        Format::Memory { op, .. } => has_memory_op(profile, op),
        Format::Operate { op, .. } => has_op(profile, op),
        Format::Branch { .. } | Format::Br { .. } | Format::Ret => true,
    }
}

/// Returns why a profile has no instruction of this kind.
fn missing_fault(insn: &Insn) -> BadWord
    ensures { result ≡ missing_fault insn.now }
{
    match insn.format() {
        Format::Operate { .. } => BadWord::Function,
        _ => BadWord::Opcode,
    }
}

/// Checks the first register of the memory format, as both profiles do.
fn lawful_register(kind: MemoryKind, reg: Reg) -> Result<(), BadWord>
    ensures { MatchResult result
        (λ _. register_fault kind reg ≡ None) (λ e. register_fault kind reg ≡ Some e) }
{
    match kind {
        MemoryKind::Address => unkept(reg),
        MemoryKind::Load if reg.number() == 31 => Err(BadWord::LoadToZero),
        MemoryKind::Load => unkept(reg),
        MemoryKind::Store => Ok(()),
    }
}

/// Checks what both profiles refuse: a reserved register, and a load into register 31.
fn any_lawful(insn: Insn) -> Result<(), BadWord>
    ensures { MatchResult result (λ _. operand_fault insn ≡ None)
        (λ e. operand_fault insn ≡ Some e) }
{
    match insn.format() {
        Format::Memory { op, ra, .. } => lawful_register(memory_kind(op), ra),
        Format::Operate { rc, .. } => unkept(rc),
        Format::Branch { .. } | Format::Br { .. } | Format::Ret => Ok(()),
    }
}

/// Checks whether code of `profile` may contain the instruction.
///
/// Errors: `Opcode` or `Function` if the profile has no such instruction; `KeptRegister` if it
/// would write a reserved register; `LoadToZero` if it would load into register 31.
pub fn lawful(insn: Insn, profile: Profile) -> Result<(), BadWord>
    ensures { MatchResult result
        (λ _. fault_of profile insn ≡ None) (λ e. fault_of profile insn ≡ Some e) }
{
    if !has_insn(&insn, profile) {
        return Err(missing_fault(&insn));
    }
    any_lawful(insn)
}

/// Checks that an instruction may write the register: it is not reserved.
fn unkept(reg: Reg) -> Result<(), BadWord>
    ensures { MatchResult result (λ _. kept_fault reg ≡ None) (λ e. kept_fault reg ≡ Some e) }
{
    if reg.is_kept() {
        Err(BadWord::KeptRegister)
    } else {
        Ok(())
    }
}

/// Returns the index that a branch at `index` leads to, `index + 1 + disp`, or None if the
/// instruction is no branch.
pub fn target(index: u32, insn: Insn) -> Option<i64>
    ensures { result ≡ target_of index insn }
{
    match insn.format() {
        Format::Branch { disp, .. } => Some(i64::from(index) + 1 + i64::from(disp)),
        Format::Br { disp } => Some(i64::from(index) + 1 + i64::from(disp)),
        _ => None,
    }
}

/// Returns a word of the memory format.
fn memory(opcode: u32, ra: Reg, rb: Reg, disp: i16) -> u32
    requires { opcode < 64 }
    ensures { result ≡ encoding.memory_word opcode ra rb disp }
{
    (opcode << 26) + (ra.number() << 21) + (rb.number() << 16) + u32::from(disp.cast_unsigned())
}

/// Returns a word of the branch format.
fn branch(opcode: u32, ra: u32, disp: i32) -> u32
    requires opcode { opcode < 64 }
    requires ra { ra < 32 }
    requires disp { encoding.HasBits 20 disp }
    ensures { result ≡ encoding.branch_word opcode ra disp }
{
    (opcode << 26) + (ra << 21) + (disp.cast_unsigned() & 0x1f_ffff)
}

/// Returns the second operand as bits 20 to 12 of a word of the operate format.
fn rhs_bits(rhs: Rhs) -> u32
    ensures value { result ≡ encoding.rhs_bits rhs }
    ensures fits { encoding.IsRhs rhs }
    ensures below { result < 2 ^ 21 }
{
    match rhs {
        Rhs::Reg(rb) => rb.number() << 16,
        Rhs::Lit(literal) => (u32::from(literal) << 13) | 0x1000,
    }
}

/// Returns a word of the operate format.
fn operate(op: Op, ra: Reg, rhs: Rhs, rc: Reg) -> u32
    ensures { result ≡ encoding.operate_word op ra rhs rc }
{
    let (opcode, function) = op_code(op);
    (opcode << 26) + (ra.number() << 21) + rhs_bits(rhs) + (function << 5) + rc.number()
}

/// Returns the word of a permitted instruction.
fn write(insn: Insn) -> u32
    requires lawful { operand_fault insn ≡ None }
    requires reaches { HasFormat insn }
    ensures encodes { encoding.EncodesAny result insn }
    ensures hint { insn ≡ Insn.Ret → result ≡ 0x6BFA8001 }
{
    match insn.format() {
        Format::Memory { op, ra, rb, disp } => memory(memory_opcode(op), ra, rb, disp),
        Format::Operate { op, ra, rhs, rc } => operate(op, ra, rhs, rc),
        Format::Branch { cond, ra, disp } => branch(cond_opcode_of(cond), ra.number(), disp),
        Format::Br { disp } => branch(0x30, 31, disp),
        Format::Ret => 0x6bfa_8001,
    }
}

/// Returns the word that encodes an instruction that `profile` has. The displacement of a branch
/// must fit in 21 bits. A return is written with hint 1.
pub fn encode(insn: Insn, profile: Profile) -> u32
    requires lawful { fault_of profile insn ≡ None }
    requires reaches { HasFormat insn }
    ensures encodes { encoding.Encodes profile result insn }
    ensures round_trip { decoded profile result ≡ Ok insn }
    ensures hint { insn ≡ Insn.Ret → result ≡ 0x6BFA8001 }
{
    let _ = profile; // only the clauses speak of it
    write(insn)
}
