//! Decoding of 32-bit words as instructions.

ghost use Rattle.std.specs.Prelude.{◌≡◌, ◌+◌, ◌/◌, ◌%◌, ◌^◌, ◌≤◌, ◌<◌, ◌↔◌, IfOk, None, Err};
ghost use Rattle.alpha_words.specs.Lawful.{fault_of, HasFormat};
ghost use Rattle.alpha_words.specs.WordTests.{IsBadWord};
ghost use Rattle.alpha_words.specs.declared.insn.Insn.{Insn};
ghost use Rattle.alpha_words.specs.declared.fault.BadWord as bad_word;
ghost use Rattle.word_ops.specs.Operators.{op_of_code, of_profile};
ghost use Rattle.alpha_words.specs.Conditions.{cond_at};
ghost use Rattle.alpha_words.specs.Decoding as decoding;
ghost use Rattle.alpha_words.specs.Encoding as encoding;

use crate::conditions::cond_at;
use crate::fault::BadWord;
use crate::insn::{Insn, Rhs, memory_insn};
use crate::memory::{MemoryKind, MemoryOp, memory_kind, memory_op_at, memory_op_of};
use crate::reg::Reg;
use word_ops::{Profile, of_profile, op_of_code};

/// Returns the register whose number is in the five bits from `low` on.
fn reg_at(word: u32, low: u32) -> Reg
    requires { low ≤ 27 }
    ensures { result ≡ decoding.reg_at word low }
{
    Reg::new((word >> low) & 0x1f)
}

/// Returns the displacement of a word of the memory format, in bytes.
fn short_displacement(word: u32) -> i16
    ensures { result ≡ decoding.signed_of 15 (word % 2 ^ 16) }
{
    ((word & 0xffff) as u16).cast_signed()
}

/// Returns the displacement of a word of the branch format, in instructions.
fn long_displacement(word: u32) -> i32
    ensures { result ≡ decoding.signed_of 20 (word % 2 ^ 21) }
{
    let field = word & 0x1f_ffff;
    if field < 0x10_0000 {
        field as i32
    } else {
        field as i32 - 0x20_0000
    }
}

/// Returns the instruction, unless the register that it writes is reserved.
fn writing(written: Reg, insn: Insn) -> Result<Insn, BadWord>
    ensures { result ≡ decoding.unless_kept written insn }
{
    if written.is_kept() {
        Err(BadWord::KeptRegister)
    } else {
        Ok(insn)
    }
}

/// Returns the load, unless it is to register 31 or to a reserved register.
fn loading(written: Reg, insn: Insn) -> Result<Insn, BadWord>
    ensures { result ≡ decoding.loaded written insn }
{
    if written.number() == 31 {
        Err(BadWord::LoadToZero)
    } else {
        writing(written, insn)
    }
}

/// Decodes a word of the memory format.
fn memory(op: MemoryOp, word: u32) -> Result<Insn, BadWord>
    ensures { result ≡ decoding.decoded_memory word op }
{
    let ra = reg_at(word, 21);
    let insn = memory_insn(op, ra, reg_at(word, 16), short_displacement(word));
    match memory_kind(op) {
        MemoryKind::Address => writing(ra, insn),
        MemoryKind::Load => loading(ra, insn),
        MemoryKind::Store => Ok(insn),
    }
}

/// Returns the second operand of a word of the operate format.
fn rhs_at(word: u32) -> Rhs
    ensures { result ≡ decoding.rhs_at word }
{
    if (word >> 12) & 1 == 1 {
        Rhs::Lit(((word >> 13) & 0xff) as u8)
    } else {
        Rhs::Reg(reg_at(word, 16))
    }
}

/// Checks whether a bit is set that must be zero if the second operand is a register.
fn has_reserved(word: u32) -> bool
    ensures { result ≡ decoding.has_reserved word }
{
    (word >> 12) & 1 == 0 && (word >> 13) & 7 != 0
}

/// Decodes a word of the operate format.
fn operate(profile: Profile, word: u32) -> Result<Insn, BadWord>
    ensures { result ≡ decoding.decoded_operate word
        (of_profile profile (op_of_code (word / 2 ^ 26) (word / 2 ^ 5 % 128))) }
{
    let named = op_of_code(word >> 26, (word >> 5) & 0x7f);
    let Some(op) = of_profile(profile, named) else {
        return Err(BadWord::Function);
    };
    if has_reserved(word) {
        return Err(BadWord::Reserved);
    }
    let rc = reg_at(word, 0);
    writing(
        rc,
        Insn::Oper {
            op,
            ra: reg_at(word, 21),
            rhs: rhs_at(word),
            rc,
        },
    )
}

/// Checks whether the registers and the kind of jump make the word a return.
fn is_return(word: u32) -> bool
    ensures { result ≡ decoding.is_return word }
{
    reg_at(word, 21).number() == 31 && reg_at(word, 16).number() == 26 && (word >> 14) & 3 == 2
}

/// Decodes a word as a conditional branch, if its opcode is one.
fn branch(word: u32) -> Result<Insn, BadWord>
    ensures { result ≡ decoding.decoded_branch word (cond_at (word / 2 ^ 26)) }
{
    match cond_at(word >> 26) {
        Some(cond) => Ok(Insn::Branch {
            cond,
            ra: reg_at(word, 21),
            disp: long_displacement(word),
        }),
        None => Err(BadWord::Opcode),
    }
}

/// Decodes a word that is not of the memory format.
fn other(profile: Profile, word: u32) -> Result<Insn, BadWord>
    ensures { result ≡ decoding.decoded_other profile word }
{
    match word >> 26 {
        0x10..=0x12 => operate(profile, word),
        0x1a if is_return(word) => Ok(Insn::Ret),
        0x1a => Err(BadWord::BadReturn),
        0x30 if reg_at(word, 21).number() == 31 => Ok(Insn::Br {
            disp: long_displacement(word),
        }),
        0x30 => Err(BadWord::BadLink),
        _ => branch(word),
    }
}

/// Returns the instruction that the word encodes, or the first test that the word fails.
fn read(profile: Profile, word: u32) -> Result<Insn, BadWord>
    ensures { result ≡ decoding.decoded profile word }
{
    match memory_op_of(profile, memory_op_at(word >> 26)) {
        Some(op) => memory(op, word),
        None => other(profile, word),
    }
}

/// Returns the instruction that `word` encodes in `profile`.
///
/// Errors: the first test that the word fails. The tests come in this order: an opcode that the
/// profile hasn't; for operate words a function that it hasn't, the reserved bits, a reserved
/// register; for an address a reserved register; for a load register 31, then a reserved register;
/// for the jump opcode a form other than the return's; for `br` a first register other than 31.
pub fn decode(word: u32, profile: Profile) -> Result<Insn, BadWord>
    ensures decodes { (i : Insn) → (result ≡ Ok i) ↔ encoding.Encodes profile word i }
    ensures refuses { (bad : bad_word.BadWord) → (result ≡ Err bad) ↔ IsBadWord profile word bad }
    ensures exact { result ≡ decoding.decoded profile word }
    ensures lawful { IfOk result (λ i. (fault_of profile i ≡ None) × HasFormat i) }
{
    read(profile, word)
}
