//! Steps and runs that test no access, on the state of a host.

ghost use Rattle.std.specs.Prelude.{◌≡◌, ◌+◌, ◌<◌, length, if◌then◌else◌, pos, ◌*ℤ◌};
ghost use Rattle.word_ops.specs.Memory as memory;
ghost use Rattle.word_ops.specs.Registers.{read_reg, write_reg};
ghost use Rattle.word_ops.specs.Words.{word_of};
ghost use Rattle.alpha_cfg.specs.Machine as machine;
ghost use Rattle.alpha_cfg.specs.Machine.{State, step_of, run_of, address_of};
ghost use Rattle.alpha_cfg.specs.declared.code.TheConstants.{MAX_WORDS};
ghost use Rattle.reference_machine.specs.declared.layout.TheConstants.{QUADWORDS};
ghost use Rattle.reference_machine.specs.Arena.{map_of};
ghost use Rattle.reference_machine.specs.Agents.{IsPlace};
ghost use Rattle.host_steps.specs.RunEnds.{outcome_of};
ghost use Rattle.host_steps.specs.Operations.{IsOperationAt, AreOperations};
ghost use Rattle.host_steps.specs.Stepping.{arena_state, step_after};
ghost use Rattle.host_steps.specs.Stepping.{IsUnblocked, EndsUnblocked};

use crate::ended::Ended;
use crate::operations::Operation;
use crate::slots::Slots;
use alpha_cfg::Code;
use alpha_words::{Cond, Reg};
use reference_machine::{aligned, takes};
use word_ops::{Op, apply};

/// What a step that tests no access did.
#[derive(Clone, Copy, Debug, PartialEq, Eq)]
pub(crate) enum Stepped {
    /// It went on to an instruction.
    Moved,
    /// It returned; nothing changed.
    Returned,
}

/// The sum of a register and a displacement.
#[inline(always)]
fn address(slots: &Slots, rb: Reg, disp: i16) -> u64
    ensures { result ≡ address_of slots.now rb disp }
{
    slots.read(rb).wrapping_add(i64::from(disp).cast_unsigned())
}

/// The sum of a register and 65,536 times a displacement.
#[inline(always)]
fn far_address(slots: &Slots, rb: Reg, disp: i16) -> u64
    ensures { result ≡ address_of slots.now rb (disp *ℤ pos 65536) }
{
    let far = i64::from(disp) * 65_536;
    slots.read(rb).wrapping_add(far.cast_unsigned())
}

/// The word at an address of the arena.
#[inline(always)]
fn word_at(base: u64, words: &[u64], addr: u64) -> u64
    requires place { IsPlace base addr }
    requires words { length words.now ≡ QUADWORDS }
    ensures { result ≡ memory.read (map_of base words.now) addr }
{
    words[((addr - base) / 8) as usize]
}

/// Goes on to the next instruction.
#[inline(always)]
fn go_on(index: &mut u32) -> Stepped
    requires { index.old < MAX_WORDS }
    ensures result { result ≡ Stepped.Moved }
    ensures index { index.new ≡ index.old + 1 }
{
    *index += 1;
    Stepped::Moved
}

/// Writes a register that isn't 31 and goes on to the next instruction.
#[inline(always)]
fn set_reg(word: u64, reg: Reg, index: &mut u32, slots: &mut Slots) -> Stepped
    requires index { index.old < MAX_WORDS }
    requires reg { reg < 31 }
    ensures result { result ≡ Stepped.Moved }
    ensures index { index.new ≡ index.old + 1 }
    ensures slots { slots.new ≡ write_reg slots.old reg word }
{
    slots.write(reg, word);
    *index += 1;
    Stepped::Moved
}

/// Writes the operator's result for two registers to a register that isn't 31 and goes on.
#[inline(always)]
fn operate(op: Op, ra: Reg, rb: Reg, rc: Reg, index: &mut u32, slots: &mut Slots) -> Stepped
    requires index { index.old < MAX_WORDS }
    requires reg { rc < 31 }
    ensures result { result ≡ Stepped.Moved }
    ensures index { index.new ≡ index.old + 1 }
    ensures slots { slots.new ≡ write_reg slots.old rc
        (word_of op (read_reg slots.old ra) (read_reg slots.old rb)) }
{
    set_reg(apply(op, slots.read(ra), slots.read(rb)), rc, index, slots)
}

/// Writes the operator's result for a register and a literal to a register that isn't 31 and goes
/// on.
#[inline(always)]
fn operate_lit(op: Op, ra: Reg, lit: u8, rc: Reg, index: &mut u32, slots: &mut Slots) -> Stepped
    requires index { index.old < MAX_WORDS }
    requires reg { rc < 31 }
    ensures result { result ≡ Stepped.Moved }
    ensures index { index.new ≡ index.old + 1 }
    ensures slots { slots.new ≡ write_reg slots.old rc (word_of op (read_reg slots.old ra) lit) }
{
    set_reg(apply(op, slots.read(ra), u64::from(lit)), rc, index, slots)
}

/// Stores a word at an address of the arena and goes on to the next instruction.
#[inline(always)]
fn store(word: u64, addr: u64, index: &mut u32, base: u64, words: &mut [u64]) -> Stepped
    requires index { index.old < MAX_WORDS }
    requires place { IsPlace base addr }
    requires words { length words.old ≡ QUADWORDS }
    ensures result { result ≡ Stepped.Moved }
    ensures index { index.new ≡ index.old + 1 }
    ensures words { map_of base words.new
        ≡ memory.write (map_of base words.old) addr word }
{
    let place = ((addr - base) / 8) as usize;
    words[place] = word;
    *index += 1;
    Stepped::Moved
}

/// Goes on to the instruction at an index.
#[inline(always)]
fn go_to(to: u32, index: &mut u32) -> Stepped
    ensures result { result ≡ Stepped.Moved }
    ensures index { index.new ≡ to }
{
    *index = to;
    Stepped::Moved
}

/// Goes on to the instruction at index `to` if the condition holds for the word, else to the next.
#[inline(always)]
fn branch(cond: Cond, word: u64, to: u32, index: &mut u32) -> Stepped
    requires index { index.old < MAX_WORDS }
    ensures result { result ≡ Stepped.Moved }
    ensures index { index.new ≡ (if machine.takes cond word then to else index.old + 1) }
{
    if takes(cond, word) {
        go_to(to, index)
    } else {
        go_on(index)
    }
}

/// The operation at an index.
#[inline(always)]
fn operation_at(code: &Code, operations: &[Operation], i: u32) -> Operation
    requires operations { AreOperations code.now operations.now }
    requires within { i < length code.now }
    ensures at { IsOperationAt code.now i result }
    ensures short { i < MAX_WORDS }
{
    operations[i as usize]
}

/// Makes one step. It tests no access; its caller knows that none would be blocked, were all of the
/// arena allowed. The index stays inside the code. The code itself is read by the contract alone.
#[inline(always)]
fn step(
    code: &Code,
    operations: &[Operation],
    index: &mut u32,
    slots: &mut Slots,
    base: u64,
    words: &mut [u64],
) -> Stepped
    requires operations { AreOperations code.now operations.now }
    requires within { index.old < length code.now }
    requires words { length words.old ≡ QUADWORDS }
    requires unblocked { let start : State = arena_state base index.old slots.old words.old in
        IsUnblocked (step_of code.now start).0 }
    ensures step { (step_after result, arena_state base index.new slots.new words.new)
        ≡ step_of code.now (arena_state base index.old slots.old words.old) }
    ensures within { index.new < length code.now }
{
    match operation_at(code, operations, *index) {
        Operation::Lda { ra, rb, disp } => set_reg(address(slots, rb, disp), ra, index, slots),
        Operation::Ldq { ra, rb, disp } => {
            let word = word_at(base, words, address(slots, rb, disp));
            set_reg(word, ra, index, slots)
        }
        Operation::Ldah { ra, rb, disp } => set_reg(far_address(slots, rb, disp), ra, index, slots),
        Operation::LdqU { ra, rb, disp } => {
            let word = word_at(base, words, aligned(address(slots, rb, disp)));
            set_reg(word, ra, index, slots)
        }
        Operation::Stq { ra, rb, disp } => {
            store(slots.read(ra), address(slots, rb, disp), index, base, words)
        }
        Operation::Add { ra, rb, rc } => operate(Op::Add, ra, rb, rc, index, slots),
        Operation::Sub { ra, rb, rc } => operate(Op::Sub, ra, rb, rc, index, slots),
        Operation::Band { ra, rb, rc } => operate(Op::Band, ra, rb, rc, index, slots),
        Operation::Bis { ra, rb, rc } => operate(Op::Bis, ra, rb, rc, index, slots),
        Operation::Sll { ra, rb, rc } => operate(Op::Sll, ra, rb, rc, index, slots),
        Operation::Srl { ra, rb, rc } => operate(Op::Srl, ra, rb, rc, index, slots),
        Operation::Cmpeq { ra, rb, rc } => operate(Op::Cmpeq, ra, rb, rc, index, slots),
        Operation::Cmplt { ra, rb, rc } => operate(Op::Cmplt, ra, rb, rc, index, slots),
        Operation::Cmple { ra, rb, rc } => operate(Op::Cmple, ra, rb, rc, index, slots),
        Operation::Cmpult { ra, rb, rc } => operate(Op::Cmpult, ra, rb, rc, index, slots),
        Operation::Cmpule { ra, rb, rc } => operate(Op::Cmpule, ra, rb, rc, index, slots),
        Operation::Oper { op, ra, rb, rc } => operate(op, ra, rb, rc, index, slots),
        Operation::AddLit { ra, lit, rc } => operate_lit(Op::Add, ra, lit, rc, index, slots),
        Operation::SubLit { ra, lit, rc } => operate_lit(Op::Sub, ra, lit, rc, index, slots),
        Operation::BandLit { ra, lit, rc } => operate_lit(Op::Band, ra, lit, rc, index, slots),
        Operation::BisLit { ra, lit, rc } => operate_lit(Op::Bis, ra, lit, rc, index, slots),
        Operation::SllLit { ra, lit, rc } => operate_lit(Op::Sll, ra, lit, rc, index, slots),
        Operation::SrlLit { ra, lit, rc } => operate_lit(Op::Srl, ra, lit, rc, index, slots),
        Operation::CmpeqLit { ra, lit, rc } => operate_lit(Op::Cmpeq, ra, lit, rc, index, slots),
        Operation::CmpltLit { ra, lit, rc } => operate_lit(Op::Cmplt, ra, lit, rc, index, slots),
        Operation::CmpleLit { ra, lit, rc } => operate_lit(Op::Cmple, ra, lit, rc, index, slots),
        Operation::CmpultLit { ra, lit, rc } => operate_lit(Op::Cmpult, ra, lit, rc, index, slots),
        Operation::CmpuleLit { ra, lit, rc } => operate_lit(Op::Cmpule, ra, lit, rc, index, slots),
        Operation::OperLit { op, ra, lit, rc } => operate_lit(op, ra, lit, rc, index, slots),
        Operation::Blbc { ra, to } => branch(Cond::LowClear, slots.read(ra), to, index),
        Operation::Beq { ra, to } => branch(Cond::Zero, slots.read(ra), to, index),
        Operation::Blt { ra, to } => branch(Cond::Negative, slots.read(ra), to, index),
        Operation::Ble { ra, to } => branch(Cond::NotPositive, slots.read(ra), to, index),
        Operation::Blbs { ra, to } => branch(Cond::LowSet, slots.read(ra), to, index),
        Operation::Bne { ra, to } => branch(Cond::NotZero, slots.read(ra), to, index),
        Operation::Bge { ra, to } => branch(Cond::NotNegative, slots.read(ra), to, index),
        Operation::Bgt { ra, to } => branch(Cond::Positive, slots.read(ra), to, index),
        Operation::Br { to } => go_to(to, index),
        Operation::Ret => Stepped::Returned,
        Operation::Next => go_on(index),
    }
}

/// Runs at most `budget` steps (a return counts) from the instruction at `index`, and returns how
/// the run ended. Tests no access: the caller knows that none would be blocked if all of the arena,
/// which begins at address `base`, were allowed. The index stays inside the code.
pub fn run_steps(
    code: &Code,
    operations: &[Operation],
    index: &mut u32,
    slots: &mut Slots,
    base: u64,
    words: &mut [u64],
    budget: u64,
) -> Ended
    requires operations { AreOperations code.now operations.now }
    requires within { index.old < length code.now }
    requires words { length words.old ≡ QUADWORDS }
    requires unblocked { let start : State = arena_state base index.old slots.old words.old in
        EndsUnblocked (run_of code.now budget start).0 }
    ensures run { (outcome_of result, arena_state base index.new slots.new words.new)
        ≡ run_of code.now budget (arena_state base index.old slots.old words.old) }
    ensures within { index.new < length code.now }
{
    let mut at = *index; // so that it stays in a register of the processor
    for _ in 0..budget {
        match step(code, operations, &mut at, slots, base, words) {
            Stepped::Moved => {}
            Stepped::Returned => {
                *index = at;
                return Ended::Returned(slots.result());
            }
        }
    }
    *index = at;
    Ended::OutOfSteps
}
