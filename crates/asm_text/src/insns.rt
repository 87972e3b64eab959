//! Instructions of a source, whose branches name labels.

ghost use Rattle.std.specs.Prelude.{◌≡◌, IfOk};
ghost use Rattle.std.specs.Option.{option_map};
ghost use Rattle.text_tokens.specs.Tokens.{tokens_of};
ghost use Rattle.asm_text.specs.Marks.{source_class};
ghost use Rattle.asm_text.specs.InsnParsing.{next_lexeme, behind, at_end, displacement_at};
ghost use Rattle.asm_text.specs.InsnParsing.{memory_form, operate_form, last_label};
ghost use Rattle.asm_text.specs.InsnParsing.{branch_form, label_form, return_form};
ghost use Rattle.asm_text.specs.InsnParsing.{memory_operands, parsed_memory, parsed_operate};
ghost use Rattle.asm_text.specs.InsnParsing.{parsed_branch, br_by, parsed_br, parsed_return};
ghost use Rattle.asm_text.specs.Insns.{BrTo};
ghost use Rattle.asm_text.specs.InsnParsing.{nop, parsed_operands, parsed_insn};
ghost use Rattle.asm_text.specs.Inside.Views.{Yields, YieldsOrMemory};
ghost use Rattle.asm_text.specs.Views.{source_insn_view};

use crate::fault::{LineFlaw, Refused};
use crate::integers::{count, displacement, is_integer, rhs};
use crate::labels::{Label, is_label};
use crate::marks::{Punct, front, is_mark};
use crate::mnemonics::{Mnemonic, mnemonic_named};
use crate::registers::{fixed_register, register_at};
use alpha_words::{Cond, Insn, MemoryOp, Reg, Rhs, memory_insn};
use std::alloc::{AllocError, Global};
use text_tokens::Token;
use word_ops::{Op, Profile};

/// An instruction of a source; a branch names a label.
#[derive(Debug, PartialEq, Eq, Drop)]
pub enum SrcInsn {
    /// An instruction that names no label.
    Plain(Insn),
    /// A conditional branch.
    Branch {
        /// The condition on which it is taken.
        cond: Cond,
        /// The register that it tests.
        ra: Reg,
        /// The label that it goes to.
        label: Label,
    },
    /// A branch that is always taken.
    Br {
        /// The label that it goes to.
        label: Label,
    },
}

/// The operands of a memory instruction.
#[derive(Clone, Copy)]
struct MemoryOperands {
    ra: Reg,
    disp: i16,
    rb: Reg,
}

/// Creates a label with this text. Errors: out of memory.
pub fn owned_label(alloc: Global, text: &[u8]) -> Result<Label, AllocError>
    ensures { IfOk result (λ l. l.text.items ≡ text.now) }
{
    let text = Vec::from_slice(alloc, text)?;
    Ok(Label { text })
}

/// Splits a text into the lexeme at its front and the text after it.
fn next_lexeme(text: &[u8]) -> Result<(&[u8], &[u8]), LineFlaw>
    ensures { Yields (λ p. (p.0.now, tokens_of source_class p.1.now))
        (next_lexeme (tokens_of source_class text.now)) result }
{
    match front(text) {
        Some((Token::Lexeme(lexeme), rest)) => Ok((lexeme, rest)),
        _ => Err(LineFlaw::Operand),
    }
}

/// Returns the text after this punctuation token.
fn behind(wanted: Punct, text: &[u8]) -> Result<&[u8], LineFlaw>
    ensures { Yields (λ p. tokens_of source_class p.now)
        (behind wanted (tokens_of source_class text.now)) result }
{
    match front(text) {
        Some((Token::Mark(mark), rest)) => {
            if is_mark(mark, wanted) {
                Ok(rest)
            } else {
                Err(LineFlaw::Operand)
            }
        }
        _ => Err(LineFlaw::Operand),
    }
}

/// Splits off an integer, if a lexeme comes next, and returns it with the text after it.
fn displacement_at(text: &[u8]) -> Result<(Option<&[u8]>, &[u8]), LineFlaw>
    ensures { Yields (λ p. (option_map (λ w. w.now) p.0, tokens_of source_class p.1.now))
        (displacement_at (tokens_of source_class text.now)) result }
{
    match front(text) {
        Some((Token::Lexeme(lexeme), rest)) => {
            if is_integer(lexeme) {
                Ok((Some(lexeme), rest))
            } else {
                Err(LineFlaw::Operand)
            }
        }
        _ => Ok((None, text)),
    }
}

/// Splits off the lexemes of `ra,disp(rb)` or `ra,(rb)`.
#[tactic(auto, unfolding(crate::specs::InsnParsing::memory_form))]
fn memory_form(text: &[u8]) -> Result<(&[u8], Option<&[u8]>, &[u8]), LineFlaw>
    ensures { Yields (λ f. (f.0.now, option_map (λ w. w.now) f.1, f.2.now))
        (memory_form (tokens_of source_class text.now)) result }
{
    let (ra, rest) = next_lexeme(text)?;
    let rest = behind(Punct::Comma, rest)?;
    let (disp, rest) = displacement_at(rest)?;
    let rest = behind(Punct::Open, rest)?;
    let (rb, rest) = next_lexeme(rest)?;
    let rest = behind(Punct::Close, rest)?;
    if front(rest).is_some() {
        return Err(LineFlaw::Operand);
    }
    Ok((ra, disp, rb))
}

/// Parses the operands of a memory instruction.
#[tactic(auto, unfolding(crate::specs::InsnParsing::memory_operands))]
fn memory_operands(text: &[u8]) -> Result<MemoryOperands, LineFlaw>
    ensures { Yields (λ m. (m.ra, m.disp, m.rb))
        (memory_operands (tokens_of source_class text.now)) result }
{
    let (ra, disp, rb) = memory_form(text)?;
    let ra = register_at(ra)?;
    let disp = displacement(disp)?;
    let rb = register_at(rb)?;
    Ok(MemoryOperands { ra, disp, rb })
}

/// Parses a memory instruction, from the text after its mnemonic.
fn memory(op: MemoryOp, text: &[u8]) -> Result<SrcInsn, LineFlaw>
    ensures { Yields source_insn_view (parsed_memory op (tokens_of source_class text.now)) result }
{
    let MemoryOperands { ra, disp, rb } = memory_operands(text)?;
    Ok(SrcInsn::Plain(memory_insn(op, ra, rb, disp)))
}

/// Splits off the lexemes of `ra,rb,rc`.
#[tactic(auto, unfolding(crate::specs::InsnParsing::operate_form))]
fn operate_form(text: &[u8]) -> Result<(&[u8], &[u8], &[u8]), LineFlaw>
    ensures { Yields (λ f. (f.0.now, f.1.now, f.2.now))
        (operate_form (tokens_of source_class text.now)) result }
{
    let (ra, rest) = next_lexeme(text)?;
    let rest = behind(Punct::Comma, rest)?;
    let (rhs, rest) = next_lexeme(rest)?;
    let rest = behind(Punct::Comma, rest)?;
    let (rc, rest) = next_lexeme(rest)?;
    if front(rest).is_some() {
        return Err(LineFlaw::Operand);
    }
    Ok((ra, rhs, rc))
}

/// Parses an operate instruction, from the text after its mnemonic.
#[tactic(auto, unfolding(crate::specs::InsnParsing::parsed_operate))]
fn operate(op: Op, text: &[u8]) -> Result<SrcInsn, LineFlaw>
    ensures { Yields source_insn_view (parsed_operate op (tokens_of source_class text.now)) result }
{
    let (ra, right, rc) = operate_form(text)?;
    let ra = register_at(ra)?;
    let rhs = rhs(right)?;
    let rc = register_at(rc)?;
    Ok(SrcInsn::Plain(Insn::Oper { op, ra, rhs, rc }))
}

/// Returns the label if no token is left after it.
fn last_label<'t>(label: &'t [u8], rest: &'t [u8]) -> Result<&'t [u8], LineFlaw>
    ensures { Yields (λ l. l.now) (last_label (label.now, tokens_of source_class rest.now)) result }
{
    if !is_label(label) || front(rest).is_some() {
        return Err(LineFlaw::Operand);
    }
    Ok(label)
}

/// Splits off the lexemes of `ra,label`.
#[tactic(auto, unfolding(crate::specs::InsnParsing::branch_form))]
fn branch_form(text: &[u8]) -> Result<(&[u8], &[u8]), LineFlaw>
    ensures { Yields (λ f. (f.0.now, f.1.now))
        (branch_form (tokens_of source_class text.now)) result }
{
    let (ra, rest) = next_lexeme(text)?;
    let rest = behind(Punct::Comma, rest)?;
    let (label, rest) = next_lexeme(rest)?;
    let label = last_label(label, rest)?;
    Ok((ra, label))
}

/// Parses a conditional branch, from the text after its mnemonic.
#[tactic(auto, unfolding(crate::specs::InsnParsing::parsed_branch))]
fn branch(alloc: Global, cond: Cond, text: &[u8]) -> Result<SrcInsn, Refused>
    ensures { YieldsOrMemory source_insn_view
        (parsed_branch cond (tokens_of source_class text.now)) result }
{
    let (ra, label) = branch_form(text)?;
    let ra = register_at(ra)?;
    let label = owned_label(alloc, label)?;
    Ok(SrcInsn::Branch { cond, ra, label })
}

/// Splits off the label of `,label`.
#[tactic(auto, unfolding(crate::specs::InsnParsing::label_form))]
fn label_form(text: &[u8]) -> Result<&[u8], LineFlaw>
    ensures { Yields (λ l. l.now) (label_form (tokens_of source_class text.now)) result }
{
    let rest = behind(Punct::Comma, text)?;
    let (label, rest) = next_lexeme(rest)?;
    last_label(label, rest)
}

/// Parses the label of `br`, from its first lexeme and the text after it.
fn br_by<'t>(first: &'t [u8], rest: &'t [u8]) -> Result<&'t [u8], LineFlaw>
    ensures { Yields (λ l. BrTo l.now) (br_by first.now (tokens_of source_class rest.now)) result }
{
    match front(rest) {
        None => last_label(first, rest),
        Some((Token::Lexeme(_), _)) => Err(LineFlaw::Operand),
        Some((Token::Mark(_), _)) => {
            let label = label_form(rest)?;
            fixed_register(31, first)?;
            Ok(label)
        }
    }
}

/// Parses `br`, from the text after its mnemonic.
#[tactic(auto, unfolding(crate::specs::InsnParsing::parsed_br))]
fn br(alloc: Global, text: &[u8]) -> Result<SrcInsn, Refused>
    ensures { YieldsOrMemory source_insn_view (parsed_br (tokens_of source_class text.now)) result }
{
    let (first, rest) = next_lexeme(text)?;
    let label = br_by(first, rest)?;
    let label = owned_label(alloc, label)?;
    Ok(SrcInsn::Br { label })
}

/// Splits off the lexemes of `$31,($26),n`.
#[tactic(auto, unfolding(crate::specs::InsnParsing::return_form))]
fn return_form(text: &[u8]) -> Result<(&[u8], &[u8], &[u8]), LineFlaw>
    ensures { Yields (λ f. (f.0.now, f.1.now, f.2.now))
        (return_form (tokens_of source_class text.now)) result }
{
    let (ra, rest) = next_lexeme(text)?;
    let rest = behind(Punct::Comma, rest)?;
    let rest = behind(Punct::Open, rest)?;
    let (rb, rest) = next_lexeme(rest)?;
    let rest = behind(Punct::Close, rest)?;
    let rest = behind(Punct::Comma, rest)?;
    let (hint, rest) = next_lexeme(rest)?;
    if !is_integer(hint) || front(rest).is_some() {
        return Err(LineFlaw::Operand);
    }
    Ok((ra, rb, hint))
}

/// Parses `ret`, from the text after its mnemonic.
#[tactic(auto, unfolding(crate::specs::InsnParsing::parsed_return))]
fn ret(text: &[u8]) -> Result<SrcInsn, LineFlaw>
    ensures { Yields source_insn_view (parsed_return (tokens_of source_class text.now)) result }
{
    if front(text).is_none() {
        return Ok(SrcInsn::Plain(Insn::Ret));
    }
    let (ra, rb, hint) = return_form(text)?;
    fixed_register(31, ra)?;
    fixed_register(26, rb)?;
    count(16_384, hint)?;
    Ok(SrcInsn::Plain(Insn::Ret))
}

/// Parses `nop`, from the text after its mnemonic.
fn nop(text: &[u8]) -> Result<SrcInsn, LineFlaw>
    ensures { Yields source_insn_view (at_end nop (tokens_of source_class text.now)) result }
{
    match front(text) {
        None => Ok(SrcInsn::Plain(Insn::Oper {
            op: Op::Bis,
            ra: Reg::new(31),
            rhs: Rhs::Reg(Reg::new(31)),
            rc: Reg::new(31),
        })),
        Some(_) => Err(LineFlaw::Operand),
    }
}

/// Parses the operands of a mnemonic, from the text after it.
fn operands(alloc: Global, mnemonic: Mnemonic, text: &[u8]) -> Result<SrcInsn, Refused>
    ensures { YieldsOrMemory source_insn_view
        (parsed_operands mnemonic (tokens_of source_class text.now)) result }
{
    match mnemonic {
        Mnemonic::Memory(op) => Ok(memory(op, text)?),
        Mnemonic::Oper(op) => Ok(operate(op, text)?),
        Mnemonic::Branch(cond) => branch(alloc, cond, text),
        Mnemonic::Br => br(alloc, text),
        Mnemonic::Ret => Ok(ret(text)?),
        Mnemonic::Nop => Ok(nop(text)?),
    }
}

/// Parses `text` as an instruction of `profile`. Errors: the first thing that is wrong, or out of
/// memory.
#[tactic(auto, unfolding(crate::specs::InsnParsing::parsed_insn))]
pub fn read_insn(alloc: Global, text: &[u8], profile: Profile) -> Result<SrcInsn, Refused>
    ensures { YieldsOrMemory source_insn_view
        (parsed_insn profile (tokens_of source_class text.now)) result }
{
    match front(text) {
        Some((Token::Lexeme(lexeme), rest)) => match mnemonic_named(lexeme, profile) {
            Some(mnemonic) => operands(alloc, mnemonic, rest),
            None => Err(Refused::Flaw(LineFlaw::Mnemonic)),
        },
        _ => Err(Refused::Flaw(LineFlaw::Mnemonic)),
    }
}
