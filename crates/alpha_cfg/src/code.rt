//! Code: the instructions that bytes encode, whose branches stay inside.

ghost use Rattle.std.specs.Prelude.{◌≡◌, ℕ, ◌+◌, ◌*◌, ◌%◌, ◌<◌, ◌≤◌, ◌↔◌, length, slice_get, Some, IsTrue, IsSome, IfSome, IfNone, IfOk, IfErr, MatchResult, Err};
ghost use Rattle.alpha_cfg.specs.CodeBytes.{code_word_at, EncodesCode, IsShapeFlaw, IsCodeAnswer};
ghost use Rattle.alpha_cfg.specs.CodeDecoding.{IsDecoded};
ghost use Rattle.alpha_cfg.specs.declared.code.TheConstants.{MAX_WORDS};
ghost use Rattle.alpha_cfg.specs.Inside.Words.{IsFlawAt};
ghost use Rattle.alpha_cfg.specs.Flow.{IsCode, AreInsns, IsInside, IsFinal, jump_of, next_of};
ghost use Rattle.alpha_words.specs.Lawful.{target_of};
ghost use Rattle.alpha_words.specs.Encoding.{Encodes};

use crate::fault::{CodeFault, CodeFlaw};
use alpha_words::{Insn, Rhs, decode, target};
use std::alloc::Global;
use std::marker::Model;
use word_ops::Profile;

/// The maximum number of instructions of code.
pub const MAX_WORDS: usize = 1024;

/// Well-formed code: 1 to 1,024 instructions whose branches stay inside and which can't run off the
/// end. Contracts see the list of its instructions.
#[derive(Debug, Drop)]
pub struct Code {
    insns: Vec<Insn>,
}

impl Model for Code {
    ghost use Rattle.std.specs.Prelude.{List};
    ghost use Rattle.alpha_words.specs.declared.insn.Insn.{Insn};
    ghost use Rattle.alpha_cfg.specs.Flow.{IsCode};

    ghost Value = { List Insn };

    ghost view = { λ c. c.insns.items };

    ghost invariant = { λ c. IsCode c.insns.items };
}

impl Code {
    /// Returns the number of instructions.
    pub fn count(&self) -> u32
        ensures value { result ≡ length self.now }
        ensures code { IsCode self.now }
    {
        self.insns.len() as u32
    }

    /// Returns the instructions in order.
    pub fn insns(&self) -> &[Insn]
        ensures value { result.now ≡ self.now }
        ensures code { IsCode result.now }
    {
        &self.insns
    }

    /// Returns the instruction at index `i`, which must be inside the code.
    pub fn insn(&self, i: u32) -> Insn
        requires { i < length self.now }
        ensures at { slice_get self.now i ≡ Some result }
        ensures short { i < MAX_WORDS }
        ensures next { IfSome (next_of i result) (λ j. j < length self.now) }
    {
        self.insns[i as usize]
    }
}

impl Code {
    /// Returns the target index of the branch `insn` at index `i`; it is inside the code.
    pub fn jump(&self, i: u32, insn: &Insn) -> u32
        requires at { slice_get self.now i ≡ Some insn.now }
        requires branch { IsSome (target_of i insn.now) }
        ensures value { jump_of i insn.now ≡ Some result }
        ensures within { result < length self.now }
    {
        let _ = &self.insns; // opens the invariant for the prover
        match target(i, *insn) {
            Some(at) => at as u32,
            None => unreachable!(),
        }
    }

    /// Returns the index after the instruction `insn` at `i`, which must be one that can fall
    /// through; the result is inside the code.
    pub fn next(&self, i: u32, insn: &Insn) -> u32
        requires at { slice_get self.now i ≡ Some insn.now }
        requires on { IsSome (next_of i insn.now) }
        ensures value { next_of i insn.now ≡ Some result }
        ensures within { result < length self.now }
    {
        let _ = &self.insns; // opens the invariant for the prover
        i + 1
    }
}

/// Returns the word at index `i` of the code's bytes.
fn word_of(code: &[u8], i: usize) -> u32
    requires { 4 * i + 4 ≤ length code.now }
    ensures { result ≡ code_word_at code.now i }
{
    let at = 4 * i;
    u32::from_le_bytes([code[at], code[at + 1], code[at + 2], code[at + 3]])
}

/// Decodes the word at index `i`. Errors: the word is no instruction.
fn decode_at(code: &[u8], i: usize, profile: Profile) -> Result<Insn, CodeFlaw>
    requires within { 4 * i + 4 ≤ length code.now }
    requires short { i < MAX_WORDS }
    ensures encodes { IfOk result (λ insn. Encodes profile (code_word_at code.now i) insn) }
    ensures flaw { IfErr result (λ e. IsFlawAt profile code.now i e) }
{
    let word = word_of(code, i);
    match decode(word, profile) {
        Ok(insn) => Ok(insn),
        Err(bad) => Err(CodeFlaw::BadWord(i as u32, word, bad)),
    }
}

/// Decodes all words. Errors: the first word that is no instruction, or out of memory.
fn decode_all(alloc: Global, code: &[u8], profile: Profile) -> Result<Vec<Insn>, CodeFault>
    requires whole { length code.now % 4 ≡ 0 }
    requires short { length code.now ≤ 4 * MAX_WORDS }
    ensures encodes { IfOk result (λ v. EncodesCode profile code.now v.items) }
    ensures fault { IfErr result (λ e. IsCodeAnswer profile code.now (Err e)) }
{
    let _no_operand: Option<Rhs> = None;
    let mut insns = Vec::new(alloc);
    for i in 0..code.len() / 4 {
        insns.push(decode_at(code, i, profile)?)?;
    }
    Ok(insns)
}

/// Checks whether a branch at index `i` stays inside the code.
fn stays_inside(insns: &[Insn], i: usize) -> bool
    requires within { i < length insns.now }
    requires short { length insns.now ≤ MAX_WORDS }
    ensures { IsTrue result ↔ IsInside insns.now i }
{
    match target(i as u32, insns[i]) {
        Some(at) => 0 <= at && at < insns.len() as i64,
        None => true,
    }
}

/// Returns the least index whose branch leads outside, or None.
fn first_outside(insns: &[Insn]) -> Option<usize>
    requires { length insns.now ≤ MAX_WORDS }
    ensures found { IfSome result (λ i. (i < length insns.now) × (IsInside insns.now i → ⊥)
        × ((k : ℕ) → k < i → IsInside insns.now k)) }
    ensures none { IfNone result ((i : ℕ) → IsInside insns.now i) }
{
    for i in 0..insns.len() {
        if !stays_inside(insns, i) {
            return Some(i);
        }
    }
    None
}

/// Checks whether control cannot fall through the instruction.
fn ends(insn: Insn) -> bool
    ensures { IsTrue result ↔ IsFinal insn }
{
    matches!(insn, Insn::Br { .. } | Insn::Ret)
}

/// Returns what is wrong with the instructions, or None if they are well-formed code.
fn shape_flaw(insns: &[Insn]) -> Option<CodeFlaw>
    requires some { 0 < length insns.now }
    requires short { length insns.now ≤ MAX_WORDS }
    requires encoded { AreInsns insns.now }
    ensures found { IfSome result (λ e. IsShapeFlaw insns.now e) }
    ensures none { IfNone result (IsCode insns.now) }
{
    if let Some(i) = first_outside(insns) {
        return Some(CodeFlaw::Target(i as u32));
    }
    let last = insns.len() - 1;
    if ends(insns[last]) {
        None
    } else {
        Some(CodeFlaw::FallsOff(last as u32))
    }
}

/// Returns the code that the bytes encode, or the first error.
fn make(alloc: Global, code: &[u8], profile: Profile) -> Result<Code, CodeFault>
    requires whole { length code.now % 4 ≡ 0 }
    requires some { 0 < length code.now }
    requires short { length code.now ≤ 4 * MAX_WORDS }
    ensures { IsCodeAnswer profile code.now result }
{
    let insns = decode_all(alloc, code, profile)?;
    match shape_flaw(&insns) {
        Some(flaw) => Err(CodeFault::At(flaw)),
        None => Ok(Code { insns }),
    }
}

impl Code {
    /// Decodes bytes, 1 to 1,024 words of four bytes, as well-formed code of `profile`.
    ///
    /// Errors: the least index whose word is no instruction; else the least index that branches
    /// outside the code; else the last index, if it is neither a return nor a branch that is always
    /// taken; or out of memory. Words that control flow can't reach are checked too.
    pub fn of(alloc: Global, code: &[u8], profile: Profile) -> Result<Code, CodeFault>
        requires whole { length code.now % 4 ≡ 0 }
        requires some { 0 < length code.now }
        requires short { length code.now ≤ 4 * MAX_WORDS }
        ensures decodes { IsCodeAnswer profile code.now result }
        ensures exact { IsDecoded profile code.now result }
    {
        make(alloc, code, profile)
    }
}
