//! Checks that instructions are well-formed code, with the first wrong line.

ghost use Rattle.std.specs.Prelude.{◌≡◌, ◌<◌, ◌≤◌, length, is_some, IfSome, MatchResult, Ok, Err};
ghost use Rattle.alpha_words.specs.Lawful.{fault_of, target_of};
ghost use Rattle.alpha_cfg.specs.Flow.{next_of};
ghost use Rattle.alpha_cfg.specs.CodeDecoding.{is_inside, first_outside, runs_off};
ghost use Rattle.asm_text.specs.declared.limits.TheConstants.{MAX_INSNS};
ghost use Rattle.pcc_asm.specs.Assembling.{line_at, first_unlawful, as_code};
ghost use Rattle.pcc_asm.specs.Inside.Views.{insn_views};

use crate::fault::AsmFlaw;
use alpha_words::{BadWord, Insn, lawful, target};
use asm_text::SrcInsn;
use word_ops::Profile;

/// Returns why the profile refuses the instruction, or None if it permits it.
fn refusal(insn: Insn, profile: Profile) -> Option<BadWord>
    ensures { result ≡ fault_of profile insn }
{
    match lawful(insn, profile) {
        Ok(()) => None,
        Err(bad) => Some(bad),
    }
}

/// Returns the line of the instruction at index `i`.
fn line_of(said: &[(u32, SrcInsn)], i: usize) -> u32
    requires { i < length said.now }
    ensures { result ≡ line_at (insn_views said.now) i }
{
    let line = &said[i];
    line.0
}

/// Returns the error of the first line whose instruction the profile refuses, or None.
#[tactic(auto, using(crate::proofs::Walking::unlawful_past))]
fn find_unlawful(said: &[(u32, SrcInsn)], code: &[Insn], profile: Profile) -> Option<AsmFlaw>
    requires { length code.now ≡ length said.now }
    ensures { result ≡ first_unlawful profile (insn_views said.now) code.now }
{
    for i in 0..code.len() {
        if let Some(bad) = refusal(code[i], profile) {
            return Some(AsmFlaw::Word(line_of(said, i), bad));
        }
    }
    None
}

/// Checks whether the instruction at index `i` branches to no index outside the code.
fn stays_inside(count: usize, i: u32, insn: Insn) -> bool
    requires { count ≤ MAX_INSNS }
    ensures { result ≡ is_inside count (target_of i insn) }
{
    match target(i, insn) {
        Some(at) => 0 <= at && at < count as i64,
        None => true,
    }
}

/// Returns the first index whose branch leads outside, or None.
#[tactic(auto, using(crate::proofs::Walking::outside_here, crate::proofs::Walking::outside_more, crate::proofs::Walking::outside_past))]
fn find_outside(code: &[Insn]) -> Option<usize>
    requires { length code.now ≤ MAX_INSNS }
    ensures first { result ≡ first_outside (length code.now) 0 code.now }
    ensures within { IfSome result (λ i. i < length code.now) }
{
    for i in 0..code.len() {
        if !stays_inside(code.len(), i as u32, code[i]) {
            return Some(i);
        }
    }
    None
}

/// Checks whether control can fall through the instruction.
fn goes_on(insn: Insn) -> bool
    ensures { result ≡ is_some (next_of 0 insn) }
{
    match insn {
        Insn::Br { .. } | Insn::Ret => false,
        _ => true,
    }
}

/// Checks whether control can fall through the last instruction.
fn goes_off(code: &[Insn]) -> bool
    requires { 0 < length code.now }
    ensures { result ≡ runs_off code.now }
{
    goes_on(code[code.len() - 1])
}

/// Checks whether `code`, assembled from the instructions `said`, is well-formed code of `profile`.
/// Errors: the first wrong line, whose number is taken from `said`.
#[tactic(auto, using(crate::proofs::Shaped::bad_word, crate::proofs::Shaped::bad_target, crate::proofs::Shaped::bad_end, crate::proofs::Shaped::good_code))]
pub fn check(said: &[(u32, SrcInsn)], code: &[Insn], profile: Profile) -> Result<(), AsmFlaw>
    requires count { length code.now ≡ length said.now }
    requires some { 0 < length said.now }
    requires short { length said.now ≤ MAX_INSNS }
    ensures { let checked = as_code profile (insn_views said.now) (Ok code.now) in
        MatchResult result (λ _. checked ≡ Ok code.now) (λ flaw. checked ≡ Err flaw) }
{
    if let Some(flaw) = find_unlawful(said, code, profile) {
        return Err(flaw);
    }
    if let Some(i) = find_outside(code) {
        return Err(AsmFlaw::Target(line_of(said, i)));
    }
    if goes_off(code) {
        return Err(AsmFlaw::FallsOff(line_of(said, code.len() - 1)));
    }
    Ok(())
}
