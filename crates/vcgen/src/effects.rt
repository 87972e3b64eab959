//! The effect of an instruction on the terms for registers, memory and remaining steps.

ghost use Rattle.std.specs.Prelude.{◌≡◌, ◌<◌, Some, IfOk, IfSome, length, slice_get};
ghost use Rattle.alpha_cfg.specs.Flow.{next_of};
ghost use Rattle.term_table.specs.Table.{Extends};
ghost use Rattle.lf_encode.specs.PutTree.{machine_terms_at};
ghost use Rattle.lf_encode.specs.Kept.{AreMachineTerms};
ghost use Rattle.lf_signature.specs.Nodes.{IsIdOf};
ghost use Rattle.lf_signature.specs.Terms.{lit, rd, wr, sel, upd, rel_term};
ghost use Rattle.word_ops.specs.declared.Rel.TheVariants.{Ult};
ghost use Rattle.vcgen.specs.WalkTree.{insn_effect, reg_term, address_term, aligned_term};
ghost use Rattle.vcgen.specs.WalkTree.{with_reg, with_memory, one_less};
ghost use Rattle.vcgen.specs.WalkTree.{tested_term, taken_term, passed_term};
ghost use Rattle.vcgen.specs.Symbols.{ids_of, IsEffect, StandFor};

use crate::branches::{passed, taken, tested};
use crate::symbols::Symbols;
use alpha_cfg::Code;
use alpha_words::{Cond, Insn, Reg};
use lf_signature::app1;
use lf_signature::numbers::{RD, WR};
use std::alloc::AllocError;
use term_table::{Id, Table};

/// The effect of an instruction on the terms of a walk, and where the walk goes on.
#[derive(Clone, Copy)]
pub enum Effect {
    /// The walk goes on at the next index, with these terms.
    Computed(Symbols),
    /// The formula has to hold for an access; then the walk goes on at the next index, with these
    /// terms.
    Access(Id, Symbols),
    /// The walk goes on, with its terms unchanged, to the index if the first formula holds, and to
    /// the next index if the second holds.
    Split(Id, Id, u32),
    /// The walk goes on to the index, with its terms unchanged.
    Jump(u32),
    /// The walk ends.
    Return,
}

/// A load: its address may be loaded, and the register has what m has there.
fn load(
    table: &mut Table,
    symbols: &Symbols,
    ra: Reg,
    rb: Reg,
    disp: i16,
) -> Result<(Id, Symbols), AllocError>
    requires ready { AreMachineTerms table.old (ids_of symbols.now) }
    ensures allowed { let terms = machine_terms_at table.old (ids_of symbols.now) in
        IfOk result (λ r. IsIdOf table.new (rd (address_term terms rb disp)) r.0) }
    ensures after { let terms = machine_terms_at table.old (ids_of symbols.now) in
        IfOk result (λ r. StandFor table.new r.1
        (with_reg terms ra (sel terms.memory (address_term terms rb disp)))) }
    ensures extends { Extends table.old table.new }
{
    let address = symbols.address(table, rb, disp)?;
    let word = symbols.loaded(table, address)?;
    let allowed = app1(table, RD, address)?;
    Ok((allowed, symbols.with_reg(table, ra, word)))
}

/// A load of the quadword that holds the byte at an address: as a load, at that quadword's address.
fn load_aligned(
    table: &mut Table,
    symbols: &Symbols,
    ra: Reg,
    rb: Reg,
    disp: i16,
) -> Result<(Id, Symbols), AllocError>
    requires ready { AreMachineTerms table.old (ids_of symbols.now) }
    ensures allowed { let terms = machine_terms_at table.old (ids_of symbols.now) in
        IfOk result (λ r. IsIdOf table.new (rd (aligned_term (address_term terms rb disp))) r.0) }
    ensures after { let terms = machine_terms_at table.old (ids_of symbols.now) in
        IfOk result (λ r. StandFor table.new r.1
        (with_reg terms ra (sel terms.memory (aligned_term (address_term terms rb disp))))) }
    ensures extends { Extends table.old table.new }
{
    let quad = symbols.aligned_address(table, rb, disp)?;
    let word = symbols.loaded(table, quad)?;
    let allowed = app1(table, RD, quad)?;
    Ok((allowed, symbols.with_reg(table, ra, word)))
}

/// A store: its address may be stored to, and m has the register's word there.
fn store(
    table: &mut Table,
    symbols: &Symbols,
    ra: Reg,
    rb: Reg,
    disp: i16,
) -> Result<(Id, Symbols), AllocError>
    requires ready { AreMachineTerms table.old (ids_of symbols.now) }
    ensures allowed { let terms = machine_terms_at table.old (ids_of symbols.now) in
        IfOk result (λ r. IsIdOf table.new (wr (address_term terms rb disp)) r.0) }
    ensures after { let terms = machine_terms_at table.old (ids_of symbols.now) in
        IfOk result (λ r. StandFor table.new r.1
        (with_memory terms (upd terms.memory (address_term terms rb disp) (reg_term terms ra)))) }
    ensures extends { Extends table.old table.new }
{
    let address = symbols.address(table, rb, disp)?;
    let memory = symbols.stored(table, address, ra)?;
    let allowed = app1(table, WR, address)?;
    Ok((allowed, symbols.with_memory(table, memory)))
}

/// Returns what a counted step requires and does: the formula that a step is left, and the terms
/// after it, with one step less left.
///
/// Errors: out of memory alone; each id keeps its tree.
pub fn counted_step(table: &mut Table, symbols: &Symbols) -> Result<(Id, Symbols), AllocError>
    requires ready { AreMachineTerms table.old (ids_of symbols.now) }
    ensures allowed { let terms = machine_terms_at table.old (ids_of symbols.now) in
        IfOk result (λ r. IsIdOf table.new (rel_term Ult (lit 0) terms.left) r.0) }
    ensures after { let terms = machine_terms_at table.old (ids_of symbols.now) in
        IfOk result (λ r. StandFor table.new r.1 (one_less terms)) }
    ensures extends { Extends table.old table.new }
{
    let allowed = symbols.one_left(table)?;
    let after = symbols.one_less(table)?;
    Ok((allowed, after))
}

/// The formulas that hold if a conditional branch is taken, and if it isn't.
fn split(table: &mut Table, symbols: &Symbols, cond: Cond, ra: Reg) -> Result<(Id, Id), AllocError>
    requires ready { AreMachineTerms table.old (ids_of symbols.now) }
    ensures taken { let terms = machine_terms_at table.old (ids_of symbols.now) in
        let tested = tested_term cond (reg_term terms ra) in
        IfOk result (λ r. IsIdOf table.new (taken_term cond tested) r.0) }
    ensures passed { let terms = machine_terms_at table.old (ids_of symbols.now) in
        let tested = tested_term cond (reg_term terms ra) in
        IfOk result (λ r. IsIdOf table.new (passed_term cond tested) r.1) }
    ensures extends { Extends table.old table.new }
{
    let register = symbols.reg(table, ra)?;
    let tested = tested(table, cond, register)?;
    let taken = taken(table, cond, tested)?;
    Ok((taken, passed(table, cond, tested)?))
}

/// Returns the effect on the terms of the instruction `insn`, which is at `index` of the code.
///
/// Errors: out of memory alone; each id keeps its tree.
pub fn effect_at(
    table: &mut Table,
    code: &Code,
    index: u32,
    insn: Insn,
    symbols: &Symbols,
) -> Result<Effect, AllocError>
    requires at { slice_get code.now index ≡ Some insn }
    requires on { IfSome (next_of index insn) (λ j. j < length code.now) }
    requires ready { AreMachineTerms table.old (ids_of symbols.now) }
    ensures exact { let terms = machine_terms_at table.old (ids_of symbols.now) in
        IfOk result
        (λ e. IsEffect table.new (length code.now) index e (insn_effect index insn terms)) }
    ensures extends { Extends table.old table.new }
{
    match insn {
        Insn::Lda { ra, rb, disp } => {
            let address = symbols.address(table, rb, disp)?;
            Ok(Effect::Computed(symbols.with_reg(table, ra, address)))
        }
        Insn::Ldq { ra, rb, disp } => {
            let (allowed, after) = load(table, symbols, ra, rb, disp)?;
            Ok(Effect::Access(allowed, after))
        }
        Insn::Ldah { ra, rb, disp } => {
            let far = symbols.far_address(table, rb, disp)?;
            Ok(Effect::Computed(symbols.with_reg(table, ra, far)))
        }
        Insn::LdqU { ra, rb, disp } => {
            let (allowed, after) = load_aligned(table, symbols, ra, rb, disp)?;
            Ok(Effect::Access(allowed, after))
        }
        Insn::Stq { ra, rb, disp } => {
            let (allowed, after) = store(table, symbols, ra, rb, disp)?;
            Ok(Effect::Access(allowed, after))
        }
        Insn::Oper { op, ra, rhs, rc } => {
            let word = symbols.operated(table, op, ra, rhs)?;
            Ok(Effect::Computed(symbols.with_reg(table, rc, word)))
        }
        Insn::Branch { cond, ra, .. } => {
            let (taken, passed) = split(table, symbols, cond, ra)?;
            Ok(Effect::Split(taken, passed, code.jump(index, &insn)))
        }
        Insn::Br { .. } => Ok(Effect::Jump(code.jump(index, &insn))),
        Insn::Ret => Ok(Effect::Return),
    }
}
