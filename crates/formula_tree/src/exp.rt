//! Expressions that denote words and memories.

ghost use Rattle.std.specs.Prelude.{◌≡◌, IfOk, ◌<◌, ◌^◌};
ghost use Rattle.formula_tree.specs.Formulas.{EOp, ESel, MUpd, shift_exp, shift_mem};
ghost use Rattle.term_table.specs.Tree.{raise};
ghost use Rattle.formula_tree.specs.Sizes.{exp_height, mem_height, HasRoomExp, HasRoomMem, HasRoomSubstitution};
ghost use Rattle.term_table.specs.Measures.{capped};
ghost use Rattle.formula_tree.specs.Substitution.{shift_substitution, subst_exp, subst_mem};
ghost use Rattle.formula_tree.specs.Views.{exp_view, mem_exp_view, substitution_of};

use std::alloc::{AllocError, Global};
use word_ops::Op;

/// An expression that denotes a 64-bit word.
#[cycle(exp)]
#[derive(Debug, Drop, PartialEq, Eq)]
pub enum Exp {
    /// The register with this number, 0 to 31; register 31 is 0.
    Reg(u8),
    /// The number of remaining steps.
    Left,
    /// A bound variable by its de Bruijn index: 0 is the innermost binder's, with words and
    /// memories counted together.
    Var(u32),
    /// A literal word.
    Lit(u64),
    /// The operator applied to two words.
    Oper(Op, Box<Exp>, Box<Exp>),
    /// The word of the memory at the address.
    Sel(Box<MemExp>, Box<Exp>),
}

/// An expression that denotes a memory, a map from words to words.
#[cycle(exp)]
#[derive(Debug, Drop, PartialEq, Eq)]
pub enum MemExp {
    /// The machine's memory m.
    Mem,
    /// A bound variable by its de Bruijn index, counted as in `Exp`.
    Var(u32),
    /// The memory after a store of the word (last) at the address.
    Upd(Box<MemExp>, Box<Exp>, Box<Exp>),
}

/// Returns the index of a variable after `by` binders are added outside the `from` innermost.
#[tactic(auto, using(crate::proofs::Raising::raise_below, crate::proofs::Raising::raise_past))]
fn raised(number: u32, by: u32, from: u64) -> u32
    requires { raise by from number < 2 ^ 32 }
    ensures { result ≡ raise by from number }
{
    if u64::from(number) < from {
        number
    } else {
        number + by
    }
}

impl Exp {
    /// Creates the expression that applies `op` to `a` and `b`. Errors: out of memory.
    pub fn oper(alloc: Global, op: Op, a: Exp, b: Exp) -> Result<Exp, AllocError>
        ensures exact { IfOk result (λ e. exp_view e ≡ EOp op (exp_view a) (exp_view b)) }
    {
        Ok(Exp::Oper(op, Box::new(alloc, a)?, Box::new(alloc, b)?))
    }

    /// Creates the expression for the word of `memory` at `address`. Errors: out of memory.
    pub fn sel(alloc: Global, memory: MemExp, address: Exp) -> Result<Exp, AllocError>
        ensures exact { IfOk result (λ e. exp_view e ≡ ESel (mem_exp_view memory)
            (exp_view address)) }
    {
        Ok(Exp::Sel(Box::new(alloc, memory)?, Box::new(alloc, address)?))
    }

    /// Copies the expression. Errors: out of memory.
    #[cycle(copy)]
    pub(crate) fn copy(&self, alloc: Global) -> Result<Exp, AllocError>
        ensures exact { IfOk result (λ e. exp_view e ≡ exp_view self.now) }
    {
        match self {
            Exp::Reg(number) => Ok(Exp::Reg(*number)),
            Exp::Left => Ok(Exp::Left),
            Exp::Var(number) => Ok(Exp::Var(*number)),
            Exp::Lit(word) => Ok(Exp::Lit(*word)),
            Exp::Oper(op, a, b) => Exp::oper(alloc, *op, a.copy(alloc)?, b.copy(alloc)?),
            Exp::Sel(memory, a) => Exp::sel(alloc, memory.copy(alloc)?, a.copy(alloc)?),
        }
    }

    /// Returns the expression with `by` binders added outside the `from` innermost. Errors: out of
    /// memory.
    #[cycle(shift)]
    pub(crate) fn shift_at(&self, alloc: Global, by: u32, from: u64) -> Result<Exp, AllocError>
        requires room { HasRoomExp by from (exp_view self.now) }
        ensures exact { IfOk result (λ e. exp_view e ≡ shift_exp by from (exp_view self.now)) }
    {
        match self {
            Exp::Reg(number) => Ok(Exp::Reg(*number)),
            Exp::Left => Ok(Exp::Left),
            Exp::Var(number) => Ok(Exp::Var(raised(*number, by, from))),
            Exp::Lit(word) => Ok(Exp::Lit(*word)),
            Exp::Oper(op, a, b) => {
                let left = a.shift_at(alloc, by, from)?;
                Exp::oper(alloc, *op, left, b.shift_at(alloc, by, from)?)
            }
            Exp::Sel(memory, a) => {
                let shifted = memory.shift_at(alloc, by, from)?;
                Exp::sel(alloc, shifted, a.shift_at(alloc, by, from)?)
            }
        }
    }

    /// Substitutes `regs` for r0 to r30, `memory` for m and, if `regs` has one more, the last for
    /// the remaining steps. Registers and memory are expressions outside `depth` binders; register
    /// 31 becomes 0. Errors: out of memory.
    #[cycle(subst)]
    pub(crate) fn subst_at(
        &self,
        alloc: Global,
        regs: &[Exp],
        memory: &MemExp,
        depth: u32,
    ) -> Result<Exp, AllocError>
        requires room { HasRoomSubstitution depth (substitution_of regs.now memory.now) }
        ensures exact { IfOk result (λ e. exp_view e ≡ subst_exp (exp_view self.now)
            (shift_substitution depth (substitution_of regs.now memory.now))) }
    {
        match self {
            Exp::Reg(number) if *number > 30 => Ok(Exp::Lit(0)),
            Exp::Reg(number) => match regs.get(usize::from(*number)) {
                Some(put) => put.shift_at(alloc, depth, 0),
                None => Ok(Exp::Lit(0)),
            },
            Exp::Left => match regs.get(31) {
                Some(steps) => steps.shift_at(alloc, depth, 0),
                None => Ok(Exp::Left),
            },
            Exp::Var(number) => Ok(Exp::Var(*number)),
            Exp::Lit(word) => Ok(Exp::Lit(*word)),
            Exp::Oper(op, a, b) => {
                let left = a.subst_at(alloc, regs, memory, depth)?;
                Exp::oper(alloc, *op, left, b.subst_at(alloc, regs, memory, depth)?)
            }
            Exp::Sel(from, a) => {
                let from = from.subst_at(alloc, regs, memory, depth)?;
                Exp::sel(alloc, from, a.subst_at(alloc, regs, memory, depth)?)
            }
        }
    }

    /// Returns the height: 1 for an expression without parts, else one more than the highest
    /// part's; 4,294,967,295 if it is greater than that.
    #[cycle(height)]
    pub(crate) fn height(&self) -> u32
        ensures exact { result ≡ capped (exp_height (exp_view self.now)) }
    {
        match self {
            Exp::Oper(_, a, b) => a.height().max(b.height()).saturating_add(1),
            Exp::Sel(memory, a) => memory.height().max(a.height()).saturating_add(1),
            Exp::Reg(_) | Exp::Left | Exp::Var(_) | Exp::Lit(_) => 1,
        }
    }
}

impl MemExp {
    /// Creates the expression for `memory` after a store of `word` at `address`. Errors: out of
    /// memory.
    pub fn upd(alloc: Global, memory: MemExp, address: Exp, word: Exp) -> Result<MemExp, AllocError>
        ensures exact { IfOk result (λ m. mem_exp_view m ≡ MUpd (mem_exp_view memory)
            (exp_view address) (exp_view word)) }
    {
        Ok(MemExp::Upd(
            Box::new(alloc, memory)?,
            Box::new(alloc, address)?,
            Box::new(alloc, word)?,
        ))
    }

    /// Copies the memory expression. Errors: out of memory.
    #[cycle(copy)]
    pub(crate) fn copy(&self, alloc: Global) -> Result<MemExp, AllocError>
        ensures exact { IfOk result (λ m. mem_exp_view m ≡ mem_exp_view self.now) }
    {
        match self {
            MemExp::Mem => Ok(MemExp::Mem),
            MemExp::Var(number) => Ok(MemExp::Var(*number)),
            MemExp::Upd(memory, a, word) => {
                let copied = memory.copy(alloc)?;
                MemExp::upd(alloc, copied, a.copy(alloc)?, word.copy(alloc)?)
            }
        }
    }

    /// Returns the memory expression with `by` binders added outside the `from` innermost. Errors:
    /// out of memory.
    #[cycle(shift)]
    pub(crate) fn shift_at(&self, alloc: Global, by: u32, from: u64) -> Result<MemExp, AllocError>
        requires room { HasRoomMem by from (mem_exp_view self.now) }
        ensures exact { IfOk result (λ m. mem_exp_view m ≡ shift_mem by from
            (mem_exp_view self.now)) }
    {
        match self {
            MemExp::Mem => Ok(MemExp::Mem),
            MemExp::Var(number) => Ok(MemExp::Var(raised(*number, by, from))),
            MemExp::Upd(memory, a, word) => {
                let shifted = memory.shift_at(alloc, by, from)?;
                let address = a.shift_at(alloc, by, from)?;
                MemExp::upd(alloc, shifted, address, word.shift_at(alloc, by, from)?)
            }
        }
    }

    /// Substitutes `regs` and `memory` in the memory expression, as `Exp::subst_at` does. Errors:
    /// out of memory.
    #[cycle(subst)]
    pub(crate) fn subst_at(
        &self,
        alloc: Global,
        regs: &[Exp],
        memory: &MemExp,
        depth: u32,
    ) -> Result<MemExp, AllocError>
        requires room { HasRoomSubstitution depth (substitution_of regs.now memory.now) }
        ensures exact { IfOk result (λ m. mem_exp_view m ≡ subst_mem (mem_exp_view self.now)
            (shift_substitution depth (substitution_of regs.now memory.now))) }
    {
        match self {
            MemExp::Mem => memory.shift_at(alloc, depth, 0),
            MemExp::Var(number) => Ok(MemExp::Var(*number)),
            MemExp::Upd(of, a, word) => {
                let of = of.subst_at(alloc, regs, memory, depth)?;
                let address = a.subst_at(alloc, regs, memory, depth)?;
                MemExp::upd(
                    alloc,
                    of,
                    address,
                    word.subst_at(alloc, regs, memory, depth)?,
                )
            }
        }
    }

    /// Returns the height, computed as an expression's: 4,294,967,295 if it is greater than that.
    #[cycle(height)]
    pub(crate) fn height(&self) -> u32
        ensures exact { result ≡ capped (mem_height (mem_exp_view self.now)) }
    {
        match self {
            MemExp::Upd(memory, a, word) => {
                let parts = a.height().max(word.height());
                memory.height().max(parts).saturating_add(1)
            }
            MemExp::Mem | MemExp::Var(_) => 1,
        }
    }
}
