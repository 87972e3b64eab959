//! Formulas.

ghost use Rattle.std.specs.Prelude.{◌≡◌, ◌⊎◌, IfOk, IsOkAnd, ◌+◌, length};
ghost use Rattle.formula_tree.specs.Formulas.{FRel, FAnd, FOr, FImp, FAll, FAllm, shift_form};
ghost use Rattle.formula_tree.specs.Sizes.{form_height, binders, HasRoom, HasRoomSubstitution};
ghost use Rattle.term_table.specs.Measures.{capped};
ghost use Rattle.formula_tree.specs.Views.{exp_view, form_view, substitution_of};
ghost use Rattle.formula_tree.specs.Substitution.{shift_substitution, subst_form};

use crate::exp::{Exp, MemExp};
use std::alloc::{AllocError, Global};
use word_ops::Rel;

/// A formula of first-order logic over words and memories.
#[derive(Debug, Drop, PartialEq, Eq)]
pub enum Form {
    /// True.
    True,
    /// False.
    False,
    /// The relation holds between two words.
    Rel(Rel, Exp, Exp),
    /// The address is readable.
    Rd(Exp),
    /// The address is writable.
    Wr(Exp),
    /// Both formulas hold.
    And(Box<Form>, Box<Form>),
    /// The formulas aren't both false.
    Or(Box<Form>, Box<Form>),
    /// The second formula holds if the first does.
    Imp(Box<Form>, Box<Form>),
    /// The formula holds for every word as its variable 0.
    All(Box<Form>),
    /// The formula holds for every memory as its variable 0.
    Allm(Box<Form>),
}

/// Creates the relation of two words, if the second was made.
fn rel_made(rel: Rel, a: Exp, b: Result<Exp, AllocError>) -> Result<Form, AllocError>
    ensures made { IfOk result (λ f. IsOkAnd b (λ e.
        form_view f ≡ FRel rel (exp_view a) (exp_view e))) }
{
    match b {
        Ok(b) => Ok(Form::Rel(rel, a, b)),
        Err(fault) => {
            drop(a);
            Err(fault)
        }
    }
}

/// Creates the conjunction of two formulas, if the second was made.
fn and_made(alloc: Global, a: Form, b: Result<Form, AllocError>) -> Result<Form, AllocError>
    ensures made { IfOk result (λ f. IsOkAnd b (λ g.
        form_view f ≡ FAnd (form_view a) (form_view g))) }
{
    match b {
        Ok(b) => Form::and(alloc, a, b),
        Err(fault) => {
            drop(a);
            Err(fault)
        }
    }
}

/// Creates the disjunction of two formulas, if the second was made.
fn or_made(alloc: Global, a: Form, b: Result<Form, AllocError>) -> Result<Form, AllocError>
    ensures made { IfOk result (λ f. IsOkAnd b (λ g.
        form_view f ≡ FOr (form_view a) (form_view g))) }
{
    match b {
        Ok(b) => Form::or(alloc, a, b),
        Err(fault) => {
            drop(a);
            Err(fault)
        }
    }
}

/// Creates the implication between two formulas, if the second was made.
fn imp_made(alloc: Global, a: Form, b: Result<Form, AllocError>) -> Result<Form, AllocError>
    ensures made { IfOk result (λ f. IsOkAnd b (λ g.
        form_view f ≡ FImp (form_view a) (form_view g))) }
{
    match b {
        Ok(b) => Form::imp(alloc, a, b),
        Err(fault) => {
            drop(a);
            Err(fault)
        }
    }
}

impl Form {
    /// Creates the conjunction of two formulas. Errors: out of memory.
    pub fn and(alloc: Global, a: Form, b: Form) -> Result<Form, AllocError>
        ensures exact { IfOk result (λ f. form_view f ≡ FAnd (form_view a) (form_view b)) }
    {
        Ok(Form::And(Box::new(alloc, a)?, Box::new(alloc, b)?))
    }

    /// Creates the disjunction of two formulas. Errors: out of memory.
    pub fn or(alloc: Global, a: Form, b: Form) -> Result<Form, AllocError>
        ensures exact { IfOk result (λ f. form_view f ≡ FOr (form_view a) (form_view b)) }
    {
        Ok(Form::Or(Box::new(alloc, a)?, Box::new(alloc, b)?))
    }

    /// Creates the implication from `a` to `b`. Errors: out of memory.
    pub fn imp(alloc: Global, a: Form, b: Form) -> Result<Form, AllocError>
        ensures exact { IfOk result (λ f. form_view f ≡ FImp (form_view a) (form_view b)) }
    {
        Ok(Form::Imp(Box::new(alloc, a)?, Box::new(alloc, b)?))
    }

    /// Quantifies a formula over all words. Errors: out of memory.
    pub fn all(alloc: Global, body: Form) -> Result<Form, AllocError>
        ensures exact { IfOk result (λ f. form_view f ≡ FAll (form_view body)) }
    {
        Ok(Form::All(Box::new(alloc, body)?))
    }

    /// Quantifies a formula over all memories. Errors: out of memory.
    pub fn allm(alloc: Global, body: Form) -> Result<Form, AllocError>
        ensures exact { IfOk result (λ f. form_view f ≡ FAllm (form_view body)) }
    {
        Ok(Form::Allm(Box::new(alloc, body)?))
    }

    /// Copies the formula. Errors: out of memory.
    pub fn copy(&self, alloc: Global) -> Result<Form, AllocError>
        ensures exact { IfOk result (λ f. form_view f ≡ form_view self.now) }
    {
        match self {
            Form::True => Ok(Form::True),
            Form::False => Ok(Form::False),
            Form::Rel(rel, a, b) => {
                let left = a.copy(alloc)?;
                rel_made(*rel, left, b.copy(alloc))
            }
            Form::Rd(a) => Ok(Form::Rd(a.copy(alloc)?)),
            Form::Wr(a) => Ok(Form::Wr(a.copy(alloc)?)),
            Form::And(a, b) => {
                let left = a.copy(alloc)?;
                and_made(alloc, left, b.copy(alloc))
            }
            Form::Or(a, b) => {
                let left = a.copy(alloc)?;
                or_made(alloc, left, b.copy(alloc))
            }
            Form::Imp(a, b) => {
                let left = a.copy(alloc)?;
                imp_made(alloc, left, b.copy(alloc))
            }
            Form::All(a) => Form::all(alloc, a.copy(alloc)?),
            Form::Allm(a) => Form::allm(alloc, a.copy(alloc)?),
        }
    }

    /// Returns the formula with `by` binders added outside the `from` innermost. Errors: out of
    /// memory.
    #[tactic(auto, using(crate::proofs::Raising::shift_form_next))]
    fn shift_at(&self, alloc: Global, by: u32, from: u64) -> Result<Form, AllocError>
        requires room { HasRoom by from (form_view self.now) }
        ensures exact { IfOk result (λ f. form_view f ≡ shift_form by from (form_view self.now)) }
    {
        match self {
            Form::True => Ok(Form::True),
            Form::False => Ok(Form::False),
            Form::Rel(rel, a, b) => {
                let left = a.shift_at(alloc, by, from)?;
                rel_made(*rel, left, b.shift_at(alloc, by, from))
            }
            Form::Rd(a) => Ok(Form::Rd(a.shift_at(alloc, by, from)?)),
            Form::Wr(a) => Ok(Form::Wr(a.shift_at(alloc, by, from)?)),
            Form::And(a, b) => {
                let left = a.shift_at(alloc, by, from)?;
                and_made(alloc, left, b.shift_at(alloc, by, from))
            }
            Form::Or(a, b) => {
                let left = a.shift_at(alloc, by, from)?;
                or_made(alloc, left, b.shift_at(alloc, by, from))
            }
            Form::Imp(a, b) => {
                let left = a.shift_at(alloc, by, from)?;
                imp_made(alloc, left, b.shift_at(alloc, by, from))
            }
            Form::All(a) => Form::all(alloc, a.shift_at(alloc, by, from.saturating_add(1))?),
            Form::Allm(a) => Form::allm(alloc, a.shift_at(alloc, by, from.saturating_add(1))?),
        }
    }

    /// Returns the formula with `by` binders added outside the `from` innermost: each variable from
    /// `from` on is raised by `by`. Errors: out of memory.
    pub fn shift(&self, alloc: Global, by: u32, from: u32) -> Result<Form, AllocError>
        requires room { HasRoom by from (form_view self.now) }
        ensures exact { IfOk result (λ f. form_view f ≡ shift_form by from (form_view self.now)) }
    {
        self.shift_at(alloc, by, u64::from(from))
    }

    /// Substitutes `regs` for r0 to r30, `memory` for m and, if `regs` has one more, the last for
    /// the remaining steps. Registers and memory are expressions outside `depth` binders. Errors:
    /// out of memory.
    #[tactic(auto, using(crate::proofs::Putting::room_part))]
    fn subst_at(
        &self,
        alloc: Global,
        regs: &[Exp],
        memory: &MemExp,
        depth: u32,
    ) -> Result<Form, AllocError>
        requires room { HasRoomSubstitution (depth + binders (form_view self.now))
            (substitution_of regs.now memory.now) }
        ensures exact { IfOk result (λ f. form_view f ≡ subst_form (form_view self.now)
            (shift_substitution depth (substitution_of regs.now memory.now))) }
    {
        match self {
            Form::True => Ok(Form::True),
            Form::False => Ok(Form::False),
            Form::Rel(rel, a, b) => {
                let left = a.subst_at(alloc, regs, memory, depth)?;
                rel_made(*rel, left, b.subst_at(alloc, regs, memory, depth))
            }
            Form::Rd(a) => Ok(Form::Rd(a.subst_at(alloc, regs, memory, depth)?)),
            Form::Wr(a) => Ok(Form::Wr(a.subst_at(alloc, regs, memory, depth)?)),
            Form::And(a, b) => {
                let left = a.subst_at(alloc, regs, memory, depth)?;
                and_made(alloc, left, b.subst_at(alloc, regs, memory, depth))
            }
            Form::Or(a, b) => {
                let left = a.subst_at(alloc, regs, memory, depth)?;
                or_made(alloc, left, b.subst_at(alloc, regs, memory, depth))
            }
            Form::Imp(a, b) => {
                let left = a.subst_at(alloc, regs, memory, depth)?;
                imp_made(alloc, left, b.subst_at(alloc, regs, memory, depth))
            }
            Form::All(a) => {
                let inner = depth.saturating_add(1);
                Form::all(alloc, a.subst_at(alloc, regs, memory, inner)?)
            }
            Form::Allm(a) => {
                let inner = depth.saturating_add(1);
                Form::allm(alloc, a.subst_at(alloc, regs, memory, inner)?)
            }
        }
    }

    /// Substitutes `regs` for r0 to r30, in this order, and `memory` for m, simultaneously and
    /// without capture, and returns the result.
    ///
    /// With 32 expressions in `regs` the last replaces the remaining steps; with 31 they stay.
    /// Register 31 becomes 0 in any case. Errors: out of memory.
    pub fn subst_regs(
        &self,
        alloc: Global,
        regs: &[Exp],
        memory: &MemExp,
    ) -> Result<Form, AllocError>
        requires count { (length regs.now ≡ 31) ⊎ (length regs.now ≡ 32) }
        requires room { HasRoomSubstitution (binders (form_view self.now))
            (substitution_of regs.now memory.now) }
        ensures exact { IfOk result (λ f. form_view f ≡ subst_form (form_view self.now)
            (substitution_of regs.now memory.now)) }
    {
        self.subst_at(alloc, regs, memory, 0)
    }

    /// Returns the height: 1 for a formula without parts, else one more than the highest part's;
    /// 4,294,967,295 if it is greater than that.
    pub fn height(&self) -> u32
        ensures exact { result ≡ capped (form_height (form_view self.now)) }
    {
        match self {
            Form::True | Form::False => 1,
            Form::Rel(_, a, b) => a.height().max(b.height()).saturating_add(1),
            Form::Rd(a) | Form::Wr(a) => a.height().saturating_add(1),
            Form::And(a, b) | Form::Or(a, b) | Form::Imp(a, b) => {
                a.height().max(b.height()).saturating_add(1)
            }
            Form::All(a) | Form::Allm(a) => a.height().saturating_add(1),
        }
    }
}
