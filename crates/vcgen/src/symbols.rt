//! The terms for registers, memory and remaining steps on a walk, and the terms of operands.

ghost use Rattle.std.specs.Prelude.{◌≡◌, ◌<◌, ◌≤◌, ◌^◌, true, IfOk, pos, ◌*ℤ◌};
ghost use Rattle.term_table.specs.Tree.{shift, fits};
ghost use Rattle.term_table.specs.Table.{IsKnown, tree_at, Extends};
ghost use Rattle.term_table.specs.Measures.{height_of};
ghost use Rattle.hereditary_subst.specs.Kept.{IsMemo};
ghost use Rattle.hereditary_subst.specs.Limits.{SpendsResults};
ghost use Rattle.lf_encode.specs.PutTree.{machine_terms_at, put_tree};
ghost use Rattle.lf_encode.specs.Kept.{AreMachineTerms, IsPutMemo};
ghost use Rattle.lf_signature.specs.Terms.{lit, sel, upd, op_term, rel_term};
ghost use Rattle.lf_signature.specs.Nodes.{IsIdOf};
ghost use Rattle.word_ops.specs.declared.Rel.TheVariants.{Ult};
ghost use Rattle.vcgen.specs.WalkTree.{reg_term, rhs_term, address_term};
ghost use Rattle.vcgen.specs.WalkTree.{aligned_term};
ghost use Rattle.vcgen.specs.WalkTree.{with_reg, with_memory, with_left, one_less};
ghost use Rattle.vcgen.specs.WalkTree.{start_terms};
ghost use Rattle.vcgen.specs.Symbols.{ids_of, StandFor};
ghost use Rattle.vcgen.specs.Inside.Walks.{IsTermFor};

use alpha_words::{Reg, Rhs};
use hereditary_subst::{Exhausted, Memo};
use lf_encode::{MachineIds, PutMemo, put_with};
use lf_signature::numbers::{SEL, UPD};
use lf_signature::{app2, app3, rel_constant};
use std::alloc::AllocError;
use term_table::{Id, Node, Table};
use word_ops::{Op, Rel, op_constant};

/// All bits of a word but the low three.
const HIGH_BITS: u64 = u64::MAX - 7;

/// Terms for r0 to r30, for m and for the remaining steps, in the context left, m, r0 to r30.
#[derive(Clone, Copy, PartialEq, Eq)]
pub struct Symbols {
    /// The terms of r0 to r30, by register number.
    pub regs: [Id; 31],
    /// The term of m.
    pub memory: Id,
    /// The term of the number of remaining steps.
    pub left: Id,
}

impl Symbols {
    /// Returns the terms at the start of a walk: each register, m and the remaining steps as
    /// itself.
    ///
    /// Errors: out of memory alone; each id keeps its tree.
    pub fn start(table: &mut Table) -> Result<Symbols, AllocError>
        ensures ready { IfOk result (λ s. AreMachineTerms table.new (ids_of s)) }
        ensures terms { IfOk result (λ s. machine_terms_at table.new (ids_of s) ≡ start_terms) }
        ensures extends { Extends table.old table.new }
    {
        let left = table.intern(Node::Var(32))?;
        let memory = table.intern(Node::Var(31))?;
        let mut regs = [memory; 31];
        for k in 0..31 {
            regs[k] = table.intern(Node::Var(30 - k as u32))?;
        }
        Ok(Symbols { regs, memory, left })
    }

    /// These terms, with another term for a register; register 31 gets none.
    pub(crate) fn with_reg(&self, table: &Table, reg: Reg, id: Id) -> Symbols
        requires ready { AreMachineTerms table.now (ids_of self.now) }
        requires known { IsKnown table.now id }
        requires room { fits (shift 2147483648 0 (tree_at table.now id)) ≡ true }
        ensures ready { AreMachineTerms table.now (ids_of result) }
        ensures terms { machine_terms_at table.now (ids_of result)
            ≡ with_reg (machine_terms_at table.now (ids_of self.now)) reg (tree_at table.now id) }
    {
        let _ = table; // only the clauses speak of it
        let number = reg.number() as usize;
        if number >= 31 {
            return *self;
        }
        let mut regs = self.regs;
        regs[number] = id;
        Symbols {
            regs,
            memory: self.memory,
            left: self.left,
        }
    }

    /// Another term for m.
    pub(crate) fn with_memory(&self, table: &Table, id: Id) -> Symbols
        requires ready { AreMachineTerms table.now (ids_of self.now) }
        requires known { IsKnown table.now id }
        requires room { fits (shift 2147483648 0 (tree_at table.now id)) ≡ true }
        ensures ready { AreMachineTerms table.now (ids_of result) }
        ensures terms { machine_terms_at table.now (ids_of result)
            ≡ with_memory (machine_terms_at table.now (ids_of self.now)) (tree_at table.now id) }
    {
        let _ = table; // only the clauses speak of it
        Symbols {
            regs: self.regs,
            memory: id,
            left: self.left,
        }
    }

    /// Another term for the steps that are left.
    pub(crate) fn with_left(&self, table: &Table, id: Id) -> Symbols
        requires ready { AreMachineTerms table.now (ids_of self.now) }
        requires known { IsKnown table.now id }
        requires room { fits (shift 2147483648 0 (tree_at table.now id)) ≡ true }
        ensures ready { AreMachineTerms table.now (ids_of result) }
        ensures terms { machine_terms_at table.now (ids_of result)
            ≡ with_left (machine_terms_at table.now (ids_of self.now)) (tree_at table.now id) }
    {
        let _ = table; // only the clauses speak of it
        Symbols {
            regs: self.regs,
            memory: self.memory,
            left: id,
        }
    }

    /// Returns these terms, with the number `bound` for the remaining steps.
    ///
    /// Errors: out of memory alone; each id keeps its tree.
    pub fn bounded(&self, table: &mut Table, bound: u32) -> Result<Symbols, AllocError>
        requires { AreMachineTerms table.old (ids_of self.now) }
        ensures after { let terms = machine_terms_at table.old (ids_of self.now) in
            IfOk result (λ s. StandFor table.new s (with_left terms (lit bound))) }
        ensures extends { Extends table.old table.new }
    {
        let all = table.intern(Node::Lit(u64::from(bound)))?;
        Ok(self.with_left(table, all))
    }

    /// The formula that a step is left.
    pub(crate) fn one_left(&self, table: &mut Table) -> Result<Id, AllocError>
        requires { AreMachineTerms table.old (ids_of self.now) }
        ensures id { let terms = machine_terms_at table.old (ids_of self.now) in
            IfOk result (IsIdOf table.new (rel_term Ult (lit 0) terms.left)) }
        ensures extends { Extends table.old table.new }
    {
        let zero = table.intern(Node::Lit(0))?;
        app2(table, rel_constant(Rel::Ult), zero, self.left)
    }

    /// The terms with one remaining step less.
    pub(crate) fn one_less(&self, table: &mut Table) -> Result<Symbols, AllocError>
        requires { AreMachineTerms table.old (ids_of self.now) }
        ensures after { let terms = machine_terms_at table.old (ids_of self.now) in
            IfOk result (λ s. StandFor table.new s (one_less terms)) }
        ensures extends { Extends table.old table.new }
    {
        let one = table.intern(Node::Lit(1))?;
        let fewer = app2(table, op_constant(Op::Sub), self.left, one)?;
        Ok(self.with_left(table, fewer))
    }

    /// `put_with` of these terms.
    pub(crate) fn put(
        &self,
        table: &mut Table,
        shifts: &mut Memo,
        kept: &mut PutMemo,
        id: Id,
    ) -> Result<Id, Exhausted>
        requires known { IsKnown table.old id }
        requires ready { AreMachineTerms table.old (ids_of self.now) }
        requires low { height_of (tree_at table.old id) < 2 ^ 31 }
        requires shifts { IsMemo table.old shifts.old }
        requires kept { IsPutMemo table.old (ids_of self.now) kept.old }
        ensures exact { let puts = machine_terms_at table.old (ids_of self.now) in
            IfOk result (IsIdOf table.new (put_tree puts 0 (tree_at table.old id))) }
        ensures extends { Extends table.old table.new }
        ensures shifts { IsMemo table.new shifts.new }
        ensures kept { IsPutMemo table.new (ids_of self.now) kept.new }
        ensures spends { SpendsResults table.new shifts.old shifts.new result }
    {
        let ids = MachineIds {
            regs: self.regs,
            memory: self.memory,
            left: self.left,
        };
        put_with(table, shifts, kept, id, &ids)
    }

    /// The term of a register; register 31 is 0.
    pub(crate) fn reg(&self, table: &mut Table, reg: Reg) -> Result<Id, AllocError>
        requires { AreMachineTerms table.old (ids_of self.now) }
        ensures id { let terms = machine_terms_at table.old (ids_of self.now) in
            IfOk result (IsTermFor table.new (reg_term terms reg)) }
        ensures extends { Extends table.old table.new }
    {
        let number = reg.number() as usize;
        if number < 31 {
            return Ok(self.regs[number]);
        }
        table.intern(Node::Lit(0))
    }

    /// The term of a second operand.
    pub(crate) fn rhs(&self, table: &mut Table, rhs: Rhs) -> Result<Id, AllocError>
        requires { AreMachineTerms table.old (ids_of self.now) }
        ensures id { let terms = machine_terms_at table.old (ids_of self.now) in
            IfOk result (IsTermFor table.new (rhs_term terms rhs)) }
        ensures extends { Extends table.old table.new }
    {
        match rhs {
            Rhs::Reg(reg) => self.reg(table, reg),
            Rhs::Lit(literal) => table.intern(Node::Lit(u64::from(literal))),
        }
    }

    /// The term of an operator at a register and a second operand.
    pub(crate) fn operated(
        &self,
        table: &mut Table,
        op: Op,
        ra: Reg,
        rhs: Rhs,
    ) -> Result<Id, AllocError>
        requires { AreMachineTerms table.old (ids_of self.now) }
        ensures id { let terms = machine_terms_at table.old (ids_of self.now) in
            let word = op_term op (reg_term terms ra) (rhs_term terms rhs) in
            IfOk result (IsTermFor table.new word) }
        ensures extends { Extends table.old table.new }
    {
        let left = self.reg(table, ra)?;
        let right = self.rhs(table, rhs)?;
        app2(table, op_constant(op), left, right)
    }

    /// The term of an address.
    pub(crate) fn address(&self, table: &mut Table, rb: Reg, disp: i16) -> Result<Id, AllocError>
        requires { AreMachineTerms table.old (ids_of self.now) }
        ensures id { let terms = machine_terms_at table.old (ids_of self.now) in
            IfOk result (IsTermFor table.new (address_term terms rb disp)) }
        ensures extends { Extends table.old table.new }
    {
        let base = self.reg(table, rb)?;
        let offset = table.intern(Node::Lit(i64::from(disp).cast_unsigned()))?;
        app2(table, op_constant(Op::Add), base, offset)
    }

    /// The term of a register and 65,536 times a displacement.
    pub(crate) fn far_address(
        &self,
        table: &mut Table,
        rb: Reg,
        disp: i16,
    ) -> Result<Id, AllocError>
        requires { AreMachineTerms table.old (ids_of self.now) }
        ensures id { let terms = machine_terms_at table.old (ids_of self.now) in
            IfOk result (IsTermFor table.new (address_term terms rb (disp *ℤ pos 65536))) }
        ensures extends { Extends table.old table.new }
    {
        let base = self.reg(table, rb)?;
        let far = i64::from(disp) * 65_536;
        let offset = table.intern(Node::Lit(far.cast_unsigned()))?;
        app2(table, op_constant(Op::Add), base, offset)
    }

    /// The term of the address of the quadword that holds the byte at a register and a
    /// displacement.
    pub(crate) fn aligned_address(
        &self,
        table: &mut Table,
        rb: Reg,
        disp: i16,
    ) -> Result<Id, AllocError>
        requires { AreMachineTerms table.old (ids_of self.now) }
        ensures id { let terms = machine_terms_at table.old (ids_of self.now) in
            IfOk result (IsTermFor table.new (aligned_term (address_term terms rb disp))) }
        ensures extends { Extends table.old table.new }
    {
        let address = self.address(table, rb, disp)?;
        let mask = table.intern(Node::Lit(HIGH_BITS))?;
        app2(table, op_constant(Op::Band), address, mask)
    }

    /// The term of what m has at an address.
    pub(crate) fn loaded(&self, table: &mut Table, address: Id) -> Result<Id, AllocError>
        requires ready { AreMachineTerms table.old (ids_of self.now) }
        requires known { IsKnown table.old address }
        requires room { fits (shift 2147483648 0 (tree_at table.old address)) ≡ true }
        ensures id { IfOk result (IsTermFor table.new
            (sel (tree_at table.old self.now.memory) (tree_at table.old address))) }
        ensures extends { Extends table.old table.new }
    {
        app2(table, SEL, self.memory, address)
    }

    /// The term of m after a store of a register's word at an address.
    pub(crate) fn stored(&self, table: &mut Table, address: Id, ra: Reg) -> Result<Id, AllocError>
        requires ready { AreMachineTerms table.old (ids_of self.now) }
        requires known { IsKnown table.old address }
        requires room { fits (shift 2147483648 0 (tree_at table.old address)) ≡ true }
        ensures id { let terms = machine_terms_at table.old (ids_of self.now) in
            IfOk result (IsTermFor table.new
            (upd terms.memory (tree_at table.old address) (reg_term terms ra))) }
        ensures extends { Extends table.old table.new }
    {
        let word = self.reg(table, ra)?;
        app3(table, UPD, self.memory, address, word)
    }
}
