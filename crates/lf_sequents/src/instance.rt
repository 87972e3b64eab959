//! Builds the formulas of a rule with terms for its parameters in a table. The formulas may be
//! under more binders than the terms.

ghost use Rattle.std.specs.Prelude.{◌≡◌, false, ◌≤◌, ◌^◌, IfOk};
ghost use Rattle.term_table.specs.Table.{IsKnown, AllKnown, tree_at, Extends};
ghost use Rattle.lf_signature.specs.Schemas.{exp_of, mem_of, form_of, connective_constant};
ghost use Rattle.lf_signature.specs.Nodes.{IsIdOf};
ghost use Rattle.hereditary_subst.specs.Kept.{IsMemo};
ghost use Rattle.hereditary_subst.specs.Limits.{is_limited};
ghost use Rattle.lf_terms.specs.Instance.{nth_arg, exp_with, mem_with, form_with};
ghost use Rattle.lf_terms.specs.Instance.{trees_of};
ghost use Rattle.lf_sequents.specs.Room.{raised_by};

use crate::kept::{beta_id, raised};
use hereditary_subst::Memo;
use lf_signature::numbers::{ALL, ALLM, AND, EXP, FF, IMP, MEM, OR, SEL, TT, UPD, rel_constant};
use lf_signature::schema::{Connective, Exp, Form, Mem};
use lf_signature::{app1, app2, app3};
use std::alloc::AllocError;
use term_table::{Id, Node, Table};
use word_ops::op_constant;

/// The term for a parameter, under so many binders.
#[tactic(auto, using(lf_terms::proofs::Grown::grown))]
fn parameter(
    table: &mut Table,
    memo: &mut Memo,
    params: &[Id],
    depth: u64,
    number: u32,
) -> Result<Id, AllocError>
    requires small { depth ≤ 2 ^ 32 }
    requires known { AllKnown table.old params.now }
    requires kept { IsMemo table.old memo.old }
    requires unlimited { is_limited memo.old ≡ false }
    ensures id { let args = raised_by depth (nth_arg (trees_of table.old params.now)) in
        IfOk result (IsIdOf table.new (args number)) }
    ensures extends { Extends table.old table.new }
    ensures kept { IsMemo table.new memo.new }
    ensures unlimited { is_limited memo.new ≡ false }
{
    let number = number as usize;
    if number < params.len() {
        raised(table, memo, params[number], depth)
    } else {
        table.intern(Node::Const(TT))
    }
}

/// The expression with the terms for the parameters.
#[cycle(words)]
#[tactic(auto, using(lf_terms::proofs::Grown::grown))]
fn exp_id(
    table: &mut Table,
    memo: &mut Memo,
    params: &[Id],
    depth: u64,
    exp: &Exp,
) -> Result<Id, AllocError>
    requires small { depth ≤ 2 ^ 32 }
    requires known { AllKnown table.old params.now }
    requires kept { IsMemo table.old memo.old }
    requires unlimited { is_limited memo.old ≡ false }
    ensures id { let args = raised_by depth (nth_arg (trees_of table.old params.now)) in
        IfOk result (IsIdOf table.new (exp_with (exp_of exp.now) args)) }
    ensures extends { Extends table.old table.new }
    ensures kept { IsMemo table.new memo.new }
    ensures unlimited { is_limited memo.new ≡ false }
{
    match exp {
        Exp::Par(number) => parameter(table, memo, params, depth, *number),
        Exp::Own => table.intern(Node::Var(0)),
        Exp::Word(word) => table.intern(Node::Lit(*word)),
        Exp::Apply(op, a, b) => {
            let left = exp_id(table, memo, params, depth, a)?;
            let right = exp_id(table, memo, params, depth, b)?;
            app2(table, op_constant(*op), left, right)
        }
        Exp::Sel(memory, at) => {
            let memory = mem_id(table, memo, params, depth, memory)?;
            let address = exp_id(table, memo, params, depth, at)?;
            app2(table, SEL, memory, address)
        }
    }
}

/// The memory with the terms for the parameters.
#[cycle(words)]
#[tactic(auto, using(lf_terms::proofs::Grown::grown))]
fn mem_id(
    table: &mut Table,
    memo: &mut Memo,
    params: &[Id],
    depth: u64,
    memory: &Mem,
) -> Result<Id, AllocError>
    requires small { depth ≤ 2 ^ 32 }
    requires known { AllKnown table.old params.now }
    requires kept { IsMemo table.old memo.old }
    requires unlimited { is_limited memo.old ≡ false }
    ensures id { let args = raised_by depth (nth_arg (trees_of table.old params.now)) in
        IfOk result (IsIdOf table.new (mem_with (mem_of memory.now) args)) }
    ensures extends { Extends table.old table.new }
    ensures kept { IsMemo table.new memo.new }
    ensures unlimited { is_limited memo.new ≡ false }
{
    match memory {
        Mem::Par(number) => parameter(table, memo, params, depth, *number),
        Mem::Own => table.intern(Node::Var(0)),
        Mem::Upd(before, at, word) => {
            let before = mem_id(table, memo, params, depth, before)?;
            let address = exp_id(table, memo, params, depth, at)?;
            let written = exp_id(table, memo, params, depth, word)?;
            app3(table, UPD, before, address, written)
        }
    }
}

/// The constant of a connective.
fn connective_constant(connective: Connective) -> u32
    ensures { result ≡ connective_constant connective }
{
    match connective {
        Connective::And => AND,
        Connective::Or => OR,
        Connective::Imp => IMP,
    }
}

/// Builds the formula `form` with the terms `params` for its parameters, raised by `depth`.
#[tactic(auto, using(lf_terms::proofs::Grown::grown))]
pub fn form_id(
    table: &mut Table,
    memo: &mut Memo,
    params: &[Id],
    depth: u64,
    form: &Form,
) -> Result<Id, AllocError>
    requires small { depth ≤ 2 ^ 32 }
    requires known { AllKnown table.old params.now }
    requires kept { IsMemo table.old memo.old }
    requires unlimited { is_limited memo.old ≡ false }
    ensures id { let args = raised_by depth (nth_arg (trees_of table.old params.now)) in
        IfOk result (IsIdOf table.new (form_with (form_of form.now) args)) }
    ensures extends { Extends table.old table.new }
    ensures kept { IsMemo table.new memo.new }
    ensures unlimited { is_limited memo.new ≡ false }
{
    match form {
        Form::True => table.intern(Node::Const(TT)),
        Form::False => table.intern(Node::Const(FF)),
        Form::Par(number) => parameter(table, memo, params, depth, *number),
        Form::Of(number, exp) => {
            let function = parameter(table, memo, params, depth, *number)?;
            let argument = exp_id(table, memo, params, depth, exp)?;
            beta_id(table, memo, function, argument, EXP)
        }
        Form::OfMem(number, memory) => {
            let function = parameter(table, memo, params, depth, *number)?;
            let argument = mem_id(table, memo, params, depth, memory)?;
            beta_id(table, memo, function, argument, MEM)
        }
        Form::Holds(rel, a, b) => {
            let left = exp_id(table, memo, params, depth, a)?;
            let right = exp_id(table, memo, params, depth, b)?;
            app2(table, rel_constant(*rel), left, right)
        }
        Form::Join(connective, a, b) => {
            let left = form_id(table, memo, params, depth, a)?;
            let right = form_id(table, memo, params, depth, b)?;
            app2(table, connective_constant(*connective), left, right)
        }
        Form::All(number) => {
            let function = parameter(table, memo, params, depth, *number)?;
            app1(table, ALL, function)
        }
        Form::Allm(number) => {
            let function = parameter(table, memo, params, depth, *number)?;
            app1(table, ALLM, function)
        }
    }
}
