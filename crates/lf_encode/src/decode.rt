//! Decodes terms to formulas, and checks which terms are formulas.

ghost use Rattle.std.specs.Prelude.{◌≡◌, ◌↔◌, suc, ◌+◌, ◌^◌, ◌<◌, max, IfOk, IsTrue, MatchOption};
ghost use Rattle.term_table.specs.Tree.{App, Fam};
ghost use Rattle.term_table.specs.Table.{IsKnown, AllKnown, tree_at, ctx_of, Extends};
ghost use Rattle.lf_signature.specs.Terms.{form};
ghost use Rattle.lf_signature.specs.Typing.{Checks};
ghost use Rattle.formula_tree.specs.Formulas.{EVar, MVar};
ghost use Rattle.formula_tree.specs.Views.{exp_view, mem_exp_view, form_view};
ghost use Rattle.lf_encode.specs.Contexts.{sort_types, EncodesForm};
ghost use Rattle.lf_encode.specs.Naming.{unnamed_exp, unnamed_mem, unnamed_form};
ghost use Rattle.lf_encode.specs.Reading.{id_of_sort, exp_of, mem_of};
ghost use Rattle.lf_encode.specs.Reading.{form_of, body_of, connected, unary};
ghost use Rattle.lf_signature.specs.Known.{HasOp};
ghost use Rattle.formula_tree.specs.Operators.{Uses};

use crate::contexts::{Sort, bound_count};
use formula_tree::{Exp, Form, MemExp};
use lf_check::check_term;
use lf_signature::numbers::{ALL, AND, EXP, FORM, MEM, OR, RD, TT, WR};
use lf_signature::{Known, rel_of_constant};
use std::alloc::{AllocError, Global};
use term_table::{Id, Node, Table};
use word_ops::op_of_constant;

/// The type of a variable, by the ids of both types.
fn id_of_sort(sort: Sort, word: Id, memory: Id) -> Id
    ensures { result ≡ id_of_sort sort word memory }
{
    match sort {
        Sort::Exp => word,
        Sort::Mem => memory,
    }
}

/// The types of the variables of `ctx`, in its order.
fn context_types(alloc: Global, table: &mut Table, ctx: &[Sort]) -> Result<Vec<Id>, AllocError>
    ensures known { IfOk result (λ ids. AllKnown table.new ids.items) }
    ensures types { IfOk result (λ ids. ctx_of table.new ids.items ≡ sort_types ctx.now) }
    ensures extends { Extends table.old table.new }
{
    let word = table.intern(Node::Fam(EXP))?;
    let memory = table.intern(Node::Fam(MEM))?;
    let mut types = Vec::new(alloc);
    for i in 0..ctx.len() {
        types.push(id_of_sort(ctx[i], word, memory))?;
    }
    Ok(types)
}

/// Returns whether the term `id` is a well-typed formula in the context `ctx` of word and memory
/// variables, the nearest last: whether it is the encoding of a formula over `ctx`.
///
/// Errors: out of memory alone; each id keeps its tree.
pub fn is_form<S: Known>(
    table: &mut Table,
    sig: &S,
    id: Id,
    ctx: &[Sort],
) -> Result<bool, AllocError>
    requires holds { S.Signature.holds sig.now table.old }
    requires id { IsKnown table.old id }
    ensures exact { let tree = tree_at table.old id in
        let sig = S.Signature.declares sig.now table.old in
        let typed = Checks sig (sort_types ctx.now) tree form in
        IfOk result (λ b. IsTrue b ↔ typed) }
    ensures extends { Extends table.old table.new }
{
    let alloc = table.allocator();
    let form = table.intern(Node::Fam(FORM))?;
    let types = context_types(alloc, table, ctx)?;
    check_term(alloc, table, sig, types.as_slice(), id, form)
}

/// The expression of the variable `n`, `depth` variables being nearer than the machine's.
fn word_variable(n: u32, depth: u64) -> Exp
    ensures { exp_view result ≡ unnamed_exp depth (EVar n) }
{
    if u64::from(n) < depth {
        return Exp::Var(n);
    }
    if u64::from(n) - depth < 31 {
        return Exp::Reg((30 - (u64::from(n) - depth)) as u8);
    }
    Exp::Left
}

/// The memory of the variable `n`.
fn memory_variable(n: u32, depth: u64) -> MemExp
    ensures { mem_exp_view result ≡ unnamed_mem depth (MVar n) }
{
    if u64::from(n) < depth {
        return MemExp::Var(n);
    }
    MemExp::Mem
}

/// The expression that a term encodes, `depth` variables being nearer than the machine's; any
/// expression if it encodes none.
#[cycle(decoding)]
fn decode_exp(alloc: Global, table: &Table, id: Id, depth: u64) -> Result<Exp, AllocError>
    requires { IsKnown table.now id }
    ensures exact { IfOk result
        (λ e. exp_view e ≡ unnamed_exp depth (exp_of (tree_at table.now id))) }
{
    match table.node(id) {
        Node::Var(n) => Ok(word_variable(n, depth)),
        Node::Lit(word) => Ok(Exp::Lit(word)),
        Node::App(f, b) => decode_applied(alloc, table, f, b, depth),
        _ => Ok(Exp::Lit(0)),
    }
}

/// The expression that the term `f` applied to `b` encodes.
#[cycle(decoding)]
fn decode_applied(alloc: Global, table: &Table, f: Id, b: Id, depth: u64) -> Result<Exp, AllocError>
    requires f { IsKnown table.now f }
    requires b { IsKnown table.now b }
    ensures exact { let applied = App (tree_at table.now f) (tree_at table.now b) in
        IfOk result (λ e. exp_view e ≡ unnamed_exp depth (exp_of applied)) }
{
    let Node::App(g, a) = table.node(f) else {
        return Ok(Exp::Lit(0));
    };
    let Node::Const(constant) = table.node(g) else {
        return Ok(Exp::Lit(0));
    };
    match op_of_constant(constant) {
        Some(op) => {
            let left = decode_exp(alloc, table, a, depth)?;
            Exp::oper(alloc, op, left, decode_exp(alloc, table, b, depth)?)
        }
        None => {
            let memory = decode_mem(alloc, table, a, depth)?;
            Exp::sel(alloc, memory, decode_exp(alloc, table, b, depth)?)
        }
    }
}

/// The memory that a term encodes, as that of an expression.
#[cycle(decoding)]
fn decode_mem(alloc: Global, table: &Table, id: Id, depth: u64) -> Result<MemExp, AllocError>
    requires { IsKnown table.now id }
    ensures exact { IfOk result
        (λ m. mem_exp_view m ≡ unnamed_mem depth (mem_of (tree_at table.now id))) }
{
    match table.node(id) {
        Node::Var(n) => Ok(memory_variable(n, depth)),
        Node::App(f, v) => decode_store(alloc, table, f, v, depth),
        _ => Ok(MemExp::Mem),
    }
}

/// The memory that the term `f` applied to `v` encodes.
#[cycle(decoding)]
fn decode_store(
    alloc: Global,
    table: &Table,
    f: Id,
    v: Id,
    depth: u64,
) -> Result<MemExp, AllocError>
    requires f { IsKnown table.now f }
    requires v { IsKnown table.now v }
    ensures exact { let applied = App (tree_at table.now f) (tree_at table.now v) in
        IfOk result (λ m. mem_exp_view m ≡ unnamed_mem depth (mem_of applied)) }
{
    let Node::App(g, a) = table.node(f) else {
        return Ok(MemExp::Mem);
    };
    let Node::App(_, m) = table.node(g) else {
        return Ok(MemExp::Mem);
    };
    let before = decode_mem(alloc, table, m, depth)?;
    let address = decode_exp(alloc, table, a, depth)?;
    MemExp::upd(alloc, before, address, decode_exp(alloc, table, v, depth)?)
}

/// The formula that a term encodes, `depth` variables being nearer than the machine's; any formula
/// if it encodes none.
#[cycle(formulas)]
fn decode_form(alloc: Global, table: &Table, id: Id, depth: u64) -> Result<Form, AllocError>
    requires known { IsKnown table.now id }
    requires room { depth + id < 2 ^ 64 }
    ensures exact { IfOk result
        (λ f. form_view f ≡ unnamed_form depth (form_of (tree_at table.now id))) }
{
    match table.node(id) {
        Node::Const(constant) => Ok(if constant == TT {
            Form::True
        } else {
            Form::False
        }),
        Node::App(f, t) => decode_connected(alloc, table, f, t, depth),
        _ => Ok(Form::True),
    }
}

/// The formula that the term `f` applied to `t` encodes.
#[cycle(formulas)]
fn decode_connected(
    alloc: Global,
    table: &Table,
    f: Id,
    t: Id,
    depth: u64,
) -> Result<Form, AllocError>
    requires f { IsKnown table.now f }
    requires t { IsKnown table.now t }
    requires room { depth + max f t < 2 ^ 64 }
    ensures exact { let applied = App (tree_at table.now f) (tree_at table.now t) in
        IfOk result (λ r. form_view r ≡ unnamed_form depth (form_of applied)) }
{
    match table.node(f) {
        Node::Const(constant) => decode_unary(alloc, table, constant, t, depth),
        Node::App(g, s) => match table.node(g) {
            Node::Const(constant) => decode_joined(alloc, table, constant, s, t, depth),
            _ => Ok(Form::True),
        },
        _ => Ok(Form::True),
    }
}

/// The formula that the constant `constant` at the term `t` encodes.
#[cycle(formulas)]
fn decode_unary(
    alloc: Global,
    table: &Table,
    constant: u32,
    t: Id,
    depth: u64,
) -> Result<Form, AllocError>
    requires t { IsKnown table.now t }
    requires room { depth + t < 2 ^ 64 }
    ensures exact { let of = tree_at table.now t in
        IfOk result (λ f.
        form_view f ≡ unnamed_form depth (unary constant (exp_of of) (body_of of))) }
{
    if constant == RD {
        return Ok(Form::Rd(decode_exp(alloc, table, t, depth)?));
    }
    if constant == WR {
        return Ok(Form::Wr(decode_exp(alloc, table, t, depth)?));
    }
    let body = decode_body(alloc, table, t, depth)?;
    if constant == ALL {
        Form::all(alloc, body)
    } else {
        Form::allm(alloc, body)
    }
}

/// The formula under the binder of the term `t`.
#[cycle(formulas)]
fn decode_body(alloc: Global, table: &Table, t: Id, depth: u64) -> Result<Form, AllocError>
    requires t { IsKnown table.now t }
    requires room { depth + t < 2 ^ 64 }
    ensures exact { IfOk result
        (λ f. form_view f ≡ unnamed_form (suc depth) (body_of (tree_at table.now t))) }
{
    match table.node(t) {
        Node::Lam(b) => decode_form(alloc, table, b, depth + 1),
        _ => Ok(Form::True),
    }
}

/// The formula that the constant `constant` at the terms `s` and `t` encodes.
#[cycle(formulas)]
fn decode_joined(
    alloc: Global,
    table: &Table,
    constant: u32,
    s: Id,
    t: Id,
    depth: u64,
) -> Result<Form, AllocError>
    requires s { IsKnown table.now s }
    requires t { IsKnown table.now t }
    requires room { depth + max s t < 2 ^ 64 }
    ensures exact { let first = tree_at table.now s in
        let second = tree_at table.now t in
        let both =
        connected constant (form_of first) (form_of second) (exp_of first) (exp_of second) in
        IfOk result (λ f. form_view f ≡ unnamed_form depth both) }
{
    if let Some(rel) = rel_of_constant(constant) {
        let left = decode_exp(alloc, table, s, depth)?;
        return Ok(Form::Rel(rel, left, decode_exp(alloc, table, t, depth)?));
    }
    let left = decode_form(alloc, table, s, depth)?;
    let right = decode_form(alloc, table, t, depth)?;
    if constant == AND {
        Form::and(alloc, left, right)
    } else if constant == OR {
        Form::or(alloc, left, right)
    } else {
        Form::imp(alloc, left, right)
    }
}

/// Returns the formula that the term `id` encodes over `ctx`: it has operators of `sig` alone and
/// no register 31. Returns None exactly if the term isn't a well-typed formula over `sig` in that
/// context of word and memory variables, the nearest last.
///
/// Errors: out of memory alone; each id keeps its tree.
pub fn form_of<S: Known>(
    table: &mut Table,
    sig: &S,
    id: Id,
    ctx: &[Sort],
) -> Result<Option<Form>, AllocError>
    requires holds { S.Signature.holds sig.now table.old }
    requires id { IsKnown table.old id }
    ensures exact { let tree = tree_at table.old id in
        let sig = S.Signature.declares sig.now table.old in
        let typed = Checks sig (sort_types ctx.now) tree form in
        IfOk result (λ o. MatchOption o (typed → ⊥)
        (λ f. typed × EncodesForm ctx.now (form_view f) tree × Uses (HasOp sig) (form_view f))) }
    ensures extends { Extends table.old table.new }
{
    if !is_form(table, sig, id, ctx)? {
        return Ok(None);
    }
    table.laws();
    let depth = bound_count(ctx) as u64;
    if depth >= 1 << 63 {
        return Err(AllocError); // no memory holds such a context
    }
    let alloc = table.allocator();
    Ok(Some(decode_form(alloc, table, id, depth)?))
}
