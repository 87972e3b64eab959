//! The invariants of a program's code, as terms.

ghost use Rattle.std.specs.Prelude.{◌≡◌, ℕ, ◌*◌, ◌<◌, ◌≤◌, length, slice_get, Some, IfOk};
ghost use Rattle.formula_tree.specs.Formulas.{FAnd};
ghost use Rattle.formula_tree.specs.Views.{form_view};
ghost use Rattle.policy_set.specs.declared.kind.PolicyKind.TheVariants.{Filter};
ghost use Rattle.policy_set.specs.Views.{built_in};
ghost use Rattle.policy_set.specs.Policies.{filter_pre, filter_post};
ghost use Rattle.term_table.specs.Table.{TableView, Extends};
ghost use Rattle.lf_signature.specs.Nodes.{IsIdOf};
ghost use Rattle.lf_encode.specs.Contexts.{machine_context, encoding_in};
ghost use Rattle.bpf_words.specs.declared.insn.Bpf.{Bpf};
ghost use Rattle.bpf_words.specs.declared.insn.BpfOp.{BpfOp};
ghost use Rattle.bpf_words.specs.Programs.{bpf_op, IsProgram};
ghost use Rattle.bpf_words.specs.declared.insn.TheConstants.{MAX_PROGRAM};
ghost use Rattle.bpf_code.specs.declared.blocks.TheConstants.{BLOCK};
ghost use Rattle.bpf_code.specs.Blocks.{end_place, straight_code};
ghost use Rattle.bpf_condition.specs.Invariants.{packet_invariant, end_invariant};
ghost use Rattle.bpf_compile.specs.Inside.Ids.{AreInvIds};

use bpf_code::BLOCK;
use bpf_words::{Bpf, BpfOp, bpf_op};
use formula_tree::Form;
use lf_encode::{encode_form, machine_context};
use policy_set::Policy;
use std::alloc::{AllocError, Global};
use term_table::{Id, Table};

/// The first two parts of what `filter` asks, given its first part and the rest.
fn first_two(alloc: Global, long: &Form, rest: &Form) -> Result<Form, AllocError>
    requires { FAnd (form_view long.now) (form_view rest.now) ≡ filter_pre }
    ensures { IfOk result (λ f. form_view f ≡ packet_invariant) }
{
    match rest {
        Form::And(readable, _) => { Form::and(alloc, long.copy(alloc)?, readable.copy(alloc)?) }
        _ => unreachable!(),
    }
}

/// The packet's invariant, by what `filter` asks.
fn packet_form(alloc: Global, pre: &Form) -> Result<Form, AllocError>
    requires { form_view pre.now ≡ filter_pre }
    ensures { IfOk result (λ f. form_view f ≡ packet_invariant) }
{
    match pre {
        Form::And(long, rest) => first_two(alloc, long, rest),
        _ => unreachable!(),
    }
}

/// The term of the packet's invariant.
fn packet_term(alloc: Global, table: &mut Table, policy: &Policy) -> Result<Id, AllocError>
    requires { policy.now ≡ built_in Filter }
    ensures exact { IfOk result
        (IsIdOf table.new (encoding_in machine_context packet_invariant)) }
    ensures extends { Extends table.old table.new }
{
    let form = packet_form(alloc, policy.pre())?;
    encode_form(table, &form, &machine_context())
}

/// The term of what `filter` promises.
fn last_term(table: &mut Table, policy: &Policy) -> Result<Id, AllocError>
    requires { policy.now ≡ built_in Filter }
    ensures exact { IfOk result (IsIdOf table.new (encoding_in machine_context filter_post)) }
    ensures extends { Extends table.old table.new }
{
    encode_form(table, policy.post(), &machine_context())
}

/// How many words of a block come before its last two.
fn straight_len(op: BpfOp) -> usize
    ensures exact { (k : ℕ) → result ≡ length (straight_code op k) }
    ensures few { result ≤ 18 }
{
    match op {
        BpfOp::Ld => 18,
        BpfOp::Ldh => 10,
        BpfOp::Ldb => 6,
        BpfOp::LdImm => 7,
        BpfOp::Add => 10,
        BpfOp::Or | BpfOp::And => 8,
        BpfOp::Jump(_) => 8,
        BpfOp::Rsh | BpfOp::Ja | BpfOp::Ret | BpfOp::RetA => 1,
    }
}

/// The place of the first word of block `i`.
fn start_place(i: usize) -> u32
    requires { i < MAX_PROGRAM }
    ensures { result ≡ BLOCK * i }
{
    (BLOCK * i) as u32
}

/// The place of the last words of block `i`.
fn end_place(i: usize, op: BpfOp) -> u32
    requires { i < MAX_PROGRAM }
    ensures { (k : ℕ) → result ≡ end_place i op k }
{
    (BLOCK * i + straight_len(op)) as u32
}

/// Returns the invariant at the end of a block: `last` if the block returns, else `packet`.
fn end_id(op: BpfOp, packet: Id, last: Id) -> Id
    ensures { (table : TableView)
        → IsIdOf table (encoding_in machine_context packet_invariant) packet
        → IsIdOf table (encoding_in machine_context filter_post) last
        → IsIdOf table (encoding_in machine_context (end_invariant op)) result }
{
    match op {
        BpfOp::Ret | BpfOp::RetA => last,
        _ => packet,
    }
}

/// What the code of an instruction of a program says.
fn op_at(program: &[Bpf], i: usize) -> BpfOp
    requires program { IsProgram program.now }
    requires within { i < length program.now }
    ensures { (insn : Bpf) → slice_get program.now i ≡ Some insn
        → bpf_op insn.code ≡ Some result }
{
    match bpf_op(program[i].code) {
        Some(op) => op,
        None => unreachable!(),
    }
}

/// The places of the invariants, two a block, each with its term: `packet` or `last`.
fn ids_of(
    alloc: Global,
    table: &Table,
    program: &[Bpf],
    packet: Id,
    last: Id,
) -> Result<Vec<(u32, Id)>, AllocError>
    requires program { IsProgram program.now }
    requires packet { IsIdOf table.now (encoding_in machine_context packet_invariant) packet }
    requires last { IsIdOf table.now (encoding_in machine_context filter_post) last }
    ensures { IfOk result (λ v. AreInvIds table.now program.now v.items) }
{
    let _ = table; // only the clauses read it
    let mut ids = Vec::new(alloc);
    for i in 0..program.len() {
        let op = op_at(program, i);
        ids.push((start_place(i), packet))?;
        ids.push((end_place(i, op), end_id(op, packet, last)))?;
    }
    Ok(ids)
}

/// Appends the invariants of the program's code under `filter` to the table, as terms, and returns
/// each with the index of its word.
///
/// Errors: out of memory.
pub fn encode_invs(
    alloc: Global,
    table: &mut Table,
    policy: &Policy,
    program: &[Bpf],
) -> Result<Vec<(u32, Id)>, AllocError>
    requires policy { policy.now ≡ built_in Filter }
    requires program { IsProgram program.now }
    ensures { IfOk result (λ v. AreInvIds table.new program.now v.items) }
{
    let packet = packet_term(alloc, table, policy)?;
    let last = last_term(table, policy)?;
    ids_of(alloc, table, program, packet, last)
}
