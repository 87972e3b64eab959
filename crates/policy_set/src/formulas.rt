//! The formulas of the built-in policies, part by part as in `specs/Policies`.

ghost use Rattle.std.specs.Prelude.{◌≡◌, IfOk};
ghost use Rattle.formula_tree.specs.Formulas.{EVar};
ghost use Rattle.formula_tree.specs.Views.{exp_view, form_view};
ghost use Rattle.policy_set.specs.Policies as parts;

use crate::kind::PolicyKind;
use formula_tree::{Exp, Form, MemExp};
use std::alloc::{AllocError, Global};
use word_ops::{Op, Rel};

/// Creates the address at an offset from a register. Errors: out of memory.
fn offset_from(alloc: Global, register: u8, offset: Exp) -> Result<Exp, AllocError>
    ensures { IfOk result (λ e. exp_view e ≡ parts.offset_from register (exp_view offset)) }
{
    Exp::oper(alloc, Op::Add, Exp::Reg(register), offset)
}

/// Creates the formula: the variable is below the bound and a multiple of 8. Errors: out of memory.
fn aligned_below(alloc: Global, variable: u32, bound: Exp) -> Result<Form, AllocError>
    ensures { IfOk result
        (λ f. form_view f ≡ parts.aligned_below (EVar variable) (exp_view bound)) }
{
    let low = Exp::oper(alloc, Op::Band, Exp::Var(variable), Exp::Lit(7))?;
    let below = Form::Rel(Rel::Ult, Exp::Var(variable), bound);
    Form::and(alloc, below, Form::Rel(Rel::Eq, low, Exp::Lit(0)))
}

fn readable_packet(alloc: Global) -> Result<Form, AllocError>
    ensures { IfOk result (λ f. form_view f ≡ parts.readable_packet) }
{
    let inside = aligned_below(alloc, 0, Exp::Reg(17))?;
    let read = Form::Rd(offset_from(alloc, 16, Exp::Var(0))?);
    Form::all(alloc, Form::imp(alloc, inside, read)?)
}

fn usable_scratch(alloc: Global) -> Result<Form, AllocError>
    ensures { IfOk result (λ f. form_view f ≡ parts.usable_scratch) }
{
    let inside = aligned_below(alloc, 0, Exp::Lit(16))?;
    let read = Form::Rd(offset_from(alloc, 18, Exp::Var(0))?);
    let write = Form::Wr(offset_from(alloc, 18, Exp::Var(0))?);
    let used = Form::and(alloc, read, write)?;
    Form::all(alloc, Form::imp(alloc, inside, used)?)
}

fn separate_scratch(alloc: Global) -> Result<Form, AllocError>
    ensures { IfOk result (λ f. form_view f ≡ parts.separate_scratch) }
{
    let in_packet = aligned_below(alloc, 1, Exp::Reg(17))?;
    let in_scratch = aligned_below(alloc, 0, Exp::Lit(16))?;
    let inside = Form::and(alloc, in_packet, in_scratch)?;
    let packet = offset_from(alloc, 16, Exp::Var(1))?;
    let scratch = offset_from(alloc, 18, Exp::Var(0))?;
    let apart = Form::imp(alloc, Form::Rel(Rel::Eq, packet, scratch), Form::False)?;
    let each = Form::imp(alloc, inside, apart)?;
    Form::all(alloc, Form::all(alloc, each)?)
}

fn filter_pre(alloc: Global) -> Result<Form, AllocError>
    ensures { IfOk result (λ f. form_view f ≡ parts.filter_pre) }
{
    let scratch = Form::and(alloc, usable_scratch(alloc)?, separate_scratch(alloc)?)?;
    let packet = Form::and(alloc, readable_packet(alloc)?, scratch)?;
    let long = Form::Rel(Rel::Ule, Exp::Lit(64), Exp::Reg(17));
    Form::and(alloc, long, packet)
}

fn writable_word(alloc: Global) -> Result<Form, AllocError>
    ensures { IfOk result (λ f. form_view f ≡ parts.writable_word) }
{
    let tag = Exp::sel(alloc, MemExp::Mem, offset_from(alloc, 16, Exp::Lit(0))?)?;
    let zero = Form::Rel(Rel::Eq, tag, Exp::Lit(0));
    let nonzero = Form::imp(alloc, zero, Form::False)?;
    let write = Form::Wr(offset_from(alloc, 16, Exp::Lit(8))?);
    Form::imp(alloc, nonzero, write)
}

fn tag_pre(alloc: Global) -> Result<Form, AllocError>
    ensures { IfOk result (λ f. form_view f ≡ parts.tag_pre) }
{
    let tag = Form::Rd(offset_from(alloc, 16, Exp::Lit(0))?);
    let word = Form::Rd(offset_from(alloc, 16, Exp::Lit(8))?);
    let words = Form::and(alloc, word, writable_word(alloc)?)?;
    Form::and(alloc, tag, words)
}

fn entry_address(alloc: Global) -> Result<Exp, AllocError>
    ensures { IfOk result (λ e. exp_view e ≡ parts.entry_address) }
{
    let offset = Exp::oper(alloc, Op::Sll, Exp::Var(0), Exp::Lit(3))?;
    offset_from(alloc, 16, offset)
}

fn table_pre(alloc: Global) -> Result<Form, AllocError>
    ensures { IfOk result (λ f. form_view f ≡ parts.table_pre) }
{
    let read = Form::Rd(entry_address(alloc)?);
    let used = Form::and(alloc, read, Form::Wr(entry_address(alloc)?))?;
    let inside = Form::Rel(Rel::Ult, Exp::Var(0), Exp::Reg(17));
    let usable = Form::all(alloc, Form::imp(alloc, inside, used)?)?;
    let short = Form::Rel(Rel::Ult, Exp::Reg(17), Exp::Lit(65_536));
    Form::and(alloc, short, usable)
}

/// Returns the precondition of the built-in policy of this kind. Errors: out of memory.
pub fn pre(alloc: Global, kind: PolicyKind) -> Result<Form, AllocError>
    ensures { IfOk result (λ f. form_view f ≡ parts.pre_of kind) }
{
    match kind {
        PolicyKind::Filter => filter_pre(alloc),
        PolicyKind::Tag => tag_pre(alloc),
        PolicyKind::Table => table_pre(alloc),
    }
}

/// Returns the postcondition of the built-in policy of this kind.
pub fn post(kind: PolicyKind) -> Form
    ensures { form_view result ≡ parts.post_of kind }
{
    match kind {
        PolicyKind::Filter => Form::Rel(Rel::Ult, Exp::Reg(0), Exp::Lit(2)),
        PolicyKind::Tag | PolicyKind::Table => Form::True,
    }
}
