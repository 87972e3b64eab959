//! A printer of formulas.

ghost use Rattle.std.specs.Prelude.{◌≡◌, ◌+◌, ◌<◌, ◌^◌, suc, ◌++◌, ◌∷◌, [], Ok, Bool, true};
ghost use Rattle.std.specs.Prelude.{OnOk, IfOk, decimal};
ghost use Rattle.formula_tree.specs.Scope.{IsWithin};
ghost use Rattle.formula_tree.specs.Sizes.{binders};
ghost use Rattle.formula_tree.specs.Views.{exp_view, mem_exp_view, form_view};
ghost use Rattle.formula_text.specs.Keywords.{keyword_text};
ghost use Rattle.formula_text.specs.Grammar.{Spells};
ghost use Rattle.formula_text.specs.Parsing.{parsed_form};
ghost use Rattle.formula_text.specs.Printing.{name_of, group_text, exp_text, mem_text, form_text};
ghost use Rattle.word_ops.specs.declared.Profile.{Profile};
ghost use Rattle.word_ops.specs.Operators.{has_op};
ghost use Rattle.formula_tree.specs.Operators.{Uses};

use crate::keywords::{Keyword, keyword_text};
use formula_tree::{Exp, Form, MemExp};
use itoa::Buffer;
use std::alloc::{AllocError, Global};

fn push_number(out: &mut Vec<u8>, n: u64) -> Result<(), AllocError>
    ensures { OnOk result (out.new.items ≡ out.old.items ++ decimal n) }
{
    let mut buffer = Buffer::new();
    out.extend_from_slice(buffer.format(n).as_bytes())
}

/// Appends the name of the binder that `depth` others enclose.
fn push_name(out: &mut Vec<u8>, depth: u64) -> Result<(), AllocError>
    ensures { OnOk result (out.new.items ≡ out.old.items ++ name_of depth) }
{
    out.push(b'x')?;
    push_number(out, depth)
}

fn push_keyword(out: &mut Vec<u8>, keyword: Keyword) -> Result<(), AllocError>
    ensures { OnOk result (out.new.items ≡ (out.old.items ++ (40 ∷ [])) ++ keyword_text keyword) }
{
    out.push(b'(')?;
    out.extend_from_slice(keyword_text(keyword).as_bytes())
}

fn push_end(out: &mut Vec<u8>) -> Result<(), AllocError>
    ensures { OnOk result (out.new.items ≡ out.old.items ++ (41 ∷ [])) }
{
    out.push(b')')?;
    Ok(())
}

#[cycle(expressions)]
fn push_exp_part(out: &mut Vec<u8>, depth: u64, exp: &Exp) -> Result<(), AllocError>
    ensures { OnOk result (out.new.items
        ≡ (out.old.items ++ (32 ∷ [])) ++ exp_text depth (exp_view exp.now)) }
{
    out.push(b' ')?;
    push_exp(out, depth, exp)
}

#[cycle(expressions)]
fn push_last(out: &mut Vec<u8>, depth: u64, exp: &Exp) -> Result<(), AllocError>
    ensures { OnOk result (out.new.items
        ≡ (out.old.items ++ (32 ∷ [])) ++ (exp_text depth (exp_view exp.now) ++ (41 ∷ []))) }
{
    push_exp_part(out, depth, exp)?;
    push_end(out)
}

#[cycle(expressions)]
fn push_mem_part(out: &mut Vec<u8>, depth: u64, mem: &MemExp) -> Result<(), AllocError>
    ensures { OnOk result (out.new.items
        ≡ (out.old.items ++ (32 ∷ [])) ++ mem_text depth (mem_exp_view mem.now)) }
{
    out.push(b' ')?;
    push_mem(out, depth, mem)
}

/// Appends an expression that `depth` binders enclose.
#[cycle(expressions)]
fn push_exp(out: &mut Vec<u8>, depth: u64, exp: &Exp) -> Result<(), AllocError>
    ensures { OnOk result (out.new.items ≡ out.old.items ++ exp_text depth (exp_view exp.now)) }
{
    match exp {
        Exp::Reg(number) => {
            out.push(b'r')?;
            push_number(out, u64::from(*number))
        }
        Exp::Left => out.extend_from_slice(b"left"),
        Exp::Var(n) => push_name(out, depth.saturating_sub(u64::from(*n)).saturating_sub(1)),
        Exp::Lit(word) => push_number(out, *word),
        Exp::Oper(op, a, b) => {
            push_keyword(out, Keyword::Oper(*op))?;
            push_exp_part(out, depth, a)?;
            push_last(out, depth, b)
        }
        Exp::Sel(m, a) => {
            push_keyword(out, Keyword::Sel)?;
            push_mem_part(out, depth, m)?;
            push_last(out, depth, a)
        }
    }
}

/// Appends a memory that `depth` binders enclose.
#[cycle(expressions)]
fn push_mem(out: &mut Vec<u8>, depth: u64, mem: &MemExp) -> Result<(), AllocError>
    ensures { OnOk result (out.new.items ≡ out.old.items ++ mem_text depth (mem_exp_view mem.now)) }
{
    match mem {
        MemExp::Mem => {
            out.push(b'm')?;
            Ok(())
        }
        MemExp::Var(n) => push_name(out, depth.saturating_sub(u64::from(*n)).saturating_sub(1)),
        MemExp::Upd(m, a, v) => {
            push_keyword(out, Keyword::Upd)?;
            push_mem_part(out, depth, m)?;
            push_exp_part(out, depth, a)?;
            push_last(out, depth, v)
        }
    }
}

/// Appends what comes before the body of a binder.
fn push_binding(out: &mut Vec<u8>, depth: u64, keyword: Keyword) -> Result<(), AllocError>
    ensures { OnOk result (out.new.items
        ≡ out.old.items ++ (40 ∷ (keyword_text keyword ++ (32 ∷ name_of depth)))) }
{
    push_keyword(out, keyword)?;
    out.push(b' ')?;
    push_name(out, depth)
}

/// Returns `depth` plus one. Errors: out of memory, at 2^64 binders, which memory can't hold.
fn deeper(depth: u64) -> Result<u64, AllocError>
    ensures { IfOk result (λ d. d ≡ suc depth) }
{
    match depth.checked_add(1) {
        Some(under) => Ok(under),
        None => Err(AllocError),
    }
}

#[cycle(formulas)]
fn push_form_part(out: &mut Vec<u8>, depth: u64, form: &Form) -> Result<(), AllocError>
    ensures text { OnOk result (out.new.items
        ≡ (out.old.items ++ (32 ∷ [])) ++ form_text depth (form_view form.now)) }
    ensures few { OnOk result (depth + binders (form_view form.now) < 2 ^ 64) }
{
    out.push(b' ')?;
    push_form(out, depth, form)
}

/// Appends an access right with its address.
fn push_access(
    out: &mut Vec<u8>,
    depth: u64,
    keyword: Keyword,
    address: &Exp,
) -> Result<(), AllocError>
    ensures { OnOk result (out.new.items
        ≡ out.old.items ++ group_text keyword (exp_text depth (exp_view address.now) ∷ [])) }
{
    push_keyword(out, keyword)?;
    push_exp_part(out, depth, address)?;
    push_end(out)
}

/// Appends a connective and its first formula.
#[cycle(formulas)]
fn push_first(
    out: &mut Vec<u8>,
    depth: u64,
    keyword: Keyword,
    form: &Form,
) -> Result<(), AllocError>
    ensures text { OnOk result (out.new.items ≡ out.old.items
        ++ (40 ∷ (keyword_text keyword ++ (32 ∷ form_text depth (form_view form.now))))) }
    ensures few { OnOk result (depth + binders (form_view form.now) < 2 ^ 64) }
{
    push_keyword(out, keyword)?;
    push_form_part(out, depth, form)
}

/// Appends the last formula of a connective or a quantifier.
#[cycle(formulas)]
fn push_last_form(out: &mut Vec<u8>, depth: u64, form: &Form) -> Result<(), AllocError>
    ensures text { OnOk result (out.new.items
        ≡ ((out.old.items ++ (32 ∷ [])) ++ form_text depth (form_view form.now)) ++ (41 ∷ [])) }
    ensures few { OnOk result (depth + binders (form_view form.now) < 2 ^ 64) }
{
    push_form_part(out, depth, form)?;
    push_end(out)
}

/// Appends a quantifier with its formula.
#[cycle(formulas)]
fn push_bound(
    out: &mut Vec<u8>,
    depth: u64,
    keyword: Keyword,
    body: &Form,
) -> Result<(), AllocError>
    ensures text { OnOk result (out.new.items ≡ out.old.items ++ group_text keyword
        (name_of depth ∷ form_text (suc depth) (form_view body.now) ∷ [])) }
    ensures few { OnOk result (suc depth + binders (form_view body.now) < 2 ^ 64) }
{
    let under = deeper(depth)?;
    push_binding(out, depth, keyword)?;
    push_last_form(out, under, body)
}

/// Appends a formula that `depth` binders enclose.
#[cycle(formulas)]
fn push_form(out: &mut Vec<u8>, depth: u64, form: &Form) -> Result<(), AllocError>
    ensures text { OnOk result (out.new.items
        ≡ out.old.items ++ form_text depth (form_view form.now)) }
    ensures few { OnOk result (depth + binders (form_view form.now) < 2 ^ 64) }
{
    match form {
        Form::True => out.extend_from_slice(b"tt"),
        Form::False => out.extend_from_slice(b"ff"),
        Form::Rel(rel, a, b) => {
            push_keyword(out, Keyword::Rel(*rel))?;
            push_exp_part(out, depth, a)?;
            push_last(out, depth, b)
        }
        Form::Rd(a) => push_access(out, depth, Keyword::Rd, a),
        Form::Wr(a) => push_access(out, depth, Keyword::Wr, a),
        Form::And(a, b) => {
            push_first(out, depth, Keyword::And, a)?;
            push_last_form(out, depth, b)
        }
        Form::Or(a, b) => {
            push_first(out, depth, Keyword::Or, a)?;
            push_last_form(out, depth, b)
        }
        Form::Imp(a, b) => {
            push_first(out, depth, Keyword::Imp, a)?;
            push_last_form(out, depth, b)
        }
        Form::All(a) => push_bound(out, depth, Keyword::All, a),
        Form::Allm(a) => push_bound(out, depth, Keyword::Allm, a),
    }
}

/// Returns the text of `form`. It has one blank between parts, decimal numbers, registers as `r`
/// and their number, `left` for the remaining steps, and bound names x0, x1, .. from the outermost.
///
/// The text parses as `form` under each profile that has its operators. This holds if each bound
/// variable of `form` has its binder, of its sort, and registers are below 32. If `form` names the
/// remaining steps, the text parses only with the flag that allows their name. Errors: out of
/// memory.
#[tactic(auto, using(crate::proofs::Printed::print_spells, crate::proofs::Joined::spelled_parsed))]
pub fn print_form(alloc: Global, form: &Form) -> Result<Vec<u8>, AllocError>
    ensures exact { IfOk result (λ v. v.items ≡ form_text 0 (form_view form.now)) }
    ensures spells { IfOk result (λ v. (p : Profile) (left : Bool) →
        IsWithin left 32 (form_view form.now) [] →
        Uses (λ o. has_op p o ≡ true) (form_view form.now) →
        Spells p left v.items (form_view form.now)) }
    ensures round_trip { IfOk result (λ v. (p : Profile) (left : Bool) →
        IsWithin left 32 (form_view form.now) [] →
        Uses (λ o. has_op p o ≡ true) (form_view form.now) →
        parsed_form p left v.items ≡ Ok (form_view form.now)) }
{
    let mut out = Vec::new(alloc);
    push_form(&mut out, 0, form)?;
    Ok(out)
}
