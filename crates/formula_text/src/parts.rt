//! What parentheses denote.

ghost use Rattle.std.specs.Prelude.{◌≡◌, [], ◌∷◌, map, IfOk, None};
ghost use Rattle.std.specs.Option.{option_map};
ghost use Rattle.formula_text.specs.Parsing.{AForm, AnExp, AMem, group_phrase};
ghost use Rattle.formula_tree.specs.Views.{form_view, exp_view, mem_exp_view};
ghost use Rattle.formula_text.specs.Inside.Views.{phrase_view};

use crate::keywords::Keyword;
use formula_tree::{Exp, Form, MemExp};
use std::alloc::{AllocError, Global};

/// What a lexeme or a pair of parentheses denotes.
#[derive(Drop)]
pub enum Phrase {
    Form(Form),
    Exp(Exp),
    Mem(MemExp),
}

fn of_exp(keyword: Keyword, a: Exp) -> Option<Phrase>
    ensures { option_map phrase_view result ≡ group_phrase keyword (AnExp (exp_view a) ∷ []) }
{
    match keyword {
        Keyword::Rd => Some(Phrase::Form(Form::Rd(a))),
        Keyword::Wr => Some(Phrase::Form(Form::Wr(a))),
        _ => {
            drop(a);
            None
        }
    }
}

fn of_form(alloc: Global, keyword: Keyword, a: Form) -> Result<Option<Phrase>, AllocError>
    ensures { IfOk result (λ p. option_map phrase_view p
        ≡ group_phrase keyword (AForm (form_view a) ∷ [])) }
{
    match keyword {
        Keyword::All => Ok(Some(Phrase::Form(Form::all(alloc, a)?))),
        Keyword::Allm => Ok(Some(Phrase::Form(Form::allm(alloc, a)?))),
        _ => {
            drop(a);
            Ok(None)
        }
    }
}

fn of_two_exps(
    alloc: Global,
    keyword: Keyword,
    a: Exp,
    b: Exp,
) -> Result<Option<Phrase>, AllocError>
    ensures { IfOk result (λ p. option_map phrase_view p
        ≡ group_phrase keyword (AnExp (exp_view a) ∷ AnExp (exp_view b) ∷ [])) }
{
    match keyword {
        Keyword::Rel(rel) => Ok(Some(Phrase::Form(Form::Rel(rel, a, b)))),
        Keyword::Oper(op) => Ok(Some(Phrase::Exp(Exp::oper(alloc, op, a, b)?))),
        _ => {
            drop(a);
            drop(b);
            Ok(None)
        }
    }
}

fn of_two_forms(
    alloc: Global,
    keyword: Keyword,
    a: Form,
    b: Form,
) -> Result<Option<Phrase>, AllocError>
    ensures { IfOk result (λ p. option_map phrase_view p
        ≡ group_phrase keyword (AForm (form_view a) ∷ AForm (form_view b) ∷ [])) }
{
    match keyword {
        Keyword::And => Ok(Some(Phrase::Form(Form::and(alloc, a, b)?))),
        Keyword::Or => Ok(Some(Phrase::Form(Form::or(alloc, a, b)?))),
        Keyword::Imp => Ok(Some(Phrase::Form(Form::imp(alloc, a, b)?))),
        _ => {
            drop(a);
            drop(b);
            Ok(None)
        }
    }
}

fn of_mem_exp(
    alloc: Global,
    keyword: Keyword,
    m: MemExp,
    a: Exp,
) -> Result<Option<Phrase>, AllocError>
    ensures { IfOk result (λ p. option_map phrase_view p
        ≡ group_phrase keyword (AMem (mem_exp_view m) ∷ AnExp (exp_view a) ∷ [])) }
{
    match keyword {
        Keyword::Sel => Ok(Some(Phrase::Exp(Exp::sel(alloc, m, a)?))),
        _ => {
            drop(m);
            drop(a);
            Ok(None)
        }
    }
}

fn of_mem_two_exps(
    alloc: Global,
    keyword: Keyword,
    m: MemExp,
    a: Exp,
    v: Exp,
) -> Result<Option<Phrase>, AllocError>
    ensures { IfOk result (λ p. option_map phrase_view p
        ≡ group_phrase keyword
        (AMem (mem_exp_view m) ∷ AnExp (exp_view a) ∷ AnExp (exp_view v) ∷ [])) }
{
    match keyword {
        Keyword::Upd => Ok(Some(Phrase::Mem(MemExp::upd(alloc, m, a, v)?))),
        _ => {
            drop(m);
            drop(a);
            drop(v);
            Ok(None)
        }
    }
}

/// Returns the phrase of a keyword with one part.
fn of_one(alloc: Global, keyword: Keyword, part: Phrase) -> Result<Option<Phrase>, AllocError>
    ensures { IfOk result (λ p. option_map phrase_view p
        ≡ group_phrase keyword (phrase_view part ∷ [])) }
{
    match part {
        Phrase::Form(a) => of_form(alloc, keyword, a),
        Phrase::Exp(a) => Ok(of_exp(keyword, a)),
        Phrase::Mem(_) => Ok(None),
    }
}

/// Drops two parts that no keyword has, and returns None.
fn neither<A: Drop, B: Drop>(a: A, b: B) -> Option<Phrase>
    ensures { result ≡ None }
{
    drop(a);
    drop(b);
    None
}

/// Returns the phrase of a keyword with two parts.
fn of_two(
    alloc: Global,
    keyword: Keyword,
    first: Phrase,
    second: Phrase,
) -> Result<Option<Phrase>, AllocError>
    ensures { IfOk result (λ p. option_map phrase_view p
        ≡ group_phrase keyword (phrase_view first ∷ phrase_view second ∷ [])) }
{
    match first {
        Phrase::Form(a) => match second {
            Phrase::Form(b) => of_two_forms(alloc, keyword, a, b),
            Phrase::Exp(b) => Ok(neither(a, b)),
            Phrase::Mem(b) => Ok(neither(a, b)),
        },
        Phrase::Exp(a) => match second {
            Phrase::Exp(b) => of_two_exps(alloc, keyword, a, b),
            Phrase::Form(b) => Ok(neither(a, b)),
            Phrase::Mem(b) => Ok(neither(a, b)),
        },
        Phrase::Mem(m) => match second {
            Phrase::Exp(a) => of_mem_exp(alloc, keyword, m, a),
            Phrase::Form(b) => Ok(neither(m, b)),
            Phrase::Mem(b) => Ok(neither(m, b)),
        },
    }
}

/// Returns the phrase of a keyword with three parts, of which the first is a memory and the second
/// a word.
fn of_mem_exp_and(
    alloc: Global,
    keyword: Keyword,
    m: MemExp,
    a: Exp,
    third: Phrase,
) -> Result<Option<Phrase>, AllocError>
    ensures { IfOk result (λ p. option_map phrase_view p ≡ group_phrase keyword
        (AMem (mem_exp_view m) ∷ AnExp (exp_view a) ∷ phrase_view third ∷ [])) }
{
    match third {
        Phrase::Exp(v) => of_mem_two_exps(alloc, keyword, m, a, v),
        Phrase::Form(v) => {
            drop(m);
            drop(a);
            drop(v);
            Ok(None)
        }
        Phrase::Mem(v) => {
            drop(m);
            drop(a);
            drop(v);
            Ok(None)
        }
    }
}

/// Returns the phrase of a keyword with three parts, of which the first is a memory.
fn of_mem_and_two(
    alloc: Global,
    keyword: Keyword,
    m: MemExp,
    second: Phrase,
    third: Phrase,
) -> Result<Option<Phrase>, AllocError>
    ensures { IfOk result (λ p. option_map phrase_view p ≡ group_phrase keyword
        (AMem (mem_exp_view m) ∷ phrase_view second ∷ phrase_view third ∷ [])) }
{
    match second {
        Phrase::Exp(a) => of_mem_exp_and(alloc, keyword, m, a, third),
        Phrase::Form(a) => {
            drop(m);
            drop(a);
            drop(third);
            Ok(None)
        }
        Phrase::Mem(a) => {
            drop(m);
            drop(a);
            drop(third);
            Ok(None)
        }
    }
}

/// Returns the phrase of a keyword with three parts.
#[tactic(auto, using(crate::proofs::Groups::form_of_three, crate::proofs::Groups::exp_of_three))]
fn of_three(
    alloc: Global,
    keyword: Keyword,
    first: Phrase,
    second: Phrase,
    third: Phrase,
) -> Result<Option<Phrase>, AllocError>
    ensures { IfOk result (λ p. option_map phrase_view p ≡ group_phrase keyword
        (phrase_view first ∷ phrase_view second ∷ phrase_view third ∷ [])) }
{
    match first {
        Phrase::Mem(m) => of_mem_and_two(alloc, keyword, m, second, third),
        Phrase::Form(a) => {
            drop(a);
            drop(second);
            drop(third);
            Ok(None)
        }
        Phrase::Exp(a) => {
            drop(a);
            drop(second);
            drop(third);
            Ok(None)
        }
    }
}

/// Returns what parentheses with this keyword and these parts denote, or None if the keyword
/// doesn't take these parts. Errors: out of memory.
pub fn group_phrase(
    alloc: Global,
    keyword: Keyword,
    parts: Vec<Phrase>,
) -> Result<Option<Phrase>, AllocError>
    ensures { IfOk result (λ p. option_map phrase_view p
        ≡ group_phrase keyword (map phrase_view parts.items)) }
{
    let mut parts = parts;
    let Some(third) = parts.pop() else {
        return Ok(None);
    };
    let Some(second) = parts.pop() else {
        return of_one(alloc, keyword, third);
    };
    let Some(first) = parts.pop() else {
        return of_two(alloc, keyword, second, third);
    };
    if parts.is_empty() {
        of_three(alloc, keyword, first, second, third)
    } else {
        drop(first);
        drop(second);
        drop(third);
        drop(parts);
        Ok(None)
    }
}
