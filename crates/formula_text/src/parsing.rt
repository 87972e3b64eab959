//! A parser of formulas that takes one token at a time.

ghost use Rattle.std.specs.Prelude.{◌≡◌, ◌∷◌, [], Ok, IfOk, IfErr};
ghost use Rattle.formula_tree.specs.Scope.{IsWithin};
ghost use Rattle.formula_tree.specs.Views.{form_view};
ghost use Rattle.text_tokens.specs.Tokens.{token_view};
ghost use Rattle.text_tokens.specs.Numbers.{lexeme_number};
ghost use Rattle.formula_text.specs.Bindings.{nearest_binding};
ghost use Rattle.formula_text.specs.Grammar.{Spells};
ghost use Rattle.formula_text.specs.Parsing.{Inside, awaited_sort, bindings_of};
ghost use Rattle.formula_text.specs.Parsing.{number_phrase, variable_exp, variable_mem, named_exp};
ghost use Rattle.formula_text.specs.Parsing.{form_lexeme, exp_lexeme, mem_lexeme, lexeme_phrase};
ghost use Rattle.formula_text.specs.Parsing.{whole_form, put_phrase, close_group, inside_lexeme};
ghost use Rattle.formula_text.specs.Parsing.{inside_step, keyword_step, binding_step, parse_step};
ghost use Rattle.formula_text.specs.Parsing.{parse_end, parsed_form};
ghost use Rattle.formula_text.specs.Answers.{Parses, SpellsNone};
ghost use Rattle.formula_text.specs.Inside.Views.{phrase_view, expected_view, frames_view};
ghost use Rattle.formula_text.specs.Inside.Views.{IsLexemeAnswer, Moves, MovesAt};

use crate::fault::{TextFault, TextFlaw, TokenFault};
use crate::keywords::{
    Keyword, PhraseSort, binder_sort, is_sort, keyword_named, part_sort, phrase_sort,
};
use crate::names::{is_left, is_name};
use crate::parts::{Phrase, group_phrase};
use formula_tree::{Exp, Form, MemExp};
use std::alloc::Global;
use text_tokens::{
    Number, Paren, Placed, Token, begins_with_digit, next_token, read_number, register,
};
use word_ops::Profile;

/// A pair of parentheses that is still open: its keyword, the name that it binds, if any, and the
/// parts so far.
#[derive(Drop)]
pub struct Frame<'t> {
    pub keyword: Keyword,
    pub name: &'t [u8],
    pub parts: Vec<Phrase>,
}

/// What may come next.
#[derive(Drop)]
pub enum Expected {
    /// A part of the innermost open parentheses, or their end.
    Inside,
    /// The keyword of parentheses of this sort.
    Opened(PhraseSort),
    /// The name to bind.
    Binding(Keyword),
    /// Nothing: the formula is complete.
    Whole(Form),
}

/// Returns the sort of the next part, or None if no part may follow.
#[tactic(auto, unfolding(crate::specs::Inside::Views::frames_view))]
fn awaited_sort(frames: &[Frame<'_>]) -> Option<PhraseSort>
    ensures { result ≡ awaited_sort (frames_view frames.now) }
{
    match frames.last() {
        Some(frame) => part_sort(frame.keyword, frame.parts.len()),
        None => Some(PhraseSort::Form),
    }
}

/// Returns the nearest binding of a name, its number and its sort, or None.
fn nearest_binding(frames: &[Frame<'_>], name: &[u8]) -> Option<(usize, PhraseSort)>
    ensures { result ≡ nearest_binding (bindings_of (frames_view frames.now)) name.now }
{
    let mut number = 0;
    let mut i = frames.len();
    while i > 0 {
        i -= 1;
        let frame = &frames[i];
        if let Some(sort) = binder_sort(frame.keyword) {
            if frame.name == name {
                return Some((number, sort));
            }
            number += 1;
        }
    }
    None
}

fn form_lexeme(lexeme: &[u8]) -> Result<Phrase, TokenFault>
    ensures { IsLexemeAnswer phrase_view (form_lexeme lexeme.now) result }
{
    if lexeme == b"tt".as_slice() {
        return Ok(Phrase::Form(Form::True));
    }
    if lexeme == b"ff".as_slice() {
        return Ok(Phrase::Form(Form::False));
    }
    Err(TokenFault::Flaw(TextFlaw::Shape))
}

fn number_phrase(lexeme: &[u8]) -> Result<Phrase, TokenFault>
    ensures { IsLexemeAnswer phrase_view (number_phrase (lexeme_number lexeme.now)) result }
{
    match read_number(lexeme) {
        Number::Word(n) => Ok(Phrase::Exp(Exp::Lit(n))),
        Number::Large | Number::NoNumber => Err(TokenFault::Flaw(TextFlaw::Number)),
    }
}

/// Parses a bound name as an expression. Its number is below 2^32, or its binders would not fit in
/// memory.
fn variable_exp(frames: &[Frame<'_>], name: &[u8]) -> Result<Phrase, TokenFault>
    ensures { IsLexemeAnswer phrase_view
        (variable_exp (nearest_binding (bindings_of (frames_view frames.now)) name.now)) result }
{
    match nearest_binding(frames, name) {
        Some((number, PhraseSort::Exp)) => match u32::try_from(number) {
            Ok(number) => Ok(Phrase::Exp(Exp::Var(number))),
            Err(_) => Err(TokenFault::Memory),
        },
        _ => Err(TokenFault::Flaw(TextFlaw::Name)),
    }
}

/// Parses a bound name as a memory.
fn variable_mem(frames: &[Frame<'_>], name: &[u8]) -> Result<Phrase, TokenFault>
    ensures { IsLexemeAnswer phrase_view
        (variable_mem (nearest_binding (bindings_of (frames_view frames.now)) name.now)) result }
{
    match nearest_binding(frames, name) {
        Some((number, PhraseSort::Mem)) => match u32::try_from(number) {
            Ok(number) => Ok(Phrase::Mem(MemExp::Var(number))),
            Err(_) => Err(TokenFault::Memory),
        },
        _ => Err(TokenFault::Flaw(TextFlaw::Name)),
    }
}

/// Parses the remaining steps, if `left` allows their name, else a bound name.
fn named_exp(frames: &[Frame<'_>], name: &[u8], left: bool) -> Result<Phrase, TokenFault>
    ensures { IsLexemeAnswer phrase_view
        (named_exp left (bindings_of (frames_view frames.now)) name.now) result }
{
    if is_left(name, left) {
        return Ok(Phrase::Exp(Exp::Left));
    }
    variable_exp(frames, name)
}

fn exp_lexeme(frames: &[Frame<'_>], lexeme: &[u8], left: bool) -> Result<Phrase, TokenFault>
    ensures { IsLexemeAnswer phrase_view
        (exp_lexeme left (bindings_of (frames_view frames.now)) lexeme.now) result }
{
    if begins_with_digit(lexeme) {
        return number_phrase(lexeme);
    }
    match register(lexeme) {
        Some(number) => Ok(Phrase::Exp(Exp::Reg(number))),
        None => named_exp(frames, lexeme, left),
    }
}

fn mem_lexeme(frames: &[Frame<'_>], lexeme: &[u8]) -> Result<Phrase, TokenFault>
    ensures { IsLexemeAnswer phrase_view
        (mem_lexeme (bindings_of (frames_view frames.now)) lexeme.now) result }
{
    if lexeme == b"m".as_slice() {
        return Ok(Phrase::Mem(MemExp::Mem));
    }
    variable_mem(frames, lexeme)
}

/// Parses a lexeme as an expression of this sort.
#[tactic(auto, unfolding(crate::specs::Parsing::lexeme_phrase))]
fn lexeme_phrase(
    frames: &[Frame<'_>],
    sort: PhraseSort,
    lexeme: &[u8],
    left: bool,
) -> Result<Phrase, TokenFault>
    ensures { IsLexemeAnswer phrase_view
        (lexeme_phrase left (bindings_of (frames_view frames.now)) sort lexeme.now) result }
{
    match sort {
        PhraseSort::Form => form_lexeme(lexeme),
        PhraseSort::Exp => exp_lexeme(frames, lexeme, left),
        PhraseSort::Mem => mem_lexeme(frames, lexeme),
    }
}

/// Returns the phrase outside all parentheses as the whole formula. Errors: `Shape` if it is none.
fn whole_form(phrase: Phrase) -> Result<Expected, TokenFault>
    ensures { Moves (whole_form (phrase_view phrase)) [] result }
{
    match phrase {
        Phrase::Form(form) => Ok(Expected::Whole(form)),
        other => {
            drop(other);
            Err(TokenFault::Flaw(TextFlaw::Shape))
        }
    }
}

/// Adds a phrase to the innermost open parentheses.
#[tactic(auto, using(crate::proofs::Stacks::frames_push, crate::proofs::Stacks::frames_none, crate::proofs::Stacks::parts_push), unfolding(crate::specs::Parsing::put_phrase))]
fn put_phrase<'t>(frames: &mut Vec<Frame<'t>>, phrase: Phrase) -> Result<Expected, TokenFault>
    ensures { Moves (put_phrase (phrase_view phrase) (frames_view frames.old.items))
        (frames_view frames.new.items) result }
{
    match frames.pop() {
        None => whole_form(phrase),
        Some(frame) => {
            let Frame {
                keyword,
                name,
                mut parts,
            } = frame;
            parts.push(phrase)?;
            frames.push(Frame {
                keyword,
                name,
                parts,
            })?;
            Ok(Expected::Inside)
        }
    }
}

/// Closes the innermost open parentheses.
#[tactic(auto, using(crate::proofs::Stacks::frames_push, crate::proofs::Stacks::frames_none))]
fn close_group<'t>(alloc: Global, frames: &mut Vec<Frame<'t>>) -> Result<Expected, TokenFault>
    ensures { Moves (close_group (frames_view frames.old.items))
        (frames_view frames.new.items) result }
{
    match frames.pop() {
        None => Err(TokenFault::Flaw(TextFlaw::Shape)),
        Some(frame) => {
            let Frame {
                keyword,
                name: _,
                parts,
            } = frame;
            match group_phrase(alloc, keyword, parts)? {
                Some(phrase) => put_phrase(frames, phrase),
                None => Err(TokenFault::Flaw(TextFlaw::Shape)),
            }
        }
    }
}

/// Takes a lexeme where a part is expected.
fn inside_lexeme<'t>(
    frames: &mut Vec<Frame<'t>>,
    lexeme: &[u8],
    left: bool,
) -> Result<Expected, TokenFault>
    ensures { Moves (inside_lexeme left (frames_view frames.old.items) lexeme.now
        (awaited_sort (frames_view frames.old.items))) (frames_view frames.new.items) result }
{
    match awaited_sort(frames.as_slice()) {
        None => Err(TokenFault::Flaw(TextFlaw::Shape)),
        Some(sort) => {
            let phrase = lexeme_phrase(frames.as_slice(), sort, lexeme, left)?;
            put_phrase(frames, phrase)
        }
    }
}

fn inside_step<'t>(
    alloc: Global,
    frames: &mut Vec<Frame<'t>>,
    token: Token<'t, Paren>,
    left: bool,
) -> Result<Expected, TokenFault>
    ensures { Moves (inside_step left (token_view token.entry) (frames_view frames.old.items))
        (frames_view frames.new.items) result }
{
    match token {
        Token::Mark(Paren::Open) => match awaited_sort(frames.as_slice()) {
            Some(sort) => Ok(Expected::Opened(sort)),
            None => Err(TokenFault::Flaw(TextFlaw::Shape)),
        },
        Token::Mark(Paren::Close) => close_group(alloc, frames),
        Token::Lexeme(lexeme) => inside_lexeme(frames, lexeme, left),
    }
}

/// Opens parentheses with this keyword and, if they bind one, this name.
#[tactic(auto, using(crate::proofs::Stacks::frames_push))]
fn open_group<'t>(
    alloc: Global,
    frames: &mut Vec<Frame<'t>>,
    keyword: Keyword,
    name: &'t [u8],
) -> Result<Expected, TokenFault>
    ensures { Moves (Ok (
      Inside,
      record { keyword = keyword; name = name.now; parts = [] }
          ∷ frames_view frames.old.items,
    )) (frames_view frames.new.items) result }
{
    frames.push(Frame {
        keyword,
        name,
        parts: Vec::new(alloc),
    })?;
    Ok(Expected::Inside)
}

fn keyword_step<'t>(
    alloc: Global,
    frames: &mut Vec<Frame<'t>>,
    wanted: PhraseSort,
    token: Token<'t, Paren>,
    profile: Profile,
) -> Result<Expected, TokenFault>
    ensures { Moves
        (keyword_step profile wanted (token_view token.entry) (frames_view frames.old.items))
        (frames_view frames.new.items) result }
{
    let Token::Lexeme(lexeme) = token else {
        return Err(TokenFault::Flaw(TextFlaw::Shape));
    };
    let Some(keyword) = keyword_named(lexeme, profile) else {
        return Err(TokenFault::Flaw(TextFlaw::Shape));
    };
    if !is_sort(phrase_sort(keyword), wanted) {
        return Err(TokenFault::Flaw(TextFlaw::Shape));
    }
    match binder_sort(keyword) {
        Some(_) => Ok(Expected::Binding(keyword)),
        None => open_group(alloc, frames, keyword, b""),
    }
}

fn binding_step<'t>(
    alloc: Global,
    frames: &mut Vec<Frame<'t>>,
    keyword: Keyword,
    token: Token<'t, Paren>,
    profile: Profile,
    left: bool,
) -> Result<Expected, TokenFault>
    ensures { Moves
        (binding_step profile left keyword (token_view token.entry) (frames_view frames.old.items))
        (frames_view frames.new.items) result }
{
    let Token::Lexeme(lexeme) = token else {
        return Err(TokenFault::Flaw(TextFlaw::Shape));
    };
    if is_name(lexeme, profile, left) {
        open_group(alloc, frames, keyword, lexeme)
    } else {
        Err(TokenFault::Flaw(TextFlaw::Name))
    }
}

/// Takes one token.
#[tactic(auto, unfolding(crate::specs::Parsing::parse_step))]
fn parse_step<'t>(
    alloc: Global,
    frames: &mut Vec<Frame<'t>>,
    expected: Expected,
    token: Token<'t, Paren>,
    profile: Profile,
    left: bool,
) -> Result<Expected, TokenFault>
    ensures { Moves (parse_step profile left (token_view token.entry)
        (expected_view expected, frames_view frames.old.items)) (frames_view frames.new.items)
        result }
{
    match expected {
        Expected::Inside => inside_step(alloc, frames, token, left),
        Expected::Opened(sort) => keyword_step(alloc, frames, sort, token, profile),
        Expected::Binding(keyword) => binding_step(alloc, frames, keyword, token, profile, left),
        Expected::Whole(form) => {
            drop(form);
            Err(TokenFault::Flaw(TextFlaw::Trailing))
        }
    }
}

/// Takes one token at its position.
fn step_at<'t>(
    alloc: Global,
    frames: &mut Vec<Frame<'t>>,
    expected: Expected,
    placed: Placed<'t, Paren>,
    profile: Profile,
    left: bool,
) -> Result<Expected, TextFault>
    ensures { MovesAt placed.entry.at (parse_step profile left (token_view placed.entry.token)
        (expected_view expected, frames_view frames.old.items)) (frames_view frames.new.items)
        result }
{
    match parse_step(alloc, frames, expected, placed.token, profile, left) {
        Ok(next) => Ok(next),
        Err(TokenFault::Flaw(flaw)) => Err(TextFault::At(placed.at, flaw)),
        Err(TokenFault::Memory) => Err(TextFault::Memory),
    }
}

/// Returns the formula after all tokens.
fn parse_end(expected: Expected, end: usize) -> Result<Form, TextFault>
    ensures { Parses form_view (parse_end end (expected_view expected)) result }
{
    match expected {
        Expected::Whole(form) => Ok(form),
        Expected::Inside | Expected::Opened(_) | Expected::Binding(_) => {
            Err(TextFault::At(end, TextFlaw::Shape))
        }
    }
}

/// Parses the text as a formula. Errors: the first parse error, or out of memory.
fn parse(alloc: Global, text: &[u8], profile: Profile, left: bool) -> Result<Form, TextFault>
    ensures { Parses form_view (parsed_form profile left text.now) result }
{
    let mut frames = Vec::new(alloc);
    let mut expected = Expected::Inside;
    let mut at = 0;
    while let Some(placed) = next_token::<Paren>(text, at) {
        expected = match step_at(alloc, &mut frames, expected, placed, profile, left) {
            Ok(next) => next,
            Err(fault) => return Err(fault),
        };
        at = placed.next;
    }
    parse_end(expected, text.len())
}

/// Parses `text` as a formula over the operators of `profile`, in which all variables are bound.
///
/// Keywords of operators that the profile lacks are ordinary names, so they may be bound. If `left`
/// is true the word `left` denotes the remaining steps (`Exp::Left`) and may not be bound; else it
/// is an ordinary name.
///
/// Errors: the leftmost token that the grammar doesn't allow at its place, or the end, with its
/// position in bytes; `Memory` says nothing about `text`.
///
/// The grammar is this project's own (`specs/Grammar`). Recursion happens only when a formula is
/// dropped: texts of formulas some 20,000 high take 8 MiB of stack.
pub fn read_form(
    alloc: Global,
    text: &[u8],
    profile: Profile,
    left: bool,
) -> Result<Form, TextFault>
    ensures spells { IfOk result (λ f. Spells profile left text.now (form_view f)) }
    ensures closed { IfOk result (λ f. IsWithin left 32 (form_view f) []) }
    ensures none { IfErr result (λ e. SpellsNone profile left text.now e) }
    ensures exact { Parses form_view (parsed_form profile left text.now) result }
{
    parse(alloc, text, profile, left)
}
