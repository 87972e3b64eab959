//! Keywords, and the sorts of the parts after them.

ghost use Rattle.std.specs.Prelude.{◌≡◌, slice_get};
ghost use Rattle.formula_text.specs.Keywords.{relation_text, keyword_text};
ghost use Rattle.formula_text.specs.Keywords.{phrase_sort, part_sorts, binder_sort};
ghost use Rattle.formula_text.specs.Keywords.{keyword_in, keyword_of};
ghost use Rattle.formula_text.specs.Parsing.{same_sort};

use word_ops::{Op, Profile, Rel, of_profile, op_keyword, op_of_keyword};

/// The sort of a phrase: what a part of a text denotes.
#[derive(Clone, Copy, Debug, PartialEq, Eq)]
pub enum PhraseSort {
    /// A formula.
    Form,
    /// An expression that denotes a word.
    Exp,
    /// An expression that denotes a memory.
    Mem,
}

/// A keyword: what may come first in parentheses.
#[derive(Clone, Copy, Debug, PartialEq, Eq)]
pub enum Keyword {
    /// A relation between two words.
    Rel(Rel),
    /// `rd`.
    Rd,
    /// `wr`.
    Wr,
    /// `and`.
    And,
    /// `or`.
    Or,
    /// `imp`.
    Imp,
    /// `all`.
    All,
    /// `allm`.
    Allm,
    /// An operator applied to two words.
    Oper(Op),
    /// `sel`.
    Sel,
    /// `upd`.
    Upd,
}

/// The keywords that aren't operators.
static KEYWORDS: [Keyword; 14] = [
    Keyword::Rel(Rel::Eq),
    Keyword::Rel(Rel::Ult),
    Keyword::Rel(Rel::Ule),
    Keyword::Rel(Rel::Slt),
    Keyword::Rel(Rel::Sle),
    Keyword::Rd,
    Keyword::Wr,
    Keyword::And,
    Keyword::Or,
    Keyword::Imp,
    Keyword::All,
    Keyword::Allm,
    Keyword::Sel,
    Keyword::Upd,
];

fn relation_text(rel: Rel) -> &'static str
    ensures { result.now ≡ relation_text rel }
{
    match rel {
        Rel::Eq => "eq",
        Rel::Ult => "ult",
        Rel::Ule => "ule",
        Rel::Slt => "slt",
        Rel::Sle => "sle",
    }
}

/// Returns the lexeme of the keyword.
pub fn keyword_text(keyword: Keyword) -> &'static str
    ensures { result.now ≡ keyword_text keyword }
{
    match keyword {
        Keyword::Rel(rel) => relation_text(rel),
        Keyword::Rd => "rd",
        Keyword::Wr => "wr",
        Keyword::And => "and",
        Keyword::Or => "or",
        Keyword::Imp => "imp",
        Keyword::All => "all",
        Keyword::Allm => "allm",
        Keyword::Oper(op) => op_keyword(op),
        Keyword::Sel => "sel",
        Keyword::Upd => "upd",
    }
}

/// Returns the sort of the parentheses that begin with the keyword.
pub fn phrase_sort(keyword: Keyword) -> PhraseSort
    ensures { result ≡ phrase_sort keyword }
{
    match keyword {
        Keyword::Oper(_) | Keyword::Sel => PhraseSort::Exp,
        Keyword::Upd => PhraseSort::Mem,
        _ => PhraseSort::Form,
    }
}

/// Returns the sort of the keyword's part after `count` others, or None if it has no more parts.
pub fn part_sort(keyword: Keyword, count: usize) -> Option<PhraseSort>
    ensures { result ≡ slice_get (part_sorts keyword) count }
{
    match (keyword, count) {
        (Keyword::Rel(_) | Keyword::Oper(_), 0 | 1) => Some(PhraseSort::Exp),
        (Keyword::Rd | Keyword::Wr, 0) => Some(PhraseSort::Exp),
        (Keyword::And | Keyword::Or | Keyword::Imp, 0 | 1) => Some(PhraseSort::Form),
        (Keyword::All | Keyword::Allm, 0) => Some(PhraseSort::Form),
        (Keyword::Sel | Keyword::Upd, 0) => Some(PhraseSort::Mem),
        (Keyword::Sel, 1) => Some(PhraseSort::Exp),
        (Keyword::Upd, 1 | 2) => Some(PhraseSort::Exp),
        _ => None,
    }
}

/// Returns the sort of the variable that the keyword binds, or None if it binds none.
pub fn binder_sort(keyword: Keyword) -> Option<PhraseSort>
    ensures { result ≡ binder_sort keyword }
{
    match keyword {
        Keyword::All => Some(PhraseSort::Exp),
        Keyword::Allm => Some(PhraseSort::Mem),
        _ => None,
    }
}

/// Checks whether two sorts are equal.
pub fn is_sort(a: PhraseSort, b: PhraseSort) -> bool
    ensures { result ≡ same_sort a b }
{
    match (a, b) {
        (PhraseSort::Form, PhraseSort::Form)
        | (PhraseSort::Exp, PhraseSort::Exp)
        | (PhraseSort::Mem, PhraseSort::Mem) => true,
        _ => false,
    }
}

/// Returns the first of these keywords that the lexeme is, or None.
fn keyword_in(keywords: &[Keyword], lexeme: &[u8]) -> Option<Keyword>
    ensures { result ≡ keyword_in keywords.now lexeme.now }
{
    for i in 0..keywords.len() {
        if lexeme == keyword_text(keywords[i]).as_bytes() {
            return Some(keywords[i]);
        }
    }
    None
}

/// Returns the keyword of `profile` that the lexeme is, or None if it is none.
#[tactic(auto, unfolding(crate::specs::Keywords::keyword_of, crate::specs::Keywords::keywords))]
pub fn keyword_named(lexeme: &[u8], profile: Profile) -> Option<Keyword>
    ensures { result ≡ keyword_of profile lexeme.now }
{
    match of_profile(profile, op_of_keyword(lexeme)) {
        Some(op) => Some(Keyword::Oper(op)),
        None => keyword_in(&KEYWORDS, lexeme),
    }
}
