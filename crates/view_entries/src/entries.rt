//! Entries as lines of text.

ghost use Rattle.std.specs.Prelude.{◌≡◌, ◌++◌, ◌∷◌, [], OnOk, decimal, codes};
ghost use Rattle.std.specs.Option.{option_map};
ghost use Rattle.term_table.specs.Tree.{at, App};
ghost use Rattle.term_table.specs.Table.{IsKnown, tree_at};
ghost use Rattle.view_entries.specs.Entries.{formula_words, formula_word, constant_name};
ghost use Rattle.view_entries.specs.Entries.{variable_name, family_name, entry_name};
ghost use Rattle.view_entries.specs.Entries.{evaluation_text, with_blanks, entry_text, entry_line};
ghost use Rattle.view_entries.specs.Entries.{part_in};
ghost use Rattle.proof_container.specs.Encoding.{entry_number};

use itoa::Buffer;
use lf_signature::numbers::SEL;
use std::alloc::AllocError;
use term_table::{Id, Node, Table};
use word_ops::{op_keyword, op_of_constant};

/// Appends `n` in decimal.
///
/// Errors: out of memory; what is appended then is unspecified.
pub fn push_number(out: &mut Vec<u8>, n: u64) -> Result<(), AllocError>
    ensures { OnOk result (out.new.items ≡ out.old.items ++ decimal n) }
{
    let mut buffer = Buffer::new();
    out.extend_from_slice(buffer.format(n).as_bytes())
}

/// A letter before a number.
fn push_named(out: &mut Vec<u8>, letter: u8, n: u64) -> Result<(), AllocError>
    ensures { OnOk result (out.new.items ≡ out.old.items ++ (letter ∷ decimal n)) }
{
    out.push(letter)?;
    push_number(out, n)
}

/// Appends the name of the entry with a number: `e` and the number.
///
/// Errors: out of memory; what is appended then is unspecified.
pub fn push_name(out: &mut Vec<u8>, number: u64) -> Result<(), AllocError>
    ensures { OnOk result (out.new.items ≡ out.old.items ++ entry_name number) }
{
    push_named(out, b'e', number)
}

/// The word at a place among those of the constants from `SEL` on.
fn word_at(place: u32) -> Option<&'static str>
    ensures { option_map (λ w. w.now) result ≡ at formula_words place }
{
    match place {
        0 => Some("sel"),
        1 => Some("upd"),
        2 => Some("tt"),
        3 => Some("ff"),
        4 => Some("eq"),
        5 => Some("ult"),
        6 => Some("ule"),
        7 => Some("slt"),
        8 => Some("sle"),
        9 => Some("rd"),
        10 => Some("wr"),
        11 => Some("and"),
        12 => Some("or"),
        13 => Some("imp"),
        14 => Some("all"),
        15 => Some("allm"),
        _ => None,
    }
}

/// Returns the keyword of a constant that formulas name and that isn't an operator.
fn formula_word(constant: u32) -> Option<&'static str>
    ensures { option_map (λ w. w.now) result ≡ formula_word constant }
{
    word_at(constant.checked_sub(SEL)?)
}

/// The name of a numbered constant.
fn push_constant(out: &mut Vec<u8>, constant: u32) -> Result<(), AllocError>
    ensures { OnOk result (out.new.items ≡ out.old.items ++ constant_name constant) }
{
    match op_of_constant(constant) {
        Some(op) => out.extend_from_slice(op_keyword(op).as_bytes()),
        None => match formula_word(constant) {
            Some(word) => out.extend_from_slice(word.as_bytes()),
            None => push_named(out, b'c', u64::from(constant)),
        },
    }
}

/// The number of the entry of an id: the place of its tree.
#[tactic(auto, using(crate::proofs::Places::number_known))]
fn entry_number(table: &Table, id: Id) -> u64
    requires { IsKnown table.now id }
    ensures { result ≡ entry_number table.now.trees (tree_at table.now id) }
{
    table.laws();
    id.index() as u64
}

/// The name of the entry of an id.
fn push_entry_name(out: &mut Vec<u8>, table: &Table, id: Id) -> Result<(), AllocError>
    requires { IsKnown table.now id }
    ensures { let number = entry_number table.now.trees (tree_at table.now id) in
        OnOk result (out.new.items ≡ out.old.items ++ entry_name number) }
{
    push_name(out, entry_number(table, id))
}

/// Appends a part: its name if that is one word, else the name of its entry.
fn push_part(out: &mut Vec<u8>, table: &Table, id: Id) -> Result<(), AllocError>
    requires { IsKnown table.now id }
    ensures { OnOk result (out.new.items
        ≡ out.old.items ++ part_in table.now.trees (tree_at table.now id)) }
{
    match table.node(id) {
        Node::Var(n) => push_named(out, b'#', u64::from(n)),
        Node::Const(constant) => push_constant(out, constant),
        Node::Lit(word) => push_number(out, word),
        Node::Fam(family) => push_named(out, b't', u64::from(family)),
        Node::Calc(_, _, _) => push_entry_name(out, table, id),
        Node::Fact(_, _, _) => push_entry_name(out, table, id),
        Node::Deny(_, _, _) => push_entry_name(out, table, id),
        Node::Lemma(_) => push_entry_name(out, table, id),
        Node::App(_, _) => push_entry_name(out, table, id),
        Node::Lam(_) => push_entry_name(out, table, id),
        Node::TApp(_, _) => push_entry_name(out, table, id),
        Node::Pi(_, _) => push_entry_name(out, table, id),
    }
}

/// Appends a part after a blank.
fn push_next(out: &mut Vec<u8>, table: &Table, id: Id) -> Result<(), AllocError>
    requires { IsKnown table.now id }
    ensures { OnOk result (out.new.items
        ≡ out.old.items ++ (32 ∷ part_in table.now.trees (tree_at table.now id))) }
{
    out.push(b' ')?;
    push_part(out, table, id)
}

/// Appends a number after a blank.
fn push_next_number(out: &mut Vec<u8>, n: u64) -> Result<(), AllocError>
    ensures { OnOk result (out.new.items ≡ out.old.items ++ (32 ∷ decimal n)) }
{
    out.push(b' ')?;
    push_number(out, n)
}

/// An evaluation of the operator or relation of a number at two words.
fn push_evaluation(
    out: &mut Vec<u8>,
    name: &str,
    number: u32,
    a: u64,
    b: u64,
) -> Result<(), AllocError>
    ensures { OnOk result (out.new.items ≡ out.old.items ++ evaluation_text name.now number a b) }
{
    out.extend_from_slice(name.as_bytes())?;
    push_next_number(out, u64::from(number))?;
    push_next_number(out, a)?;
    push_next_number(out, b)
}

/// A part before another.
fn push_pair(out: &mut Vec<u8>, table: &Table, first: Id, second: Id) -> Result<(), AllocError>
    requires first { IsKnown table.now first }
    requires second { IsKnown table.now second }
    ensures { let before = part_in table.now.trees (tree_at table.now first) in
        let behind = part_in table.now.trees (tree_at table.now second) in
        OnOk result (out.new.items ≡ out.old.items ++ with_blanks before (behind ∷ [])) }
{
    push_part(out, table, first)?;
    push_next(out, table, second)
}

/// The name of a constant before a part.
fn push_one(out: &mut Vec<u8>, table: &Table, constant: u32, a: Id) -> Result<(), AllocError>
    requires { IsKnown table.now a }
    ensures { let part = part_in table.now.trees (tree_at table.now a) in
        OnOk result
        (out.new.items ≡ out.old.items ++ with_blanks (constant_name constant) (part ∷ [])) }
{
    push_constant(out, constant)?;
    push_next(out, table, a)
}

/// The name of a constant before two parts.
fn push_two(out: &mut Vec<u8>, table: &Table, constant: u32, a: Id, b: Id) -> Result<(), AllocError>
    requires a { IsKnown table.now a }
    requires b { IsKnown table.now b }
    ensures { let first = part_in table.now.trees (tree_at table.now a) in
        let second = part_in table.now.trees (tree_at table.now b) in
        let text = with_blanks (constant_name constant) (first ∷ second ∷ []) in
        OnOk result (out.new.items ≡ out.old.items ++ text) }
{
    push_one(out, table, constant, a)?;
    push_next(out, table, b)
}

/// The name of a constant before three parts.
fn push_three(
    out: &mut Vec<u8>,
    table: &Table,
    constant: u32,
    a: Id,
    b: Id,
    c: Id,
) -> Result<(), AllocError>
    requires a { IsKnown table.now a }
    requires b { IsKnown table.now b }
    requires c { IsKnown table.now c }
    ensures { let first = part_in table.now.trees (tree_at table.now a) in
        let second = part_in table.now.trees (tree_at table.now b) in
        let third = part_in table.now.trees (tree_at table.now c) in
        let text = with_blanks (constant_name constant) (first ∷ second ∷ third ∷ []) in
        OnOk result (out.new.items ≡ out.old.items ++ text) }
{
    push_two(out, table, constant, a, b)?;
    push_next(out, table, c)
}

/// The term `f`, which is `g` applied to `a`, applied to `b`.
fn push_twice_applied(
    out: &mut Vec<u8>,
    table: &Table,
    f: Id,
    g: Id,
    a: Id,
    b: Id,
) -> Result<(), AllocError>
    requires f { IsKnown table.now f }
    requires g { IsKnown table.now g }
    requires a { IsKnown table.now a }
    requires b { IsKnown table.now b }
    requires applied { tree_at table.now f ≡ App (tree_at table.now g) (tree_at table.now a) }
    ensures { let tree = App (tree_at table.now f) (tree_at table.now b) in
        OnOk result (out.new.items ≡ out.old.items ++ entry_text (part_in table.now.trees) tree) }
{
    match table.node(g) {
        Node::Const(constant) => push_two(out, table, constant, a, b),
        Node::App(h, first) => match table.node(h) {
            Node::Const(constant) => push_three(out, table, constant, first, a, b),
            _ => push_pair(out, table, f, b),
        },
        _ => push_pair(out, table, f, b),
    }
}

/// The term `f` applied to `b`.
fn push_applied(out: &mut Vec<u8>, table: &Table, f: Id, b: Id) -> Result<(), AllocError>
    requires f { IsKnown table.now f }
    requires b { IsKnown table.now b }
    ensures { let tree = App (tree_at table.now f) (tree_at table.now b) in
        OnOk result (out.new.items ≡ out.old.items ++ entry_text (part_in table.now.trees) tree) }
{
    match table.node(f) {
        Node::Const(constant) => push_one(out, table, constant, b),
        Node::App(g, a) => push_twice_applied(out, table, f, g, a, b),
        _ => push_pair(out, table, f, b),
    }
}

/// The tree of an id, its parts by name.
fn push_tree(out: &mut Vec<u8>, table: &Table, id: Id) -> Result<(), AllocError>
    requires { IsKnown table.now id }
    ensures { OnOk result (out.new.items
        ≡ out.old.items ++ entry_text (part_in table.now.trees) (tree_at table.now id)) }
{
    match table.node(id) {
        Node::Var(n) => push_named(out, b'#', u64::from(n)),
        Node::Const(constant) => push_constant(out, constant),
        Node::Lit(word) => push_number(out, word),
        Node::Calc(number, a, b) => push_evaluation(out, "calc", number, a, b),
        Node::Fact(number, a, b) => push_evaluation(out, "fact", number, a, b),
        Node::Deny(number, a, b) => push_evaluation(out, "deny", number, a, b),
        Node::Lemma(number) => {
            out.extend_from_slice(b"lemma")?;
            push_next_number(out, u64::from(number))
        }
        Node::App(f, a) => push_applied(out, table, f, a),
        Node::Lam(body) => {
            out.push(b'\\')?;
            push_next(out, table, body)
        }
        Node::Fam(family) => push_named(out, b't', u64::from(family)),
        Node::TApp(family, argument) => push_pair(out, table, family, argument),
        Node::Pi(domain, range) => {
            out.extend_from_slice(b"pi")?;
            push_next(out, table, domain)?;
            push_next(out, table, range)
        }
    }
}

/// Appends the entry of `id` to `out` as a line without its line end: `e`, its number, ` = `, and
/// its tree with the parts by name, as in `e7 = ult e3 #4`. A variable is `#` and its number, 0 the
/// nearest. A literal is its decimal number. A constant is the keyword that formulas have for it,
/// or else `c` and its number. A family of types is `t` and its number. Any other part is `e` and
/// the number of its entry.
///
/// Errors: out of memory; what is appended then is unspecified.
pub fn push_entry(out: &mut Vec<u8>, table: &Table, id: Id) -> Result<(), AllocError>
    requires { IsKnown table.now id }
    ensures exact { OnOk result (out.new.items ≡ out.old.items ++ entry_line table.now.trees id) }
{
    push_name(out, id.index() as u64)?;
    out.extend_from_slice(b" = ")?;
    push_tree(out, table, id)
}
