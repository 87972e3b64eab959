//! Parsing terms and types.
//!
//! A word is a leaf of a tree, or a name that a row has given to a tree. `(f a b)` is an
//! application, `[] b` an abstraction over `b`, and `{A} B` the product of the types `A` and `B`
//! (docs/PROOFS.md, "Terms as text"). Only memory limits how deeply brackets nest.

ghost use Rattle.std.specs.Prelude.{◌≡◌, IfOk, OnOk, not, true, false};
ghost use Rattle.term_table.specs.Scope.{is_term_shape};
ghost use Rattle.term_table.specs.Table.{AllKnown, Extends, IsKnown, tree_at};

use crate::cursors::{Bracket, Cursor};
use crate::faults::{Read, RowFault};
use crate::names::Names;
use std::alloc::AllocError;
use term_table::{Id, Node, Table};
use text_tokens::{Number, Token, begins_with_digit, read_number};

/// The names of the constants, by their numbers.
pub static CONSTANTS: [&str; 105] = [
    "add",
    "sub",
    "band",
    "bis",
    "sll",
    "srl",
    "cmpeq",
    "cmplt",
    "cmple",
    "cmpult",
    "cmpule",
    "sel",
    "upd",
    "tt",
    "ff",
    "eq",
    "ult",
    "ule",
    "slt",
    "sle",
    "rd",
    "wr",
    "and",
    "or",
    "imp",
    "all",
    "allm",
    "tt_i",
    "ff_e",
    "and_i",
    "and_l",
    "and_r",
    "or_l",
    "or_r",
    "or_e",
    "imp_i",
    "imp_e",
    "em",
    "all_i",
    "all_e",
    "allm_i",
    "allm_e",
    "eq_refl",
    "eq_sub",
    "sel_same",
    "sel_other",
    "add_comm",
    "add_assoc",
    "add_zero",
    "sub_add",
    "sub_neg",
    "and_comm",
    "and_assoc",
    "and_zero",
    "and_le",
    "bis_zero",
    "bis_zero_l",
    "add_al",
    "sll_al",
    "srl_mono",
    "sll_mono",
    "zero_le",
    "max_le",
    "ule_refl",
    "ule_trans",
    "ult_ule",
    "lt_le",
    "le_lt",
    "lt_pred",
    "le_anti",
    "not_lt",
    "lt_irr",
    "add_le",
    "cmp_yes0",
    "cmp_yes1",
    "cmp_yes2",
    "cmp_yes3",
    "cmp_yes4",
    "cmp_no0",
    "cmp_no1",
    "cmp_no2",
    "cmp_no3",
    "cmp_no4",
    "cmp_le1_0",
    "cmp_le1_1",
    "cmp_le1_2",
    "cmp_le1_3",
    "cmp_le1_4",
    "xor",
    "bic",
    "s4add",
    "s8add",
    "sra",
    "extb",
    "extw",
    "extl",
    "xor_self",
    "bic_le",
    "s4_def",
    "s8_def",
    "extb_le",
    "extw_le",
    "extl_le",
    "bic_def",
    "sub_lo",
];

/// The names of the families, by their numbers.
pub static FAMILIES: [&str; 4] = ["exp", "mem", "form", "pf"];

/// The names of the operators, by their places in `Op`.
static OPERATORS: [&str; 19] = [
    "add", "sub", "band", "bis", "sll", "srl", "cmpeq", "cmplt", "cmple", "cmpult", "cmpule",
    "xor", "bic", "s4add", "s8add", "sra", "extb", "extw", "extl",
];

/// The names of the relations, by their places in `Rel`.
static RELATIONS: [&str; 5] = ["eq", "ult", "ule", "slt", "sle"];

/// What is open of a tree.
#[derive(Clone, Copy)]
enum Frame {
    /// A parenthesis without a tree in it.
    Head,
    /// A parenthesis with this tree so far.
    Applied(Id),
    /// An abstraction without its body.
    Body,
    /// A curly bracket without a type in it.
    Domain,
    /// A curly bracket with this type in it.
    Given(Id),
    /// A product from this type.
    Range(Id),
}

/// The place of a name in a list.
fn place_in(names: &[&'static str], word: &[u8]) -> Option<u32> {
    for k in 0..names.len() {
        if names[k].as_bytes() == word {
            return u32::try_from(k).ok();
        }
    }
    None
}

/// The word that a numeral is.
fn word_of(numeral: &[u8]) -> Read<u64> {
    match read_number(numeral) {
        Number::Word(word) => Ok(word),
        Number::Large | Number::NoNumber => Err(RowFault::Number),
    }
}

/// Parses a decimal numeral as a number below 2^32.
pub fn small_of(numeral: &[u8]) -> Read<u32> {
    let word = word_of(numeral)?;
    match u32::try_from(word) {
        Ok(small) => Ok(small),
        Err(_) => Err(RowFault::Number),
    }
}

/// The next word's place in a list of names, or the number that it is.
fn named_number(cursor: &mut Cursor<'_>, names: &[&'static str]) -> Read<u32> {
    let word = cursor.word()?;
    match place_in(names, word) {
        Some(place) => Ok(place),
        None => small_of(word),
    }
}

/// Reads the next word as a number of up to 64 bits.
pub fn word_number(cursor: &mut Cursor<'_>) -> Read<u64> {
    let word = cursor.word()?;
    word_of(word)
}

/// Reads the next word as a number of up to 32 bits.
pub fn small_number(cursor: &mut Cursor<'_>) -> Read<u32> {
    let word = cursor.word()?;
    small_of(word)
}

/// Checks that the id is one of the table.
pub fn known(table: &Table, id: Id) -> Read<()>
    ensures { OnOk result (IsKnown table.now id) }
{
    if (id.index() as u64) < table.count() {
        Ok(())
    } else {
        Err(RowFault::Unknown)
    }
}

/// Checks that each id is one of the table.
pub fn all_known(table: &Table, ids: &[Id]) -> Read<()>
    ensures { OnOk result (AllKnown table.now ids.now) }
{
    match ids {
        [] => Ok(()),
        [first, more @ ..] => {
            known(table, *first)?;
            all_known(table, more)
        }
    }
}

/// Returns whether the tree is a type.
pub fn is_type(table: &Table, id: Id) -> bool
    requires { IsKnown table.now id }
    ensures { result ≡ not (is_term_shape (tree_at table.now id)) }
{
    match table.node(id) {
        Node::Fam(_) | Node::TApp(_, _) | Node::Pi(_, _) => true,
        _ => false,
    }
}

/// Tests that the tree is one of the table, and a type or none as is asked for.
fn sorted(table: &Table, id: Id, wants_type: bool) -> Read<()>
    ensures known { OnOk result (IsKnown table.now id) }
    ensures sort { OnOk result (wants_type ≡ not (is_term_shape (tree_at table.now id))) }
{
    known(table, id)?;
    if is_type(table, id) == wants_type {
        Ok(())
    } else {
        Err(RowFault::Sort)
    }
}

/// The tree of a node that was put into a table.
fn interned(answer: Result<Id, AllocError>) -> Read<Id> {
    match answer {
        Ok(tree) => Ok(tree),
        Err(_) => Err(RowFault::Memory),
    }
}

/// A tree applied to a term: a term where it is one, else a type.
fn applied(table: &mut Table, head: Id, argument: Id) -> Read<Id>
    ensures extends { Extends table.old table.new }
{
    known(table, head)?;
    sorted(table, argument, false)?;
    if is_type(table, head) {
        interned(table.intern(Node::TApp(head, argument)))
    } else {
        interned(table.intern(Node::App(head, argument)))
    }
}

/// An abstraction over a term.
fn abstraction(table: &mut Table, body: Id) -> Read<Id>
    ensures extends { Extends table.old table.new }
{
    sorted(table, body, false)?;
    interned(table.intern(Node::Lam(body)))
}

/// The product of two types.
fn product(table: &mut Table, from: Id, to: Id) -> Read<Id>
    ensures extends { Extends table.old table.new }
{
    sorted(table, from, true)?;
    sorted(table, to, true)?;
    interned(table.intern(Node::Pi(from, to)))
}

/// Opens a frame.
fn open(frames: &mut Vec<Frame>, frame: Frame) -> Read<Option<Id>> {
    match frames.push(frame) {
        Ok(()) => Ok(None),
        Err(_) => Err(RowFault::Memory),
    }
}

/// The tree that was made, which is whole.
fn whole(made: Read<Id>) -> Read<Option<Id>> {
    match made {
        Ok(tree) => Ok(Some(tree)),
        Err(fault) => Err(fault),
    }
}

/// Applies the tree of a parenthesis to a whole tree in it.
fn apply(table: &mut Table, frames: &mut Vec<Frame>, head: Id, tree: Id) -> Read<Option<Id>>
    ensures extends { Extends table.old table.new }
{
    let head = applied(table, head, tree)?;
    open(frames, Frame::Applied(head))
}

/// What a frame makes of a whole tree in it: a whole tree, or none where it stays open.
fn within(table: &mut Table, frames: &mut Vec<Frame>, frame: Frame, tree: Id) -> Read<Option<Id>>
    ensures extends { Extends table.old table.new }
{
    match frame {
        Frame::Head => open(frames, Frame::Applied(tree)),
        Frame::Applied(head) => apply(table, frames, head, tree),
        Frame::Body => whole(abstraction(table, tree)),
        Frame::Domain => open(frames, Frame::Given(tree)),
        Frame::Given(_) => Err(RowFault::Bracket),
        Frame::Range(from) => whole(product(table, from, tree)),
    }
}

/// Puts a whole tree into the frames, and gives the tree that is whole then, if no frame is open.
fn put(table: &mut Table, frames: &mut Vec<Frame>, tree: Id) -> Read<Option<Id>>
    ensures extends { Extends table.old table.new }
{
    let mut whole = tree;
    for _ in 0..u64::MAX {
        let Some(frame) = frames.pop() else {
            return Ok(Some(whole));
        };
        match within(table, frames, frame, whole)? {
            None => return Ok(None),
            Some(made) => whole = made,
        }
    }
    Err(RowFault::Memory)
}

/// Opens an abstraction, whose other bracket stands next.
fn bound(cursor: &mut Cursor<'_>, frames: &mut Vec<Frame>) -> Read<Option<Id>> {
    match cursor.token()? {
        Token::Mark(Bracket::CloseSquare) => open(frames, Frame::Body),
        _ => Err(RowFault::Bracket),
    }
}

/// Opens a product, whose first type is in the nearest frame.
fn ranged(frames: &mut Vec<Frame>) -> Read<Option<Id>> {
    let Some(frame) = frames.pop() else {
        return Err(RowFault::Bracket);
    };
    match frame {
        Frame::Given(from) => open(frames, Frame::Range(from)),
        _ => Err(RowFault::Bracket),
    }
}

/// Closes the nearest frame, which has to be a parenthesis with a tree in it.
fn closed(table: &mut Table, frames: &mut Vec<Frame>) -> Read<Option<Id>>
    ensures extends { Extends table.old table.new }
{
    let Some(frame) = frames.pop() else {
        return Err(RowFault::Bracket);
    };
    match frame {
        Frame::Applied(tree) => put(table, frames, tree),
        _ => Err(RowFault::Bracket),
    }
}

/// What a bracket makes of the open frames.
fn bracket(
    table: &mut Table,
    cursor: &mut Cursor<'_>,
    frames: &mut Vec<Frame>,
    mark: Bracket,
) -> Read<Option<Id>>
    ensures extends { Extends table.old table.new }
{
    match mark {
        Bracket::Open => open(frames, Frame::Head),
        Bracket::Close => closed(table, frames),
        Bracket::OpenSquare => bound(cursor, frames),
        Bracket::CloseSquare => Err(RowFault::Bracket),
        Bracket::OpenCurly => open(frames, Frame::Domain),
        Bracket::CloseCurly => ranged(frames),
    }
}

/// The number of the constant of a name.
fn constant_of(name: &[u8]) -> Option<u32> {
    place_in(&CONSTANTS, name)
}

/// A constant by the name or number that stands next.
fn constant(cursor: &mut Cursor<'_>) -> Read<Option<Node>> {
    let number = named_number(cursor, &CONSTANTS)?;
    Ok(Some(Node::Const(number)))
}

/// A family by the name or number that stands next.
fn family(cursor: &mut Cursor<'_>) -> Read<Option<Node>> {
    let number = named_number(cursor, &FAMILIES)?;
    Ok(Some(Node::Fam(number)))
}

/// The lemma of the number that stands next.
fn lemma(cursor: &mut Cursor<'_>) -> Read<Option<Node>> {
    let number = small_number(cursor)?;
    Ok(Some(Node::Lemma(number)))
}

/// The next word's place in a list of names, or the number that it is, and the two words behind it.
fn of_two_words(cursor: &mut Cursor<'_>, names: &[&'static str]) -> Read<(u32, u64, u64)> {
    let number = named_number(cursor, names)?;
    let a = word_number(cursor)?;
    let b = word_number(cursor)?;
    Ok((number, a, b))
}

/// An evaluation: an operator and two words.
fn evaluation(cursor: &mut Cursor<'_>) -> Read<Option<Node>> {
    let (op, a, b) = of_two_words(cursor, &OPERATORS)?;
    Ok(Some(Node::Calc(op, a, b)))
}

/// A fact: a relation and two words.
fn fact(cursor: &mut Cursor<'_>) -> Read<Option<Node>> {
    let (rel, a, b) = of_two_words(cursor, &RELATIONS)?;
    Ok(Some(Node::Fact(rel, a, b)))
}

/// A denial: a relation and two words.
fn denial(cursor: &mut Cursor<'_>) -> Read<Option<Node>> {
    let (rel, a, b) = of_two_words(cursor, &RELATIONS)?;
    Ok(Some(Node::Deny(rel, a, b)))
}

/// The leaf that a keyword begins, whose numbers stand behind it.
fn numbered(cursor: &mut Cursor<'_>, keyword: &[u8]) -> Read<Option<Node>> {
    match keyword {
        b"const" => constant(cursor),
        b"fam" => family(cursor),
        b"lemma" => lemma(cursor),
        b"calc" => evaluation(cursor),
        b"fact" => fact(cursor),
        b"deny" => denial(cursor),
        _ => Ok(None),
    }
}

/// The literal that a numeral is.
fn literal(numeral: &[u8]) -> Read<Option<Node>> {
    let word = word_of(numeral)?;
    Ok(Some(Node::Lit(word)))
}

/// The variable of the number that a numeral is.
fn variable(numeral: &[u8]) -> Read<Option<Node>> {
    let number = small_of(numeral)?;
    Ok(Some(Node::Var(number)))
}

/// The family or constant of a name.
fn named(name: &[u8]) -> Option<Node> {
    if let Some(family) = place_in(&FAMILIES, name) {
        return Some(Node::Fam(family));
    }
    match constant_of(name) {
        Some(constant) => Some(Node::Const(constant)),
        None => None,
    }
}

/// The leaf that a word stands for by itself.
fn leaf_of(word: &[u8]) -> Read<Option<Node>> {
    if begins_with_digit(word) {
        return literal(word);
    }
    match word {
        [b'#', numeral @ ..] => variable(numeral),
        _ => Ok(named(word)),
    }
}

/// The tree of a node without parts.
fn leaf(table: &mut Table, node: Node) -> Read<Id>
    ensures extends { Extends table.old table.new }
{
    match node {
        Node::App(_, _) | Node::Lam(_) | Node::TApp(_, _) | Node::Pi(_, _) => Err(RowFault::Sort),
        _ => interned(table.intern(node)),
    }
}

/// The tree that rows have given a name.
fn given(names: &Names, name: &[u8]) -> Read<Id> {
    match names.find(name) {
        Some(tree) => Ok(tree),
        None => Err(RowFault::Word),
    }
}

/// The tree that a word stands for, with the numbers behind it where it is a keyword.
fn word_tree(table: &mut Table, names: &Names, cursor: &mut Cursor<'_>, word: &[u8]) -> Read<Id>
    ensures extends { Extends table.old table.new }
{
    if let Some(node) = leaf_of(word)? {
        return leaf(table, node);
    }
    match numbered(cursor, word)? {
        Some(node) => leaf(table, node),
        None => given(names, word),
    }
}

/// What the next token makes of the open frames: the tree that is whole then, if no frame is open.
fn step(
    table: &mut Table,
    names: &Names,
    cursor: &mut Cursor<'_>,
    frames: &mut Vec<Frame>,
) -> Read<Option<Id>>
    ensures extends { Extends table.old table.new }
{
    match cursor.token()? {
        Token::Mark(mark) => bracket(table, cursor, frames, mark),
        Token::Lexeme(word) => {
            let tree = word_tree(table, names, cursor, word)?;
            put(table, frames, tree)
        }
    }
}

/// The tree that the cursor's next tokens are, behind which it stands then.
fn whole_tree(table: &mut Table, names: &Names, cursor: &mut Cursor<'_>) -> Read<Id>
    ensures extends { Extends table.old table.new }
{
    let mut frames = Vec::new(table.allocator());
    for _ in 0..u64::MAX {
        if let Some(tree) = step(table, names, cursor, &mut frames)? {
            return Ok(tree);
        }
    }
    Err(RowFault::Memory)
}

/// Reads the next tokens as a term or type, and moves the cursor past it.
///
/// Errors: the fault, if the text is neither; every id of the table keeps its tree.
pub fn read_tree(table: &mut Table, names: &Names, cursor: &mut Cursor<'_>) -> Read<Id>
    ensures known { IfOk result (IsKnown table.new) }
    ensures extends { Extends table.old table.new }
{
    let tree = whole_tree(table, names, cursor)?;
    known(table, tree)?;
    Ok(tree)
}

/// Reads the terms and types before the next `=`, `/`, `:` or `|-`, and moves the cursor to it.
///
/// Errors: the fault, if the text is neither, or ends before such a word.
pub fn read_trees(table: &mut Table, names: &Names, cursor: &mut Cursor<'_>) -> Read<Vec<Id>> {
    let mut trees = Vec::new(table.allocator());
    for _ in 0..u64::MAX {
        if cursor.meets_mark() {
            break;
        }
        let tree = read_tree(table, names, cursor)?;
        if trees.push(tree).is_err() {
            return Err(RowFault::Memory);
        }
    }
    Ok(trees)
}
