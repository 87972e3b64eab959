//! Files of rows (test cases): a row is a question with the expected answer, or gives a name to a
//! tree.
//!
//! A row begins at the start of a line and continues over the following lines that begin with a
//! blank; lines that begin with `#` and empty lines are no rows. `NAME := t` gives a name to a term
//! or type, `repeat N NAME := t NAME := t ..` does so over and over, N times, and any other row is
//! a question of the program's, `=` and the answer: `yes`, `no`, `none`, `memory`, a number, or a
//! term or type.

ghost use Rattle.std.specs.Prelude.{◌≤◌, length};
ghost use Rattle.term_table.specs.Table.{IsKnown};

use crate::cursors::Cursor;
use crate::faults::{Read, RowFault};
use crate::names::Names;
use crate::printing::tree_text;
use crate::term_text::{read_tree, small_number};
use lf_signature::WordSignature;
use std::alloc::{AllocError, Global};
use std::rt::Files;
use std::{fs, io};
use term_table::{Id, Node, Table};

/// The answer to a question.
#[derive(Clone, Copy)]
pub enum Answer {
    Yes,
    No,
    /// There is no such tree or number.
    Nothing,
    /// The call ran out of memory.
    Memory,
    Number(u64),
    Tree(Id),
}

impl Answer {
    /// Returns the answer yes if `holds`, else no.
    pub fn holds(holds: bool) -> Answer {
        if holds { Answer::Yes } else { Answer::No }
    }

    /// Returns the tree as an answer, or `Nothing` if there is none.
    pub fn tree(tree: Option<Id>) -> Answer {
        match tree {
            Some(tree) => Answer::Tree(tree),
            None => Answer::Nothing,
        }
    }
}

/// The questions that the rows of a program may ask.
pub trait Questions {
    /// Returns the answer to the question that begins with the word `question`; the cursor is
    /// before the parts of the question.
    fn answer(
        table: &mut Table,
        names: &Names,
        question: &[u8],
        cursor: &mut Cursor<'_>,
    ) -> Read<Answer>;
}

/// Whether the text's second byte is a blank.
fn goes_on(text: &[u8]) -> bool {
    match text {
        [_, b' ' | b'\t', ..] => true,
        _ => false,
    }
}

/// How long the first row of a text is, with the lines that it goes on over.
fn row_length(text: &[u8]) -> usize
    ensures { result ≤ length text.now }
{
    for i in 0..text.len() {
        if text[i] == b'\n' && !goes_on(&text[i..]) {
            return i;
        }
    }
    text.len()
}

/// Whether a line is no row.
fn is_comment(line: &[u8]) -> bool {
    match line {
        [b'#', ..] => true,
        _ => Cursor::new(line).ends(),
    }
}

/// The word that an answer is by itself.
fn answer_word(answer: &Answer) -> &'static str {
    match answer {
        Answer::Yes => "yes",
        Answer::No => "no",
        Answer::Nothing => "none",
        Answer::Memory => "memory",
        Answer::Number(_) | Answer::Tree(_) => "",
    }
}

/// Whether the cursor goes behind one of the words that are answers by themselves.
fn passes_word(cursor: &mut Cursor<'_>) -> bool {
    cursor.passes(b"yes")
        || cursor.passes(b"no")
        || cursor.passes(b"none")
        || cursor.passes(b"memory")
}

/// Whether the tree is the literal of this word.
fn is_literal(table: &Table, tree: Id, word: u64) -> bool
    requires { IsKnown table.now tree }
{
    match table.node(tree) {
        Node::Lit(found) => found == word,
        _ => false,
    }
}

/// Whether the answer is the one that the cursor stands before.
fn is_wanted(
    table: &mut Table,
    names: &Names,
    cursor: &mut Cursor<'_>,
    answer: &Answer,
) -> Read<bool> {
    if cursor.passes(answer_word(answer).as_bytes()) {
        return Ok(true);
    }
    if passes_word(cursor) {
        return Ok(false);
    }
    let wanted = read_tree(table, names, cursor)?;
    match answer {
        Answer::Tree(tree) => Ok(tree.index() == wanted.index()),
        Answer::Number(number) => Ok(is_literal(table, wanted, *number)),
        _ => Ok(false),
    }
}

/// What a row comes to.
#[derive(Drop)]
enum Outcome {
    /// It gives names.
    Named,
    /// The answer is the one that is wanted.
    Same,
    /// The answer is another one.
    Differs(Answer),
}

/// Gives the next tree this name.
fn name_tree(
    table: &mut Table,
    names: &mut Names,
    cursor: &mut Cursor<'_>,
    name: &[u8],
) -> Read<()> {
    let tree = read_tree(table, names, cursor)?;
    names.define(name, tree)
}

/// Gives the tree behind the next `:=` the name before it.
fn assign(table: &mut Table, names: &mut Names, cursor: &mut Cursor<'_>) -> Read<()> {
    let name = cursor.word()?;
    if cursor.passes(b":=") {
        name_tree(table, names, cursor, name)
    } else {
        Err(RowFault::Word)
    }
}

/// Gives the names of a text, one after the other.
fn assign_all(table: &mut Table, names: &mut Names, text: &[u8]) -> Read<()> {
    let mut cursor = Cursor::new(text);
    for _ in 0..u64::MAX {
        if cursor.ends() {
            break;
        }
        assign(table, names, &mut cursor)?;
    }
    Ok(())
}

/// Gives the names of the row behind its number of times, so many times.
fn repeat(table: &mut Table, names: &mut Names, cursor: &mut Cursor<'_>) -> Read<Outcome> {
    let times = small_number(cursor)?;
    for _ in 0..times {
        assign_all(table, names, cursor.rest())?;
    }
    Ok(Outcome::Named)
}

/// Gives the names of a row.
fn named(table: &mut Table, names: &mut Names, row: &[u8]) -> Read<Outcome> {
    assign_all(table, names, row)?;
    Ok(Outcome::Named)
}

/// What an answer comes to.
fn met(same: bool, answer: Answer) -> Outcome {
    if same {
        Outcome::Same
    } else {
        Outcome::Differs(answer)
    }
}

/// What an answer comes to, the wanted one being the rest of the row.
fn judged(
    table: &mut Table,
    names: &Names,
    cursor: &mut Cursor<'_>,
    answer: Answer,
) -> Read<Outcome> {
    let same = is_wanted(table, names, cursor, &answer)?;
    if cursor.ends() {
        Ok(met(same, answer))
    } else {
        Err(RowFault::Longer)
    }
}

/// What an answer comes to, `=` and the wanted one being the rest of the row.
fn compared(
    table: &mut Table,
    names: &Names,
    cursor: &mut Cursor<'_>,
    answer: Answer,
) -> Read<Outcome> {
    if cursor.passes(b"=") {
        judged(table, names, cursor, answer)
    } else {
        Err(RowFault::Word)
    }
}

/// What a question and the answer behind it come to.
fn asked<Q: Questions>(
    table: &mut Table,
    names: &Names,
    question: &[u8],
    cursor: &mut Cursor<'_>,
) -> Read<Outcome> {
    let answer = Q::answer(table, names, question, cursor)?;
    compared(table, names, cursor, answer)
}

/// What the row comes to.
fn row_outcome<Q: Questions>(table: &mut Table, names: &mut Names, row: &[u8]) -> Read<Outcome> {
    let mut cursor = Cursor::new(row);
    let first = cursor.word()?;
    if first == b"repeat".as_slice() {
        return repeat(table, names, &mut cursor);
    }
    if cursor.passes(b":=") {
        named(table, names, row)
    } else {
        asked::<Q>(table, names, first, &mut cursor)
    }
}

/// How many questions there were, and how many of them differ.
#[derive(Drop)]
struct Counts {
    rows: u64,
    differ: u64,
}

impl Counts {
    /// Counts one question more.
    fn count(&mut self, differs: bool) {
        self.rows = self.rows.saturating_add(1);
        if differs {
            self.differ = self.differ.saturating_add(1);
        }
    }
}

/// Prints the row with its number and the answer that was got.
fn print_row<R: AllocGlobal + Print>(rt: &R, number: u64, row: &[u8], got: &str) -> io::Result<()> {
    let row = String::from_utf8_lossy(rt.alloc(), row)?;
    println!(rt; "{number}: {row}: {got}")
}

/// Prints an answer that differs from the wanted one.
fn print_difference<R: AllocGlobal + Print>(
    rt: &R,
    table: &Table,
    number: u64,
    row: &[u8],
    got: &Answer,
) -> io::Result<()> {
    match got {
        Answer::Number(n) => {
            let text = format!(in rt.alloc(); "{n}")?;
            print_row(rt, number, row, text.as_str())
        }
        Answer::Tree(tree) => {
            let text = tree_text(rt.alloc(), table, *tree)?;
            print_row(rt, number, row, text.as_str())
        }
        _ => print_row(rt, number, row, answer_word(got)),
    }
}

/// Counts what a row comes to, and prints it where it differs.
fn report<R: AllocGlobal + Print>(
    rt: &R,
    table: &Table,
    counts: &mut Counts,
    row: &[u8],
    outcome: &Outcome,
) -> io::Result<()> {
    match outcome {
        Outcome::Named => Ok(()),
        Outcome::Same => {
            counts.count(false);
            Ok(())
        }
        Outcome::Differs(got) => {
            counts.count(true);
            print_difference(rt, table, counts.rows, row, got)
        }
    }
}

/// What stands behind the first row of a text, which is so long.
fn behind(text: &[u8], length: usize) -> &[u8] {
    if length < text.len() {
        &text[length + 1..]
    } else {
        b""
    }
}

/// Goes through the rows of a text, and counts them.
fn go_through<R: AllocGlobal + Print, Q: Questions>(
    rt: &R,
    text: &[u8],
    counts: &mut Counts,
) -> io::Result<()> {
    let mut table = Table::new(rt.alloc(), WordSignature::Sigma1.places());
    let mut names = Names::new(rt.alloc());
    let mut rest = text;
    for _ in 0..u64::MAX {
        if rest.is_empty() {
            break;
        }
        let length = row_length(rest);
        let row = &rest[..length];
        rest = behind(rest, length);
        if is_comment(row) {
            continue;
        }
        match row_outcome::<Q>(&mut table, &mut names, row) {
            Ok(outcome) => report(rt, &table, counts, row, &outcome)?,
            Err(fault) => {
                counts.count(true);
                print_row(rt, counts.rows, row, fault.words())?;
            }
        }
    }
    Ok(())
}

/// Runs the rows of a file. Prints each row whose answer differs, with its number among the
/// questions and the answer that the program gave, and each line that isn't a row, with its fault;
/// and last, how many questions there were and how many of them differ. The program `Q` answers the
/// questions.
pub fn run<R: AllocGlobal + Files + Print, Q: Questions>(rt: &R, path: &str) -> io::Result<()> {
    let text = fs::read(rt, path)?;
    let mut counts = Counts { rows: 0, differ: 0 };
    go_through::<R, Q>(rt, text.as_slice(), &mut counts)?;
    let rows = counts.rows;
    let differ = counts.differ;
    println!(rt; "{rows} rows, {differ} differ")
}
