//! Questions on lemmas.

ghost use Rattle.std.specs.Prelude.{◌<◌, ◌^◌, length, IfOk, OnOk, IsTrue};
ghost use Rattle.term_table.specs.Table.{IsKnown, Extends};
ghost use Rattle.lf_signature.specs.Constants.{declared};
ghost use Rattle.lf_signature.specs.declared.editions.WordSignature.TheVariants.{Sigma2};
ghost use Rattle.lf_lemmas.specs.Tables.{LemmasKnown, HoldsLemmas};

use crate::answers::{decided, found};
use lf_check::{Exhausted, Kept, MOST_RESULTS, check_term_with};
use lf_lemma_check::{Asked, first_failing, first_late, first_unproved, laws};
use lf_lemmas::WithLemmas;
use lf_signature::{Sigma2, Signature, pf};
use std::alloc::Global;
use term_table::{Id, Table};
use test_inputs::cursors::Cursor;
use test_inputs::faults::{Read, RowFault};
use test_inputs::names::Names;
use test_inputs::rows::Answer;
use test_inputs::term_text::{known, read_tree};

/// A term and the one behind it.
fn read_pair(table: &mut Table, names: &Names, cursor: &mut Cursor<'_>) -> Read<(Id, Id)> {
    let first = read_tree(table, names, cursor)?;
    let second = read_tree(table, names, cursor)?;
    Ok((first, second))
}

/// The lemmas before the next `|-` or `=`.
fn read_lemmas(table: &mut Table, names: &Names, cursor: &mut Cursor<'_>) -> Read<Vec<(Id, Id)>> {
    let mut lemmas = Vec::new(table.allocator());
    for _ in 0..u64::MAX {
        if cursor.meets(b"=") || cursor.passes(b"|-") {
            break;
        }
        if !lemmas.is_empty() && !cursor.passes(b"/") {
            return Err(RowFault::Word);
        }
        let lemma = read_pair(table, names, cursor)?;
        if lemmas.push(lemma).is_err() {
            return Err(RowFault::Memory);
        }
    }
    Ok(lemmas)
}

/// Tests that each id is one of the table.
fn ids_known(table: &Table, lemmas: &[(Id, Id)]) -> Read<()>
    ensures { OnOk result (LemmasKnown table.now lemmas.now) }
{
    match lemmas {
        [] => Ok(()),
        [first, rest @ ..] => {
            known(table, first.0)?;
            known(table, first.1)?;
            ids_known(table, rest)
        }
    }
}

/// Tests that there are few lemmas, whose ids are the table's.
fn lemmas_known(table: &Table, lemmas: &[(Id, Id)]) -> Read<()>
    ensures known { OnOk result (LemmasKnown table.now lemmas.now) }
    ensures few { OnOk result (length lemmas.now < 2 ^ 32) }
{
    if lemmas.len() >= 4_294_967_296 {
        return Err(RowFault::Number);
    }
    ids_known(table, lemmas)
}

/// The number of a lemma, if there is one.
fn numbered<E: Drop>(answer: Result<Option<u32>, E>) -> Answer {
    match answer {
        Ok(Some(number)) => Answer::Number(u64::from(number)),
        Ok(None) => Answer::Nothing,
        Err(_) => Answer::Memory,
    }
}

/// The first lemma of which it isn't so over the signature without lemmas.
fn failing(table: &mut Table, asked: Asked, lemmas: &[(Id, Id)]) -> Answer
    requires known { LemmasKnown table.old lemmas.now }
    requires few { length lemmas.now < 2 ^ 32 }
{
    let mut kept = Kept::new(table.allocator(), MOST_RESULTS);
    numbered(first_failing(table, &mut kept, &Sigma2, asked, lemmas))
}

/// The first lemma whose proof cites itself or a later one.
fn late(table: &Table, lemmas: &[(Id, Id)]) -> Answer
    requires known { LemmasKnown table.now lemmas.now }
    requires few { length lemmas.now < 2 ^ 32 }
{
    numbered(first_late(table.allocator(), table, lemmas))
}

/// Whether each formula is one over the signature: then the table holds the lemmas.
fn hold(alloc: Global, table: &mut Table, lemmas: &[(Id, Id)]) -> Result<bool, Exhausted>
    requires known { LemmasKnown table.old lemmas.now }
    requires few { length lemmas.now < 2 ^ 32 }
    ensures holds { IfOk result
        (λ b. IsTrue b → HoldsLemmas (declared Sigma2) table.new lemmas.now) }
    ensures extends { Extends table.old table.new }
{
    laws();
    let mut kept = Kept::new(alloc, MOST_RESULTS);
    let found = first_failing(table, &mut kept, &Sigma2, Asked::Formula, lemmas)?;
    Ok(found.is_none())
}

/// Whether a term proves a formula with lemmas, and each lemma its own with those before it.
fn prove(
    alloc: Global,
    table: &mut Table,
    lemmas: &[(Id, Id)],
    proof: Id,
    goal: Id,
) -> Result<bool, Exhausted>
    requires known { LemmasKnown table.old lemmas.now }
    requires few { length lemmas.now < 2 ^ 32 }
    requires proof { IsKnown table.old proof }
    requires goal { IsKnown table.old goal }
{
    if !hold(alloc, table, lemmas)? {
        return Ok(false);
    }
    if first_late(alloc, table, lemmas)?.is_some() {
        return Ok(false);
    }
    let extended = WithLemmas {
        sig: &Sigma2,
        lemmas,
    };
    let mut kept = Kept::new(alloc, MOST_RESULTS);
    if first_failing(table, &mut kept, &extended, Asked::Proof, lemmas)?.is_some() {
        return Ok(false);
    }
    let proofs = pf(table, goal)?;
    check_term_with(table, &mut kept, &extended, &[], proof, proofs)
}

/// The first lemma whose proof doesn't check with those before it, and none where a formula is none.
/// What is kept of the formulas serves the proofs.
fn unproved(alloc: Global, table: &mut Table, lemmas: &[(Id, Id)]) -> Result<Option<u32>, Exhausted>
    requires known { LemmasKnown table.old lemmas.now }
    requires few { length lemmas.now < 2 ^ 32 }
{
    laws();
    let mut kept = Kept::new(alloc, MOST_RESULTS);
    if first_failing(table, &mut kept, &Sigma2, Asked::Formula, lemmas)?.is_some() {
        return Ok(None);
    }
    first_unproved(alloc, table, &mut kept, &Sigma2, lemmas)
}

/// Whether the term behind lemmas proves the formula behind it with them.
fn proves_with(
    table: &mut Table,
    names: &Names,
    cursor: &mut Cursor<'_>,
    lemmas: &[(Id, Id)],
) -> Read<Answer> {
    let (proof, goal) = read_pair(table, names, cursor)?;
    lemmas_known(table, lemmas)?;
    known(table, proof)?;
    known(table, goal)?;
    Ok(decided(prove(table.allocator(), table, lemmas, proof, goal)))
}

/// The type that the signature with lemmas gives a constant, and none where a formula of theirs is
/// none.
fn type_with(table: &mut Table, lemmas: &[(Id, Id)], constant: Id) -> Answer
    requires known { LemmasKnown table.old lemmas.now }
    requires few { length lemmas.now < 2 ^ 32 }
    requires constant { IsKnown table.old constant }
{
    let alloc = table.allocator();
    let node = table.node(constant);
    match hold(alloc, table, lemmas) {
        Err(_) => return Answer::Memory,
        Ok(false) => return Answer::Nothing,
        Ok(true) => {}
    }
    let extended = WithLemmas {
        sig: &Sigma2,
        lemmas,
    };
    found(extended.type_of(table, node))
}

/// The type that the signature with lemmas gives the constant behind them.
fn declared_with(
    table: &mut Table,
    names: &Names,
    cursor: &mut Cursor<'_>,
    lemmas: &[(Id, Id)],
) -> Read<Answer> {
    let constant = read_tree(table, names, cursor)?;
    lemmas_known(table, lemmas)?;
    Ok(type_with(table, lemmas, constant))
}

/// The first of known lemmas of which it isn't as the question says.
fn first_of(table: &mut Table, question: &[u8], lemmas: &[(Id, Id)]) -> Answer
    requires known { LemmasKnown table.old lemmas.now }
    requires few { length lemmas.now < 2 ^ 32 }
{
    match question {
        b"formless" => failing(table, Asked::Formula, lemmas),
        b"proofless" => failing(table, Asked::Proof, lemmas),
        b"late" => late(table, lemmas),
        _ => numbered(unproved(table.allocator(), table, lemmas)),
    }
}

/// The answer to a question on lemmas that were read, with what stands behind them.
fn about_read(
    table: &mut Table,
    names: &Names,
    question: &[u8],
    cursor: &mut Cursor<'_>,
    lemmas: &[(Id, Id)],
) -> Read<Answer> {
    match question {
        b"proves_with" => proves_with(table, names, cursor, lemmas),
        b"declared_with" => declared_with(table, names, cursor, lemmas),
        _ => {
            lemmas_known(table, lemmas)?;
            Ok(first_of(table, question, lemmas))
        }
    }
}

/// The answer to a question on the lemmas that the cursor stands before.
pub(crate) fn about_lemmas(
    table: &mut Table,
    names: &Names,
    question: &[u8],
    cursor: &mut Cursor<'_>,
) -> Read<Answer> {
    let lemmas = read_lemmas(table, names, cursor)?;
    about_read(table, names, question, cursor, lemmas.as_slice())
}
