//! Questions on hypotheses.

ghost use Rattle.std.specs.Prelude.{IfOk, IfSome};
ghost use Rattle.term_table.specs.Table.{Extends, IsKnown};
ghost use Rattle.prover_ids.specs.Hypotheses.{AreKnownHyps};

use crate::answers::small;
use hereditary_subst::{MOST_RESULTS, Memo};
use prover_hyps::{
    Alignments, Hypotheses, absurdity, add_split, alignment_proof, find_hyp, raised_hyps,
};
use prover_ids::Hypothesis;
use std::alloc::AllocError;
use term_table::{Id, Node, Table};
use test_inputs::faults::Read;
use test_inputs::rows::Answer;
use test_inputs::term_text::known;

/// The hypotheses that a formula is split into, which variable 0 proves.
pub(crate) fn split(table: &mut Table, form: Id) -> Read<Hypotheses>
    ensures known { IfOk result (AreKnownHyps table.new) }
    ensures extends { Extends table.old table.new }
{
    let proof = table.intern(Node::Var(0))?;
    known(table, form)?;
    let mut hyps = Hypotheses::new(table.allocator());
    add_split(table, &mut hyps, form, proof)?;
    Ok(hyps)
}

/// How many there are of hypotheses.
fn count(hyps: &Hypotheses) -> Answer {
    Answer::Number(hyps.as_slice().len() as u64)
}

/// How many hypotheses a formula is split into.
pub(crate) fn split_count(table: &mut Table, form: Id) -> Read<Answer> {
    let hyps = split(table, form)?;
    Ok(count(&hyps))
}

/// The hypotheses of a formula under one binder more, if so many results are enough.
fn raised(table: &mut Table, form: Id, most: usize) -> Read<Option<Hypotheses>>
    ensures { IfOk result (λ o. IfSome o (AreKnownHyps table.new)) }
{
    let hyps = split(table, form)?;
    let mut memo = Memo::new(table.allocator(), most);
    match raised_hyps(table, &mut memo, &hyps) {
        Ok(under) => Ok(Some(under)),
        Err(_) => Ok(None),
    }
}

/// How many hypotheses there are under one binder more.
pub(crate) fn raised_count(table: &mut Table, most: Id, form: Id) -> Read<Answer>
    requires { IsKnown table.old most }
{
    let most = small(table, most)?;
    match raised(table, form, most as usize)? {
        None => Ok(Answer::Memory),
        Some(under) => Ok(count(&under)),
    }
}

/// Whether a formula is among hypotheses.
fn is_among(table: &Table, hyps: &Hypotheses, wanted: Id) -> Read<Answer>
    requires { AreKnownHyps table.now hyps.now }
{
    known(table, wanted)?;
    Ok(Answer::holds(find_hyp(table, hyps, wanted).is_some()))
}

/// Whether a formula is a hypothesis under one binder more.
pub(crate) fn is_found(table: &mut Table, form: Id, wanted: Id) -> Read<Answer> {
    match raised(table, form, MOST_RESULTS)? {
        None => Ok(Answer::Memory),
        Some(under) => is_among(table, &under, wanted),
    }
}

/// Whether a formula's hypotheses refute each other under one binder more.
pub(crate) fn is_refuted(table: &mut Table, form: Id) -> Read<Answer> {
    match raised(table, form, MOST_RESULTS)? {
        None => Ok(Answer::Memory),
        Some(under) => Ok(Answer::holds(absurdity(table, &under)?.is_some())),
    }
}

/// Adds hypotheses, each a formula and its proof.
fn add_pairs(hyps: &mut Hypotheses, pairs: &[Id]) -> Result<(), AllocError> {
    let mut rest = pairs;
    for _ in 0..u64::MAX {
        match rest {
            [form, proof, more @ ..] => {
                hyps.push(Hypothesis {
                    form: *form,
                    proof: *proof,
                })?;
                rest = more;
            }
            _ => break,
        }
    }
    Ok(())
}

/// The first hypothesis's proof of a formula, of those whose formulas and proofs stand behind it.
pub(crate) fn first_proof(table: &Table, wanted: Id, pairs: &[Id]) -> Read<Answer> {
    let mut hyps = Hypotheses::new(table.allocator());
    add_pairs(&mut hyps, pairs)?;
    Ok(Answer::tree(hyps.find(wanted)))
}

/// What proves without hypotheses that a term is a multiple of 8.
pub(crate) fn alignment(table: &mut Table, e: Id) -> Answer
    requires { IsKnown table.old e }
{
    let mut memo = Memo::new(table.allocator(), MOST_RESULTS);
    let mut kept = Alignments::new(table.allocator());
    let hyps = Hypotheses::new(table.allocator());
    match alignment_proof(table, &mut memo, &mut kept, &hyps, e) {
        Ok(found) => Answer::tree(found),
        Err(_) => Answer::Memory,
    }
}
