//! Checks whether a container can be shown as a source.

ghost use Rattle.std.specs.Prelude.{◌≡◌, ◌≤◌, ◌<◌, [], length, map, nat_lt};
ghost use Rattle.std.specs.Prelude.{is_some, IfSome};
ghost use Rattle.std.specs.List.{AllByRecursion};
ghost use Rattle.std.specs.Option.{option_map};
ghost use Rattle.term_table.specs.Table.{IsKnown, tree_at, Extends};
ghost use Rattle.term_table.specs.Table.{id_trees};
ghost use Rattle.term_table.specs.Tree.{Fam};
ghost use Rattle.term_table.specs.Measures.{height_of};
ghost use Rattle.lf_lemmas.specs.Tables.{lemmas_in, LemmasKnown};
ghost use Rattle.vcgen.specs.declared.condition.TheConstants.{MAX_HEIGHT};
ghost use Rattle.proof_container.specs.Contents.{roots, lemma_roots, one_or_none};
ghost use Rattle.proof_container.specs.Encoding.{IsContents};
ghost use Rattle.proof_container.specs.Views.{IsCanonical, contents_of};
ghost use Rattle.proof_container.specs.declared.limits.TheConstants.{MAX_INVS};
ghost use Rattle.pcc_gate.specs.First.{too_high};
ghost use Rattle.view_container.specs.Sources.{listed_code, if_low, if_forms};
ghost use Rattle.view_container.specs.Answers.{Finds};

use crate::stop::{NoSource, Stop};
use alpha_cfg::{Code, CodeFault};
use lf_check::{Kept, MOST_RESULTS};
use lf_signature::WordSignature;
use lf_signature::numbers::FORM;
use pcc_gate::{context_types, first_formless};
use proof_container::{Container, profile_of};
use std::alloc::Global;
use term_table::{Id, Node, Table};
use vcgen::MAX_HEIGHT;

/// Decodes the code of the container, in the profile of its version; `Stop` says if it isn't code.
pub fn code_in(alloc: Global, container: &Container<'_>) -> Result<Code, Stop>
    requires contents { IsContents (contents_of container.now) }
    ensures { Finds (λ code. code) (listed_code (contents_of container.now)) result }
{
    match Code::of(alloc, container.code, profile_of(container.version)) {
        Ok(code) => Ok(code),
        Err(CodeFault::At(_)) => Err(Stop::Not(NoSource::NotCode)),
        Err(CodeFault::Memory) => Err(Stop::Memory),
    }
}

/// Whether the term is too high.
fn is_high(table: &Table, id: Id) -> bool
    requires { IsKnown table.now id }
    ensures { result ≡ nat_lt MAX_HEIGHT (height_of (tree_at table.now id)) }
{
    table.height(id) > MAX_HEIGHT
}

/// Whether the term of an invariant is too high.
fn has_high_inv(table: &Table, invs: &[(u32, Id)]) -> bool
    requires { AllByRecursion (λ inv. IsKnown table.now inv.1) invs.now }
    ensures { result ≡ is_some (too_high (map (λ p. p.1) (id_trees table.now invs.now))) }
{
    match invs {
        [] => false,
        [first, rest @ ..] => {
            let (_, id) = *first;
            if is_high(table, id) {
                return true;
            }
            has_high_inv(table, rest)
        }
    }
}

/// Whether the formula or the proof of a lemma is too high.
fn has_high_lemma(table: &Table, lemmas: &[(Id, Id)]) -> bool
    requires { LemmasKnown table.now lemmas.now }
    ensures { result ≡ is_some (too_high (lemma_roots (lemmas_in table.now lemmas.now))) }
{
    match lemmas {
        [] => false,
        [first, rest @ ..] => {
            let (formula, proof) = *first;
            if is_high(table, formula) {
                return true;
            }
            if is_high(table, proof) {
                return true;
            }
            has_high_lemma(table, rest)
        }
    }
}

/// Whether the proof, if there is one, is too high.
fn has_high_proof(table: &Table, proof: Option<Id>) -> bool
    requires { IfSome proof (IsKnown table.now) }
    ensures { result ≡ is_some (too_high (one_or_none (option_map (tree_at table.now) proof))) }
{
    match proof {
        None => false,
        Some(id) => is_high(table, id),
    }
}

/// Checks that no root's term is too high.
pub fn low(container: &Container<'_>) -> Result<(), Stop>
    requires canonical { IsCanonical container.now }
    ensures { Finds (λ none. none) (if_low (roots (contents_of container.now))) result }
{
    let table = &container.table;
    if has_high_inv(table, &container.invs) {
        return Err(Stop::Not(NoSource::TooHigh));
    }
    if has_high_lemma(table, &container.lemmas) {
        return Err(Stop::Not(NoSource::TooHigh));
    }
    if has_high_proof(table, container.proof) {
        return Err(Stop::Not(NoSource::TooHigh));
    }
    Ok(())
}

/// Checks that each invariant is a formula of the signature, over the context of code with that
/// step bound. One memo of at most `MOST_RESULTS` judgements serves all invariants.
pub fn formed(
    alloc: Global,
    table: &mut Table,
    signature: WordSignature,
    bound: Option<u32>,
    invs: &[(u32, Id)],
) -> Result<(), Stop>
    requires known { AllByRecursion (λ inv. IsKnown table.old inv.1) invs.now }
    requires few { length invs.now ≤ MAX_INVS }
    ensures answer { Finds (λ none. none)
        (if_forms signature bound (id_trees table.old invs.now)) result }
    ensures extends { Extends table.old table.new }
{
    let mut kept = Kept::new(alloc, MOST_RESULTS);
    let context = context_types(alloc, table, bound)?;
    let form = table.intern(Node::Fam(FORM))?;
    match first_formless(table, &mut kept, signature, bound, &context, form, invs, 0)? {
        Some(_) => Err(Stop::Not(NoSource::NotForm)),
        None => Ok(()),
    }
}
