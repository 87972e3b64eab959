//! Printing a container as comments.

ghost use Rattle.std.specs.Prelude.{◌≡◌, ◌+◌, ◌*◌, ◌≤◌, ◌<◌, ◌^◌, ◌++◌, length, map, codes, OnOk};
ghost use Rattle.std.specs.Prelude.{IfOk, IfSome};
ghost use Rattle.std.specs.List.{AllByRecursion, flat_map};
ghost use Rattle.std.specs.Option.{option_map};
ghost use Rattle.alpha_words.specs.Lawful.{target_of};
ghost use Rattle.alpha_words.specs.Decoding.{decoded};
ghost use Rattle.alpha_cfg.specs.CodeDecoding.{is_inside};
ghost use Rattle.term_table.specs.Table.{IsKnown, tree_at, id_trees};
ghost use Rattle.proof_container.specs.Encoding.{entry_number};
ghost use Rattle.proof_container.specs.Views.{IsCanonical, contents_of};
ghost use Rattle.proof_container.specs.declared.limits.TheConstants.{MAX_WORDS};
ghost use Rattle.view_entries.specs.Entries.{entry_name, entry_line};
ghost use Rattle.view_container.specs.Words.{indices_of};
ghost use Rattle.view_container.specs.Plain.{insn_or_flaw, word_line, index_inv, inv_lines};
ghost use Rattle.view_container.specs.Plain.{index_lines, inv_entries, entry_lines};
ghost use Rattle.view_container.specs.Plain.{comment_line, plain_text};

use crate::stop::NoSource;
use crate::summary::notes;
use crate::words::{push_word, word_at};
use alpha_words::{Insn, decode, target};
use asm_print::push_insn;
use proof_container::{Container, profile_of};
use std::alloc::{AllocError, Global};
use term_table::{Id, Table};
use view_entries::{push_entry, push_name};
use word_ops::Profile;

/// Appends a line as a comment.
fn push_comment(out: &mut Vec<u8>, line: &[u8]) -> Result<(), AllocError>
    ensures { OnOk result (out.new.items ≡ out.old.items ++ comment_line line.now) }
{
    out.extend_from_slice(b"# ")?;
    out.extend_from_slice(line)?;
    out.push(b'\n')?;
    Ok(())
}

/// Whether the instruction's branch, if it's one, leads to an index of 32 bits.
fn leads(index: u32, insn: &Insn) -> bool
    ensures { result ≡ is_inside (2 ^ 32) (target_of index insn.now) }
{
    match target(index, *insn) {
        Some(at) => 0 <= at && at < 0x1_0000_0000,
        None => true,
    }
}

/// Appends the instruction of a word at an index, or what is wrong with it.
fn push_insn_or_flaw(
    out: &mut Vec<u8>,
    profile: Profile,
    index: u32,
    word: u32,
) -> Result<(), AllocError>
    ensures { OnOk result (out.new.items
        ≡ out.old.items ++ insn_or_flaw index (decoded profile word)) }
{
    match decode(word, profile) {
        Err(bad) => out.extend_from_slice(bad.name().as_bytes()),
        Ok(insn) => {
            if !leads(index, &insn) {
                return out.extend_from_slice(b"Target");
            }
            push_insn(out, index, insn)
        }
    }
}

/// Appends the line of the word at an index.
fn push_word_line(
    alloc: Global,
    out: &mut Vec<u8>,
    profile: Profile,
    code: &[u8],
    i: usize,
) -> Result<(), AllocError>
    requires within { 4 * i + 4 ≤ length code.now }
    requires short { i < 2 ^ 32 }
    ensures { OnOk result (out.new.items
        ≡ out.old.items ++ comment_line (word_line profile code.now i)) }
{
    out.extend_from_slice(b"# ")?;
    push_word(alloc, out, code, i)?;
    out.push(b' ')?;
    push_insn_or_flaw(out, profile, i as u32, word_at(code, i))?;
    out.push(b'\n')?;
    Ok(())
}

/// The invariant of an index, if it has one.
fn index_inv(table: &Table, invs: &[(u32, Id)], index: u32) -> Option<Id>
    requires { AllByRecursion (λ inv. IsKnown table.now inv.1) invs.now }
    ensures known { IfSome result (IsKnown table.now) }
    ensures exact { option_map (tree_at table.now) result
        ≡ index_inv index (id_trees table.now invs.now) }
{
    match invs {
        [] => None,
        [first, rest @ ..] => {
            let (at, id) = *first;
            if at == index {
                return Some(id);
            }
            index_inv(table, rest, index)
        }
    }
}

/// The number of the entry of an id: the place of its tree.
#[tactic(auto, using(view_entries::proofs::Places::number_known))]
fn entry_number(table: &Table, id: Id) -> u64
    requires { IsKnown table.now id }
    ensures within { result < length table.now.trees }
    ensures exact { result ≡ entry_number table.now.trees (tree_at table.now id) }
{
    table.laws(); // tells the prover that no two entries have one tree
    id.index() as u64
}

/// Appends the line of an invariant, by its entry.
fn push_inv_line(out: &mut Vec<u8>, table: &Table, id: Id) -> Result<(), AllocError>
    requires { IsKnown table.now id }
    ensures { let number = entry_number table.now.trees (tree_at table.now id) in
        OnOk result (out.new.items
        ≡ out.old.items ++ comment_line (codes "   .inv " ++ entry_name number)) }
{
    out.extend_from_slice(b"# ")?;
    out.extend_from_slice(b"   .inv ")?;
    push_name(out, entry_number(table, id))?;
    out.push(b'\n')?;
    Ok(())
}

/// Appends the line of the index's invariant, if it has one.
fn push_inv_of(
    out: &mut Vec<u8>,
    table: &Table,
    invs: &[(u32, Id)],
    index: u32,
) -> Result<(), AllocError>
    requires { AllByRecursion (λ inv. IsKnown table.now inv.1) invs.now }
    ensures { let lines =
        inv_lines table.now.trees (index_inv index (id_trees table.now invs.now)) in
        OnOk result (out.new.items ≡ out.old.items ++ flat_map comment_line lines) }
{
    match index_inv(table, invs, index) {
        None => Ok(()),
        Some(id) => push_inv_line(out, table, id),
    }
}

/// Appends the lines of an index.
fn push_index(
    alloc: Global,
    out: &mut Vec<u8>,
    container: &Container<'_>,
    i: usize,
) -> Result<(), AllocError>
    requires canonical { IsCanonical container.now }
    requires within { 4 * i + 4 ≤ length container.now.code.now }
    requires short { i < 2 ^ 32 }
    ensures { OnOk result (out.new.items
        ≡ out.old.items ++ flat_map comment_line (index_lines (contents_of container.now) i)) }
{
    let profile = profile_of(container.version);
    push_inv_of(out, &container.table, &container.invs, i as u32)?;
    push_word_line(alloc, out, profile, container.code, i)?;
    Ok(())
}

/// Appends the lines of all indices.
fn push_indices(
    alloc: Global,
    out: &mut Vec<u8>,
    container: &Container<'_>,
) -> Result<(), AllocError>
    requires canonical { IsCanonical container.now }
    requires short { length container.now.code.now ≤ 4 * MAX_WORDS }
    ensures { let c = contents_of container.now in OnOk result (out.new.items
        ≡ out.old.items ++ flat_map comment_line (flat_map (index_lines c) (indices_of c.code))) }
{
    for i in 0..container.code.len() / 4 {
        push_index(alloc, out, container, i)?;
    }
    Ok(())
}

/// How many entries there are up to the last that is an invariant.
fn inv_entries(table: &Table, invs: &[(u32, Id)]) -> u64
    requires { AllByRecursion (λ inv. IsKnown table.now inv.1) invs.now }
    ensures within { result ≤ length table.now.trees }
    ensures exact { result ≡ inv_entries table.now.trees (id_trees table.now invs.now) }
{
    table.laws(); // tells the prover that the trees are fewer than 2^63
    match invs {
        [] => 0,
        [first, rest @ ..] => {
            let (_, id) = *first;
            let own = entry_number(table, id) + 1;
            own.max(inv_entries(table, rest))
        }
    }
}

/// Appends the line of an entry.
fn push_entry_line(out: &mut Vec<u8>, table: &Table, id: Id) -> Result<(), AllocError>
    requires { IsKnown table.now id }
    ensures { OnOk result (out.new.items
        ≡ out.old.items ++ comment_line (entry_line table.now.trees id)) }
{
    out.extend_from_slice(b"# ")?;
    push_entry(out, table, id)?;
    out.push(b'\n')?;
    Ok(())
}

/// Appends the lines of so many entries.
fn push_entries(out: &mut Vec<u8>, table: &Table, count: u64) -> Result<(), AllocError>
    requires { count ≤ length table.now.trees }
    ensures { OnOk result (out.new.items
        ≡ out.old.items ++ flat_map comment_line (entry_lines table.now.trees count)) }
{
    for k in 0..count {
        push_entry_line(out, table, table.id(k))?;
    }
    Ok(())
}

/// Appends lines as comments.
fn push_comments(out: &mut Vec<u8>, lines: &[Vec<u8>]) -> Result<(), AllocError>
    ensures { OnOk result (out.new.items
        ≡ out.old.items ++ flat_map comment_line (map (λ v. v.items) lines.now)) }
{
    match lines {
        [] => Ok(()),
        [first, rest @ ..] => {
            push_comment(out, first)?;
            push_comments(out, rest)
        }
    }
}

/// Returns the contents of the container as comments, and `why` it isn't shown as a source.
pub fn in_comments(
    alloc: Global,
    container: &Container<'_>,
    why: NoSource,
) -> Result<Vec<u8>, AllocError>
    requires canonical { IsCanonical container.now }
    requires short { length container.now.code.now ≤ 4 * MAX_WORDS }
    ensures { IfOk result (λ v. v.items ≡ plain_text (contents_of container.now) why) }
{
    let table = &container.table;
    let count = inv_entries(table, &container.invs);
    let notes = notes(alloc, container)?;
    let mut out = Vec::new(alloc);
    push_indices(alloc, &mut out, container)?;
    push_entries(&mut out, table, count)?;
    push_comments(&mut out, &notes)?;
    push_comment(&mut out, why.text().as_bytes())?;
    Ok(out)
}
