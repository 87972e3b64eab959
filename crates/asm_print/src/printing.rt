//! A printer of code with its invariants, comments and notes.

ghost use Rattle.std.specs.Prelude.{◌≡◌, ◌≤◌, ◌^◌, ◌++◌, ◌∷◌, ℕ, List, length, drop, map};
ghost use Rattle.std.specs.Prelude.{codes, decimal, OnOk, IfOk};
ghost use Rattle.formula_tree.specs.Views.{form_view};
ghost use Rattle.alpha_words.specs.Lawful.{target_of};
ghost use Rattle.alpha_cfg.specs.declared.code.TheConstants.{MAX_WORDS};
ghost use Rattle.alpha_cfg.specs.Flow.{InsideOf, IsInside};
ghost use Rattle.asm_print.specs.Listing.{Line, InvOf, Note, with_label, with_inv, next_inv};
ghost use Rattle.asm_print.specs.Listing.{invs_behind, hinted_text, hint_at, comment_at};
ghost use Rattle.asm_print.specs.Listing.{insn_line, insn_lines, lines_text, code_text};
ghost use Rattle.asm_print.specs.Views.{invs_view, extras_view};

use crate::limits::USUAL_HINT;
use crate::targets::targets;
use crate::{push_insn, push_label};
use alpha_words::Insn;
use formula_text::print_form;
use formula_tree::Form;
use itoa::Buffer;
use std::alloc::{AllocError, Global};

/// What is printed in addition to code with its invariants.
#[derive(Drop)]
pub struct Extras<'a> {
    /// The comments of the instructions, in order; further instructions have an empty comment.
    pub comments: &'a [Vec<u8>],
    /// The hints of the instructions, in order, of which only those of returns are printed; further
    /// instructions have `USUAL_HINT`.
    pub hints: &'a [u32],
    /// The notes after the code, each on a line of its own.
    pub notes: &'a [Vec<u8>],
}

/// Appends the label line of an index, if a branch goes to the index.
fn push_label_line(out: &mut Vec<u8>, index: u32, is_target: bool) -> Result<(), AllocError>
    ensures { OnOk result ((rest : List Line) → out.new.items ++ lines_text rest
        ≡ out.old.items ++ lines_text (with_label index is_target rest)) }
{
    if !is_target {
        return Ok(());
    }
    push_label(out, index)?;
    out.extend_from_slice(b":\n")?;
    Ok(())
}

/// Appends the line of an invariant.
fn push_inv_line(alloc: Global, out: &mut Vec<u8>, form: &Form) -> Result<(), AllocError>
    ensures { OnOk result ((rest : List Line) → out.new.items ++ lines_text rest
        ≡ out.old.items ++ lines_text (InvOf (form_view form.now) ∷ rest)) }
{
    let text = print_form(alloc, form)?;
    out.extend_from_slice(b"   .inv ")?;
    out.extend_from_slice(&text)?;
    out.push(b'\n')?;
    Ok(())
}

/// Appends the line of the index's invariant, if the next invariant is for this index. Returns the
/// number of the next invariant after that.
fn push_inv_of(
    alloc: Global,
    out: &mut Vec<u8>,
    invs: &[(u32, Form)],
    next: usize,
    index: u32,
) -> Result<usize, AllocError>
    requires { next ≤ length invs.now }
    ensures within { IfOk result (λ n. n ≤ length invs.now) }
    ensures behind { IfOk result (λ n. drop n (invs_view invs.now)
        ≡ invs_behind index (drop next (invs_view invs.now))) }
    ensures text { OnOk result ((rest : List Line) → out.new.items ++ lines_text rest
        ≡ out.old.items ++ lines_text
        (with_inv (next_inv index (drop next (invs_view invs.now))) rest)) }
{
    if next == invs.len() {
        return Ok(next);
    }
    let inv = &invs[next];
    if inv.0 != index {
        return Ok(next);
    }
    push_inv_line(alloc, out, &inv.1)?;
    Ok(next + 1)
}

/// Returns the hint of the instruction at an index.
fn hint_at(extras: &Extras, index: u32) -> u32
    ensures { result ≡ hint_at (extras_view extras.now) index }
{
    match extras.hints.get(index as usize) {
        Some(hint) => *hint,
        None => USUAL_HINT,
    }
}

/// Appends the comment of the instruction at an index.
fn push_comment(out: &mut Vec<u8>, extras: &Extras, index: u32) -> Result<(), AllocError>
    ensures { OnOk result (out.new.items
        ≡ out.old.items ++ comment_at (extras_view extras.now) index) }
{
    match extras.comments.get(index as usize) {
        Some(comment) => out.extend_from_slice(comment),
        None => Ok(()),
    }
}

/// Appends a return with its hint.
fn push_return(out: &mut Vec<u8>, hint: u32) -> Result<(), AllocError>
    ensures { OnOk result (out.new.items
        ≡ out.old.items ++ (codes "ret $31,($26)," ++ decimal hint)) }
{
    let mut buffer = Buffer::new();
    out.extend_from_slice(b"ret $31,($26),")?;
    out.extend_from_slice(buffer.format(hint).as_bytes())?;
    Ok(())
}

/// Appends the instruction at an index; a return has its hint, unless that is the usual one.
fn push_hinted(out: &mut Vec<u8>, index: u32, insn: Insn, hint: u32) -> Result<(), AllocError>
    requires { InsideOf (2 ^ 32) (target_of index insn) }
    ensures { OnOk result (out.new.items ≡ out.old.items ++ hinted_text index insn hint) }
{
    if hint == USUAL_HINT {
        return push_insn(out, index, insn);
    }
    match insn {
        Insn::Ret => push_return(out, hint),
        _ => push_insn(out, index, insn),
    }
}

/// Appends the line of the instruction at an index.
fn push_insn_line(
    out: &mut Vec<u8>,
    extras: &Extras,
    index: u32,
    insn: Insn,
) -> Result<(), AllocError>
    requires { InsideOf (2 ^ 32) (target_of index insn) }
    ensures { OnOk result ((rest : List Line) → out.new.items ++ lines_text rest
        ≡ out.old.items ++ lines_text (insn_line (extras_view extras.now) index insn ∷ rest)) }
{
    out.extend_from_slice(b"        ")?;
    push_hinted(out, index, insn, hint_at(extras, index))?;
    out.extend_from_slice(b" # ")?;
    push_comment(out, extras, index)?;
    out.push(b'\n')?;
    Ok(())
}

/// Returns the lines of the instructions, with their labels and invariants.
fn print_insns(
    alloc: Global,
    insns: &[Insn],
    invs: &[(u32, Form)],
    extras: &Extras,
) -> Result<Vec<u8>, AllocError>
    requires short { length insns.now ≤ MAX_WORDS }
    requires inside { (i : ℕ) → IsInside insns.now i }
    ensures { IfOk result (λ v. v.items
        ≡ lines_text (insn_lines (extras_view extras.now) insns.now (invs_view invs.now))) }
{
    let flags = targets(alloc, insns)?;
    let mut out = Vec::new(alloc);
    let mut next = 0;
    for i in 0..insns.len() {
        push_label_line(&mut out, i as u32, flags[i])?;
        next = push_inv_of(alloc, &mut out, invs, next, i as u32)?;
        push_insn_line(&mut out, extras, i as u32, insns[i])?;
    }
    Ok(out)
}

/// Appends the line of a note.
fn push_note(out: &mut Vec<u8>, note: &[u8]) -> Result<(), AllocError>
    ensures { OnOk result ((rest : List Line) → out.new.items ++ lines_text rest
        ≡ out.old.items ++ lines_text (Note note.now ∷ rest)) }
{
    out.extend_from_slice(b"# ")?;
    out.extend_from_slice(note)?;
    out.push(b'\n')?;
    Ok(())
}

/// Appends the lines of the notes.
fn push_notes(out: &mut Vec<u8>, notes: &[Vec<u8>]) -> Result<(), AllocError>
    ensures { OnOk result (out.new.items
        ≡ out.old.items ++ lines_text (map Note (map (λ v. v.items) notes.now))) }
{
    for note in notes {
        push_note(out, note)?;
    }
    Ok(())
}

/// Returns the text of code with its invariants, each of which has the index of its instruction.
///
/// Each instruction has a line with its comment. Before it comes a line for its invariant, and
/// before that a line for its label, `L` and its index, if a branch goes there. After the code
/// comes a line for each note.
///
/// The text spells a source with these instructions and invariants if (see `laws`):
///
/// - the code is well-formed code of the profile;
/// - the invariants are formulas of the profile, at most `asm_text::MAX_INVS`, and in order;
/// - no invariant's text is longer than `MAX_FORM_TEXT`;
/// - comments and notes are printable and at most `MAX_COMMENT` long;
/// - no hint is above `MAX_HINT`.
///
/// There must be at most `MAX_WORDS` instructions, and branches must stay inside, as in well-formed
/// code. Errors: out of memory.
pub fn print_source(
    alloc: Global,
    insns: &[Insn],
    invs: &[(u32, Form)],
    extras: &Extras,
) -> Result<Vec<u8>, AllocError>
    requires short { length insns.now ≤ MAX_WORDS }
    requires inside { (i : ℕ) → IsInside insns.now i }
    ensures exact { IfOk result (λ v. v.items
        ≡ code_text (extras_view extras.now) insns.now (invs_view invs.now)) }
{
    let mut out = print_insns(alloc, insns, invs, extras)?;
    push_notes(&mut out, extras.notes)?;
    Ok(out)
}
