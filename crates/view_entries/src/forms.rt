//! Formulas with a short text.

ghost use Rattle.std.specs.Prelude.{◌≡◌, IfOk, []};
ghost use Rattle.std.specs.Option.{option_map};
ghost use Rattle.term_table.specs.Table.{IsKnown, tree_at, Extends};
ghost use Rattle.lf_signature.specs.Terms.{form};
ghost use Rattle.lf_signature.specs.Typing.{Checks};
ghost use Rattle.formula_tree.specs.Views.{form_view};
ghost use Rattle.lf_encode.specs.Contexts.{sort_types, bound_sorts};
ghost use Rattle.lf_encode.specs.Naming.{unnamed_form};
ghost use Rattle.lf_encode.specs.Reading.{form_of};
ghost use Rattle.view_entries.specs.Sizes.{tree_size};
ghost use Rattle.view_entries.specs.Short.{short_form};

use formula_text::print_form;
use formula_tree::Form;
use lf_encode::{Sort, form_of};
use lf_signature::Known;
use std::alloc::{AllocError, Global};
use term_table::{Id, Table};

/// Returns the formula if its text has at most `most` bytes.
fn if_short(alloc: Global, formula: Form, most: u32) -> Result<Option<Form>, AllocError>
    ensures { IfOk result (λ o. option_map form_view o ≡ short_form most (form_view formula)) }
{
    let text = print_form(alloc, &formula)?;
    if text.len() as u64 <= u64::from(most) {
        Ok(Some(formula))
    } else {
        Ok(None)
    }
}

/// Returns the formula that the term `id` encodes if the formula's text has at most `most` bytes,
/// and None if it has more. The term has type form over `sig` in the context `ctx` of the machine's
/// variables alone, and its tree has `size` nodes, as `sizes` counts them. A tree of more than
/// `most` nodes isn't read.
///
/// Errors: out of memory; every id keeps its tree.
pub fn short_form<S: Known>(
    table: &mut Table,
    sig: &S,
    id: Id,
    ctx: &[Sort],
    size: u32,
    most: u32,
) -> Result<Option<Form>, AllocError>
    requires holds { S.Signature.holds sig.now table.old }
    requires id { IsKnown table.old id }
    requires typed { let sig = S.Signature.declares sig.now table.old in
        Checks sig (sort_types ctx.now) (tree_at table.old id) form }
    requires alone { bound_sorts ctx.now ≡ [] }
    requires size { size ≡ tree_size (tree_at table.old id) }
    ensures exact { let F = unnamed_form 0 (form_of (tree_at table.old id)) in
        IfOk result (λ o. option_map form_view o ≡ short_form most F) }
    ensures extends { Extends table.old table.new }
{
    if size > most {
        return Ok(None);
    }
    let alloc = table.allocator();
    match form_of(table, sig, id, ctx)? {
        None => Ok(None), // the term has type form, so this isn't reached
        Some(formula) => if_short(alloc, formula, most),
    }
}
