//! The formulas of invariants.

ghost use Rattle.std.specs.Prelude.{◌≡◌, ◌<◌, map};
ghost use Rattle.std.specs.List.{AllByRecursion};
ghost use Rattle.term_table.specs.Table.{IsKnown, id_trees};
ghost use Rattle.vcgen.specs.Encoded.{context_of, AreForms};
ghost use Rattle.view_entries.specs.Sizes.{tree_size};
ghost use Rattle.pcc_gate.specs.First.{formulas};
ghost use Rattle.asm_print.specs.Views.{invs_view};
ghost use Rattle.view_container.specs.Sources.{if_short};
ghost use Rattle.view_container.specs.Answers.{Finds};

use crate::stop::{NoSource, Stop};
use asm_print::MAX_FORM_TEXT;
use formula_tree::Form;
use lf_encode::{Sort, left_context, machine_context};
use lf_signature::WordSignature;
use std::alloc::Global;
use term_table::{Id, Table};
use view_entries::short_form;

/// Returns the formulas of the invariants, which have type form over the signature in the context,
/// if the text of each is short.
fn short_in(
    alloc: Global,
    table: &mut Table,
    signature: WordSignature,
    bound: Option<u32>,
    context: &[Sort],
    sizes: &[u32],
    invs: &[(u32, Id)],
) -> Result<Vec<(u32, Form)>, Stop>
    requires context { context.now ≡ context_of bound }
    requires sizes { sizes.now ≡ map tree_size table.old.trees }
    requires known { AllByRecursion (λ inv. IsKnown table.old inv.1) invs.now }
    requires forms { AreForms signature bound (id_trees table.old invs.now) }
    ensures { Finds (λ v. invs_view v.items)
        (if_short (formulas (id_trees table.old invs.now))) result }
{
    let _ = bound; // only the clauses speak of it
    let mut forms = Vec::new(alloc);
    for i in 0..invs.len() {
        let (index, id) = invs[i];
        let size = sizes[id.index()];
        let found = short_form(table, &signature, id, context, size, MAX_FORM_TEXT as u32)?;
        match found {
            None => return Err(Stop::Not(NoSource::LongInv)),
            Some(form) => forms.push((index, form))?,
        }
    }
    Ok(forms)
}

/// Returns each invariant's index with its formula, if the text of each formula is short; else
/// `Stop` says why not. The invariants have type form over the signature, in the context of code
/// with that step bound. `sizes` are the node counts of the table's terms.
pub fn short_forms(
    alloc: Global,
    table: &mut Table,
    signature: WordSignature,
    bound: Option<u32>,
    sizes: &[u32],
    invs: &[(u32, Id)],
) -> Result<Vec<(u32, Form)>, Stop>
    requires sizes { sizes.now ≡ map tree_size table.old.trees }
    requires known { AllByRecursion (λ inv. IsKnown table.old inv.1) invs.now }
    requires forms { AreForms signature bound (id_trees table.old invs.now) }
    ensures { Finds (λ v. invs_view v.items)
        (if_short (formulas (id_trees table.old invs.now))) result }
{
    match bound {
        None => short_in(
            alloc,
            table,
            signature,
            bound,
            &machine_context(),
            sizes,
            invs,
        ),
        Some(_) => short_in(alloc, table, signature, bound, &left_context(), sizes, invs),
    }
}
