//! Encoding of invariants as terms.

ghost use Rattle.std.specs.Prelude.{IfOk};
ghost use Rattle.std.specs.List.{AllByRecursion};
ghost use Rattle.formula_tree.specs.Views.{form_view};
ghost use Rattle.term_table.specs.Table.{Extends};
ghost use Rattle.lf_signature.specs.Nodes.{IsIdOf};
ghost use Rattle.lf_encode.specs.Contexts.{machine_context, encoding_in};
ghost use Rattle.pcc_asm.specs.Inside.Views.{inv_views, IsEncodableForm, AreEncoded};

use formula_tree::Form;
use lf_encode::{encode_form, left_context, machine_context};
use std::alloc::{AllocError, Global};
use term_table::{Id, Table};

/// Encodes a formula over m and r0 to r30, and over the remaining steps if `left` is true. Their
/// variable is outside the others, so `left` doesn't change the encoding of a formula that doesn't
/// name them. Errors: out of memory.
fn encode_inv(table: &mut Table, form: &Form, left: bool) -> Result<Id, AllocError>
    requires { IsEncodableForm left (form_view form.now) }
    ensures exact { let tree = encoding_in machine_context (form_view form.now) in
        IfOk result (IsIdOf table.new tree) }
    ensures extends { Extends table.old table.new }
{
    if left {
        encode_form(table, form, &left_context())
    } else {
        encode_form(table, form, &machine_context())
    }
}

/// Encodes each invariant over m and r0 to r30, and over the remaining steps if `left` is true.
/// Errors: out of memory.
#[tactic(auto, using(crate::proofs::Terms::none_encoded, crate::proofs::Terms::all_encoded))]
pub fn encode_invs(
    alloc: Global,
    table: &mut Table,
    invs: &[(u32, Form)],
    left: bool,
) -> Result<Vec<(u32, Id)>, AllocError>
    requires { AllByRecursion (λ p. IsEncodableForm left p.1) (inv_views invs.now) }
    ensures { IfOk result (λ v. AreEncoded table.new (inv_views invs.now) v.items) }
{
    let mut ids = Vec::new(alloc);
    for i in 0..invs.len() {
        let inv = &invs[i];
        let id = encode_inv(table, &inv.1, left)?;
        ids.push((inv.0, id))?;
    }
    Ok(ids)
}
