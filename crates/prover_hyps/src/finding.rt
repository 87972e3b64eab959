//! Looks up hypotheses by their formulas.

ghost use Rattle.std.specs.Prelude.{◌≡◌, [], ◌∷◌, IfSome, OnOk};
ghost use Rattle.term_table.specs.Table.{IsKnown, tree_at, Stands};
ghost use Rattle.formula_tree.specs.Formulas.{Form};
ghost use Rattle.lf_terms.specs.Encoding.{form_encoding};
ghost use Rattle.prover_ids.specs.Hypotheses.{AreKnownHyps, AreHyps};
ghost use Rattle.prover_class.specs.Hypotheses.{Hyps, find_hyp, with_new};

use crate::collection::Hypotheses;
use prover_ids::Hypothesis;
use std::alloc::AllocError;
use term_table::{Id, Table};

/// Returns the proof of the first hypothesis that is the formula, if there is one.
pub fn find_hyp(table: &Table, hyps: &Hypotheses, goal: Id) -> Option<Id>
    requires hyps { AreKnownHyps table.now hyps.now }
    requires goal { IsKnown table.now goal }
    ensures known { IfSome result (IsKnown table.now) }
    ensures exact { (Γ : Hyps) (A : Form) → AreHyps table.now hyps.now Γ
        → tree_at table.now goal ≡ form_encoding A
        → Stands table.now (find_hyp Γ A) result }
{
    table.laws();
    hyps.find(goal)
}

/// Adds the hypothesis at the end, unless its formula is one already.
pub(crate) fn add(
    table: &Table,
    hyps: &mut Hypotheses,
    form: Id,
    proof: Id,
) -> Result<(), AllocError>
    requires hyps { AreKnownHyps table.now hyps.old }
    requires form { IsKnown table.now form }
    requires proof { IsKnown table.now proof }
    ensures known { OnOk result (AreKnownHyps table.now hyps.new) }
    ensures exact { (Γ : Hyps) (A : Form) → AreHyps table.now hyps.old Γ
        → tree_at table.now form ≡ form_encoding A → OnOk result (AreHyps table.now hyps.new
        (with_new Γ ((A, tree_at table.now proof) ∷ []))) }
{
    table.laws();
    match hyps.find(form) {
        Some(_) => Ok(()),
        None => hyps.push(Hypothesis { form, proof }),
    }
}
