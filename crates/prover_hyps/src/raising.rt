//! Hypotheses under one more binder.

ghost use Rattle.std.specs.Prelude.{◌≡◌, ◌∷◌, ◌++◌, ◌≤◌, ◌+◌, [], IfOk, OnOk, length};
ghost use Rattle.term_table.specs.Tree.{shift};
ghost use Rattle.term_table.specs.Table.{IsKnown, tree_at, Extends};
ghost use Rattle.hereditary_subst.specs.Kept.{IsMemo};
ghost use Rattle.hereditary_subst.specs.Limits.{left_of, SpendsResults, charge};
ghost use Rattle.formula_tree.specs.Formulas.{Form, shift_form};
ghost use Rattle.lf_terms.specs.Encoding.{form_encoding};
ghost use Rattle.prover_ids.specs.Hypotheses.{AreKnownHyps, AreHyps};
ghost use Rattle.prover_class.specs.Hypotheses.{Hyps, raised_hyps};

use crate::collection::Hypotheses;
use hereditary_subst::{Exhausted, Memo};
use prover_ids::{Hypothesis, raised};
use term_table::{Id, Table};

/// Appends a hypothesis under one more binder. It counts as a result, also if its parts were raised
/// before.
#[tactic(auto, using(crate::proofs::Growing::rows))]
fn push_raised(
    table: &mut Table,
    memo: &mut Memo,
    under: &mut Hypotheses,
    form: Id,
    proof: Id,
) -> Result<(), Exhausted>
    requires under { AreKnownHyps table.old under.old }
    requires form { IsKnown table.old form }
    requires proof { IsKnown table.old proof }
    requires memo { IsMemo table.old memo.old }
    ensures known { OnOk result (AreKnownHyps table.new under.new) }
    ensures exact { (Γ : Hyps) (A : Form) → AreHyps table.old under.old Γ
        → tree_at table.old form ≡ form_encoding A → OnOk result (AreHyps table.new under.new
        (Γ ++ (shift_form 1 0 A, shift 1 0 (tree_at table.old proof)) ∷ [])) }
    ensures extends { Extends table.old table.new }
    ensures memo { IsMemo table.new memo.new }
    ensures left { OnOk result (left_of memo.new + charge memo.old 1 ≤ left_of memo.old) }
    ensures spends { SpendsResults table.new memo.old memo.new result }
{
    memo.spend()?;
    let form = raised(table, memo, form)?;
    let proof = raised(table, memo, proof)?;
    Ok(under.push(Hypothesis { form, proof })?)
}

/// Returns the hypotheses under one more binder: each free variable is raised by one.
///
/// Errors: out of memory, also if a variable would reach 2^32, or the limit of `memo` is reached,
/// in which each hypothesis counts one; each id keeps its tree.
pub fn raised_hyps(
    table: &mut Table,
    memo: &mut Memo,
    hyps: &Hypotheses,
) -> Result<Hypotheses, Exhausted>
    requires hyps { AreKnownHyps table.old hyps.now }
    requires memo { IsMemo table.old memo.old }
    ensures known { IfOk result (AreKnownHyps table.new) }
    ensures exact { (Γ : Hyps) → AreHyps table.old hyps.now Γ
        → IfOk result (λ under. AreHyps table.new under (raised_hyps Γ)) }
    ensures extends { Extends table.old table.new }
    ensures memo { IsMemo table.new memo.new }
    ensures left { let counted = charge memo.old (length hyps.now) in
        OnOk result (left_of memo.new + counted ≤ left_of memo.old) }
    ensures spends { SpendsResults table.new memo.old memo.new result }
{
    let mut under = Hypotheses::new(table.allocator());
    let list = hyps.as_slice();
    for i in 0..list.len() {
        push_raised(table, memo, &mut under, list[i].form, list[i].proof)?;
    }
    Ok(under)
}
