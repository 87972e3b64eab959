//! Questions on what proves a formula.

ghost use Rattle.term_table.specs.Table.{IsKnown};

use crate::answers::{decided, small};
use crate::terms::signature_of;
use lf_check::{Kept, MOST_RESULTS};
use lf_signature::{Sigma1, WordSignature};
use lf_truth::{prove_true, prove_true_with, proved_formula_with};
use term_table::{Id, Table};
use test_inputs::faults::Read;
use test_inputs::rows::Answer;
use test_inputs::term_text::known;

/// Whether a term proves a formula over a signature.
pub(crate) fn proves(table: &mut Table, signature: &WordSignature, proof: Id, goal: Id) -> Answer
    requires proof { IsKnown table.old proof }
    requires goal { IsKnown table.old goal }
{
    decided(prove_true(table, signature, proof, goal))
}

/// Whether a term proves a formula over the signature of a number.
pub(crate) fn proves_in(table: &mut Table, number: Id, proof: Id, goal: Id) -> Read<Answer>
    requires number { IsKnown table.old number }
    requires proof { IsKnown table.old proof }
    requires goal { IsKnown table.old goal }
{
    let signature = signature_of(small(table, number)?)?;
    Ok(proves(table, &signature, proof, goal))
}

/// Whether the second term proves the second formula, with what is kept of the first two.
pub(crate) fn proves_after(
    table: &mut Table,
    first: Id,
    its_goal: Id,
    proof: Id,
    goal: Id,
) -> Read<Answer>
    requires first { IsKnown table.old first }
    requires its_goal { IsKnown table.old its_goal }
{
    let mut kept = Kept::new(table.allocator(), MOST_RESULTS);
    if prove_true_with(table, &mut kept, &Sigma1, first, its_goal).is_err() {
        return Ok(Answer::Memory);
    }
    known(table, proof)?;
    known(table, goal)?;
    Ok(decided(prove_true_with(table, &mut kept, &Sigma1, proof, goal)))
}

/// Whether the formula is the one that the term proves.
pub(crate) fn proved(table: &mut Table, proof: Id, goal: Id) -> Answer
    requires { IsKnown table.old proof }
{
    let mut kept = Kept::new(table.allocator(), MOST_RESULTS);
    match proved_formula_with(table, &mut kept, &Sigma1, proof) {
        Ok(Some(found)) => Answer::holds(found == goal),
        Ok(None) => Answer::holds(false),
        Err(_) => Answer::Memory,
    }
}
