//! Whether two addresses have equal summands.
//!
//! Errors: out of memory, or the search would cache more results than it may; every id keeps its
//! tree.

ghost use Rattle.std.specs.Prelude.{◌≡◌, IfOk, IfSome, OnOk};
ghost use Rattle.term_table.specs.Table.{IsKnown, tree_at, Extends};
ghost use Rattle.formula_tree.specs.Formulas.{Exp};
ghost use Rattle.lf_terms.specs.Encoding.{exp_encoding};
ghost use Rattle.prover_ids.specs.Puts.{IsExpPut};
ghost use Rattle.prover_class.specs.Access.{rest_of};
ghost use Rattle.prover_sums.specs.Sums.{IsExpOption};
ghost use Rattle.prover_goals.specs.Search.{IsSearch};
ghost use Rattle.view_marks.specs.Hints.{address_sum, has_summands, has_instance};
ghost use Rattle.view_marks.specs.Inside.Nearness.{is_like};

use crate::PART_BINDERS;
use hereditary_subst::Exhausted;
use prover_goals::{Search, normal_exp};
use prover_ids::{literal, put_word_exp};
use prover_sums::{rest_of, summand_count};
use term_table::{Id, Node, Table};

/// Returns what is left of the sum `a` without the sum `z`: None if a summand of `z` is missing in
/// `a`.
#[tactic(auto, using(prover_goals::proofs::Kept::rows))]
fn sum_rest(table: &mut Table, search: &mut Search, a: Id, z: Id) -> Result<Option<Id>, Exhausted>
    requires a { IsKnown table.old a }
    requires z { IsKnown table.old z }
    requires search { IsSearch table.old search.old }
    ensures known { IfOk result (λ o. IfSome o (IsKnown table.new)) }
    ensures exact { (x y : Exp) → tree_at table.old a ≡ exp_encoding x
        → tree_at table.old z ≡ exp_encoding y
        → IfOk result (IsExpOption table.new (rest_of (address_sum x) (address_sum y))) }
    ensures extends { Extends table.old table.new }
    ensures search { OnOk result (IsSearch table.new search.new) }
{
    let of_a = normal_exp(table, search, PART_BINDERS, a)?;
    let of_z = normal_exp(table, search, PART_BINDERS, z)?;
    let pairs = summand_count(table, of_a).saturating_mul(summand_count(table, of_z));
    search.spend_steps(pairs)?;
    let rest = rest_of(table, of_a, of_z)?;
    Ok(rest)
}

/// Whether the address `z` has the summands of `a`, and perhaps another literal.
#[tactic(auto, using(prover_goals::proofs::Kept::rows))]
fn has_summands(table: &mut Table, search: &mut Search, a: Id, z: Id) -> Result<bool, Exhausted>
    requires a { IsKnown table.old a }
    requires z { IsKnown table.old z }
    requires search { IsSearch table.old search.old }
    ensures exact { (x y : Exp) → tree_at table.old a ≡ exp_encoding x
        → tree_at table.old z ≡ exp_encoding y → IfOk result (λ b. b ≡ has_summands x y) }
    ensures extends { Extends table.old table.new }
    ensures search { OnOk result (IsSearch table.new search.new) }
{
    match sum_rest(table, search, a, z)? {
        None => Ok(false),
        Some(id) => Ok(literal(table, id).is_some()),
    }
}

/// The expression with 0 for variable 0.
#[tactic(auto, using(prover_goals::proofs::Kept::rows))]
fn at_zero(table: &mut Table, search: &mut Search, z: Id, zero: Id) -> Result<Id, Exhausted>
    requires z { IsKnown table.old z }
    requires zero { IsKnown table.old zero }
    requires search { IsSearch table.old search.old }
    ensures put { IfOk result (IsExpPut table.old table.new z 0 zero) }
    ensures extends { Extends table.old table.new }
    ensures search { OnOk result (IsSearch table.new search.new) }
{
    put_word_exp(table, &mut search.memo, &mut search.puts, z, zero)
}

/// Checks whether the summands of `z`, with 0 for variable 0, are among the summands of `a`.
#[tactic(auto, using(prover_goals::proofs::Kept::rows))]
fn has_instance(table: &mut Table, search: &mut Search, a: Id, z: Id) -> Result<bool, Exhausted>
    requires a { IsKnown table.old a }
    requires z { IsKnown table.old z }
    requires search { IsSearch table.old search.old }
    ensures exact { (x y : Exp) → tree_at table.old a ≡ exp_encoding x
        → tree_at table.old z ≡ exp_encoding y → IfOk result (λ b. b ≡ has_instance x y) }
    ensures extends { Extends table.old table.new }
    ensures search { OnOk result (IsSearch table.new search.new) }
{
    let zero = table.intern(Node::Lit(0))?;
    let start = at_zero(table, search, z, zero)?;
    let rest = sum_rest(table, search, a, start)?;
    Ok(rest.is_some())
}

/// Checks whether the address `z` has the summands of `a`; if `instance`, whether an instance of it
/// has some of them.
#[tactic(auto, using(prover_goals::proofs::Kept::rows))]
pub(crate) fn is_like(
    table: &mut Table,
    search: &mut Search,
    instance: bool,
    a: Id,
    z: Id,
) -> Result<bool, Exhausted>
    requires a { IsKnown table.old a }
    requires z { IsKnown table.old z }
    requires search { IsSearch table.old search.old }
    ensures exact { (x y : Exp) → tree_at table.old a ≡ exp_encoding x
        → tree_at table.old z ≡ exp_encoding y → IfOk result (λ b. b ≡ is_like instance x y) }
    ensures extends { Extends table.old table.new }
    ensures search { OnOk result (IsSearch table.new search.new) }
{
    if instance {
        let like = has_instance(table, search, a, z)?;
        Ok(like)
    } else {
        let like = has_summands(table, search, a, z)?;
        Ok(like)
    }
}
