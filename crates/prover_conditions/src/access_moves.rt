//! Addresses with one normal form, and the proof step from access at one to access at the other.
//!
//! Errors: out of memory, or the search's limit is reached; each id keeps its tree.

ghost use Rattle.std.specs.Prelude.{◌≡◌, if◌then◌else◌, Some, None, IfOk, IfSome, OnOk};
ghost use Rattle.term_table.specs.Table.{IsKnown, tree_at, Extends, Stands};
ghost use Rattle.lf_signature.specs.Nodes.{IsIdOf};
ghost use Rattle.formula_tree.specs.Formulas.{Exp, EVar};
ghost use Rattle.lf_terms.specs.Encoding.{exp_encoding, form_encoding};
ghost use Rattle.prover_ids.specs.Nodes.{right_form};
ghost use Rattle.prover_ids.specs.Puts.{IsExpPut, IsFormPut};
ghost use Rattle.prover_class.specs.Access.{access_form, right_address, moved, same_address, access_move};
ghost use Rattle.prover_goals.specs.Search.{IsSearch};
ghost use Rattle.prover_conditions.specs.Inside.AccessIds.{access_of};
ghost use Rattle.hereditary_subst.specs.Limits.{SpendsResults};

use hereditary_subst::Exhausted;
use prover_goals::{Search, normal, normal_exp};
use prover_ids::{Access, moved, put_word, put_word_exp, right};
use prover_sums::equal_proof;
use std::alloc::AllocError;
use term_table::{Id, Node, Table};

/// Whether the given access is the one that the goal names.
pub(crate) fn is_asked(asked: Access, given: Access) -> bool
    ensures { (z : Exp) → right_address (access_of asked) (right_form given z)
        ≡ if result then Some z else None }
{
    match asked {
        Access::Load => matches!(given, Access::Load),
        Access::Store => matches!(given, Access::Store),
    }
}

/// The expression with `arg` for variable 0.
#[tactic(auto, using(prover_goals::proofs::Kept::rows))]
pub(crate) fn exp_with(
    table: &mut Table,
    search: &mut Search,
    exp: Id,
    arg: Id,
) -> Result<Id, Exhausted>
    requires exp { IsKnown table.old exp }
    requires arg { IsKnown table.old arg }
    requires search { IsSearch table.old search.old }
    ensures put { IfOk result (IsExpPut table.old table.new exp 0 arg) }
    ensures extends { Extends table.old table.new }
    ensures search { OnOk result (IsSearch table.new search.new) }
    ensures spends { SpendsResults table.new search.old.memo search.new.memo result }
{
    put_word_exp(table, &mut search.memo, &mut search.puts, exp, arg)
}

/// The formula with `arg` for variable 0.
#[tactic(auto, using(prover_goals::proofs::Kept::rows))]
pub(crate) fn form_with(
    table: &mut Table,
    search: &mut Search,
    form: Id,
    arg: Id,
) -> Result<Id, Exhausted>
    requires form { IsKnown table.old form }
    requires arg { IsKnown table.old arg }
    requires search { IsSearch table.old search.old }
    ensures put { IfOk result (IsFormPut table.old table.new form 0 arg) }
    ensures extends { Extends table.old table.new }
    ensures search { OnOk result (IsSearch table.new search.new) }
    ensures spends { SpendsResults table.new search.old.memo search.new.memo result }
{
    put_word(table, &mut search.memo, &mut search.puts, form, arg)
}

/// Whether two addresses have one normal form.
#[tactic(auto, using(prover_goals::proofs::Kept::rows))]
pub(crate) fn same_address(
    table: &mut Table,
    search: &mut Search,
    outside: u32,
    z: Id,
    a: Id,
) -> Result<bool, Exhausted>
    requires z { IsKnown table.old z }
    requires a { IsKnown table.old a }
    requires search { IsSearch table.old search.old }
    ensures exact { (x y : Exp) → tree_at table.old z ≡ exp_encoding x
        → tree_at table.old a ≡ exp_encoding y
        → IfOk result (λ b. b ≡ same_address outside x y) }
    ensures extends { Extends table.old table.new }
    ensures search { OnOk result (IsSearch table.new search.new) }
    ensures spends { SpendsResults table.new search.old.memo search.new.memo result }
{
    let first = normal_exp(table, search, outside, z)?;
    let second = normal_exp(table, search, outside, a)?;
    Ok(table.same(first, second))
}

/// The right to the access at variable 0.
fn place_form(table: &mut Table, access: Access) -> Result<Id, AllocError>
    ensures id { IfOk result
        (IsIdOf table.new (form_encoding (access_form (access_of access) (EVar 0)))) }
    ensures extends { Extends table.old table.new }
{
    let place = table.intern(Node::Var(0))?;
    let form = right(table, access, place)?;
    Ok(form)
}

/// The proof of access to `a`, by that of access to `z`, which has its normal form.
#[tactic(auto, using(prover_goals::proofs::Kept::rows))]
pub(crate) fn access_move(
    table: &mut Table,
    search: &mut Search,
    outside: u32,
    access: Access,
    z: Id,
    a: Id,
    proof: Id,
) -> Result<Id, Exhausted>
    requires z { IsKnown table.old z }
    requires a { IsKnown table.old a }
    requires proof { IsKnown table.old proof }
    requires search { IsSearch table.old search.old }
    ensures known { IfOk result (IsKnown table.new) }
    ensures exact { (x y : Exp) → tree_at table.old z ≡ exp_encoding x
        → tree_at table.old a ≡ exp_encoding y → IfOk result (IsIdOf table.new
        (access_move outside (access_of access) x y (tree_at table.old proof))) }
    ensures extends { Extends table.old table.new }
    ensures search { OnOk result (IsSearch table.new search.new) }
    ensures spends { SpendsResults table.new search.old.memo search.new.memo result }
{
    let form = place_form(table, access)?;
    let p = normal(table, search, outside, z)?;
    let q = normal(table, search, outside, a)?;
    let equal = equal_proof(table, &mut search.memo, z, a, p, q)?;
    let moved = moved(table, form, z, a, equal, proof)?;
    Ok(moved)
}

/// The proof of access at `a` from access at `z`, if their normal forms are equal, else None.
#[tactic(auto, using(prover_goals::proofs::Kept::rows))]
pub(crate) fn moved_access(
    table: &mut Table,
    search: &mut Search,
    outside: u32,
    access: Access,
    z: Id,
    a: Id,
    proof: Id,
) -> Result<Option<Id>, Exhausted>
    requires z { IsKnown table.old z }
    requires a { IsKnown table.old a }
    requires proof { IsKnown table.old proof }
    requires search { IsSearch table.old search.old }
    ensures known { IfOk result (λ o. IfSome o (IsKnown table.new)) }
    ensures exact { (x y : Exp) → tree_at table.old z ≡ exp_encoding x
        → tree_at table.old a ≡ exp_encoding y → IfOk result (Stands table.new
        (moved outside (access_of access) y x (tree_at table.old proof))) }
    ensures extends { Extends table.old table.new }
    ensures search { OnOk result (IsSearch table.new search.new) }
    ensures spends { SpendsResults table.new search.old.memo search.new.memo result }
{
    if same_address(table, search, outside, z, a)? {
        let moved = access_move(table, search, outside, access, z, a, proof)?;
        Ok(Some(moved))
    } else {
        Ok(None)
    }
}
