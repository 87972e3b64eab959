//! Terms raised, put for variables and equated, in a search.
//!
//! Errors: out of memory, or the search's limit is reached; each id keeps its tree.

ghost use Rattle.std.specs.Prelude.{IfOk, OnOk};
ghost use Rattle.term_table.specs.Table.{IsKnown, Extends};
ghost use Rattle.prover_goals.specs.Search.{IsSearch};

use hereditary_subst::Exhausted;
use prover_goals::{Search, normal, normal_exp};
use prover_ids::{put_word, put_word_exp, raised};
use prover_sums::equal_proof;
use term_table::{Id, Table};

/// Returns the term under one more binder.
///
/// Errors: out of memory, or the limit of `search` is reached; each id keeps its tree.
#[tactic(auto, using(prover_goals::proofs::Kept::rows))]
pub fn raise(table: &mut Table, search: &mut Search, id: Id) -> Result<Id, Exhausted>
    requires id { IsKnown table.old id }
    requires search { IsSearch table.old search.old }
    ensures known { IfOk result (IsKnown table.new) }
    ensures extends { Extends table.old table.new }
    ensures search { OnOk result (IsSearch table.new search.new) }
{
    raised(table, &mut search.memo, id)
}

/// Returns the formula with `arg` for variable 0.
#[tactic(auto, using(prover_goals::proofs::Kept::rows))]
pub(crate) fn form_with(
    table: &mut Table,
    search: &mut Search,
    form: Id,
    arg: Id,
) -> Result<Id, Exhausted>
    requires form { IsKnown table.old form }
    requires arg { IsKnown table.old arg }
    requires search { IsSearch table.old search.old }
    ensures known { IfOk result (IsKnown table.new) }
    ensures extends { Extends table.old table.new }
    ensures search { OnOk result (IsSearch table.new search.new) }
{
    put_word(table, &mut search.memo, &mut search.puts, form, arg)
}

/// Returns the expression with `arg` for variable 0.
#[tactic(auto, using(prover_goals::proofs::Kept::rows))]
pub(crate) fn exp_with(
    table: &mut Table,
    search: &mut Search,
    exp: Id,
    arg: Id,
) -> Result<Id, Exhausted>
    requires exp { IsKnown table.old exp }
    requires arg { IsKnown table.old arg }
    requires search { IsSearch table.old search.old }
    ensures known { IfOk result (IsKnown table.new) }
    ensures extends { Extends table.old table.new }
    ensures search { OnOk result (IsSearch table.new search.new) }
{
    put_word_exp(table, &mut search.memo, &mut search.puts, exp, arg)
}

/// Returns whether two expressions have one normal form.
///
/// Errors: out of memory, or the limit of `search` is reached; each id keeps its tree.
#[tactic(auto, using(prover_goals::proofs::Kept::rows))]
pub fn are_alike(
    table: &mut Table,
    search: &mut Search,
    outside: u32,
    a: Id,
    b: Id,
) -> Result<bool, Exhausted>
    requires a { IsKnown table.old a }
    requires b { IsKnown table.old b }
    requires search { IsSearch table.old search.old }
    ensures extends { Extends table.old table.new }
    ensures search { OnOk result (IsSearch table.new search.new) }
{
    let first = normal_exp(table, search, outside, a)?;
    let second = normal_exp(table, search, outside, b)?;
    Ok(table.same(first, second))
}

/// Returns the proof that two expressions are equal, which have one normal form.
///
/// Errors: out of memory, or the limit of `search` is reached; each id keeps its tree.
#[tactic(auto, using(prover_goals::proofs::Kept::rows))]
pub(crate) fn equality(
    table: &mut Table,
    search: &mut Search,
    outside: u32,
    a: Id,
    b: Id,
) -> Result<Id, Exhausted>
    requires a { IsKnown table.old a }
    requires b { IsKnown table.old b }
    requires search { IsSearch table.old search.old }
    ensures known { IfOk result (IsKnown table.new) }
    ensures extends { Extends table.old table.new }
    ensures search { OnOk result (IsSearch table.new search.new) }
{
    let p = normal(table, search, outside, a)?;
    let q = normal(table, search, outside, b)?;
    equal_proof(table, &mut search.memo, a, b, p, q)
}
