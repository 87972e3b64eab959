//! Rights that are reached through conjunctions, at addresses with equal summands.
//!
//! Whether a formula reaches one is cached by its id, so a shared formula is gone through once.
//! Errors: out of memory, or the search would cache more results than it may; every id keeps its
//! tree.

ghost use Rattle.std.specs.Prelude.{◌≡◌, ◌<◌, Some, None, if◌then◌else◌, IfOk, OnOk};
ghost use Rattle.term_table.specs.Table.{IsKnown, Extends};
ghost use Rattle.formula_tree.specs.Formulas.{Exp};
ghost use Rattle.prover_ids.specs.Nodes.{right_form};
ghost use Rattle.prover_class.specs.Access.{right_address};
ghost use Rattle.prover_goals.specs.Search.{IsSearch};
ghost use Rattle.view_marks.specs.Inside.Nearness.{access_at, IsReached, IsReachedInBoth};
ghost use Rattle.view_marks.specs.Inside.Nearness.{AreReached};

use crate::sums::is_like;
use hereditary_subst::Exhausted;
use prover_goals::Search;
use prover_ids::{Access, FormNode, Kept, Question, form_node, number};
use term_table::{Id, Table};

/// The right that is asked for: to store, or else to load, at which address.
#[derive(Clone, Copy)]
pub(crate) struct Asked {
    pub(crate) store: bool,
    pub(crate) address: Id,
}

/// The cache key: whether such a right is reached in a formula; by an instance if `instance`.
#[derive(Clone, Copy, PartialEq, Eq, PartialOrd, Ord)]
pub(crate) struct Reach {
    store: bool,
    address: u64,
    instance: bool,
    form: u64,
}

impl Question for Reach {
    ghost use Rattle.std.proofs.Common.{rules};
    ghost use Rattle.view_marks.specs.Inside.Nearness.{IsReach};
    ghost use Rattle.view_marks.specs.Inside.Lasting.{reach-lasts};

    type Answer = bool;

    ghost is_right = { λ _. IsReach };

    ghost same = { Prim.search rules };

    ghost lasts = { λ _ t u q b e _ h. reach-lasts t u q b e h };
}

/// Returns whether the access that is given is the one that is asked for.
pub(crate) fn is_asked(store: bool, given: Access) -> bool
    ensures { (z : Exp) → right_address (access_at store) (right_form given z)
        ≡ if result then Some z else None }
{
    match given {
        Access::Load => !store,
        Access::Store => store,
    }
}

/// Checks whether a right that is asked for is reached in the formula.
#[cycle(reaching)]
#[tactic(auto, using(crate::proofs::Growing::rows))]
pub(crate) fn is_reached(
    table: &mut Table,
    search: &mut Search,
    kept: &mut Kept<Reach>,
    asked: &Asked,
    instance: bool,
    form: Id,
) -> Result<bool, Exhausted>
    requires asked { IsKnown table.old asked.now.address }
    requires form { IsKnown table.old form }
    requires search { IsSearch table.old search.old }
    requires kept { AreReached table.old kept.old }
    ensures exact { IfOk result (IsReached table.old asked.now instance form) }
    ensures extends { Extends table.old table.new }
    ensures search { OnOk result (IsSearch table.new search.new) }
    ensures kept { OnOk result (AreReached table.new kept.new) }
{
    let question = Reach {
        store: asked.store,
        address: number(asked.address),
        instance,
        form: number(form),
    };
    if let Some(reached) = kept.get(table, &[], &question) {
        return Ok(reached);
    }
    let reached = is_reached_in_parts(table, search, kept, asked, instance, form)?;
    kept.keep(&mut search.memo, table, &[], question, reached)?;
    Ok(reached)
}

/// Checks whether a right that is asked for is reached in the formula, for which no result is
/// cached.
#[cycle(reaching)]
#[tactic(auto, using(crate::proofs::Growing::rows))]
fn is_reached_in_parts(
    table: &mut Table,
    search: &mut Search,
    kept: &mut Kept<Reach>,
    asked: &Asked,
    instance: bool,
    form: Id,
) -> Result<bool, Exhausted>
    requires asked { IsKnown table.old asked.now.address }
    requires form { IsKnown table.old form }
    requires search { IsSearch table.old search.old }
    requires kept { AreReached table.old kept.old }
    ensures exact { IfOk result (IsReached table.old asked.now instance form) }
    ensures extends { Extends table.old table.new }
    ensures search { OnOk result (IsSearch table.new search.new) }
    ensures kept { OnOk result (AreReached table.new kept.new) }
{
    match form_node(table, form) {
        FormNode::And(a, b) => {
            let reached = is_reached_in_both(table, search, kept, asked, instance, form, a, b)?;
            Ok(reached)
        }
        FormNode::Right(given, z) => {
            if !is_asked(asked.store, given) {
                return Ok(false);
            }
            let like = is_like(table, search, instance, asked.address, z)?;
            Ok(like)
        }
        FormNode::True => Ok(false),
        FormNode::False => Ok(false),
        FormNode::Relation(_, _, _) => Ok(false),
        FormNode::Or(_, _) => Ok(false),
        FormNode::Imp(_, _) => Ok(false),
        FormNode::All(_) => Ok(false),
        FormNode::AllMem(_) => Ok(false),
    }
}

/// Checks whether a right that is asked for is reached in the conjunction of `a` and `b`.
#[cycle(reaching)]
#[tactic(auto, using(crate::proofs::Growing::rows))]
fn is_reached_in_both(
    table: &mut Table,
    search: &mut Search,
    kept: &mut Kept<Reach>,
    asked: &Asked,
    instance: bool,
    form: Id,
    a: Id,
    b: Id,
) -> Result<bool, Exhausted>
    requires asked { IsKnown table.old asked.now.address }
    requires form { IsKnown table.old form }
    requires below { (a < form) × (b < form) }
    requires search { IsSearch table.old search.old }
    requires kept { AreReached table.old kept.old }
    ensures exact { IfOk result (IsReachedInBoth table.old asked.now instance a b) }
    ensures extends { Extends table.old table.new }
    ensures search { OnOk result (IsSearch table.new search.new) }
    ensures kept { OnOk result (AreReached table.new kept.new) }
{
    if is_reached(table, search, kept, asked, instance, a)? {
        return Ok(true);
    }
    let reached = is_reached(table, search, kept, asked, instance, b)?;
    Ok(reached)
}
