//! Proofs of goals by all methods: words, and access to memory by hypotheses.
//!
//! Errors: out of memory, or the search's limit is reached; each id keeps its tree.

ghost use Rattle.std.specs.Prelude.{◌≡◌, IfOk, IfSome, OnOk};
ghost use Rattle.term_table.specs.Table.{IsKnown, Extends};
ghost use Rattle.prover_class.specs.Access.{by_all_means};
ghost use Rattle.prover_goals.specs.Provers.{IsProofBy, whole_proof, prover_of};
ghost use Rattle.prover_goals.specs.Search.{IsSearch, IsContext, IsAfter};
ghost use Rattle.hereditary_subst.specs.Limits.{SpendsResults};

use crate::access::proof_by_access;
use hereditary_subst::Exhausted;
use prover_goals::{Context, Leaf, Means, Search, goal_proof, proof_by_words};
use term_table::{Id, Table};

/// Words, and access to memory by hypotheses; `counted` says whether steps are counted.
#[derive(Clone, Copy)]
pub(crate) struct ByAllMeans {
    counted: bool,
}

impl Leaf for ByAllMeans {
    ghost use Rattle.prover_goals.specs.Provers.{all_means};

    ghost by = { λ leaf. all_means leaf.counted };

    fn means(&self) -> Means {
        Means {
            access: true,
            counted: self.counted,
        }
    }

    fn leaf_proof(
        &self,
        table: &mut Table,
        search: &mut Search,
        context: &mut Context,
        goal: Id,
    ) -> Result<Option<Id>, Exhausted> {
        by_all_means(table, search, context, self.counted, goal)
    }
}

/// The proof of a goal that has no connective, by words or else by access.
#[tactic(auto, using(prover_goals::proofs::WordRows::rows))]
fn by_all_means(
    table: &mut Table,
    search: &mut Search,
    context: &mut Context,
    counted: bool,
    goal: Id,
) -> Result<Option<Id>, Exhausted>
    requires goal { IsKnown table.old goal }
    requires search { IsSearch table.old search.old }
    requires context { IsContext table.old context.old }
    ensures known { IfOk result (λ o. IfSome o (IsKnown table.new)) }
    ensures exact { let c = context.old in let p = by_all_means counted in
        IfOk result (IsProofBy p table.old table.new c.hyps c.outside goal) }
    ensures extends { Extends table.old table.new }
    ensures after { OnOk result (IsAfter table.new search.new context.old context.new) }
    ensures spends { SpendsResults table.new search.old.memo search.new.memo result }
{
    match proof_by_words(table, search, context, counted, goal)? {
        Some(proof) => Ok(Some(proof)),
        None => {
            let proof = proof_by_access(table, search, context, counted, goal)?;
            Ok(proof)
        }
    }
}

/// Returns the proof of `goal` under the hypotheses of `context` by connectives and by all methods:
/// None if they give none. `counted` says whether steps are counted.
///
/// Errors: out of memory, or the limit of `search` is reached; each id keeps its tree.
pub fn proof_by_all_means(
    table: &mut Table,
    search: &mut Search,
    context: &mut Context,
    counted: bool,
    goal: Id,
) -> Result<Option<Id>, Exhausted>
    requires goal { IsKnown table.old goal }
    requires search { IsSearch table.old search.old }
    requires context { IsContext table.old context.old }
    ensures known { IfOk result (λ o. IfSome o (IsKnown table.new)) }
    ensures exact { let c = context.old in let p = whole_proof (by_all_means counted) in
        IfOk result (IsProofBy p table.old table.new c.hyps c.outside goal) }
    ensures extends { Extends table.old table.new }
    ensures after { OnOk result (IsAfter table.new search.new context.old context.new) }
    ensures spends { SpendsResults table.new search.old.memo search.new.memo result }
{
    goal_proof(table, &ByAllMeans { counted }, search, context, goal)
}
