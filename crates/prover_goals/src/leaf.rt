//! Provers for goals that have no connective.

ghost use Rattle.std.specs.Prelude.{◌≡◌, IfOk, IfSome, OnOk};
ghost use Rattle.term_table.specs.Table.{IsKnown, Extends};
ghost use Rattle.prover_goals.specs.Provers.{IsProofBy, prover_of};
ghost use Rattle.prover_goals.specs.Search.{IsSearch, IsContext, IsAfter};

use crate::answers::Means;
use crate::search::{Context, Search};
use crate::words::proof_by_words;
use hereditary_subst::Exhausted;
use term_table::{Id, Table};

/// A prover for goals that have no connective (atomic goals). The search by connectives works alike
/// with each.
pub trait Leaf {
    ghost use Rattle.std.specs.Prelude.{◌≡◌, IfOk, IfSome, OnOk};
    ghost use Rattle.term_table.specs.Table.{IsKnown, Extends};
    ghost use Rattle.prover_goals.specs.Provers.{IsProofBy, prover_of};
    ghost use Rattle.prover_goals.specs.Search.{IsSearch, IsContext, IsAfter};
    ghost use Rattle.prover_goals.specs.declared.answers.Means.{Means};
    ghost use Rattle.hereditary_subst.specs.Limits.{SpendsResults};

    // By which means.
    ghost by: { Self → Means };

    /// Returns the proof methods that the leaf uses.
    fn means(&self) -> Means
        ensures { result ≡ by self.now };

    /// Returns the proof of a goal that has no connective, under the hypotheses of the context:
    /// None for any other goal, and if there is no proof.
    ///
    /// Errors: out of memory, or the limit of `search` is reached; each id keeps its tree.
    fn leaf_proof(
        &self,
        table: &mut Table,
        search: &mut Search,
        context: &mut Context,
        goal: Id,
    ) -> Result<Option<Id>, Exhausted>
        requires goal { IsKnown table.old goal }
        requires search { IsSearch table.old search.old }
        requires context { IsContext table.old context.old }
        ensures known { IfOk result (λ o. IfSome o (IsKnown table.new)) }
        ensures exact { let c = context.old in let p = prover_of (by self.now) in
            IfOk result (IsProofBy p table.old table.new c.hyps c.outside goal) }
        ensures extends { Extends table.old table.new }
        ensures after { OnOk result (IsAfter table.new search.new context.old context.new) }
        ensures spends { SpendsResults table.new search.old.memo search.new.memo result };
}

/// Alignment, normal forms and bounds; `counted` says whether steps are counted.
#[derive(Clone, Copy)]
pub(crate) struct WordsAlone {
    pub(crate) counted: bool,
}

impl Leaf for WordsAlone {
    ghost use Rattle.prover_goals.specs.Provers.{words_alone};

    ghost by = { λ leaf. words_alone leaf.counted };

    fn means(&self) -> Means {
        Means {
            access: false,
            counted: self.counted,
        }
    }

    fn leaf_proof(
        &self,
        table: &mut Table,
        search: &mut Search,
        context: &mut Context,
        goal: Id,
    ) -> Result<Option<Id>, Exhausted> {
        proof_by_words(table, search, context, self.counted, goal)
    }
}
