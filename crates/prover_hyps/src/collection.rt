//! A list of hypotheses, with an index by their formulas.

ghost use Rattle.std.specs.Prelude.{◌≡◌, [], ◌∷◌, ◌++◌, OnOk};
ghost use Rattle.prover_hyps.specs.Places.{first_hyp_proof};

use prover_ids::Hypothesis;
use std::alloc::{AllocError, Global};
use std::collections::BTreeMap;
use std::marker::Model;
use term_table::Id;

/// A formula's id, as a key.
#[derive(Clone, Copy, PartialEq, Eq, PartialOrd, Ord)]
pub(crate) struct Key {
    form: u64,
}

/// The key of an id.
pub(crate) fn key_of(form: Id) -> Key
    ensures { result.form ≡ form }
{
    Key {
        form: form.index() as u64,
    }
}

/// A list of hypotheses. The first with a given formula is found without a search.
#[derive(Drop)]
pub struct Hypotheses {
    list: Vec<Hypothesis>,
    // of each formula, the proof of its first hypothesis
    proofs: BTreeMap<Key, Id>,
}

impl Model for Hypotheses {
    ghost use Rattle.std.specs.Prelude.{◌≡◌, List};
    ghost use Rattle.std.specs.BTreeMap.{get};
    ghost use Rattle.prover_ids.specs.declared.hypotheses.Hypothesis.{Hypothesis};
    ghost use Rattle.prover_hyps.specs.declared.collection.Key.{Key};
    ghost use Rattle.prover_hyps.specs.contracts.collection.KeyOrd.TheImpl as key_block;
    ghost use Rattle.prover_hyps.specs.Places.{first_hyp_proof};

    ghost Value = { List Hypothesis };

    ghost view = { λ h. h.list.items };

    ghost invariant = { λ h. (k : Key) →
        get key_block.ghosts.cmp h.proofs k ≡ first_hyp_proof h.list.items k.form };
}

impl Hypotheses {
    /// Returns an empty list, which allocates nothing yet.
    pub fn new(alloc: Global) -> Hypotheses
        ensures { result ≡ [] }
    {
        Hypotheses {
            list: Vec::new(alloc),
            proofs: BTreeMap::new(alloc),
        }
    }

    /// Returns the hypotheses, in order.
    pub fn as_slice(&self) -> &[Hypothesis]
        ensures { result.now ≡ self.now }
    {
        self.list.as_slice()
    }

    /// Returns the proof of the first hypothesis whose formula has this id, if there is one.
    pub fn find(&self, form: Id) -> Option<Id>
        ensures { result ≡ first_hyp_proof self.now form }
    {
        self.proofs.get(&key_of(form)).copied()
    }

    /// Appends a hypothesis.
    ///
    /// Errors: out of memory alone.
    pub fn push(&mut self, hypothesis: Hypothesis) -> Result<(), AllocError>
        ensures { OnOk result (self.new ≡ self.old ++ hypothesis ∷ []) }
    {
        let key = key_of(hypothesis.form);
        self.list.reserve(1)?;
        if let Some(_) = self.proofs.get(&key).copied() {
            self.list.push(hypothesis)?;
            return Ok(());
        }
        self.proofs.insert(key, hypothesis.proof)?;
        self.list.push(hypothesis)?;
        Ok(())
    }
}
