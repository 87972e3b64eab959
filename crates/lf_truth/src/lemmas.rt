//! Signatures with lemmas that are proved.

ghost use Rattle.std.specs.Prelude.{IfOk};
ghost use Rattle.term_table.specs.Table.{Extends, Stands};
ghost use Rattle.lf_signature.specs.Nodes.{type_at};
ghost use Rattle.lf_lemmas.specs.Lemmas.{formulas_of, with_lemmas};
ghost use Rattle.lf_lemmas.specs.Tables.{lemmas_in, HoldsProvedLemmas};
ghost use Rattle.lf_lemmas.specs.Laws.Lawful.{lemmas_same, proved_hold, lemmas_formed};
ghost use Rattle.lf_lemmas.specs.Laws.Lawful.{lemmas_known_too};
ghost use Rattle.lf_truth.specs.Laws.Lemmas.{lemmas_given};

use crate::proving::Truthful;
use lf_lemmas::WithLemmas;
use lf_signature::{Known, Signature};
use std::alloc::AllocError;
use term_table::{Id, Node, Table};

/// A signature with lemmas, each of which is proved. It requires what `WithLemmas` does, and that
/// each lemma's proof checks with the lemmas before it (`HoldsProvedLemmas`). So all lemmas are
/// true, and a proof that cites them proves a true formula.
#[derive(Drop)]
pub struct ProvedLemmas<'a, S> {
    /// The signature with the lemmas.
    pub extended: WithLemmas<'a, S>,
}

impl<'a, S: Signature> Signature for ProvedLemmas<'a, S> {
    ghost holds = { λ s t. S.holds s.extended.sig.now t
        × HoldsProvedLemmas (S.declares s.extended.sig.now t) t s.extended.lemmas.now };

    ghost declares = { λ s t. with_lemmas (S.declares s.extended.sig.now t)
        (formulas_of (lemmas_in t s.extended.lemmas.now)) };

    ghost still_holds = { λ s t u e h. (
      S.still_holds s.extended.sig.now t u e h.0,
      proved_hold (S.declares s.extended.sig.now t) (S.declares s.extended.sig.now u)
          s.extended.lemmas.now t u (S.same_types s.extended.sig.now t u e h.0) e h.1,
    ) };

    ghost same_types = { λ s t u e h.
        lemmas_same (S.declares s.extended.sig.now t) (S.declares s.extended.sig.now u)
        s.extended.lemmas.now t u (S.same_types s.extended.sig.now t u e h.0) h.1.lemmas e };

    ghost well_formed = { λ s t h.
        lemmas_formed (S.declares s.extended.sig.now t) h.1.lemmas.free
        (formulas_of (lemmas_in t s.extended.lemmas.now)) h.1.lemmas.formulas
        (S.well_formed s.extended.sig.now t h.0) };

    fn type_of(&self, table: &mut Table, constant: Node) -> Result<Option<Id>, AllocError> {
        self.extended.type_of(table, constant)
    }
}

impl<'a, S: Known> Known for ProvedLemmas<'a, S> {
    ghost known = { λ s t h.
        lemmas_known_too (S.Signature.declares s.extended.sig.now t) h.1.lemmas.free
        (formulas_of (lemmas_in t s.extended.lemmas.now)) h.1.lemmas.formulas
        (S.known s.extended.sig.now t h.0) };
}

impl<'a, S: Truthful> Truthful for ProvedLemmas<'a, S> {
    ghost given = { λ s t h.
        lemmas_given (S.Signature.declares s.extended.sig.now t) (S.Known.known s.extended.sig.now t h.0)
        (S.Signature.well_formed s.extended.sig.now t h.0) (S.given s.extended.sig.now t h.0)
        h.1.lemmas.free (lemmas_in t s.extended.lemmas.now) h.1.lemmas.formulas h.1.proved };
}
