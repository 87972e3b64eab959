//! A signature with lemmas.

ghost use Rattle.std.specs.Prelude.{◌≡◌, IfOk, slice_get};
ghost use Rattle.std.specs.Option.{option_map};
ghost use Rattle.term_table.specs.Table.{Extends, Stands};
ghost use Rattle.lf_signature.specs.Nodes.{type_at};
ghost use Rattle.lf_lemmas.specs.Lemmas.{formulas_of, with_lemmas};
ghost use Rattle.lf_lemmas.specs.Tables.{lemmas_in, HoldsLemmas};
ghost use Rattle.lf_lemmas.specs.Laws.Lawful.{lemmas_same, lemmas_hold, lemmas_formed};
ghost use Rattle.lf_lemmas.specs.Laws.Lawful.{lemmas_known_too};

use lf_signature::{Known, Signature, pf};
use std::alloc::AllocError;
use term_table::{Id, Node, Table};

/// The formula of a lemma: None past the last.
fn lemma_formula(lemmas: &[(Id, Id)], number: u32) -> Option<Id>
    ensures { result ≡ option_map (λ p. p.0) (slice_get lemmas.now number) }
{
    match lemmas.get(number as usize) {
        None => None,
        Some(lemma) => Some(lemma.0),
    }
}

/// A signature with lemmas: it gives lemma n the type of the proofs of formula n, none past the
/// last, and every other constant what `sig` gives. It requires a table that has the lemmas' trees,
/// and that each formula checks against the type of formulas in the empty context (`HoldsLemmas`);
/// it requires nothing of the proofs. For the lemmas before a number take that many from the front.
#[derive(Drop)]
pub struct WithLemmas<'a, S> {
    /// The signature that the formulas are over, which has no lemmas.
    pub sig: &'a S,
    /// The formula and the proof of each lemma.
    pub lemmas: &'a [(Id, Id)],
}

impl<'a, S: Signature> Signature for WithLemmas<'a, S> {
    ghost holds = { λ s t. S.holds s.sig.now t
        × HoldsLemmas (S.declares s.sig.now t) t s.lemmas.now };

    ghost declares = { λ s t.
        with_lemmas (S.declares s.sig.now t) (formulas_of (lemmas_in t s.lemmas.now)) };

    ghost still_holds = { λ s t u e h. (
      S.still_holds s.sig.now t u e h.0,
      lemmas_hold (S.declares s.sig.now t) (S.declares s.sig.now u) s.lemmas.now t u
          (S.same_types s.sig.now t u e h.0) e h.1,
    ) };

    ghost same_types = { λ s t u e h.
        lemmas_same (S.declares s.sig.now t) (S.declares s.sig.now u) s.lemmas.now t u
        (S.same_types s.sig.now t u e h.0) h.1 e };

    ghost well_formed = { λ s t h.
        lemmas_formed (S.declares s.sig.now t) h.1.free (formulas_of (lemmas_in t s.lemmas.now))
        h.1.formulas (S.well_formed s.sig.now t h.0) };

    fn type_of(&self, table: &mut Table, constant: Node) -> Result<Option<Id>, AllocError> {
        match constant {
            Node::Lemma(number) => match lemma_formula(self.lemmas, number) {
                None => Ok(None),
                Some(formula) => Ok(Some(pf(table, formula)?)),
            },
            _ => self.sig.type_of(table, constant),
        }
    }
}

impl<'a, S: Known> Known for WithLemmas<'a, S> {
    ghost known = { λ s t h.
        lemmas_known_too (S.Signature.declares s.sig.now t) h.1.free
        (formulas_of (lemmas_in t s.lemmas.now)) h.1.formulas (S.known s.sig.now t h.0) };
}
