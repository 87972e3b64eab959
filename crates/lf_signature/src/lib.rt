//! LF signatures: which type each constant has, with the table of inference rules.
//!
//! The checker above is generic over [`Signature`] and uses its one call, `type_of`, with its laws:
//! what a signature declares doesn't change as the table grows, and each type is closed and well
//! formed over the constants before it. [`WordSignature`] is the signature of word arithmetic, in
//! three lengths; each is a prefix of the next. This crate also has the definitions that all layers
//! above share: typing as derivations (`specs/Typing`), simple typing (`specs/Simply`), typing as
//! functions (`specs/Decide`), rules as data (`specs/Rules`), the table of all constants
//! (`specs/Constants`), rows from an independent implementation to compare it with
//! (`specs/Outside`), and what a signature of word arithmetic is (`specs/Known`). Code that builds
//! proofs reads a rule's row by [`rule_at`]. Sources: Harper, Honsell and Plotkin, A Framework for
//! Defining Logics, JACM 1993, section 2 (typing); Necula, Proof-Carrying Code, POPL 1997.
#![tactic(auto)]

mod build;
mod declare;
mod editions;
pub mod numbers;
pub mod schema;
mod tables;
mod terms;
mod theorems;

ghost use Rattle.std.specs.Prelude.{◌≡◌, Option, IfOk, refl};
ghost use Rattle.term_table.specs.Tree.{Tree, Const};
ghost use Rattle.term_table.specs.Table.{TableView, Extends, Stands};
ghost use Rattle.lf_signature.specs.Nodes.{type_at};
ghost use Rattle.lf_signature.specs.Order.{IsSignature};
ghost use Rattle.lf_signature.specs.Constants.{declared};
ghost use Rattle.lf_signature.specs.Known.{IsKnownSignature};
ghost use Rattle.lf_signature.specs.Laws.Within.{declared_known};
ghost use Rattle.lf_signature.specs.Laws.WellFormed.{declared_formed};

use declare::word_type;
pub use editions::WordSignature::{Sigma1, Sigma2, Sigma3};
pub use editions::{EDITIONS, Edition, LONGEST, MAX_VERSION, WordSignature, edition_of};
pub use numbers::{rel_constant, rel_number, rel_of, rel_of_constant};
use std::alloc::AllocError;
pub use tables::rule_at;
use term_table::{Id, Node, Table};
pub use terms::{app1, app2, app3, pf};
pub use theorems::{
    declared_rows, near_laws, places_laws, signature_laws, simple_laws, typing_laws,
};

/// A signature: it gives constants their types. It may store ids of a table, and its types may name
/// their trees, so each call requires a table that holds these ids.
pub trait Signature {
    // The table holds the ids that the signature keeps.
    ghost holds: { Self → TableView → Type 0 };

    // The declared types, over the table's trees.
    ghost declares: { Self → TableView → Const → Option Tree };

    /// Returns the type of `constant`: None exactly if the signature gives it none or the node is
    /// no constant.
    ///
    /// Errors: out of memory alone; each id keeps its tree.
    fn type_of(&self, table: &mut Table, constant: Node) -> Result<Option<Id>, AllocError>
        requires { holds self.now table.old }
        ensures tree { IfOk result
            (Stands table.new (type_at (declares self.now table.old) constant)) }
        ensures extends { Extends table.old table.new };

    // What a table holds it holds as it grows.
    ghost still_holds: { (s : Self) (t u : TableView) → Extends t u → holds s t → holds s u };

    // The types stay the same trees as the table grows.
    ghost same_types: { (s : Self) (t u : TableView) → Extends t u → holds s t →
        declares s u ≡ declares s t };

    // Each type is closed and well formed over the constants before it.
    ghost well_formed: { (s : Self) (t : TableView) → holds s t → IsSignature (declares s t) };
}

/// A signature with the formulas of word arithmetic, whose other constants are rules of word
/// arithmetic and lemmas.
pub trait Known: Signature {
    // Words and the constants of formulas have their types. Each constant that has one has that of
    // the longest signature of word arithmetic, or is a lemma, a proof of a formula.
    ghost known: { (s : Self) (t : TableView) → Self.Signature.holds s t →
        IsKnownSignature (Self.Signature.declares s t) };
}

impl Signature for WordSignature {
    ghost holds = { λ _ _. Unit {0} };

    ghost declares = { λ s _. declared s };

    ghost still_holds = { λ s t u e h. h };

    ghost same_types = { λ s t u e h. refl };

    ghost well_formed = { λ s t h. declared_formed s };

    fn type_of(&self, table: &mut Table, constant: Node) -> Result<Option<Id>, AllocError> {
        word_type(table, *self, constant)
    }
}

impl Known for WordSignature {
    ghost known = { λ s t h. declared_known s };
}

/// Returns the type of `constant` in `sig`: None exactly if it has none or the node is no constant.
///
/// Errors: out of memory alone; each id keeps its tree.
pub fn declared<S: Signature>(
    table: &mut Table,
    sig: &S,
    constant: Node,
) -> Result<Option<Id>, AllocError>
    requires { S.holds sig.now table.old }
    ensures tree { IfOk result
        (Stands table.new (type_at (S.declares sig.now table.old) constant)) }
    ensures extends { Extends table.old table.new }
{
    sig.type_of(table, constant)
}
