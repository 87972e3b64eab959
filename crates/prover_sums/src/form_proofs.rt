//! Proofs of relations by the normal forms of their expressions.
//!
//! Errors: out of memory, or the memo's limit for shifts is reached; each id keeps its tree.

ghost use Rattle.std.specs.Prelude.{◌≡◌, IfOk};
ghost use Rattle.term_table.specs.Table.{IsKnown, tree_at, Extends, Stands};
ghost use Rattle.hereditary_subst.specs.Kept.{IsMemo, IfKnown};
ghost use Rattle.hereditary_subst.specs.Limits.{SpendsResults};
ghost use Rattle.lf_signature.specs.Nodes.{IsIdOf};
ghost use Rattle.formula_tree.specs.Formulas.{Exp, ELit};
ghost use Rattle.lf_terms.specs.Encoding.{exp_encoding};
ghost use Rattle.prover_class.specs.NormalForms.{equal_proof, words_proof, held_of_words, equal_forms};
ghost use Rattle.prover_class.specs.Goals.{first_of};
ghost use Rattle.prover_sums.specs.Inside.Rounds.{second_moved, first_moved};
ghost use Rattle.prover_sums.specs.NormalForms.{RewrittenExp, IsKnownRewritten, IsRewritten};

use crate::equations::Rewritten;
use hereditary_subst::{Exhausted, Memo};
use prover_forms::word_at;
use prover_ids::{fact, moved, number, raised, relation, swapped};
use term_table::{Id, Node, Table};
use word_ops::{Rel, holds};

/// The proof of the relation of `a` and `b`, by one of the relation of `a` and what `b` equals.
#[tactic(auto, using(hereditary_subst::proofs::Rows::rows))]
fn second_moved(
    table: &mut Table,
    memo: &mut Memo,
    rel: Rel,
    a: Id,
    b: Id,
    other: Rewritten,
    proof: Id,
) -> Result<Id, Exhausted>
    requires a { IsKnown table.old a }
    requires b { IsKnown table.old b }
    requires other { IsKnownRewritten table.old other }
    requires proof { IsKnown table.old proof }
    requires memo { IsMemo table.old memo.old }
    ensures known { IfOk result (IsKnown table.new) }
    ensures exact { (x y : Exp) (q : RewrittenExp) → tree_at table.old a ≡ exp_encoding x
        → tree_at table.old b ≡ exp_encoding y → IsRewritten table.old other q
        → IfOk result (IsIdOf table.new (second_moved rel x y q (tree_at table.old proof))) }
    ensures extends { Extends table.old table.new }
    ensures memo { IsMemo table.new memo.new }
    ensures spends { SpendsResults table.new memo.old memo.new result }
{
    let under = raised(table, memo, a)?;
    let place = table.intern(Node::Var(0))?;
    let form = relation(table, rel, under, place)?;
    let back = swapped(table, memo, b, other.now, other.proof)?;
    let moved = moved(table, form, other.now, b, back, proof)?;
    Ok(moved)
}

/// The proof of the relation of `a` and the word `w`, if `a` equals the word `v`.
#[tactic(auto, using(hereditary_subst::proofs::Rows::rows))]
fn first_moved(
    table: &mut Table,
    memo: &mut Memo,
    rel: Rel,
    a: Id,
    v: u64,
    w: u64,
    here: Rewritten,
    word: Id,
) -> Result<Id, Exhausted>
    requires a { IsKnown table.old a }
    requires here { IsKnownRewritten table.old here }
    requires word { IsKnown table.old word }
    requires memo { IsMemo table.old memo.old }
    ensures known { IfOk result (IsKnown table.new) }
    ensures exact { (x : Exp) → tree_at table.old a ≡ exp_encoding x
        → tree_at table.old here.now ≡ exp_encoding (ELit v)
        → tree_at table.old word ≡ exp_encoding (ELit w)
        → IfOk result (IsIdOf table.new (first_moved rel x v w (tree_at table.old here.proof))) }
    ensures extends { Extends table.old table.new }
    ensures memo { IsMemo table.new memo.new }
    ensures spends { SpendsResults table.new memo.old memo.new result }
{
    let place = table.intern(Node::Var(0))?;
    let form = relation(table, rel, place, word)?;
    let back = swapped(table, memo, a, here.now, here.proof)?;
    let held = fact(table, rel, v, w)?;
    let moved = moved(table, form, here.now, a, back, held)?;
    Ok(moved)
}

/// Builds the proof that `a` equals `b`, whose normal forms `p` and `q` are equal.
#[tactic(auto, using(hereditary_subst::proofs::Rows::rows))]
pub fn equal_proof(
    table: &mut Table,
    memo: &mut Memo,
    a: Id,
    b: Id,
    p: Rewritten,
    q: Rewritten,
) -> Result<Id, Exhausted>
    requires a { IsKnown table.old a }
    requires b { IsKnown table.old b }
    requires p { IsKnownRewritten table.old p }
    requires q { IsKnownRewritten table.old q }
    requires memo { IsMemo table.old memo.old }
    ensures known { IfOk result (IsKnown table.new) }
    ensures exact { (x y : Exp) (f g : RewrittenExp) → tree_at table.old a ≡ exp_encoding x
        → tree_at table.old b ≡ exp_encoding y → IsRewritten table.old p f
        → IsRewritten table.old q g → IfOk result (IsIdOf table.new (equal_proof x y f g)) }
    ensures extends { Extends table.old table.new }
    ensures memo { IsMemo table.new memo.new }
    ensures spends { SpendsResults table.new memo.old memo.new result }
{
    second_moved(table, memo, Rel::Eq, a, b, q, p.proof)
}

/// The proof of the relation of `a` and `b`, whose normal forms are words of which it holds.
#[tactic(auto, using(hereditary_subst::proofs::Rows::rows))]
fn words_proof(
    table: &mut Table,
    memo: &mut Memo,
    rel: Rel,
    a: Id,
    b: Id,
    v: u64,
    w: u64,
    p: Rewritten,
    q: Rewritten,
) -> Result<Id, Exhausted>
    requires a { IsKnown table.old a }
    requires b { IsKnown table.old b }
    requires p { IsKnownRewritten table.old p }
    requires q { IsKnownRewritten table.old q }
    requires memo { IsMemo table.old memo.old }
    ensures known { IfOk result (IsKnown table.new) }
    ensures exact { (x y : Exp) → tree_at table.old a ≡ exp_encoding x
        → tree_at table.old b ≡ exp_encoding y → tree_at table.old p.now ≡ exp_encoding (ELit v)
        → tree_at table.old q.now ≡ exp_encoding (ELit w)
        → IfOk result (IsIdOf table.new
        (words_proof rel x y v w (tree_at table.old p.proof) (tree_at table.old q.proof))) }
    ensures extends { Extends table.old table.new }
    ensures memo { IsMemo table.new memo.new }
    ensures spends { SpendsResults table.new memo.old memo.new result }
{
    let first = first_moved(table, memo, rel, a, v, w, p, q.now)?;
    second_moved(table, memo, rel, a, b, q, first)
}

/// The proof of the relation, if both normal forms are words of which it holds.
#[tactic(auto, using(hereditary_subst::proofs::Rows::rows))]
fn held_of_words(
    table: &mut Table,
    memo: &mut Memo,
    rel: Rel,
    a: Id,
    b: Id,
    p: Rewritten,
    q: Rewritten,
) -> Result<Option<Id>, Exhausted>
    requires a { IsKnown table.old a }
    requires b { IsKnown table.old b }
    requires p { IsKnownRewritten table.old p }
    requires q { IsKnownRewritten table.old q }
    requires memo { IsMemo table.old memo.old }
    ensures known { IfOk result (IfKnown table.new) }
    ensures exact { (x y : Exp) (f g : RewrittenExp) → tree_at table.old a ≡ exp_encoding x
        → tree_at table.old b ≡ exp_encoding y → IsRewritten table.old p f
        → IsRewritten table.old q g
        → IfOk result (Stands table.new (held_of_words rel x y f.now f.proof g.now g.proof)) }
    ensures extends { Extends table.old table.new }
    ensures memo { IsMemo table.new memo.new }
    ensures spends { SpendsResults table.new memo.old memo.new result }
{
    match word_at(table, p.now) {
        None => Ok(None),
        Some(v) => match word_at(table, q.now) {
            None => Ok(None),
            Some(w) => {
                if holds(rel, v, w) {
                    let proof = words_proof(table, memo, rel, a, b, v, w, p, q)?;
                    Ok(Some(proof))
                } else {
                    Ok(None)
                }
            }
        },
    }
}

/// The proof that `a` equals `b`, if the normal forms are equal; None for another relation.
#[tactic(auto, using(hereditary_subst::proofs::Rows::rows))]
fn equal_forms(
    table: &mut Table,
    memo: &mut Memo,
    rel: Rel,
    a: Id,
    b: Id,
    p: Rewritten,
    q: Rewritten,
) -> Result<Option<Id>, Exhausted>
    requires a { IsKnown table.old a }
    requires b { IsKnown table.old b }
    requires p { IsKnownRewritten table.old p }
    requires q { IsKnownRewritten table.old q }
    requires memo { IsMemo table.old memo.old }
    ensures known { IfOk result (IfKnown table.new) }
    ensures exact { (x y : Exp) (f g : RewrittenExp) → tree_at table.old a ≡ exp_encoding x
        → tree_at table.old b ≡ exp_encoding y → IsRewritten table.old p f
        → IsRewritten table.old q g
        → IfOk result (Stands table.new (equal_forms rel x y f g)) }
    ensures extends { Extends table.old table.new }
    ensures memo { IsMemo table.new memo.new }
    ensures spends { SpendsResults table.new memo.old memo.new result }
{
    match rel {
        Rel::Eq => {
            table.laws(); // equal trees have one id
            if number(p.now) == number(q.now) {
                let proof = equal_proof(table, memo, a, b, p, q)?;
                Ok(Some(proof))
            } else {
                Ok(None)
            }
        }
        Rel::Ult => Ok(None),
        Rel::Ule => Ok(None),
        Rel::Slt => Ok(None),
        Rel::Sle => Ok(None),
    }
}

/// Returns the proof of the relation between `a` and `b` by their normal forms `p` and `q`, if
/// these are words of which it holds, or if they are equal and the relation is equality; else None.
///
/// Errors: out of memory, or the limit of `memo` for shifts is reached.
#[tactic(auto, using(hereditary_subst::proofs::Rows::rows))]
pub fn proof_by_forms(
    table: &mut Table,
    memo: &mut Memo,
    rel: Rel,
    a: Id,
    b: Id,
    p: Rewritten,
    q: Rewritten,
) -> Result<Option<Id>, Exhausted>
    requires a { IsKnown table.old a }
    requires b { IsKnown table.old b }
    requires p { IsKnownRewritten table.old p }
    requires q { IsKnownRewritten table.old q }
    requires memo { IsMemo table.old memo.old }
    ensures known { IfOk result (IfKnown table.new) }
    ensures exact { (x y : Exp) (f g : RewrittenExp) → tree_at table.old a ≡ exp_encoding x
        → tree_at table.old b ≡ exp_encoding y → IsRewritten table.old p f
        → IsRewritten table.old q g
        → IfOk result (Stands table.new
        (first_of (held_of_words rel x y f.now f.proof g.now g.proof) (equal_forms rel x y f g))) }
    ensures extends { Extends table.old table.new }
    ensures memo { IsMemo table.new memo.new }
    ensures spends { SpendsResults table.new memo.old memo.new result }
{
    // Copies, which the borrow checker doesn't see in a struct with ids.
    let first = Rewritten {
        now: p.now,
        proof: p.proof,
    };
    let second = Rewritten {
        now: q.now,
        proof: q.proof,
    };
    match held_of_words(table, memo, rel, a, b, first, second)? {
        Some(proof) => Ok(Some(proof)),
        None => equal_forms(table, memo, rel, a, b, p, q),
    }
}
