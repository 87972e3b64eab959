//! Well-formed types, of the four families that there are: 0 to 2 are types, and 3 is a type once
//! it is applied to a formula.

ghost use Rattle.std.specs.Prelude.{◌≡◌, ◌<◌, IfOk};
ghost use Rattle.term_table.specs.Tree.{Pi};
ghost use Rattle.term_table.specs.Table.{IsKnown, tree_at, Extends};
ghost use Rattle.lf_check.specs.Inside.Families.{is_proofs};
ghost use Rattle.hereditary_subst.specs.Limits.{SpendsResults};
ghost use Rattle.lf_check.specs.Kept.{AreKept, is_type_in};

use crate::contexts::answer_on;
use crate::judgements::{Kept, Question, number};
use crate::steps::intern_on;
use crate::walk::check_at;
use hereditary_subst::Exhausted;
use lf_signature::Signature;
use term_table::{Id, Node, Table};

/// The family of formulas.
const FORM: u32 = 2;

/// The family of the proofs of a formula.
const PF: u32 = 3;

/// Whether this is the family of proofs.
fn is_proofs(table: &Table, p: Id) -> bool
    requires { IsKnown table.now p }
    ensures { result ≡ is_proofs (tree_at table.now p) }
{
    match table.node(p) {
        Node::Fam(family) => family == PF,
        _ => false,
    }
}

/// Whether the type a is well formed.
#[cycle(formed)]
pub(crate) fn is_type_at<S: Signature>(
    table: &mut Table,
    kept: &mut Kept,
    sig: &S,
    c: Id,
    a: Id,
) -> Result<bool, Exhausted>
    requires holds { S.holds sig.now table.old }
    requires c { IsKnown table.old c }
    requires a { IsKnown table.old a }
    requires kept { AreKept (S.declares sig.now table.old) table.old kept.old }
    ensures answer { IfOk result
        (λ b. b ≡ is_type_in (S.declares sig.now table.old) table.old c a) }
    ensures extends { Extends table.old table.new }
    ensures kept { AreKept (S.declares sig.now table.new) table.new kept.new }
    ensures spends { SpendsResults table.new kept.old.memo kept.new.memo result }
{
    match table.node(a) {
        Node::Fam(family) => Ok(family < PF),
        Node::TApp(p, m) => {
            if !is_proofs(table, p) {
                return Ok(false);
            }
            let form = intern_on(table, kept, sig, Node::Fam(FORM))?;
            check_at(table, kept, sig, c, m, form)
        }
        Node::Pi(from, to) => product_at(table, kept, sig, c, a, from, to),
        _ => Ok(false),
    }
}

/// Whether the product a is well formed.
#[cycle(formed)]
fn product_at<S: Signature>(
    table: &mut Table,
    kept: &mut Kept,
    sig: &S,
    c: Id,
    a: Id,
    from: Id,
    to: Id,
) -> Result<bool, Exhausted>
    requires holds { S.holds sig.now table.old }
    requires c { IsKnown table.old c }
    requires a { IsKnown table.old a }
    requires parts { (from < a) × (to < a) }
    requires is { Pi (tree_at table.old from) (tree_at table.old to) ≡ tree_at table.old a }
    requires kept { AreKept (S.declares sig.now table.old) table.old kept.old }
    ensures answer { IfOk result
        (λ b. b ≡ is_type_in (S.declares sig.now table.old) table.old c a) }
    ensures extends { Extends table.old table.new }
    ensures kept { AreKept (S.declares sig.now table.new) table.new kept.new }
    ensures spends { SpendsResults table.new kept.old.memo kept.new.memo result }
{
    let question = Question::Formed(number(a));
    if let Some(_) = answer_on(table, kept, sig, &question, c, a)? {
        return Ok(true);
    }
    if !is_type_at(table, kept, sig, c, from)? {
        return Ok(false);
    }
    let inner = intern_on(table, kept, sig, Node::TApp(c, from))?;
    let answer = is_type_at(table, kept, sig, inner, to)?;
    if answer {
        kept.keep(table, sig, question, c, a)?;
    }
    Ok(answer)
}
