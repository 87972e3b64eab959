//! Proofs of connectives from proofs of their parts, on ids.
//!
//! Errors: out of memory, or the limit of the memo is reached; each id keeps its tree.

ghost use Rattle.std.specs.Prelude.{◌≡◌, [], ◌∷◌, Option, Some, IfOk, IfSome};
ghost use Rattle.std.specs.Option.{option_map};
ghost use Rattle.term_table.specs.Tree.{Tree};
ghost use Rattle.term_table.specs.Table.{IsKnown, tree_at, Extends, Stands};
ghost use Rattle.formula_tree.specs.Formulas.{Form};
ghost use Rattle.lf_terms.specs.Encoding.{form_encoding};
ghost use Rattle.lf_terms.specs.ProofTerms.{AForm, rule_proof, tt_i, and_i, imp_i};
ghost use Rattle.prover_goals.specs.Inside.Connectives.{join_tree, over_tree};
ghost use Rattle.hereditary_subst.specs.Limits.{NeverResults};

use hereditary_subst::Exhausted;
use lf_signature::numbers::{AND_I, IMP_I, TT_I};
use lf_terms::rule_term;
use term_table::{Id, Node, Table};

/// The proof of truth.
pub(crate) fn truth(table: &mut Table) -> Result<Option<Id>, Exhausted>
    ensures known { IfOk result (λ o. IfSome o (IsKnown table.new)) }
    ensures exact { IfOk result (Stands table.new (Some tt_i)) }
    ensures extends { Extends table.old table.new }
    ensures memory { NeverResults result }
{
    let proof = rule_term(table, TT_I, &[])?;
    Ok(Some(proof))
}

/// The proof of a conjunction from `p` of its left and, if there is one, that of its right.
pub(crate) fn both(
    table: &mut Table,
    a: Id,
    b: Id,
    p: Id,
    right: Option<Id>,
) -> Result<Option<Id>, Exhausted>
    requires a { IsKnown table.old a }
    requires b { IsKnown table.old b }
    requires p { IsKnown table.old p }
    requires right { IfSome right (IsKnown table.old) }
    ensures known { IfOk result (λ o. IfSome o (IsKnown table.new)) }
    ensures exact { (A B : Form) (o : Option Tree) → tree_at table.old a ≡ form_encoding A
        → tree_at table.old b ≡ form_encoding B → Stands table.old o right
        → IfOk result (Stands table.new (option_map (and_i A B (tree_at table.old p)) o)) }
    ensures extends { Extends table.old table.new }
    ensures memory { NeverResults result }
{
    match right {
        None => Ok(None),
        Some(q) => {
            let proof = rule_term(table, AND_I, &[a, b, p, q])?;
            Ok(Some(proof))
        }
    }
}

/// The proof of a disjunction, by the rule of that number, from that of one of its sides, if there
/// is one.
pub(crate) fn joined(
    table: &mut Table,
    rule: u32,
    a: Id,
    b: Id,
    side: Option<Id>,
) -> Result<Option<Id>, Exhausted>
    requires a { IsKnown table.old a }
    requires b { IsKnown table.old b }
    requires side { IfSome side (IsKnown table.old) }
    ensures known { IfOk result (λ o. IfSome o (IsKnown table.new)) }
    ensures exact { (A B : Form) (o : Option Tree) → tree_at table.old a ≡ form_encoding A
        → tree_at table.old b ≡ form_encoding B → Stands table.old o side
        → IfOk result (Stands table.new (option_map (join_tree rule A B) o)) }
    ensures extends { Extends table.old table.new }
    ensures memory { NeverResults result }
{
    match side {
        None => Ok(None),
        Some(p) => {
            let proof = rule_term(table, rule, &[a, b, p])?;
            Ok(Some(proof))
        }
    }
}

/// The proof of an implication from that of its second formula under the first, if there is one.
pub(crate) fn implied(
    table: &mut Table,
    a: Id,
    b: Id,
    second: Option<Id>,
) -> Result<Option<Id>, Exhausted>
    requires a { IsKnown table.old a }
    requires b { IsKnown table.old b }
    requires second { IfSome second (IsKnown table.old) }
    ensures known { IfOk result (λ o. IfSome o (IsKnown table.new)) }
    ensures exact { (A B : Form) (o : Option Tree) → tree_at table.old a ≡ form_encoding A
        → tree_at table.old b ≡ form_encoding B → Stands table.old o second
        → IfOk result (Stands table.new (option_map (imp_i A B) o)) }
    ensures extends { Extends table.old table.new }
    ensures memory { NeverResults result }
{
    match second {
        None => Ok(None),
        Some(p) => {
            let under = table.intern(Node::Lam(p))?;
            let proof = rule_term(table, IMP_I, &[a, b, under])?;
            Ok(Some(proof))
        }
    }
}

/// The proof of a quantifier over `b`, by the rule of that number, from that of `b`, if there is
/// one.
pub(crate) fn generalized(
    table: &mut Table,
    rule: u32,
    b: Id,
    body: Option<Id>,
) -> Result<Option<Id>, Exhausted>
    requires b { IsKnown table.old b }
    requires body { IfSome body (IsKnown table.old) }
    ensures known { IfOk result (λ o. IfSome o (IsKnown table.new)) }
    ensures exact { (B : Form) (o : Option Tree) → tree_at table.old b ≡ form_encoding B
        → Stands table.old o body
        → IfOk result (Stands table.new (option_map (over_tree rule B) o)) }
    ensures extends { Extends table.old table.new }
    ensures memory { NeverResults result }
{
    match body {
        None => Ok(None),
        Some(p) => {
            let form = table.intern(Node::Lam(b))?;
            let under = table.intern(Node::Lam(p))?;
            let proof = rule_term(table, rule, &[form, under])?;
            Ok(Some(proof))
        }
    }
}
