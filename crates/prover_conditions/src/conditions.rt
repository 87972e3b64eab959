//! The verification condition of annotated code, and its proof.
//!
//! Errors: out of memory, or the limit of the search, in which the terms that it builds count too,
//! is reached; each id keeps its tree.

ghost use Rattle.std.specs.Prelude.{◌≡◌, ◌<◌, ◌≤◌, true, map, length, IfOk, None, is_some};
ghost use Rattle.alpha_cfg.specs.Flow.{IsCode, AreOfProfile};
ghost use Rattle.alpha_cfg.specs.Cuts.{AreFlags, IsCut, unfolded_of};
ghost use Rattle.term_table.specs.Table.{Extends, id_trees};
ghost use Rattle.lf_signature.specs.Nodes.{IsIdOf};
ghost use Rattle.lf_terms.specs.Encoding.{form_encoding};
ghost use Rattle.vcgen.specs.Answers.{AreLowInvs};
ghost use Rattle.vcgen.specs.Encoded.{AreForms};
ghost use Rattle.vcgen.specs.Safety.{IsBound};
ghost use Rattle.vcgen.specs.declared.condition.TheConstants.{MAX_UNFOLDED};
ghost use Rattle.prover_class.specs.Parts.{conjoined};
ghost use Rattle.prover_conditions.specs.Conditions.{condition_parts};
ghost use Rattle.prover_conditions.specs.Conditions.{IsKnownAnswer, IsPartsAnswer, IsProofOfParts};
ghost use Rattle.word_ops.specs.declared.Profile.TheVariants.{One};
ghost use Rattle.word_ops.specs.Operators.{IsFirstOp};
ghost use Rattle.lf_signature.specs.declared.editions.WordSignature.{WordSignature};
ghost use Rattle.lf_signature.specs.declared.editions.WordSignature.TheVariants.{Sigma1, Sigma2};
ghost use Rattle.lf_signature.specs.Constants.{Longest};
ghost use Rattle.lf_signature.specs.Constants.{size_of, declared};
ghost use Rattle.lf_signature.specs.Known.{HasOp};
ghost use Rattle.lf_signature.specs.declared.numbers.TheConstants.{SUB_LO};
ghost use Rattle.formula_tree.specs.Operators.{Uses};
ghost use Rattle.policy_set.specs.Views.{PolicyUses};
ghost use Rattle.hereditary_subst.specs.Limits.{NeedsLimit};
ghost use Rattle.hereditary_subst.specs.declared.exhausted.Exhausted.TheVariants.{Results};

use crate::parts::{ConditionProof, proof_of_parts};
use alpha_cfg::Cut;
use hereditary_subst::{Exhausted, MOST_RESULTS, Memo};
use policy_set::Policy;
use prover_class::class_laws;
use prover_goals::Search;
use term_table::{Id, Table};
use vcgen::{VcFault, vc_with};

/// The most results that the search for a proof caches, counting its terms and steps. It is more
/// than a check's limit, since a goal that occurs in 2^16 contexts has to be decided in each.
pub const MOST_SEARCHED: usize = 6_500_000;

/// States what holds of every `Cut`; runs nothing.
fn is_cut_code(cut: &Cut)
    ensures code { IsCode cut.now.code }
    ensures cut { IsCut cut.now.code cut.now.marks }
{
    let _ = cut.code().insns();
}

/// States that a bound is a word, by its type; runs nothing.
fn is_word(bound: Option<u32>)
    ensures { IsBound bound }
{
    match bound {
        None => {}
        Some(_) => {} // opens the range of what it has for the prover
    }
}

/// Builds the encoding of the verification condition as the conjunction of its parts. The total
/// length of the paths between cut points has to be within its limit. The arguments are those of
/// `prove_condition`.
///
/// Errors: out of memory, and, if `limited`, `Results` if more results of substitution would be
/// cached than `vcgen` allows; each id keeps its tree.
pub fn condition_in(
    table: &mut Table,
    limited: bool,
    policy: &Policy,
    cut: &Cut,
    invs: &[(u32, Id)],
    bound: Option<u32>,
) -> Result<Id, Exhausted>
    requires invs { AreLowInvs table.old invs.now }
    requires forms { AreForms Longest bound (id_trees table.old invs.now) }
    requires marks { AreFlags (map (λ p. p.0) invs.now) (length cut.now.code) cut.now.marks }
    requires short { unfolded_of cut.now.code cut.now.marks ≤ MAX_UNFOLDED }
    ensures id { let invs = id_trees table.old invs.now in
        let parts = condition_parts policy.now bound cut.now.code invs in
        IfOk result (IsIdOf table.new (form_encoding (conjoined parts))) }
    ensures extends { Extends table.old table.new }
    ensures limit { NeedsLimit limited Results result }
{
    let mut memo = Memo::within(table.allocator(), limited, MOST_RESULTS);
    match vc_with(table, &mut memo, cut, policy, invs, bound) {
        Ok(condition) => Ok(condition),
        Err(VcFault::Memory) => Err(Exhausted::Memory),
        Err(VcFault::Results) => Err(Exhausted::Results),
        Err(VcFault::UnfoldLimit(_)) => unreachable!(),
    }
}

/// Proves the verification condition of annotated code under a policy, part by part, if each is
/// easy (`prover_class`), or names the first part that isn't. `invs` are the cut points, as
/// instruction indices, with the ids of their invariants, whose terms are formulas and no higher
/// than `vcgen::MAX_HEIGHT`. `bound` is the most steps that the code may make, if they are bounded.
///
/// A proof that is no higher than that limit checks against the condition over each signature that
/// has the condition's operators and, if steps are counted, the rule `sub_lo`: always over the
/// third. If steps aren't counted, it checks over the second too, and over the first if the code
/// and the policy's formulas are those of profile 1 and the invariants check over it. The table
/// gives its weight and height (`Table::weight`, `Table::height`).
///
/// Errors: out of memory, and, if `limited`, `Results` if the results that the search caches and
/// the terms that it builds are more than `MOST_SEARCHED`, or as `condition_in`.
pub fn prove_condition(
    table: &mut Table,
    limited: bool,
    policy: &Policy,
    cut: &Cut,
    invs: &[(u32, Id)],
    bound: Option<u32>,
) -> Result<ConditionProof, Exhausted>
    requires invs { AreLowInvs table.old invs.now }
    requires forms { AreForms Longest bound (id_trees table.old invs.now) }
    requires marks { AreFlags (map (λ p. p.0) invs.now) (length cut.now.code) cut.now.marks }
    requires short { unfolded_of cut.now.code cut.now.marks ≤ MAX_UNFOLDED }
    ensures known { IfOk result (IsKnownAnswer table.new) }
    ensures exact { let invs = id_trees table.old invs.now in
        let parts = condition_parts policy.now bound cut.now.code invs in
        IfOk result (IsPartsAnswer table.new (is_some bound) 0 parts) }
    ensures proves { let invs = id_trees table.old invs.now in
        let parts = condition_parts policy.now bound cut.now.code invs in (s : WordSignature)
        → (is_some bound ≡ true → SUB_LO < size_of s) → Uses (HasOp (declared s)) (conjoined parts)
        → IfOk result (IsProofOfParts s table.new parts) }
    ensures first { let invs = id_trees table.old invs.now in
        let parts = condition_parts policy.now bound cut.now.code invs in
        bound ≡ None → AreForms Sigma1 bound invs → AreOfProfile One cut.now.code
        → PolicyUses IsFirstOp policy.now
        → IfOk result (IsProofOfParts Sigma1 table.new parts) }
    ensures second { let invs = id_trees table.old invs.now in
        let parts = condition_parts policy.now bound cut.now.code invs in
        bound ≡ None → IfOk result (IsProofOfParts Sigma2 table.new parts) }
    ensures third { let invs = id_trees table.old invs.now in
        let parts = condition_parts policy.now bound cut.now.code invs in
        IfOk result (IsProofOfParts Longest table.new parts) }
    ensures extends { Extends table.old table.new }
    ensures limit { NeedsLimit limited Results result }
{
    class_laws();
    is_cut_code(cut);
    is_word(bound);
    policy.laws(); // tells the prover what the formulas name
    let condition = condition_in(table, limited, policy, cut, invs, bound)?;
    let mut search = Search::within(table, limited, MOST_SEARCHED);
    let found = proof_of_parts(table, &mut search, bound.is_some(), condition, 0)?;
    Ok(found)
}
