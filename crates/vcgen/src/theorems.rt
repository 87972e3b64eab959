//! Theorems about verification conditions; their functions run nothing.

ghost use Rattle.std.specs.Prelude.{◌≡◌, ◌<◌, ◌^◌, true, List, length, drop, [], None, Some};
ghost use Rattle.term_table.specs.Subst.{Base, hsub};
ghost use Rattle.lf_signature.specs.declared.numbers.TheConstants.{EXP};
ghost use Rattle.formula_tree.specs.Formulas.{Exp, MemExp, Form};
ghost use Rattle.formula_tree.specs.Sizes.{form_height};
ghost use Rattle.formula_tree.specs.Substitution.{subst_exp, subst_mem, subst_form};
ghost use Rattle.lf_encode.specs.declared.contexts.Sort.{Sort};
ghost use Rattle.lf_encode.specs.Contexts.{has_left, IsExpIn, IsMemIn, IsFormIn};
ghost use Rattle.lf_encode.specs.Contexts.{exp_encoding_in, mem_encoding_in, encoding_in};
ghost use Rattle.vcgen.specs.Assignments.{for_left};
ghost use Rattle.policy_set.specs.declared.kind.PolicyKind.TheVariants.{Filter, Tag, Table};
ghost use Rattle.policy_set.specs.Views.{built_in};
ghost use Rattle.vcgen.specs.Conditions.{condition};
ghost use Rattle.vcgen.specs.Encoded.{annotated};
ghost use Rattle.vcgen.specs.Worked.{ret_alone, filter_ret, tag_ret, table_ret};
ghost use Rattle.vcgen.specs.Worked.{counting, counting_invs, counting_condition};
ghost use Rattle.vcgen.specs.Worked.{guarded, guarded_condition};
ghost use Rattle.vcgen.specs.Worked.{twice, twice_condition, computing, computing_condition};
ghost use Rattle.vcgen.specs.WorkedCounted.{bounded_ret, storing, bounded_store};
ghost use Rattle.vcgen.specs.WorkedCounted.{branching, bounded_branch, looping, looping_invs};
ghost use Rattle.vcgen.specs.WorkedCounted.{bounded_loop, staying, staying_invs, bounded_entry};
ghost use Rattle.vcgen.specs.WorkedCounted.{losing, bounded_zero, tagging, tagging_invs};
ghost use Rattle.vcgen.specs.WorkedCounted.{bounded_access};
ghost use Rattle.vcgen.specs.Laws.{WpUnfolds, ConditionSafe, ConditionReturns, HoldsAtStart};
ghost use Rattle.vcgen.specs.Laws.{StepsGood, RunsGood, ConditionClosed};
ghost use Rattle.vcgen.specs.Laws.{FormsWider, EncodingExists, EncodingUnique};
ghost use Rattle.vcgen.specs.Laws.{EncodedAnnotates, PolicySafe, PolicyReturns};

/// States that code whose verification condition is true in every structure is safe. From each
/// state at index 0 that satisfies the precondition no run is stopped by an access violation, and a
/// return satisfies the postcondition; if its steps are counted, the code returns within the bound.
/// The weakest precondition of an index holds at the start, and again after each step.
pub fn condition_laws()
    ensures wp { WpUnfolds }
    ensures safe { ConditionSafe }
    ensures returns { ConditionReturns }
    ensures start { HoldsAtStart }
    ensures steps { StepsGood }
    ensures runs { RunsGood }
    ensures closed { ConditionClosed }
{}

/// States that invariants that are well-typed formulas, over any signature of word arithmetic, have
/// exactly one condition under a policy. If it is true, the code is safe for the policy, and
/// returns within the step bound if there is one.
pub fn encoding_laws()
    ensures wider { FormsWider }
    ensures exists { EncodingExists }
    ensures unique { EncodingUnique }
    ensures annotates { EncodedAnnotates }
    ensures safe { PolicySafe }
    ensures returns { PolicyReturns }
{}

/// States that the conditions of some short programs under the policies are those of
/// `specs/Worked`, and with step bounds those of `specs/WorkedCounted`, which were written out by
/// hand.
pub fn worked_conditions()
    ensures filter_ret { condition (annotated (built_in Filter) None ret_alone []) ≡ filter_ret }
    ensures tag_ret { condition (annotated (built_in Tag) None ret_alone []) ≡ tag_ret }
    ensures table_ret { condition (annotated (built_in Table) None ret_alone []) ≡ table_ret }
    ensures counting { condition (annotated (built_in Filter) None counting counting_invs)
        ≡ counting_condition }
    ensures guarded { condition (annotated (built_in Tag) None guarded []) ≡ guarded_condition }
    ensures twice { condition (annotated (built_in Tag) None twice []) ≡ twice_condition }
    ensures computing { condition (annotated (built_in Filter) None computing [])
        ≡ computing_condition }
    ensures bounded_ret { condition (annotated (built_in Filter) (Some 7) ret_alone [])
        ≡ bounded_ret }
    ensures bounded_store { condition (annotated (built_in Tag) (Some 2) storing [])
        ≡ bounded_store }
    ensures bounded_branch { condition (annotated (built_in Tag) (Some 3) branching [])
        ≡ bounded_branch }
    ensures bounded_loop { condition (annotated (built_in Tag) (Some 41) looping looping_invs)
        ≡ bounded_loop }
    ensures bounded_entry { condition
        (annotated (built_in Tag) (Some 1000000000) staying staying_invs) ≡ bounded_entry }
    ensures bounded_zero { condition (annotated (built_in Filter) (Some 3) losing [])
        ≡ bounded_zero }
    ensures bounded_access { condition (annotated (built_in Tag) (Some 3) tagging tagging_invs)
        ≡ bounded_access }
{}

/// States that, over a context of `left`, m, r0 to r30 and bound variables, hereditary substitution
/// for the variable of `left` is substitution for `left`. What is put for it is an expression over
/// the context without `left`: it may name m, registers and bound variables. The result is encoded
/// over that context, whose furthest variables are m and r0 to r30. For formulas, the height and the
/// context's length have to be below 2^31.
///
/// `substitution_in_contexts` of lf_encode says it of bound variables, and of any variable for parts
/// over variables alone.
pub fn left_laws()
    ensures exps { (ctx : List Sort) (e put : Exp) →
        let rest : List Sort = drop 1 ctx in
        has_left ctx ≡ true → IsExpIn ctx 32 e →
        hsub (Base EXP) (exp_encoding_in rest put) (length rest) (exp_encoding_in ctx e)
        ≡ Some (exp_encoding_in rest (subst_exp e (for_left put))) }
    ensures mems { (ctx : List Sort) (m : MemExp) (put : Exp) →
        let rest : List Sort = drop 1 ctx in
        has_left ctx ≡ true → IsMemIn ctx 32 m →
        hsub (Base EXP) (exp_encoding_in rest put) (length rest) (mem_encoding_in ctx m)
        ≡ Some (mem_encoding_in rest (subst_mem m (for_left put))) }
    ensures forms { (ctx : List Sort) (F : Form) (put : Exp) →
        let rest : List Sort = drop 1 ctx in
        has_left ctx ≡ true → IsFormIn ctx 32 F → IsExpIn rest 32 put →
        form_height F < 2 ^ 31 → length ctx < 2 ^ 31 →
        hsub (Base EXP) (exp_encoding_in rest put) (length rest) (encoding_in ctx F)
        ≡ Some (encoding_in rest (subst_form F (for_left put))) }
{}
