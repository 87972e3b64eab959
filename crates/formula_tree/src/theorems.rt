//! Theorems about the definitions, with nothing to run.

ghost use Rattle.formula_tree.specs.Laws.{SubstTruth, VarTruth, ShiftTruth, ClosedTruth};
ghost use Rattle.formula_tree.specs.Laws.{ReadsTruth, StableTruth, SubstScope, VarScope};

/// Proves when substituted and shifted formulas are true, what truth doesn't depend on, and that
/// substitution keeps a formula well-scoped in its context.
pub fn laws()
    ensures subst { SubstTruth }
    ensures variable { VarTruth }
    ensures shift { ShiftTruth }
    ensures closed { ClosedTruth }
    ensures reads { ReadsTruth }
    ensures stable { StableTruth }
    ensures subst_scope { SubstScope }
    ensures variable_scope { VarScope }
{}
