//! What false formulas mean; nothing here runs.

ghost use Rattle.view_values.specs.Laws.{IsNeverTrue};

/// States that no state makes a formula true that is false by computing (`never`).
pub fn laws()
    ensures never { IsNeverTrue }
{}
