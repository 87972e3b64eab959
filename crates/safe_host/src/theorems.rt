//! Theorems about counts of steps; nothing here runs.

ghost use Rattle.safe_host.specs.Counts.{StepsCount};

/// States the theorems about counted runs: a run makes at most its budget of steps, a budget of
/// just these steps gives an equal run, and a run that is out of steps has made its whole budget.
pub fn count_laws()
    ensures { StepsCount }
{}
