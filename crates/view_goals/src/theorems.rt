//! Theorems about goals; nothing here runs.

ghost use Rattle.view_goals.specs.Laws.{AreConditions, IsEntryPart, AreInvParts};

/// States that the goals add up to the verification condition. The goals that an index asks for,
/// conjoined as the code asks for them, are the condition's weakest precondition at that index
/// (`conditions`). The goals of each part, under the part's hypothesis, are that part (`entry`,
/// `invs`).
pub fn laws()
    ensures conditions { AreConditions }
    ensures entry { IsEntryPart }
    ensures invs { AreInvParts }
{}
