//! Theorems about a listing's last line; nothing here runs.

ghost use Rattle.view_goal_text.specs.Laws.{NamesFirst};

use view_goals::laws as goal_laws;
use view_marks::mark_laws;

/// States that the last line of a listing names the first part of the condition that isn't easy, if
/// there is one: the part that `prover_conditions::prove_condition` names.
pub fn laws()
    ensures first { NamesFirst }
{
    goal_laws();
    mark_laws();
}
