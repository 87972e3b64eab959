//! Theorems about the definitions; nothing here runs.

ghost use Rattle.std.specs.Prelude.{◌≡◌, ◌↔◌, ℕ, List, Ok, Err};
ghost use Rattle.agent_script.specs.declared.fault.ScriptFlaw.{ScriptFlaw};
ghost use Rattle.agent_script.specs.Scripts.{ScriptView, parsed_script};
ghost use Rattle.agent_script.specs.Texts.{SpellsScript, HasFault};

/// States that reading agrees with the definition of scripts, in both directions. A text is read as
/// the script that it is, line by line (`reads`). If it is read as a fault, the line of that number
/// is its first wrong one, in the way that the kind says, or the text has no lines (`means`). So no
/// text is two scripts, or both a script and faulty.
pub fn laws()
    ensures reads { (text : List ℕ) (script : ScriptView)
        → (parsed_script text ≡ Ok script) ↔ SpellsScript text script }
    ensures means { (text : List ℕ) (line : ℕ) (flaw : ScriptFlaw)
        → (parsed_script text ≡ Err (line, flaw)) ↔ HasFault text line flaw }
{}
