//! Theorems about the definitions, with nothing to run.

ghost use Rattle.std.specs.Prelude.{◌≡◌, ◌↔◌, ℕ, List};
ghost use Rattle.text_tokens.specs.Lines.{AreLines, lines_of};

/// Proves that a text has lines exactly if the function gives them, so each text has exactly one
/// list of lines.
pub fn laws()
    ensures lines { (text : List ℕ) (ls : List (List ℕ)) → AreLines text ls ↔ (lines_of text ≡ ls) }
{}
