//! Theorems about the definition, with nothing to run.

ghost use Rattle.std.specs.Prelude.{ℕ, List};
ghost use Rattle.native_object.specs.Standing.{StandsAsSaid, NamesStand};

/// Proves that the parts of an object file stand where its headers say (`parts`), and the names of
/// the sections and the function where the string table's offsets say (`names`).
pub fn laws()
    ensures parts { (name text : List ℕ) → StandsAsSaid name text }
    ensures names { (name : List ℕ) → NamesStand name }
{}
