//! Theorems about the definitions; nothing here runs.

ghost use Rattle.std.specs.Prelude.{◌≡◌, ◌≢◌, ℕ, ◌-◌, ◌^◌, ◌<◌, List, ◌++◌, Some};
ghost use Rattle.std.specs.FinMap.{get, insert};
ghost use Rattle.file_port.specs.Counts.{Rose, IsQuiet};
ghost use Rattle.file_port.specs.Files.{FileMap};
ghost use Rattle.file_port.specs.Sink.{SinkState, PutFails, Puts, with_piece};
ghost use Rattle.file_port.specs.declared.port.Put.{Put};

/// States the theorems about files, output and counts. Setting a file changes no other file (`set`,
/// `others`). Two writes to the output, one after the other, equal one write of both pieces
/// (`joined`, `part`). A count of failures rises until it is at its top (`rises`, `top`, `quiet`).
pub fn laws()
    ensures set { (files : FileMap) (name bytes : List ℕ) → get (insert files name bytes) name
        ≡ Some bytes }
    ensures others { (files : FileMap) (name bytes other : List ℕ) → other ≢ name
        → get (insert files name bytes) other ≡ get files other }
    ensures joined { (a b : List ℕ) (s t u : SinkState) (r : Put) → t ≡ with_piece a s
        → Puts b t u r → Puts (a ++ b) s u r }
    ensures part { (a b : List ℕ) (s t : SinkState) → PutFails a s t → PutFails (a ++ b) s t }
    ensures rises { (before now : ℕ) → Rose before now → before < 2 ^ 64 - 1 → before < now }
    ensures top { (now : ℕ) → Rose (2 ^ 64 - 1) now → now ≡ 2 ^ 64 - 1 }
    ensures quiet { (before now : ℕ) → IsQuiet before now → ¬ Rose before now }
{}
