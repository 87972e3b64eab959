//! Theorems about the definitions, with nothing to run.

ghost use Rattle.native_steps.specs.Agreement.{SimulatesInsn, StraightInsns, Tests};
ghost use Rattle.native_steps.specs.Compares.{Joins};

/// Proves that the sequence of an Alpha instruction does what the instruction does.
///
/// It keeps states in agreement, if the instruction isn't blocked and the registers that it reads are
/// somewhere (`simulates`). The flags that a test leaves say whether the branch is taken (`tests`),
/// and so do those of a compare, for the branch that is joined to it (`joins`).
/// Each instruction of a sequence has bytes, and goes on at the next (`straight`).
pub fn laws()
    ensures simulates { SimulatesInsn }
    ensures tests { Tests }
    ensures joins { Joins }
    ensures straight { StraightInsns }
{}
