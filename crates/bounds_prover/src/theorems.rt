//! Theorems about the containers that `prove` builds; their functions run nothing.

ghost use Rattle.bounds_prover.specs.ProvedLaws.{ProvedAccepted, ProvedSame};

use prover_class::class_laws;

/// States that the container checker accepts whatever `prove` makes of bytes, and that it is the
/// container in them with a proof in place of its own.
pub fn prove_laws()
    ensures accepted { ProvedAccepted }
    ensures same { ProvedSame }
{
    class_laws();
}
