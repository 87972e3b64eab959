//! Test cases for the prover's fragment: goals with the proofs that another implementation gives
//! them.
//!
//! No crate depends on this one. Its definitions are rows (`specs/`), against which Rattle checks
//! `prover_class`; they don't define the class.
#![tactic(auto)]

ghost use Rattle.std.specs.Prelude.{true, false};
ghost use Rattle.test_class.specs.Small.{AreWorked, small_rows};
ghost use Rattle.test_class.specs.Returns.{return_rows};
ghost use Rattle.test_class.specs.Loads.{load_rows};
ghost use Rattle.test_class.specs.Shapes.{shape_rows};
ghost use Rattle.test_class.specs.Forms.{form_rows};
ghost use Rattle.test_class.specs.Bounds.{bound_rows};
ghost use Rattle.test_class.specs.Access.{access_rows};
ghost use Rattle.test_class.specs.Later.{later_sums, later_bits, later_bytes, later_others};
ghost use Rattle.test_class.specs.Counted.{counted_differences, counted_sums, uncounted_rows};

/// States that the class gives goals and parts of conditions what a second implementation gives
/// them: that proof, term for term, or none. An independent implementation also makes equal
/// containers for nearly all of these goals that the first profile's operators are in (of all rows
/// but the last seven lists).
pub fn worked_rows()
    ensures small { AreWorked false small_rows }
    ensures code_that_returns { AreWorked false return_rows }
    ensures code_that_loads { AreWorked false load_rows }
    ensures shapes { AreWorked false shape_rows }
    ensures forms { AreWorked false form_rows }
    ensures bounds { AreWorked false bound_rows }
    ensures access { AreWorked false access_rows }
    ensures later_sums { AreWorked false later_sums }
    ensures later_bits { AreWorked false later_bits }
    ensures later_bytes { AreWorked false later_bytes }
    ensures later_others { AreWorked false later_others }
    ensures differences { AreWorked true counted_differences }
    ensures counted_sums { AreWorked true counted_sums }
    ensures uncounted { AreWorked false uncounted_rows }
{}
