//! Which calls of an object in memory are made to fail.

ghost use Rattle.std.specs.Prelude.{◌≡◌};
ghost use Rattle.file_port.specs.Calls.{is_failing};

/// Returns whether the number of this call is in the list `failing`.
pub fn is_failing(failing: &[u32], call: u64) -> bool
    ensures { result ≡ is_failing failing.now call }
{
    failing.iter().any(|n| *n as u64 == call)
}
