//! Loop heads.

ghost use Rattle.std.specs.Prelude.{◌≡◌, ◌<◌, length};
ghost use Rattle.native_code.specs.Heads as heads;

use alpha_cfg::Code;
use native_lives::is_jumped_to;

/// Checks whether the index is a loop head: the target of a jump from itself or a later index.
pub(crate) fn is_loop_head(code: &Code, head: u32) -> bool
    requires { head < length code.now }
    ensures { result ≡ heads.is_loop_head code.now head }
{
    is_jumped_to(code, head, head)
}
