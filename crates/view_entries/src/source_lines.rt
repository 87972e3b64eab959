//! Lines of a source beside a container.

ghost use Rattle.std.specs.Prelude.{◌≡◌, ◌++◌, slice_get, OnOk};
ghost use Rattle.view_entries.specs.SourceLines.{source_place};

use crate::entries::push_number;
use std::alloc::AllocError;

/// Appends the line of the source that the instruction at an index is in, as ` line 12`, if `lines`
/// has one at that index.
///
/// Errors: out of memory; what is appended then is unspecified.
pub fn push_source_line(out: &mut Vec<u8>, lines: &[u32], index: usize) -> Result<(), AllocError>
    ensures { let line = source_place (slice_get lines.now index) in
        OnOk result (out.new.items ≡ out.old.items ++ line) }
{
    match lines.get(index) {
        None => Ok(()),
        Some(line) => {
            out.extend_from_slice(b" line ")?;
            push_number(out, u64::from(*line))
        }
    }
}
