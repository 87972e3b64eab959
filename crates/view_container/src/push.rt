//! Bytes as text.

ghost use Rattle.std.specs.Prelude.{◌≡◌, ◌++◌, OnOk};
ghost use Rattle.hex.specs.Hex.{encode_lower};

use hex::encode;
use std::alloc::{AllocError, Global};

/// Appends each byte as two lower-case hexadecimal digits.
pub fn push_hex(alloc: Global, out: &mut Vec<u8>, bytes: &[u8]) -> Result<(), AllocError>
    ensures { OnOk result (out.new.items ≡ out.old.items ++ encode_lower bytes.now) }
{
    let text = encode(alloc, bytes)?;
    out.extend_from_slice(text.as_bytes())
}
