//! Numbers as bytes, little-endian.

ghost use Rattle.std.specs.Prelude.{◌≡◌, ◌++◌, OnOk};
ghost use Rattle.native_object.specs.Object as objects;

use std::alloc::AllocError;

/// Appends numbers of four bytes. Errors: out of memory.
pub(crate) fn put_words(out: &mut Vec<u8>, words: &[u32]) -> Result<(), AllocError>
    ensures { OnOk result (out.new.items ≡ out.old.items ++ objects.word_bytes words.now) }
{
    for word in words {
        out.extend_from_slice(&word.to_le_bytes())?;
    }
    Ok(())
}

/// Appends numbers of eight bytes. Errors: out of memory.
pub(crate) fn put_xwords(out: &mut Vec<u8>, words: &[u64]) -> Result<(), AllocError>
    ensures { OnOk result (out.new.items ≡ out.old.items ++ objects.xword_bytes words.now) }
{
    for word in words {
        out.extend_from_slice(&word.to_le_bytes())?;
    }
    Ok(())
}
