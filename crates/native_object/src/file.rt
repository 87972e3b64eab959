//! The object file.

ghost use Rattle.std.specs.Prelude.{◌≡◌, ◌++◌, ◌<◌, ◌≤◌, ◌^◌, length, OnOk, IfOk};
ghost use Rattle.native_object.specs.Object as objects;

use crate::fields::{put_words, put_xwords};
use crate::sections::put_sections;
use std::alloc::{AllocError, Global};

/// The ELF header: identification, type and machine, version, entry and tables, flags, sizes.
const HEADER: [u8; 64] = [
    0x7f, 0x45, 0x4c, 0x46, 2, 1, 1, 0, 0, 0, 0, 0, 0, 0, 0, 0, //
    1, 0, 62, 0, 1, 0, 0, 0, 0, 0, 0, 0, 0, 0, 0, 0, //
    0, 0, 0, 0, 0, 0, 0, 0, 64, 0, 0, 0, 0, 0, 0, 0, //
    0, 0, 0, 0, 64, 0, 0, 0, 0, 0, 64, 0, 5, 0, 4, 0,
];

/// Appends the symbols, for the length of the text. Errors: out of memory.
fn put_symbols(out: &mut Vec<u8>, text: u64) -> Result<(), AllocError>
    ensures { OnOk result (out.new.items ≡ out.old.items ++ objects.symbols text) }
{
    out.extend_from_slice(&[0; 24])?;
    put_words(out, &[39])?;
    out.extend_from_slice(&[18, 0, 1, 0])?;
    put_xwords(out, &[0, text])?;
    Ok(())
}

/// Appends what stands in front of the text, for the lengths of name and text. Errors: out of memory.
fn put_front(out: &mut Vec<u8>, name: u64, text: u64) -> Result<(), AllocError>
    requires name { name < 2 ^ 32 }
    requires text { text < 2 ^ 32 }
    ensures { OnOk result (out.new.items ≡ out.old.items ++ objects.front name text) }
{
    out.extend_from_slice(&HEADER)?;
    put_sections(out, name, text)?;
    put_symbols(out, text)?;
    out.extend_from_slice(&[0; 16])?;
    Ok(())
}

/// Appends the names of sections and the function. Errors: out of memory.
fn put_names(out: &mut Vec<u8>, name: &[u8]) -> Result<(), AllocError>
    ensures { OnOk result (out.new.items ≡ out.old.items ++ objects.names name.now) }
{
    out.extend_from_slice(b"\0.text\0.note.GNU-stack\0.symtab\0.strtab\0")?;
    out.extend_from_slice(name)?;
    out.extend_from_slice(&[0])?;
    Ok(())
}

/// Returns the object file of one function with this name and this text. Errors: out of memory.
pub fn object(alloc: Global, name: &[u8], text: &[u8]) -> Result<Vec<u8>, AllocError>
    requires name { length name.now < 2 ^ 32 }
    requires text { length text.now < 2 ^ 32 }
    ensures exact { IfOk result (λ v. v.items ≡ objects.object_bytes name.now text.now) }
{
    let mut out = Vec::new(alloc);
    put_front(&mut out, name.len() as u64, text.len() as u64)?;
    out.extend_from_slice(text)?;
    put_names(&mut out, name)?;
    Ok(out)
}
