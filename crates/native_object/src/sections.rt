//! Section headers.

ghost use Rattle.std.specs.Prelude.{◌≡◌, ◌+◌, ◌++◌, ◌<◌, ◌^◌, OnOk};
ghost use Rattle.std.specs.List.{flat_map};
ghost use Rattle.native_object.specs.Object as objects;

use crate::fields::{put_words, put_xwords};
use std::alloc::AllocError;

/// A section header. The address is always 0.
#[derive(Clone, Copy, Debug, PartialEq, Eq)]
pub struct Section {
    /// Where the name begins in the string table.
    pub name: u32,
    /// The type.
    pub kind: u32,
    /// The flags.
    pub flags: u64,
    /// Where the section's bytes begin in the file.
    pub offset: u64,
    /// The length in bytes.
    pub size: u64,
    /// The section that has the names.
    pub link: u32,
    /// The index of the first global symbol.
    pub info: u32,
    /// The alignment in bytes.
    pub align: u64,
    /// The length of an entry in bytes.
    pub entry: u64,
}

impl Section {
    /// Appends the header. Errors: out of memory.
    fn put(&self, out: &mut Vec<u8>) -> Result<(), AllocError>
        ensures { OnOk result (out.new.items ≡ out.old.items ++ objects.section_bytes self.now) }
    {
        put_words(out, &[self.name, self.kind])?;
        put_xwords(out, &[self.flags, 0, self.offset, self.size])?;
        put_words(out, &[self.link, self.info])?;
        put_xwords(out, &[self.align, self.entry])?;
        Ok(())
    }
}

/// Returns the header of section 0.
fn null_section() -> Section
    ensures { result ≡ objects.null_section }
{
    Section {
        name: 0,
        kind: 0,
        flags: 0,
        offset: 0,
        size: 0,
        link: 0,
        info: 0,
        align: 0,
        entry: 0,
    }
}

/// Returns the header of `.text`, for its length.
fn text_section(size: u64) -> Section
    ensures { result ≡ objects.text_section size }
{
    Section {
        name: 1,
        kind: 1,
        flags: 6,
        offset: 448,
        size,
        align: 32,
        ..null_section()
    }
}

/// Returns the header of `.note.GNU-stack`, for the offset where it would begin.
fn stack_section(end: u64) -> Section
    ensures { result ≡ objects.stack_section end }
{
    Section {
        name: 7,
        kind: 1,
        offset: end,
        align: 1,
        ..null_section()
    }
}

/// Returns the header of `.symtab`.
fn symbol_section() -> Section
    ensures { result ≡ objects.symbol_section }
{
    Section {
        name: 23,
        kind: 2,
        offset: 384,
        size: 48,
        link: 4,
        info: 1,
        align: 8,
        entry: 24,
        ..null_section()
    }
}

/// Returns the header of `.strtab`, for its offset and length.
fn name_section(at: u64, size: u64) -> Section
    ensures { result ≡ objects.name_section at size }
{
    Section {
        name: 31,
        kind: 3,
        offset: at,
        size,
        align: 1,
        ..null_section()
    }
}

/// Appends section headers. Errors: out of memory.
fn put_all(out: &mut Vec<u8>, sections: &[Section]) -> Result<(), AllocError>
    ensures { OnOk result (out.new.items
        ≡ out.old.items ++ flat_map objects.section_bytes sections.now) }
{
    for section in sections {
        section.put(out)?;
    }
    Ok(())
}

/// Appends the headers of all sections, for the lengths of name and text. Errors: out of memory.
pub(crate) fn put_sections(out: &mut Vec<u8>, name: u64, text: u64) -> Result<(), AllocError>
    requires name { name < 2 ^ 32 }
    requires text { text < 2 ^ 32 }
    ensures { OnOk result (out.new.items
        ≡ out.old.items ++ flat_map objects.section_bytes (objects.sections name text)) }
{
    let end = 448 + text;
    let all = [
        null_section(),
        text_section(text),
        stack_section(end),
        symbol_section(),
        name_section(end, 40 + name),
    ];
    put_all(out, &all)
}
