//! Room that is reserved for one write.

ghost use Rattle.std.specs.Prelude.{◌≡◌, ◌≤◌, [], length, string_bytes, vec_capacity};
ghost use Rattle.std.specs.String.{string_capacity};
ghost use Rattle.file_port.specs.declared.spare.TheConstants.{MAX_NAME, MAX_BYTES};

use std::alloc::{AllocError, Global};

/// The maximal length in bytes of the name of a file that is written.
pub const MAX_NAME: usize = 255;

/// The maximal number of bytes of one write.
pub const MAX_BYTES: usize = 4_194_304;

/// An empty name and empty bytes, with room for those of one write.
#[derive(Drop)]
pub struct Spare {
    name: String,
    bytes: Vec<u8>,
    ghost no_name: { string_bytes name ≡ [] },
    ghost name_room: { MAX_NAME ≤ string_capacity name },
    ghost no_bytes: { bytes.items ≡ [] },
    ghost bytes_room: { MAX_BYTES ≤ vec_capacity bytes },
}

impl Spare {
    /// Reserves the room for one write.
    ///
    /// Errors: out of memory.
    pub fn new(alloc: Global) -> Result<Spare, AllocError> {
        Ok(Spare {
            name: String::with_capacity(alloc, MAX_NAME)?,
            bytes: Vec::with_capacity(alloc, MAX_BYTES)?,
        })
    }

    /// Returns the name and the bytes, without taking more memory.
    pub fn filled(self, name: &str, bytes: &[u8]) -> (String, Vec<u8>)
        requires name { length name.now ≤ MAX_NAME }
        requires bytes { length bytes.now ≤ MAX_BYTES }
        ensures name { string_bytes result.0 ≡ name.now }
        ensures bytes { result.1.items ≡ bytes.now }
    {
        let Spare {
            name: mut own_name,
            bytes: mut own_bytes,
        } = self;
        own_name.push_str(name).unwrap();
        own_bytes.extend_from_slice(bytes).unwrap();
        (own_name, own_bytes)
    }
}
