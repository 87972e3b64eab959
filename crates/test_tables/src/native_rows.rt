//! Rows on native code and object files.

use crate::bytes::{field, hex_bytes};
use crate::runs::code_in;
use native_object::object;
use native_translator::translate;
use std::alloc::{AllocError, Global};

/// Returns the bytes that the code of a line is translated to, in hexadecimal.
pub fn code_answer(alloc: Global, line: &str) -> Result<String, AllocError> {
    let metered = field(line, 0) == "fuel";
    match code_in(alloc, field(line, 1))? {
        Some(code) => {
            let bytes = translate(alloc, &code, metered)?;
            hex::encode(alloc, bytes.as_slice())
        }
        None => format!(in alloc; "no code"),
    }
}

/// Returns the object file of the name and the text of a line, in hexadecimal.
pub fn object_answer(alloc: Global, line: &str) -> Result<String, AllocError> {
    match hex_bytes(alloc, field(line, 1))? {
        Some(text) => {
            if text.len() > 4096 {
                return format!(in alloc; "too long");
            }
            let name = field(line, 0);
            if name.len() > 255 {
                return format!(in alloc; "too long");
            }
            let file = object(alloc, name.as_bytes(), text.as_slice())?;
            hex::encode(alloc, file.as_slice())
        }
        None => format!(in alloc; "no bytes"),
    }
}
