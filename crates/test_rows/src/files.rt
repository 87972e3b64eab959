//! Lists of files, each a name and bytes.

use std::alloc::{AllocError, Global};

/// Returns the bytes of the file with this name, or None if there is none.
pub fn found<'a>(files: &'a [(String, Vec<u8>)], name: &str) -> Option<&'a [u8]> {
    files
        .iter()
        .find(|file| name == file.0.as_str())
        .map(|file| file.1.as_slice())
}

/// Sets the bytes of the file with this name, which need not exist before.
pub fn placed(
    alloc: Global,
    files: &mut Vec<(String, Vec<u8>)>,
    name: &str,
    bytes: Vec<u8>,
) -> Result<(), AllocError> {
    for file in files.iter_mut() {
        if name == file.0.as_str() {
            file.1 = bytes;
            return Ok(());
        }
    }
    files.push((String::from_str(alloc, name)?, bytes))?;
    Ok(())
}

/// Returns a copy of the files.
pub fn copied(
    alloc: Global,
    files: &[(String, Vec<u8>)],
) -> Result<Vec<(String, Vec<u8>)>, AllocError> {
    let mut copies = Vec::new(alloc);
    for file in files.iter() {
        copies.push((
            String::from_str(alloc, file.0.as_str())?,
            Vec::from_slice(alloc, file.1.as_slice())?,
        ))?;
    }
    Ok(copies)
}
