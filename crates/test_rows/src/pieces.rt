//! The pieces that the bytes of a file are made of, a line each.

use crate::files::found;
use crate::numbers::{hex_bytes, number, number_at};
use crate::shapes::{balanced, container};
use std::alloc::{AllocError, Global};

/// The bytes of fields of 32 bits, in repetition `k`.
fn fields(alloc: Global, text: &str, k: u32) -> Result<Option<Vec<u8>>, AllocError> {
    let mut bytes = Vec::new(alloc);
    for word in text.split_whitespace() {
        match number_at(word, k) {
            Some(field) => bytes.extend_from_slice(&field.to_le_bytes())?,
            None => return Ok(None),
        }
    }
    Ok(Some(bytes))
}

/// A text, and an end of line where `ends`.
fn line(alloc: Global, text: &str, ends: bool) -> Result<Option<Vec<u8>>, AllocError> {
    let mut bytes = Vec::from_slice(alloc, text.as_bytes())?;
    if ends {
        bytes.push(b'\n')?;
    }
    Ok(Some(bytes))
}

/// So many bytes 0.
fn zeros(alloc: Global, text: &str) -> Result<Option<Vec<u8>>, AllocError> {
    match number(text) {
        Some(count) => Ok(Some(vec![in alloc; 0; count as usize]?)),
        None => Ok(None),
    }
}

/// The first bytes of a file, `COUNT NAME`.
fn first(
    alloc: Global,
    files: &[(String, Vec<u8>)],
    text: &str,
) -> Result<Option<Vec<u8>>, AllocError> {
    let Some((count, name)) = text.split_once(' ') else {
        return Ok(None);
    };
    let Some(count) = number(count) else {
        return Ok(None);
    };
    match found(files, name) {
        Some(bytes) => Ok(Some(Vec::from_slice(alloc, &bytes[..bytes.len().min(count as usize)])?)),
        None => Ok(None),
    }
}

/// All bytes of a file.
fn copy(
    alloc: Global,
    files: &[(String, Vec<u8>)],
    name: &str,
) -> Result<Option<Vec<u8>>, AllocError> {
    match found(files, name) {
        Some(bytes) => Ok(Some(Vec::from_slice(alloc, bytes)?)),
        None => Ok(None),
    }
}

/// The bytes with another field of 32 bits at an offset, if all of it lies within them.
fn with_field(
    alloc: Global,
    bytes: &[u8],
    offset: usize,
    field: u32,
) -> Result<Option<Vec<u8>>, AllocError> {
    if offset > bytes.len() || bytes.len() - offset < 4 {
        return Ok(None);
    }
    let mut changed = Vec::from_slice(alloc, &bytes[..offset])?;
    changed.extend_from_slice(&field.to_le_bytes())?;
    changed.extend_from_slice(&bytes[offset + 4..])?;
    Ok(Some(changed))
}

/// A file with another field, `OFFSET VALUE NAME`.
fn patched(
    alloc: Global,
    files: &[(String, Vec<u8>)],
    text: &str,
) -> Result<Option<Vec<u8>>, AllocError> {
    let Some((offset, rest)) = text.split_once(' ') else {
        return Ok(None);
    };
    let Some((value, name)) = rest.split_once(' ') else {
        return Ok(None);
    };
    let Some(offset) = number(offset) else {
        return Ok(None);
    };
    let Some(value) = number(value) else {
        return Ok(None);
    };
    match found(files, name) {
        Some(bytes) => with_field(alloc, bytes, offset as usize, value),
        None => Ok(None),
    }
}

/// The bytes of one piece in repetition `k`, or None where the line is no piece.
fn piece_at(
    alloc: Global,
    files: &[(String, Vec<u8>)],
    key: &str,
    text: &str,
    k: u32,
) -> Result<Option<Vec<u8>>, AllocError> {
    match key {
        "hex" => hex_bytes(alloc, text),
        "u32" => fields(alloc, text, k),
        "text" => line(alloc, text, true),
        "part" => line(alloc, text, false),
        "zeros" => zeros(alloc, text),
        "code" => container(alloc, text),
        "copy" => copy(alloc, files, text),
        "first" => first(alloc, files, text),
        "field" => patched(alloc, files, text),
        "balanced" => balanced(alloc, text),
        _ => Ok(None),
    }
}

/// A piece so many times, `COUNT KEY TEXT`.
fn repeated(
    alloc: Global,
    files: &[(String, Vec<u8>)],
    text: &str,
) -> Result<Option<Vec<u8>>, AllocError> {
    let Some((count, rest)) = text.split_once(' ') else {
        return Ok(None);
    };
    let Some((key, inner)) = rest.split_once(' ') else {
        return Ok(None);
    };
    let Some(count) = number(count) else {
        return Ok(None);
    };
    let mut bytes = Vec::new(alloc);
    for k in 0..count {
        match piece_at(alloc, files, key, inner, k)? {
            Some(piece) => bytes.extend_from_slice(piece.as_slice())?,
            None => return Ok(None),
        }
    }
    Ok(Some(bytes))
}

/// Returns the bytes of a line that is a piece, or None if it isn't one.
pub fn piece(
    alloc: Global,
    files: &[(String, Vec<u8>)],
    key: &str,
    text: &str,
) -> Result<Option<Vec<u8>>, AllocError> {
    match key {
        "times" => repeated(alloc, files, text),
        _ => piece_at(alloc, files, key, text, 0),
    }
}
