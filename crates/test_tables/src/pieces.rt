//! Parsing the bytes of containers, written as pieces that are separated by blanks.

use std::alloc::{AllocError, Global};

/// Appends fields of four bytes, the lowest first.
fn put(bytes: &mut Vec<u8>, fields: &[u32]) -> Result<(), AllocError> {
    for field in fields {
        bytes.extend_from_slice(&field.to_le_bytes())?;
    }
    Ok(())
}

/// The number that a field has where it stands for this time, from 0 on; None where it is none.
fn number(field: &str, time: u32) -> Option<u32> {
    match field.split_once('+') {
        None => field.parse::<u32>().ok(),
        Some((first, step)) => {
            let first = first.parse::<u32>().ok()?;
            let step = step.parse::<u32>().ok()?;
            Some(first.wrapping_add(step.wrapping_mul(time)))
        }
    }
}

/// Appends the fields of a group where it stands for this time; false where one is no number.
fn put_group(bytes: &mut Vec<u8>, group: &str, time: u32) -> Result<bool, AllocError> {
    for field in group.split(',') {
        let Some(number) = number(field, time) else {
            return Ok(false);
        };
        put(bytes, &[number])?;
    }
    Ok(true)
}

/// Appends a group so many times; false where a field is no number.
fn put_groups(bytes: &mut Vec<u8>, times: u32, group: &str) -> Result<bool, AllocError> {
    for time in 0..times {
        if !put_group(bytes, group, time)? {
            return Ok(false);
        }
    }
    Ok(true)
}

/// Appends as many applications as the number has zeros at its end, each of the last two trees, and
/// gives the count of the entries.
fn join(bytes: &mut Vec<u8>, count: u32, number: u32) -> Result<u32, AllocError> {
    let mut count = count;
    let mut size = 1u32;
    for _ in 0..number.trailing_zeros() {
        size = size.saturating_mul(2);
        let first = count.saturating_sub(size);
        let second = count.saturating_sub(1);
        put(bytes, &[6, first, second])?;
        count = count.saturating_add(1);
    }
    Ok(count)
}

/// Appends the entries of the balanced tree over so many literals, the words k with k above it from
/// 1 on.
fn put_balanced(bytes: &mut Vec<u8>, literals: u32) -> Result<(), AllocError> {
    let mut count = 0u32;
    for before in 0..literals {
        let k = before + 1;
        put(bytes, &[2, k, k])?;
        count = join(bytes, count.saturating_add(1), k)?;
    }
    Ok(())
}

/// Appends what stands behind a star, as often as what stands in front of it says; false where that
/// is nothing.
fn put_repeated(bytes: &mut Vec<u8>, front: &str, behind: &str) -> Result<bool, AllocError> {
    if front != "balanced" {
        return match front.parse::<u32>() {
            Ok(times) => put_groups(bytes, times, behind),
            Err(_) => Ok(false),
        };
    }
    let Ok(literals) = behind.parse::<u32>() else {
        return Ok(false);
    };
    put_balanced(bytes, literals)?;
    Ok(true)
}

/// Appends a piece; false where it is none.
fn put_piece(alloc: Global, bytes: &mut Vec<u8>, piece: &str) -> Result<bool, AllocError> {
    if piece == "PCCA" {
        bytes.extend_from_slice(b"PCCA")?;
        return Ok(true);
    }
    if let Some(digits) = piece.strip_prefix("#") {
        let Ok(part) = hex::decode(alloc, digits) else {
            return Ok(false);
        };
        bytes.extend_from_slice(part.as_slice())?;
        return Ok(true);
    }
    match piece.split_once('*') {
        None => put_group(bytes, piece, 0),
        Some((front, behind)) => put_repeated(bytes, front, behind),
    }
}

/// Returns the bytes of the pieces; None if one isn't a piece.
pub fn piece_bytes(alloc: Global, text: &str) -> Result<Option<Vec<u8>>, AllocError> {
    let mut bytes = Vec::new(alloc);
    for piece in text.split_whitespace() {
        if !put_piece(alloc, &mut bytes, piece)? {
            return Ok(None);
        }
    }
    Ok(Some(bytes))
}
