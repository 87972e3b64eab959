//! Parsing numbers and bytes.

use sha2::{Digest, Sha256};
use std::alloc::{AllocError, Global};

/// Parses the text as a number, in decimal, or in hexadecimal after `0x`.
pub fn number(text: &str) -> Option<u32> {
    match text.strip_prefix("0x") {
        Some(digits) => u32::from_str_radix(digits, 16).ok(),
        None => text.parse::<u32>().ok(),
    }
}

/// Parses the text as the number of repetition `k`: `A+B` is A at first and B more in each later
/// repetition.
pub fn number_at(text: &str, k: u32) -> Option<u32> {
    match text.split_once('+') {
        None => number(text),
        Some((start, step)) => Some(number(start)?.wrapping_add(number(step)?.wrapping_mul(k))),
    }
}

/// Parses the text as bytes in hexadecimal, with any blanks and line ends between bytes.
pub fn hex_bytes(alloc: Global, text: &str) -> Result<Option<Vec<u8>>, AllocError> {
    let mut bytes = Vec::new(alloc);
    for group in text.split_whitespace() {
        match hex::decode(alloc, group) {
            Ok(part) => bytes.extend_from_slice(part.as_slice())?,
            Err(_) => return Ok(None),
        }
    }
    Ok(Some(bytes))
}

/// Parses the text as a list of numbers, separated by blanks.
pub fn numbers(alloc: Global, text: &str) -> Result<Option<Vec<u32>>, AllocError> {
    let mut list = Vec::new(alloc);
    for word in text.split_whitespace() {
        match number(word) {
            Some(n) => list.push(n)?,
            None => return Ok(None),
        }
    }
    Ok(Some(list))
}

/// Returns the SHA-256 of the bytes in hexadecimal, a blank and their number.
pub fn digest(alloc: Global, bytes: &[u8]) -> Result<String, AllocError> {
    let sum = hex::encode(alloc, Sha256::digest(bytes).as_slice())?;
    let count = bytes.len();
    format!(in alloc; "{sum} {count}")
}
