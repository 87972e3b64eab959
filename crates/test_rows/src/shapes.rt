//! Pieces of containers.

use crate::numbers::number;
use std::alloc::{AllocError, Global};

/// Adds a field of 32 bits.
fn add(bytes: &mut Vec<u8>, field: u32) -> Result<(), AllocError> {
    bytes.extend_from_slice(&field.to_le_bytes())
}

/// The code words of a text, in hexadecimal.
fn code_words(alloc: Global, text: &str) -> Result<Option<Vec<u32>>, AllocError> {
    let mut words = Vec::new(alloc);
    for word in text.split_whitespace() {
        match u32::from_str_radix(word, 16) {
            Ok(word) => words.push(word)?,
            Err(_) => return Ok(None),
        }
    }
    Ok(Some(words))
}

/// The front of a container of version 1 for the policy of this number, up to these code words.
fn front(alloc: Global, policy: u32, words: &[u32]) -> Result<Vec<u8>, AllocError> {
    let count = words.len().min(0xffff) as u32;
    let mut bytes = Vec::new(alloc);
    for field in [0x4143_4350, 1, policy, count] {
        add(&mut bytes, field)?;
    }
    for word in words.iter() {
        add(&mut bytes, *word)?;
    }
    Ok(bytes)
}

/// Returns the front of a container of version 1, up to its code words, from `POLICY WORD ..`, the
/// policy's number and the words in hexadecimal.
pub fn container(alloc: Global, text: &str) -> Result<Option<Vec<u8>>, AllocError> {
    let Some((policy, rest)) = text.split_once(' ') else {
        return Ok(None);
    };
    let Some(policy) = number(policy) else {
        return Ok(None);
    };
    match code_words(alloc, rest)? {
        Some(words) => Ok(Some(front(alloc, policy, words.as_slice())?)),
        None => Ok(None),
    }
}

/// Applies the last tree but one to the last, as entry `entry`.
fn join(bytes: &mut Vec<u8>, waiting: &mut Vec<u32>, entry: u32) -> Result<(), AllocError> {
    let right = waiting.pop().unwrap_or(0);
    let left = waiting.pop().unwrap_or(0);
    add(bytes, 6)?;
    add(bytes, left)?;
    add(bytes, right)?;
    waiting.push(entry)?;
    Ok(())
}

/// Returns the entries of the balanced tree of applications over the literals from 0 on; the text
/// gives their number, a power of 2.
pub fn balanced(alloc: Global, text: &str) -> Result<Option<Vec<u8>>, AllocError> {
    let Some(leaves) = number(text) else {
        return Ok(None);
    };
    let mut bytes = Vec::new(alloc);
    let mut waiting: Vec<u32> = Vec::new(alloc);
    let mut next: u32 = 0;
    for leaf in 0..leaves {
        add(&mut bytes, 2)?;
        add(&mut bytes, leaf)?;
        add(&mut bytes, 0)?;
        waiting.push(next)?;
        next = next.saturating_add(1);
        for _ in 0..leaf.trailing_ones() {
            join(&mut bytes, &mut waiting, next)?;
            next = next.saturating_add(1);
        }
    }
    Ok(Some(bytes))
}
