//! Rows on the values of programs of classic BPF.

use crate::bytes::{field, hex_bytes};
use crate::questions::{no_question, packet_text};
use std::alloc::{AllocError, Global};

/// Returns how many rows a line has: one for each packet.
pub fn rows(line: &str) -> usize {
    field(line, 3).split(',').count()
}

/// Returns the value of a packet that a line expects.
pub fn want(line: &str, row: usize) -> &str {
    field(line, 4).split(',').nth(row).unwrap_or("")
}

/// Returns the value of the program of a line on one of its packets.
pub fn answer(alloc: Global, line: &str, row: usize) -> Result<String, AllocError> {
    let packet = field(line, 3).split(',').nth(row).unwrap_or("");
    match hex_bytes(alloc, field(line, 2))? {
        None => no_question(alloc),
        Some(program) => packet_text(alloc, &program, packet),
    }
}
