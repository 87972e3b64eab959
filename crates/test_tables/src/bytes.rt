//! Parsing the fields of lines, and words and bytes in them.

use std::alloc::{AllocError, Global};

/// Returns the field of a line after so many tabs, or no text if there are fewer.
pub fn field(line: &str, place: usize) -> &str {
    line.split('\t').nth(place).unwrap_or("")
}

/// Returns the question of a line: the text before ` =`.
pub fn question(line: &str) -> &str {
    match line.split_once(" =") {
        Some((question, _)) => question,
        None => line,
    }
}

/// Returns the expected answer of a line: the text after ` =`.
pub fn wanted(line: &str) -> &str {
    match line.split_once(" =") {
        Some((_, want)) => want.trim(),
        None => "an answer behind =",
    }
}

/// Parses a word of eight hexadecimal digits; None if the text isn't one.
pub fn word_of(text: &str) -> Option<u32> {
    u32::from_str_radix(text, 16).ok()
}

/// Returns bytes as text.
pub fn text_of(alloc: Global, bytes: &[u8]) -> Result<String, AllocError> {
    match str::from_utf8(bytes) {
        Ok(text) => format!(in alloc; "{text}"),
        Err(_) => format!(in alloc; "no text"),
    }
}

/// How often a group stands, and what stands in it; None where that is no number.
fn group(word: &str) -> Option<(u32, &str)> {
    match word.split_once('*') {
        None => Some((1, word)),
        Some((times, group)) => Some((times.parse::<u32>().ok()?, group)),
    }
}

/// Appends a part so many times.
fn push_times(bytes: &mut Vec<u8>, times: u32, part: &[u8]) -> Result<(), AllocError> {
    for _ in 0..times {
        bytes.extend_from_slice(part)?;
    }
    Ok(())
}

/// Appends the bytes of a word, the lowest first; `N*WORD` is a word N times. It is false where the
/// text is no word.
fn push_word(bytes: &mut Vec<u8>, text: &str) -> Result<bool, AllocError> {
    let Some((times, digits)) = group(text) else {
        return Ok(false);
    };
    let Some(word) = word_of(digits) else {
        return Ok(false);
    };
    push_times(bytes, times, &word.to_le_bytes())?;
    Ok(true)
}

/// Returns the bytes of the words; None if a text isn't a word.
pub fn code_bytes(alloc: Global, words: &str) -> Result<Option<Vec<u8>>, AllocError> {
    let mut bytes = Vec::new(alloc);
    for text in words.split(' ') {
        if !push_word(&mut bytes, text)? {
            return Ok(None);
        }
    }
    Ok(Some(bytes))
}

/// Appends what stands for a sign behind a backslash; false where that is none.
fn push_sign(bytes: &mut Vec<u8>, sign: &str) -> Result<bool, AllocError> {
    let (times, part) = match sign {
        "n" => (1, b"\n"),
        "r" => (1, b"\r"),
        _ => match sign.parse::<u32>() {
            Ok(blanks) => (blanks, b" "),
            Err(_) => return Ok(false),
        },
    };
    push_times(bytes, times, part)?;
    Ok(true)
}

/// The sign in front of a text and what stands behind it: `n` or `r`, or what a `;` ends.
fn split_sign(text: &str) -> (&str, &str) {
    if let Some(rest) = text.strip_prefix("n") {
        return ("n", rest);
    }
    if let Some(rest) = text.strip_prefix("r") {
        return ("r", rest);
    }
    match text.split_once(';') {
        Some((sign, rest)) => (sign, rest),
        None => ("", text),
    }
}

/// Appends a sign that stood behind a backslash, and the text behind it; false where it is none.
fn push_behind(bytes: &mut Vec<u8>, part: &str) -> Result<bool, AllocError> {
    let (sign, behind) = split_sign(part);
    if !push_sign(bytes, sign)? {
        return Ok(false);
    }
    bytes.extend_from_slice(behind.as_bytes())?;
    Ok(true)
}

/// Appends the bytes of a file that a text spells, with a sign in front where the text does not
/// begin the file; false where a backslash has no sign behind it.
fn push_file(bytes: &mut Vec<u8>, text: &str) -> Result<bool, AllocError> {
    for (place, part) in text.split('\\').enumerate() {
        if place == 0 {
            bytes.extend_from_slice(part.as_bytes())?;
        } else if !push_behind(bytes, part)? {
            return Ok(false);
        }
    }
    Ok(true)
}

/// Returns the bytes of the file that a text is for; None if a backslash is followed by no sign.
pub fn file_bytes(alloc: Global, text: &str) -> Result<Option<Vec<u8>>, AllocError> {
    let mut bytes = Vec::new(alloc);
    if !push_file(&mut bytes, text)? {
        return Ok(None);
    }
    Ok(Some(bytes))
}

/// Appends a group in hexadecimal, as often as it stands; false where it is none.
fn push_hex(alloc: Global, bytes: &mut Vec<u8>, word: &str) -> Result<bool, AllocError> {
    let Some((times, digits)) = group(word) else {
        return Ok(false);
    };
    let Ok(part) = hex::decode(alloc, digits) else {
        return Ok(false);
    };
    push_times(bytes, times, &part)?;
    Ok(true)
}

/// Returns the bytes of groups in hexadecimal, separated by blanks; `N*GROUP` is a group N times.
pub fn hex_bytes(alloc: Global, text: &str) -> Result<Option<Vec<u8>>, AllocError> {
    let mut bytes = Vec::new(alloc);
    for word in text.split_whitespace() {
        if !push_hex(alloc, &mut bytes, word)? {
            return Ok(None);
        }
    }
    Ok(Some(bytes))
}

/// Appends a part, as often as it stands; false where it spells none.
fn push_piece(bytes: &mut Vec<u8>, part: &str) -> Result<bool, AllocError> {
    let Some((times, spelled)) = group(part) else {
        return Ok(false);
    };
    for _ in 0..times {
        if !push_file(bytes, spelled)? {
            return Ok(false);
        }
    }
    Ok(true)
}

/// Returns the bytes of a text in parts between `|`, each written as a file's text; `N*PART` is a
/// part N times. Returns None if a part isn't right.
pub fn pieces(alloc: Global, text: &str) -> Result<Option<Vec<u8>>, AllocError> {
    let mut bytes = Vec::new(alloc);
    for part in text.split('|') {
        if !push_piece(&mut bytes, part)? {
            return Ok(None);
        }
    }
    Ok(Some(bytes))
}
