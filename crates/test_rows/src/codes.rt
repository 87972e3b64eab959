//! Rows of one instruction: its code word with the line that `check` prints, or its text with what
//! `asm` makes of it.

use crate::scene::Scene;
use crate::shapes::container;
use std::alloc::{AllocError, Global};

/// The container for `filter` of this code word, in hexadecimal, and a return.
fn two_words(alloc: Global, word: &str) -> Result<Option<Vec<u8>>, AllocError> {
    let code = format!(in alloc; "1 {word} 6bfa8001")?;
    match container(alloc, code.as_str())? {
        None => Ok(None),
        Some(mut bytes) => {
            bytes.extend_from_slice(&[0; 12])?;
            Ok(Some(bytes))
        }
    }
}

/// Makes the container in `C` of a code word and a return, with no other files. It is false where the
/// text is no word.
fn place_word(scene: &mut Scene, word: &str) -> Result<bool, AllocError> {
    match two_words(scene.alloc, word)? {
        None => Ok(false),
        Some(bytes) => {
            scene.clear();
            scene.place("C", bytes.as_slice())?;
            Ok(true)
        }
    }
}

/// Begins a row of a code word before a return, and the line with which `check` refuses it: `WORD
/// LINE`.
pub(crate) fn begin_word(scene: &mut Scene, line: u32, text: &str) -> Result<bool, AllocError> {
    let Some((word, answer)) = text.split_once(' ') else {
        return Ok(false);
    };
    if !place_word(scene, word)? {
        return Ok(false);
    }
    scene.begin(line, "check filter C")?;
    scene.row.status = Some(1);
    scene.row.prints(answer, true)
}

/// Makes the source in `S` of a text and a return.
fn place_source(scene: &mut Scene, text: &str) -> Result<(), AllocError> {
    let source = format!(in scene.alloc; "{text}\nret\n")?;
    scene.place("S", source.as_bytes())
}

/// Says that `asm` writes these bytes.
fn writes(scene: &mut Scene, bytes: Vec<u8>) -> Result<bool, AllocError> {
    scene.row.status = Some(0);
    scene.row.expect_bytes(scene.alloc, "C", bytes)?;
    scene.row.prints("written 36", true)
}

/// Says that `asm` finds this fault.
fn finds(scene: &mut Scene, fault: &str) -> Result<bool, AllocError> {
    let answer = format!(in scene.alloc; "line 1 {fault}")?;
    scene.row.status = Some(1);
    scene.row.prints(answer.as_str(), true)
}

/// Begins a row of an instruction's text, and its code word or the fault that `asm` reports: `WORD
/// TEXT` or `FAULT TEXT`.
pub(crate) fn begin_insn(scene: &mut Scene, line: u32, text: &str) -> Result<bool, AllocError> {
    let Some((word, insn)) = text.split_once(' ') else {
        return Ok(false);
    };
    scene.clear();
    place_source(scene, insn)?;
    scene.begin(line, "asm filter S C")?;
    match two_words(scene.alloc, word)? {
        Some(bytes) => writes(scene, bytes),
        None => finds(scene, word),
    }
}
