//! Doing what each line of a file of rows says.

use crate::codes::{begin_insn, begin_word};
use crate::details::take_detail;
use crate::goals::{begin_goal, run_goal};
use crate::numbers::hex_bytes;
use crate::pieces::piece;
use crate::program::Program;
use crate::row::Row;
use crate::running::run_row;
use crate::scene::{Scene, Target};
use std::alloc::AllocError;
use std::mem;

/// Runs the row that has begun, if one has.
fn end_row<P: Program>(program: &P, scene: &mut Scene) -> Result<(), AllocError> {
    scene.settle()?;
    if !scene.row.is_begun {
        return Ok(());
    }
    let row = mem::replace(&mut scene.row, Row::new(scene.alloc));
    scene.tally.count();
    if row.is_goal {
        run_goal(program, scene, &row)
    } else {
        let _held = run_row(program, scene, &row)?;
        Ok(())
    }
}

/// Adds a piece to the bytes that were begun. It is false where the line is no piece.
fn add_piece(scene: &mut Scene, key: &str, text: &str) -> Result<bool, AllocError> {
    if let Target::Nothing = scene.target {
        return Ok(false);
    }
    match piece(scene.alloc, scene.files.as_slice(), key, text)? {
        None => Ok(false),
        Some(bytes) => {
            scene.bytes.extend_from_slice(bytes.as_slice())?;
            Ok(true)
        }
    }
}

/// Begins the file or what is to be left: `NAME`, or `NAME KEY TEXT` with its first piece.
fn aim_at(scene: &mut Scene, target: Target, text: &str) -> Result<bool, AllocError> {
    let Some((name, rest)) = text.split_once(' ') else {
        scene.aim(target, text)?;
        return Ok(!text.is_empty());
    };
    scene.aim(target, name)?;
    match rest.split_once(' ') {
        Some((key, text)) => add_piece(scene, key, text),
        None => add_piece(scene, rest, ""),
    }
}

/// What a line does that begins a file or a row, behind the row before.
fn begin(scene: &mut Scene, line: u32, key: &str, text: &str) -> Result<bool, AllocError> {
    match key {
        "file" => aim_at(scene, Target::File, text),
        "pcc" | "pcc_view" | "pcc_native" | "pcc_auto" => {
            scene.begin(line, text)?;
            Ok(true)
        }
        "goal" => begin_goal(scene, line, text),
        "word" => begin_word(scene, line, text),
        "insn" => begin_insn(scene, line, text),
        _ => {
            scene.clear();
            Ok(text.is_empty())
        }
    }
}

/// What is to be left in a file, by pieces or by its digest.
fn take_left(scene: &mut Scene, text: &str) -> Result<bool, AllocError> {
    scene.settle()?;
    if !scene.row.is_begun {
        return Ok(false);
    }
    match scene.row.leaves(scene.alloc, text)? {
        true => Ok(true),
        false => aim_at(scene, Target::Left, text),
    }
}

/// What a line does. It is false where it is no line of a row.
fn take<P: Program>(
    program: &P,
    scene: &mut Scene,
    line: u32,
    key: &str,
    text: &str,
) -> Result<bool, AllocError> {
    match key {
        "file"
        | "pcc"
        | "pcc_view"
        | "pcc_native"
        | "pcc_auto"
        | "goal"
        | "word"
        | "insn"
        | "clear" => {
            end_row(program, scene)?;
            begin(scene, line, key, text)
        }
        "leaves" => take_left(scene, text),
        "calls" | "puts" | "room" | "space" | "wrong" | "gives" | "ends" | ">" | "cut" | "prints" =>
            { take_detail(scene, key, text) }
        _ => add_piece(scene, key, text),
    }
}

/// Takes a line. One that can't be read counts as a row that differs.
fn take_line<P: Program>(
    program: &P,
    scene: &mut Scene,
    number: u32,
    line: &str,
) -> Result<(), AllocError> {
    let text = line.trim_start();
    if text.is_empty() || text.starts_with('#') {
        return Ok(());
    }
    let is_read = match text.split_once(' ') {
        Some((key, rest)) => take(program, scene, number, key, rest)?,
        None => take(program, scene, number, text, "")?,
    };
    if is_read {
        return Ok(());
    }
    scene.tally.count();
    scene.differs(number, "can't be read")
}

/// Runs the rows of a file of this name and text. How they came out is told by the scene.
fn run_rows<P: Program>(
    program: &P,
    scene: &mut Scene,
    name: &str,
    text: &str,
) -> Result<(), AllocError> {
    scene.open(name)?;
    let mut number: u32 = 0;
    for line in text.lines() {
        number = number.saturating_add(1);
        take_line(program, scene, number, line)?;
    }
    end_row(program, scene)
}

/// Takes a data file with this name and text. If the name ends in `.rows`, the text is rows, which
/// it runs; else it is hexadecimal text, whose bytes are the file of that name for every later row.
/// The scene reports how the rows came out.
pub fn take_data<P: Program>(
    program: &P,
    scene: &mut Scene,
    name: &str,
    text: &str,
) -> Result<(), AllocError> {
    if name.ends_with(".rows") {
        return run_rows(program, scene, name, text);
    }
    match hex_bytes(scene.alloc, text)? {
        Some(bytes) => scene.give(name, bytes),
        None => scene.differs(0, "a data file that is no hexadecimal text"),
    }
}
