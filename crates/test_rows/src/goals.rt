//! Rows of goals: a hypothesis and a goal as two invariants of a source, which `asm` assembles,
//! `prove` proves and `check` accepts.

use crate::program::Program;
use crate::row::Row;
use crate::running::{carry, run, run_row};
use crate::scene::Scene;
use std::alloc::AllocError;

/// Begins a row of a goal by its hypothesis, with no files.
pub(crate) fn begin_goal(scene: &mut Scene, line: u32, text: &str) -> Result<bool, AllocError> {
    scene.clear();
    scene.begin(line, "prove tag C P")?;
    scene.row.is_goal = true;
    scene.row.hypothesis.push_str(text)?;
    Ok(true)
}

/// Writes the source with the hypothesis and this goal into the file `S`.
pub(crate) fn finish_goal(scene: &mut Scene, text: &str) -> Result<bool, AllocError> {
    if !scene.row.is_goal {
        return Ok(false);
    }
    let hypothesis = scene.row.hypothesis.as_str();
    let source = format!(in scene.alloc; "ret\n.inv {hypothesis}\nnop\n.inv {text}\nret\n")?;
    scene.place("S", source.as_bytes())?;
    Ok(true)
}

/// Assembles the goal's source, and answers whether that came out.
fn is_assembled<P: Program>(program: &P, scene: &mut Scene, line: u32) -> Result<bool, AllocError> {
    let assembles = Row::of(scene.alloc, line, "asm tag S C")?;
    let ran = run(program, scene, &assembles)?;
    carry(scene, "C", &ran.files)?;
    Ok(ran.status == 0)
}

/// Runs `check` of what the goal's row wrote.
fn accept<P: Program>(program: &P, scene: &mut Scene, line: u32) -> Result<(), AllocError> {
    let checks = Row::accepting(scene.alloc, line, "check tag P")?;
    let _held = run_row(program, scene, &checks)?;
    Ok(())
}

/// Runs `asm`, `prove` as the row says, and `check` on what it wrote.
pub(crate) fn run_goal<P: Program>(
    program: &P,
    scene: &mut Scene,
    row: &Row,
) -> Result<(), AllocError> {
    if !is_assembled(program, scene, row.line)? {
        return scene.differs(row.line, "the goal's source isn't assembled");
    }
    let held = run_row(program, scene, row)?;
    if !held || row.is_wrong || row.status != Some(0) {
        return Ok(());
    }
    accept(program, scene, row.line)
}
