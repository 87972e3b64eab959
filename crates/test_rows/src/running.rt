//! Running a row: its command runs over copies of the files, and the result is compared.

use crate::files::{copied, found};
use crate::numbers::digest;
use crate::program::Program;
use crate::row::{Left, Row};
use crate::scene::Scene;
use file_port::{MemFiles, MemSink};
use std::alloc::{AllocError, Global};

/// The result of a command.
#[derive(Drop)]
pub(crate) struct Ran {
    pub status: u8,
    pub files: MemFiles,
    pub out: MemSink,
}

/// Calls numbered from 1 as `MemFiles` and `MemSink` number them, from 0.
fn from_zero(alloc: Global, calls: &[u32]) -> Result<Vec<u32>, AllocError> {
    let mut list = Vec::new(alloc);
    for call in calls.iter() {
        list.push(call.saturating_sub(1))?;
    }
    Ok(list)
}

/// The words of a command line, parted by blanks.
fn words_of(alloc: Global, text: &str) -> Result<Vec<String>, AllocError> {
    let mut words = Vec::new(alloc);
    for word in text.split_whitespace() {
        words.push(String::from_str(alloc, word)?)?;
    }
    Ok(words)
}

/// Runs the row's command over copies of the files.
pub(crate) fn run<P: Program>(program: &P, scene: &Scene, row: &Row) -> Result<Ran, AllocError> {
    let alloc = scene.alloc;
    let words = words_of(alloc, row.words.as_str())?;
    let copies = copied(alloc, scene.files.as_slice())?;
    let calls = from_zero(alloc, row.calls.as_slice())?;
    let puts = from_zero(alloc, row.puts.as_slice())?;
    let mut files = MemFiles::new(alloc, copies, row.room, calls)?;
    let mut out = MemSink::new(alloc, row.space, puts)?;
    let status = program.call(alloc, words, &mut files, &mut out);
    Ok(Ran { status, files, out })
}

/// Whether the bytes are these, or have this SHA-256 and size where one is said.
fn is_same(
    alloc: Global,
    bytes: &[u8],
    wanted: &[u8],
    sum: &Option<String>,
) -> Result<bool, AllocError> {
    match sum {
        None => Ok(bytes == wanted),
        Some(sum) => Ok(digest(alloc, bytes)?.as_str() == sum.as_str()),
    }
}

/// Whether a file is left as the row says.
fn is_left(alloc: Global, files: &MemFiles, left: &Left) -> Result<bool, AllocError> {
    match files.get(left.name.as_str()) {
        Some(bytes) => is_same(alloc, bytes, left.bytes.as_slice(), &left.digest),
        None => Ok(left.is_nothing()),
    }
}

/// Whether all files are left that the row says.
fn are_left(alloc: Global, files: &MemFiles, row: &Row) -> Result<bool, AllocError> {
    for left in row.left.iter() {
        if !is_left(alloc, files, left)? {
            return Ok(false);
        }
    }
    Ok(true)
}

/// Whether what stands under this name is what stood there, or the row says what is to stand.
fn is_kept(before: &[(String, Vec<u8>)], files: &MemFiles, row: &Row, name: &str) -> bool {
    row.names(name) || files.get(name) == found(before, name)
}

/// Whether no other file has changed, of those that stood and those that the command names.
fn are_kept(before: &[(String, Vec<u8>)], files: &MemFiles, row: &Row) -> bool {
    for file in before.iter() {
        if !is_kept(before, files, row, file.0.as_str()) {
            return false;
        }
    }
    for word in row.words.as_str().split_whitespace() {
        if !is_kept(before, files, row, word) {
            return false;
        }
    }
    true
}

/// Sets the files with these names to what they hold after a command.
pub(crate) fn carry(scene: &mut Scene, names: &str, files: &MemFiles) -> Result<(), AllocError> {
    for name in names.split_whitespace() {
        if let Some(bytes) = files.get(name) {
            scene.place(name, bytes)?;
        }
    }
    Ok(())
}

/// Bytes as a line shows them: a short text as it is written in code, else the SHA-256 and size.
fn shown(alloc: Global, bytes: &[u8]) -> Result<String, AllocError> {
    if bytes.len() > 400 {
        return digest(alloc, bytes);
    }
    match str::from_utf8(bytes) {
        Ok(text) => format!(in alloc; "{text:?}"),
        Err(_) => digest(alloc, bytes),
    }
}

/// What a row wants to be printed, as a line shows it.
fn wanted(alloc: Global, row: &Row) -> Result<String, AllocError> {
    match &row.digest {
        None => shown(alloc, row.output.as_slice()),
        Some(sum) => String::from_str(alloc, sum.as_str()),
    }
}

/// Says which status and output were expected, and which came.
fn tell_end(scene: &mut Scene, row: &Row, ran: &Ran) -> Result<(), AllocError> {
    let alloc = scene.alloc;
    let words = row.words.as_str();
    let expected = row.status;
    let text = wanted(alloc, row)?;
    let got = ran.status;
    let output = shown(alloc, ran.out.bytes())?;
    let why = format!(in alloc; "{words}: expected {expected:?} {text}, got {got} {output}")?;
    scene.differs(row.line, why.as_str())
}

/// Says that a file is left otherwise, and what the command's last word is now.
fn tell_file(scene: &mut Scene, row: &Row, ran: &Ran) -> Result<(), AllocError> {
    let alloc = scene.alloc;
    let words = row.words.as_str();
    let mut why = format!(in alloc; "{words}: a file is left otherwise;")?;
    for word in words.split_whitespace() {
        if let Some(bytes) = ran.files.get(word) {
            let sum = digest(alloc, bytes)?;
            why.push_str(format!(in alloc; " {word} is {sum}")?.as_str())?;
        }
    }
    scene.differs(row.line, why.as_str())
}

/// Whether the command printed and ended as the row says.
fn is_ended(alloc: Global, row: &Row, ran: &Ran) -> Result<bool, AllocError> {
    let output = row.output.as_slice();
    let printed = is_same(alloc, ran.out.bytes(), output, &row.digest)?;
    Ok(printed && row.status == Some(ran.status))
}

/// Says what differs, and answers whether nothing does.
fn compare(
    scene: &mut Scene,
    row: &Row,
    ran: &Ran,
    is_ended: bool,
    is_left: bool,
) -> Result<bool, AllocError> {
    if row.is_wrong {
        if is_ended && is_left {
            scene.differs(row.line, "comes out as it says")?;
        }
        return Ok(true);
    }
    if !is_ended {
        tell_end(scene, row, ran)?;
    } else if !is_left {
        tell_file(scene, row, ran)?;
    }
    Ok(is_ended && is_left)
}

/// Whether what the command came to is what the row says; what it wrote stands from here on.
fn judge(scene: &mut Scene, row: &Row, ran: &Ran) -> Result<bool, AllocError> {
    let ended = is_ended(scene.alloc, row, ran)?;
    let left = are_left(scene.alloc, &ran.files, row)?;
    let kept = are_kept(scene.files.as_slice(), &ran.files, row);
    carry(scene, row.words.as_str(), &ran.files)?;
    compare(scene, row, ran, ended, left && kept)
}

/// Runs a row, and returns whether it came out as it says.
pub(crate) fn run_row<P: Program>(
    program: &P,
    scene: &mut Scene,
    row: &Row,
) -> Result<bool, AllocError> {
    let ran = run(program, scene, row)?;
    judge(scene, row, &ran)
}
