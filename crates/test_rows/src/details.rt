//! The lines of a row after its command.

use crate::goals::finish_goal;
use crate::numbers::{number, numbers};
use crate::row::Row;
use crate::scene::Scene;
use std::alloc::{AllocError, Global};

impl Row {
    /// Sets the calls of files that fail, or the calls of the output.
    fn fails(&mut self, alloc: Global, key: &str, text: &str) -> Result<bool, AllocError> {
        let Some(list) = numbers(alloc, text)? else {
            return Ok(false);
        };
        match key {
            "calls" => self.calls = list,
            _ => self.puts = list,
        }
        Ok(true)
    }

    /// Sets the room for writes, or for output.
    fn has_room(&mut self, key: &str, text: &str) -> bool {
        let Some(count) = number(text) else {
            return false;
        };
        match key {
            "room" => self.room = count,
            _ => self.space = count,
        }
        true
    }

    /// Adds an expected line of output.
    pub(crate) fn prints(&mut self, text: &str, ends: bool) -> Result<bool, AllocError> {
        self.output.extend_from_slice(text.as_bytes())?;
        if ends {
            self.output.push(b'\n')?;
        }
        Ok(true)
    }

    /// Sets the expected exit status, from 0 to 255.
    fn ends(&mut self, text: &str) -> bool {
        self.status = text.parse::<u8>().ok();
        self.status.is_some()
    }

    /// Sets the expected exit status, and a line of output if one follows it.
    fn ends_so(&mut self, text: &str) -> Result<bool, AllocError> {
        match text.split_once(' ') {
            None => Ok(self.ends(text)),
            Some((status, line)) => {
                let is_read = self.ends(status);
                Ok(is_read && self.prints(line, true)?)
            }
        }
    }

    /// Sets the expected SHA-256 and size of all output.
    fn prints_all(&mut self, alloc: Global, text: &str) -> Result<bool, AllocError> {
        self.digest = Some(String::from_str(alloc, text)?);
        Ok(true)
    }

    /// Sets what a file must hold afterwards, by its digest, `NAME sha256 DIGEST SIZE`, or `NAME
    /// nothing`. Returns false if the text is neither.
    pub(crate) fn leaves(&mut self, alloc: Global, text: &str) -> Result<bool, AllocError> {
        let Some((name, rest)) = text.split_once(' ') else {
            return Ok(false);
        };
        if rest == "nothing" {
            self.expect(alloc, name, rest)?;
            return Ok(true);
        }
        match rest.strip_prefix("sha256 ") {
            None => Ok(false),
            Some(digest) => {
                self.expect(alloc, name, digest)?;
                Ok(true)
            }
        }
    }
}

/// Does what a line of a row after its command says.
pub(crate) fn take_detail(scene: &mut Scene, key: &str, text: &str) -> Result<bool, AllocError> {
    scene.settle()?;
    if !scene.row.is_begun {
        return Ok(false);
    }
    match key {
        "calls" | "puts" => scene.row.fails(scene.alloc, key, text),
        "room" | "space" => Ok(scene.row.has_room(key, text)),
        "ends" => scene.row.ends_so(text),
        ">" => scene.row.prints(text, true),
        "cut" => scene.row.prints(text, false),
        "prints" => scene.row.prints_all(scene.alloc, text),
        "wrong" => {
            scene.row.is_wrong = true;
            Ok(text.is_empty())
        }
        _ => finish_goal(scene, text),
    }
}
