//! The program that rows call.

use file_port::{MemFiles, MemSink};
use std::alloc::Global;

/// A program that is called with arguments, over files and output in memory.
pub trait Program {
    /// Runs the program with the arguments `words`, and returns its exit status.
    fn call(
        &self,
        alloc: Global,
        words: Vec<String>,
        files: &mut MemFiles,
        out: &mut MemSink,
    ) -> u8;
}
