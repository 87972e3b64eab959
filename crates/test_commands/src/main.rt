//! Test runner for the four programs' commands, over files and output in memory.
//!
//! The arguments name files of the current folder. A file whose name ends in `.rows` is run; any
//! other file is hexadecimal text, whose bytes are the file of that name for every later row. Rows
//! in files whose names begin with `view-` are for `pcc_view`, with `native-` for `pcc_native`, with
//! `auto-` for `pcc_auto`, and the others for `pcc`.
#![tactic(auto)]

use anyhow::Result;
use auto_cli::pcc_auto;
use file_port::{MemFiles, MemSink};
use native_cli::pcc_native;
use pcc_cli::pcc;
use std::alloc::Global;
use std::{env, fs};
use test_rows::{Program, Scene, take_data};
use view_cli::pcc_view;

/// The program whose rows a file has.
#[derive(Clone, Copy)]
enum Command {
    Pcc,
    View,
    Native,
    Auto,
}

impl Command {
    /// The program whose rows the file of this name has.
    fn of_file(name: &str) -> Command {
        if name.starts_with("view-") {
            Command::View
        } else if name.starts_with("native-") {
            Command::Native
        } else if name.starts_with("auto-") {
            Command::Auto
        } else {
            Command::Pcc
        }
    }
}

impl Program for Command {
    fn call(
        &self,
        alloc: Global,
        words: Vec<String>,
        files: &mut MemFiles,
        out: &mut MemSink,
    ) -> u8 {
        match self {
            Command::Pcc => pcc(alloc, words, files, out),
            Command::View => pcc_view(alloc, words, files, out),
            Command::Native => pcc_native(alloc, words, files, out),
            Command::Auto => pcc_auto(alloc, words, files, out),
        }
    }
}

/// Runs the rows of the files that the arguments name, and prints those that differ and their
/// count.
fn main(rt: HostRuntime) -> Result<()> {
    let mut scene = Scene::new(rt.alloc());
    for name in env::args(&rt)?.skip(1) {
        let text = fs::read_to_string(&rt, name.as_str())?;
        let command = Command::of_file(name.as_str());
        take_data(&command, &mut scene, name.as_str(), text.as_str())?;
    }
    let report = scene.report()?;
    println!(rt; "{report}")?;
    Ok(())
}
