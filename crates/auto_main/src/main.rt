//! The executable `pcc_auto`: runs auto_cli over the real files and standard output.
#![tactic(auto)]

use auto_cli::pcc_auto;
use file_port::{DiskFiles, StdSink};
use std::io::ErrorKind;
use std::process::ExitCode;
use std::{env, io};

/// Returns the arguments after the program's name. Errors: an argument isn't text, or out of
/// memory.
fn words_of(rt: &HostRuntime) -> io::Result<Vec<String>> {
    let words: Vec<String> = env::args(rt)?.skip(1).collect(rt.alloc())?;
    Ok(words)
}

/// Calls `pcc_auto` with the real arguments, files and output, and ends with its status.
fn main(rt: HostRuntime) -> ExitCode {
    let words = match words_of(&rt) {
        Ok(words) => words,
        Err(error) => match error.kind() {
            ErrorKind::OutOfMemory => return ExitCode::from(5),
            // An argument is no text, so the arguments are no command.
            _ => Vec::new(rt.alloc()),
        },
    };
    let mut files = DiskFiles::new(&rt);
    let mut out = StdSink::new(rt.stdout());
    ExitCode::from(pcc_auto(rt.alloc(), words, &mut files, &mut out))
}
