//! I/O interface: traits for whole files and output that count their failures.
//!
//! `Files` reads and writes whole files by name, `Sink` takes output piece by piece. The layers
//! above are generic over both, and use one clause of each method, by cases on the result: `Reads`
//! and `Writes` of `specs/Files`, `Puts` of `specs/Sink`. The counts, `Rose` and `IsQuiet` are
//! defined in `specs/Counts`. The contracts of `MemFiles` and `MemSink` say exactly what they hold
//! (`specs/MemFiles`, `specs/MemSink`). `DiskFiles` and `StdSink` are the real ones, of whose
//! content the traits say nothing. A log records what each of them was asked and what it answered
//! (`specs/Events`); only proofs read the log, and it takes no memory.

#![tactic(auto)]

mod calls;
mod disk_files;
mod log;
mod mem_files;
mod mem_sink;
mod port;
mod spare;
mod std_sink;
mod streams;
mod theorems;

pub use disk_files::DiskFiles;
pub use log::{Asked, Log};
pub use mem_files::MemFiles;
pub use mem_sink::MemSink;
pub use port::{Files, Got, Put, Sink};
pub use spare::{MAX_BYTES, MAX_NAME};
pub use std_sink::StdSink;
pub use theorems::laws;
