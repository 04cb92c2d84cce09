//! What a program reads and writes: files by name and sinks of bytes, each with a count of its faults. A call fails
//! only where that count rose or a file is known to be absent, and a failed write has appended a front of its bytes.
//!
//! - `Folder` and `Sink` are the outside as a program sees it. Code that reads or writes is generic over them.
//! - `read_all` reads a whole file, `put_all` writes all of some bytes, and `put_parts` a line made of several parts.
//! - `MemFolder`, with its `NamedFile`s, and `MemSink` keep all in memory and fail on chosen calls; `EndlessFolder` has
//!   files without end.
//! - `HostFolder` and `HostSink` are the real files and streams.
#![tactic(auto)]

mod calls;
mod host;
mod memory;
mod outside;

pub use calls::{ReadError, put_all, put_parts, read_all};
pub use host::{HostFolder, HostSink};
pub use memory::{EndlessFolder, MemFolder, MemSink, NamedFile};
pub use outside::{Failed, Folder, Sink};
pub use std::alloc::AllocError as NoMemory;
