//! Files and output, as the program sees them.
//!
//! [`Files`] gives the bytes of a file, and [`Sink`] takes the text of an answer. Each is a trait
//! whose ghost members say what is held, what was written, how often it was asked and how often it
//! failed, so that a caller's contract can speak of them whatever the implementation is. A failure
//! is answered only where the count of failures rose, so no caller can make one up.
//!
//! [`MemFiles`] and [`MemSink`] keep everything in memory and tell all of it. [`HostFiles`] and
//! [`HostSink`] are the edge to the real system, and tell nothing of its bytes. Read `files.rt` first.
#![tactic(auto)]

mod bytes;
mod files;
mod host_files;
mod host_sink;
mod mem_files;
mod mem_sink;
mod sink;

pub use bytes::Bytes;
pub use files::{FetchFault, Fetched, Files};
pub use host_files::HostFiles;
pub use host_sink::HostSink;
pub use mem_files::MemFiles;
pub use mem_sink::MemSink;
pub use sink::{Sink, SinkFailed};
