//! Where bytes come from and where they go: sources and sinks, in memory and over std's readers and writers, each of
//! which counts its faults; and what is appended to a text: bytes, numbers, names.
#![tactic(auto)]

mod failed;
mod memory;
mod sink;
mod source;
mod stdio;
mod text;

pub use failed::Failed;
pub use memory::{MemSink, MemSource};
pub use sink::{Sink, put_all};
pub use source::Source;
pub use stdio::{StdSink, StdSource};
pub use text::{put, put_name, put_number};
