//! The outside as all other crates see it: three traits, `Source`, `Sink` and `Shelf`, for bytes that come in, bytes that go
//! out, and contents by name.
//!
//! There are adapters over std (`ReadSource`, `WriteSink`, `FolderShelf`), forms in memory for tests, and a sink that gathers
//! small pieces (`GatheringSink`). Where a source can, it tells the bytes that it has at hand and lends them; a sink hands on
//! what it holds back when it is asked to. Who writes a source or a sink need not write these calls: the traits have bodies for
//! them.
//! Contract: reads take a prefix of the bytes that are left, writes add bytes behind those that were taken, and a fault is told
//! only where the object's count of faults, which never falls, rose.
//! Begin with `src/source.rt` and `src/sink.rt`, then `specs/Reads.antt`, `specs/Writes.antt` and `specs/Causes.antt`.
//! Tests: `text_tests`.
#![tactic(auto)]

mod copy;
mod failed;
mod folder_shelf;
mod gathering_sink;
mod held_bytes;
mod memory_shelf;
mod memory_sink;
mod memory_source;
mod read_source;
mod shelf;
mod sink;
mod source;
mod write_sink;

pub use copy::{copy_front, put_behind};
pub use failed::Failed;
pub use folder_shelf::FolderShelf;
pub use gathering_sink::GatheringSink;
pub use held_bytes::HeldBytes;
pub use memory_shelf::MemShelf;
pub use memory_sink::MemSink;
pub use memory_source::MemSource;
pub use read_source::ReadSource;
pub use shelf::{FetchError, Shelf};
pub use sink::Sink;
pub use source::{Source, fill};
pub use write_sink::WriteSink;
