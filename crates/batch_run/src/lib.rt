//! The outside of the programs: named files, and sinks for bytes.
#![tactic(auto)]

mod files;
mod folder;
mod memory_files;
mod memory_sink;
mod named_bytes;
mod nowhere;
mod plain_files;
mod sink;
mod standard;

pub use files::{FileFault, Files, LoadFault, StoreFault};
pub use folder::Folder;
pub use memory_files::MemoryFiles;
pub use memory_sink::MemorySink;
pub use nowhere::Nowhere;
pub use plain_files::PlainFiles;
pub use sink::{Failed, Sink};
pub use standard::{StandardError, StandardOutput, put_counted};
