//! Sources, sinks and stores: traits for reading bytes in order, writing bytes, and reading bytes by offset. They are
//! implemented in memory and over files and streams of the standard library.
//!
//! Each object counts its faults. A call fails only where that count rose, or is `u64::MAX`. So the contract of a
//! caller can say whose fault an error is.
//!
//! An object *tells* its bytes where contracts can see them. Objects in memory do; files and streams don't. Where an
//! object doesn't tell something, no contract claims anything of it.
#![tactic(auto)]

mod failed;
mod file_store;
mod mem_sink;
mod mem_source;
mod mem_store;
mod no_memory;
mod pieces;
mod positioned_read;
mod read_fault;
mod reader_source;
mod recorder;
mod served;
mod sink;
mod source;
mod store;
mod sure_source;
mod sure_store;
mod writer_sink;
mod writing;

pub use failed::Failed;
pub use file_store::FileStore;
pub use mem_sink::MemSink;
pub use mem_source::MemSource;
pub use mem_store::MemStore;
pub use no_memory::NoMemory;
pub use read_fault::ReadFault;
pub use reader_source::ReaderSource;
pub use recorder::Recorder;
pub use served::Served;
pub use sink::{Sink, finish};
pub use source::Source;
pub use store::Store;
pub use sure_source::SureSource;
pub use sure_store::SureStore;
pub use writer_sink::WriterSink;
pub use writing::{write_piece, write_pieces};

#[cfg(test)]
mod tests;
