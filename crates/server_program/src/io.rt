//! Where a script comes from and where a text goes: the traits, the standard streams, and both in memory.

mod memory_sink;
mod memory_source;
mod reading;
mod sink;
mod source;
mod streams;
mod writing;

pub use memory_sink::MemorySink;
pub use memory_source::MemorySource;
pub use reading::{ReadError, read_whole};
pub use sink::{Sink, SinkFault};
pub use source::{Source, SourceFault};
pub use streams::Streams;
pub use writing::write_all;
