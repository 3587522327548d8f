//! Where bytes come from and where they go: sources and sinks that count their faults, in memory
//! and over standard input and output, with reading to the end and writing of a whole text.
#![tactic(auto)]

mod mem_sink;
mod mem_source;
mod put;
mod sink;
mod source;
mod standard;
mod take;

pub use mem_sink::MemSink;
pub use mem_source::MemSource;
pub use put::put_all;
pub use sink::Sink;
pub use source::{Failed, Source};
pub use standard::{StdSink, StdSource};
pub use take::{TakeFault, take_all};
