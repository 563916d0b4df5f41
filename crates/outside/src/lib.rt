//! Files and sinks: all that the program reads and writes.
#![tactic(auto)]

mod call_plan;
mod files;
mod held_file;
mod mem_files;
mod mem_sink;
mod real_files;
mod real_sink;
mod sink;

pub use files::{FileFault, Files};
pub use mem_files::MemFiles;
pub use mem_sink::MemSink;
pub use real_files::{RealFiles, read_whole};
pub use real_sink::RealSink;
pub use sink::{Sink, SinkFault};
