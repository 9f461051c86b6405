// The outside of the virtual I/O server: sources and sinks of bytes, disk images, and the gate that
// workers pass. The traits say what each may answer; the types beside them keep bytes in memory, fail
// at listed calls, or reach the real outside.
#![tactic(auto)]

mod device_calls;
mod file_blocks;
mod interrupted;
mod mem_blocks;
mod mem_sink;
mod mem_source;
mod outside;
mod positioned_file;
mod script;
mod std_file;
mod std_sink;
mod std_source;
mod sure_blocks;
mod sure_sink;
mod sure_source;

pub use device_calls::DeviceCalls;
pub use file_blocks::FileBlocks;
pub use mem_blocks::MemBlocks;
pub use mem_sink::MemSink;
pub use mem_source::MemSource;
pub use outside::{Blocks, Failed, FreeGate, Gate, Sink, Source, WriteFault};
pub use positioned_file::PositionedFile;
pub use std_file::StdFile;
pub use std_sink::StdSink;
pub use std_source::StdSource;
pub use sure_blocks::SureBlocks;
pub use sure_sink::SureSink;
pub use sure_source::SureSource;
