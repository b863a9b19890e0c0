//! The edge of the program: files that are read, sinks that are written, and the lines of a file.
//!
//! `Files` and `Sink` say what a device does, whether it is the host's or in memory. `LineReader`
//! and `write_all` stand on these two alone.
#![tactic(auto)]

mod all_lines;
mod block;
mod failed;
mod failing_calls;
mod files;
mod gather;
mod host_files;
mod host_sink;
mod laws;
mod line_reader;
mod lines_end;
mod memory_files;
mod memory_sink;
mod partial_line;
mod read_end;
mod sink;

pub use all_lines::read_lines;
pub use failed::{Failed, NoMemory};
pub use files::Files;
pub use host_files::HostFiles;
pub use host_sink::HostSink;
pub use laws::{
    calls_on_slot, known_end, line_event_examples, line_events_within_budget, line_examples,
    lines_join, written_bytes,
};
pub use line_reader::LineReader;
pub use lines_end::LinesEnd;
pub use memory_files::MemoryFiles;
pub use memory_sink::MemorySink;
pub use read_end::ReadEnd;
pub use sink::{Sink, write_all};

#[cfg(test)]
mod tests;
