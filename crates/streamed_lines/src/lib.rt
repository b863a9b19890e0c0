//! A trace that is read line by line while a text is printed.
//!
//! `stream_trace` opens the trace and hands its lines to a `LinePrinter`, one after another. What
//! the printer adds to the text is written before the trace is read on, where 8,192 bytes wait, and
//! before every end; between two reads nobody can see a difference, so texts that came with one
//! read are written together.
#![tactic(auto)]

mod laws;
mod line_printer;
mod print_lines;
mod stream;
mod waiting;

pub use laws::streams;
pub use line_printer::{LinePrinter, PrintEnd};
pub use stream::stream_trace;
