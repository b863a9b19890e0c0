//! A sink over a writer of the host.
ghost use Rattle.std.specs.Prelude.{◌≡◌, ◌<◌, ◌≤◌, ℕ, None, length, IfSome};

use super::{Failed, Sink};
use std::io::Write;

/// A sink over a writer such as standard output. Contracts learn nothing of the bytes written.
#[derive(Drop)]
pub struct HostSink<W: Write + Drop> {
    writer: W,
    faults: u64,
}

impl<W: Write + Drop> HostSink<W> {
    /// A sink over `writer`.
    pub fn new(writer: W) -> HostSink<W>
        ensures { ⟦<HostSink<W> as Sink>⟧.faults result ≡ 0 }
    {
        HostSink { writer, faults: 0 }
    }

    /// Writes once and flushes. None where nothing was taken or the host failed.
    fn write_once(&mut self, bytes: &[u8]) -> Option<usize>
        ensures some { IfSome result (λ n. (0 < n) × (n ≤ length bytes.now)) }
        ensures faults { self.new.faults ≡ self.old.faults }
    {
        let count = self.writer.write(bytes).ok()?;
        if count == 0 {
            return None;
        }
        self.writer.flush().ok()?;
        Some(count)
    }
}

impl<W: Write + Drop> Sink for HostSink<W> {
    ghost written = { λ _. None };

    ghost faults = { λ sink. sink.faults };

    fn write(&mut self, bytes: &[u8]) -> Result<usize, Failed> {
        if bytes.is_empty() {
            return Ok(0);
        }
        if let Some(count) = self.write_once(bytes) {
            return Ok(count);
        }
        self.faults = self.faults.saturating_add(1);
        Err(Failed)
    }
}
