//! What bytes are written to.
ghost use Rattle.std.specs.Prelude.{◌≡◌, ℕ, ◌<◌, ◌≤◌, List, length, IfOk, OnOk, OnErr};
ghost use Rattle.std.specs.Io.{WritesAtMost};
ghost use Rattle.std.specs.Io.KnownBytes.{Appends, WriteAppends};
ghost use Rattle.std.specs.Prelude.{Option};
ghost use Rattle.byte_edge.specs.Devices.{CountIncreased, AppendsPrefix};

use super::Failed;

/// Something that bytes are written to, with one count of faults, which stays at 2^64 - 1 once it
/// is there.
pub trait Sink {
    // The bytes written so far; `None` where the object does not report them.
    ghost written: { Self → Option (List ℕ) };

    // The count of faults.
    ghost faults: { Self → ℕ };

    /// Writes a prefix of `bytes` and gives its length, which is at least 1 where `bytes` is not
    /// empty.
    fn write(&mut self, bytes: &[u8]) -> Result<usize, Failed>
        ensures bound { WritesAtMost result bytes.now }
        ensures progress { IfOk result (λ n. 0 < length bytes.now → 0 < n) }
        ensures bytes { WriteAppends (written self.old) (written self.new) result bytes.now }

        ensures failed { OnErr result (CountIncreased (faults self.old) (faults self.new)) }
        ensures count { OnOk result (faults self.new ≡ faults self.old) }
        ensures later { faults self.old ≤ faults self.new };
}

/// Writes all of `bytes`, by as many calls of `write` as that takes. After a failure a prefix of
/// them was written.
pub fn write_all<S: Sink>(sink: &mut S, bytes: &[u8]) -> Result<(), Failed>
    ensures bytes { OnOk result (Appends (S.written sink.old) (S.written sink.new) bytes.now) }
    ensures prefix { OnErr result
        (AppendsPrefix (S.written sink.old) (S.written sink.new) bytes.now) }

    ensures failed { OnErr result (CountIncreased (S.faults sink.old) (S.faults sink.new)) }
    ensures count { OnOk result (S.faults sink.new ≡ S.faults sink.old) }
    ensures later { S.faults sink.old ≤ S.faults sink.new }
{
    let mut at = 0;
    'pieces: while at < bytes.len() {
        let count = sink.write(&bytes[at..])?;
        at += count;
    }
    Ok(())
}
