//! Text that waits to be written.
ghost use Rattle.std.specs.Prelude.{◌≡◌, ◌<◌, [], false, length, IsTrue, OnOk, OnErr};
ghost use Rattle.byte_edge.specs.Devices.{AppendsPrefix, CountIncreased};
ghost use Rattle.streamed_lines.specs.internal.Waiting.{Moves};

use byte_edge::{Failed, Sink, write_all};

/// How many bytes wait at most before they are written.
const MOST_WAITING: usize = 65_536;

/// Whether text of this length may wait: the next line is given without a read, and little waits.
fn may_wait(has_line: bool, len: usize) -> bool
    ensures line { IsTrue result → IsTrue has_line }
    ensures few { IsTrue result → len < 65536 }
{
    has_line && len < MOST_WAITING
}

/// Writes what waits, before the next line is taken, unless it may wait further. Nothing waits then
/// where the next line is still to be read, and else fewer than 65,536 bytes.
pub fn hand_over<O: Sink>(text: &mut Vec<u8>, has_line: bool, out: &mut O) -> Result<(), Failed>
    ensures moves { OnOk result
        (Moves text.old.items text.new.items (O.written out.old) (O.written out.new)) }
    ensures prefix { OnErr result
        (AppendsPrefix (O.written out.old) (O.written out.new) text.old.items) }
    ensures none_waits { OnOk result (has_line ≡ false → text.new.items ≡ []) }
    ensures few_wait { OnOk result (length text.new.items < 65536) }
    ensures failed { OnErr result (CountIncreased (O.faults out.old) (O.faults out.new)) }
    ensures count { OnOk result (O.faults out.new ≡ O.faults out.old) }
{
    if may_wait(has_line, text.len()) {
        return Ok(());
    }
    write_all(out, text)?;
    text.clear();
    Ok(())
}
