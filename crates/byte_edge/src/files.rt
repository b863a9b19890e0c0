//! Files that are opened by name into one of three slots, and read from there.
ghost use Rattle.std.specs.Prelude.{◌≡◌, ℕ, ◌<◌, List, length, OnOk, OnErr, is_err};
ghost use Rattle.std.specs.Io.{ReadsAtMost};
ghost use Rattle.std.specs.Io.KnownBytes.{ReadConsumes};
ghost use Rattle.std.specs.Prelude.{Option};
ghost use Rattle.byte_edge.specs.Devices.{IsCallOn};

use super::Failed;

/// Three slots, numbered from 0, each of which can hold an open file.
///
/// Each slot has a count of faults. It increases where a call on the slot fails, and stays at 2^64
/// - 1 once it is there.
pub trait Files {
    // The slot was opened.
    ghost is_open: { Self → ℕ → Type 0 };

    // The bytes that are left in a slot; `None` where the object does not report them.
    ghost left: { Self → ℕ → Option (List ℕ) };

    // The bytes held under a name; `None` where there are none, or the object does not report them.
    ghost held: { Self → List ℕ → Option (List ℕ) };

    // The count of faults of a slot.
    ghost faults: { Self → ℕ → ℕ };

    /// Puts the bytes held under `name` into the slot, from their start. A failed open leaves the
    /// slot as it was.
    fn open_file(&mut self, slot: usize, name: &str) -> Result<(), Failed>
        requires { slot < 3 }

        ensures opened { OnOk result (is_open self.new slot) }
        ensures placed { OnOk result (left self.new slot ≡ held self.old name.now) }
        ensures unmoved { OnErr result (left self.new slot ≡ left self.old slot) }

        ensures call { IsCallOn slot (is_err result)
            (is_open self.old) (is_open self.new) (held self.old) (held self.new)
            (left self.old) (left self.new) (faults self.old) (faults self.new) };

    /// Gives the next bytes of the slot, at most `into.len()` of them, and 0 exactly at the end. A
    /// failed read takes none.
    fn read(&mut self, slot: usize, into: &mut [u8]) -> Result<usize, Failed>
        requires slot { slot < 3 }
        requires opened { is_open self.old slot }
        requires room { 0 < length into.old }

        ensures bound { ReadsAtMost result into.new }
        ensures bytes { ReadConsumes (left self.old slot) (left self.new slot) result into.new }

        ensures call { IsCallOn slot (is_err result)
            (is_open self.old) (is_open self.new) (held self.old) (held self.new)
            (left self.old) (left self.new) (faults self.old) (faults self.new) };
}
