//! A sink in memory.
ghost use Rattle.std.specs.Prelude.{◌≡◌, ◌+◌, ◌<◌, ◌≤◌, ◌↔◌, ◌⊎◌, ℕ, [], ◌++◌, Some, min, length, take, IfOk, OnOk, OnErr, IsErr, vec_len, vec_capacity};
ghost use Rattle.std.specs.Io.{WritesAtMost};
ghost use Rattle.std.specs.Io.KnownBytes.{WriteAppends};
ghost use Rattle.byte_edge.specs.Devices.{CountIncreased};

use super::failing_calls::is_failing;
use super::{Failed, NoMemory, Sink};
use std::alloc::Global;

/// A sink in memory. A write takes at most `cut` bytes and no more than there is room for, and the
/// calls whose numbers are in `failing` fail; writes are counted from 1, and the number stays at
/// 2^64 - 1 once it is there.
#[derive(Drop)]
pub struct MemorySink {
    bytes: Vec<u8>,
    room: usize,
    cut: usize,
    failing: Vec<u64>,
    calls: u64,
    faults: u64,
    ghost cut_some: { 1 ≤ cut },
    ghost room_there: { vec_len bytes + room ≤ vec_capacity bytes },
}

impl MemorySink {
    ghost use Rattle.byte_edge.specs.MemorySink.{written_to, room_of, cut_of, failing_of, calls_of, faults_of};

    /// A sink with room for `room` bytes, all of which it takes at once.
    pub fn new(
        alloc: Global,
        room: usize,
        cut: usize,
        failing: Vec<u64>,
    ) -> Result<MemorySink, NoMemory>
        requires { 1 ≤ cut }

        ensures written { IfOk result (λ sink. written_to sink ≡ []) }
        ensures room { IfOk result (λ sink. room_of sink ≡ room) }
        ensures cut { IfOk result (λ sink. cut_of sink ≡ cut) }
        ensures failing { IfOk result (λ sink. failing_of sink ≡ failing.items) }
        ensures calls { IfOk result (λ sink. calls_of sink ≡ 0) }
        ensures faults { IfOk result (λ sink. faults_of sink ≡ 0) }
    {
        let bytes = Vec::with_capacity(alloc, room)?;
        Ok(MemorySink {
            bytes,
            room,
            cut,
            failing,
            calls: 0,
            faults: 0,
        })
    }

    /// The bytes written so far.
    pub fn written(&self) -> &[u8]
        ensures { result.now ≡ written_to self.now }
    {
        self.bytes.as_slice()
    }
}

impl Sink for MemorySink {
    ghost use Rattle.byte_edge.specs.MemorySink.{IsCalled, FailsNext, written_to, room_of, cut_of, faults_of};

    ghost written = { λ sink. Some (written_to sink) };

    ghost faults = { faults_of };

    /// Fails exactly where the number of the call is in `failing`, or `bytes` is not empty and
    /// there is no room. Else it takes as many bytes as there are, as there is room for, and at
    /// most `cut`.
    fn write(&mut self, bytes: &[u8]) -> Result<usize, Failed>
        ensures fails { IsErr result
            ↔ (FailsNext self.old ⊎ ((0 < length bytes.now) × (room_of self.old ≡ 0))) }
        ensures count { IfOk result
            (λ n. n ≡ min (length bytes.now) (min (room_of self.old) (cut_of self.old))) }
        ensures room { IfOk result (λ n. room_of self.new + n ≡ room_of self.old) }
        ensures kept_room { OnErr result (room_of self.new ≡ room_of self.old) }
        ensures called { IsCalled self.old self.new }

        ensures bound { WritesAtMost result bytes.now }
        ensures progress { IfOk result (λ n. 0 < length bytes.now → 0 < n) }
        ensures bytes { WriteAppends
            (Some (written_to self.old)) (Some (written_to self.new)) result bytes.now }

        ensures failed { OnErr result (CountIncreased (faults_of self.old) (faults_of self.new)) }
        ensures counts { OnOk result (faults_of self.new ≡ faults_of self.old) }
        ensures later { faults_of self.old ≤ faults_of self.new }
    {
        self.calls = self.calls.saturating_add(1);
        if is_failing(&self.failing, self.calls) {
            self.faults = self.faults.saturating_add(1);
            return Err(Failed);
        }
        if self.room == 0 && !bytes.is_empty() {
            self.faults = self.faults.saturating_add(1);
            return Err(Failed);
        }
        let count = bytes.len().min(self.room.min(self.cut));
        self.bytes.extend_from_slice(&bytes[..count]).unwrap();
        self.room -= count;
        Ok(count)
    }
}
