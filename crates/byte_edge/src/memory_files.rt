//! Files in memory.
ghost use Rattle.std.specs.Prelude.{◌≡◌, ◌+◌, ◌<◌, ◌≤◌, ◌↔◌, ◌⊎◌, ℕ, None, min, length, take, drop, IfOk, IfSome, OnOk, OnErr, IsErr, IsTrue, is_err, position, slice_index};
ghost use Rattle.std.specs.Io.{ReadsAtMost};
ghost use Rattle.std.specs.Io.KnownBytes.{ReadConsumes};
ghost use Rattle.byte_edge.specs.Devices.{CountIncreased, UnchangedExcept, IsCallOn};
ghost use Rattle.byte_edge.specs.Entries.{bytes_at, has_name};

use super::failing_calls::is_failing;
use super::{Failed, Files};

/// How far an entry of `MemoryFiles` was read.
#[derive(Clone, Copy)]
struct Place {
    entry: usize,
    at: usize,
}

/// Files in memory. A read gives at most `cut` bytes, and the calls whose numbers are in `failing`
/// fail; opens and reads are counted together from 1, and the number stays at 2^64 - 1 once it is
/// there.
#[derive(Drop)]
pub struct MemoryFiles {
    held: Vec<(String, Vec<u8>)>,
    cut: usize,
    failing: Vec<u64>,
    calls: u64,
    places: [Option<Place>; 3],
    faults: [u64; 3],
    ghost cut_some: { 1 ≤ cut },
}

impl MemoryFiles {
    ghost use Rattle.byte_edge.specs.MemoryFiles.{IsCalled, FailsNext, entries_of, cut_of, failing_of, calls_of, faults_in, place_in};

    /// Files with these bytes under these names, where the first of equal names counts. An open of
    /// another name fails.
    pub fn new(held: Vec<(String, Vec<u8>)>, cut: usize, failing: Vec<u64>) -> MemoryFiles
        requires { 1 ≤ cut }

        ensures held { entries_of result ≡ held.items }
        ensures cut { cut_of result ≡ cut }
        ensures failing { failing_of result ≡ failing.items }
        ensures calls { calls_of result ≡ 0 }
        ensures closed { (k : ℕ) → place_in result k ≡ None }
        ensures faults { (k : ℕ) → faults_in result k ≡ 0 }
    {
        MemoryFiles {
            held,
            cut,
            failing,
            calls: 0,
            places: [None; 3],
            faults: [0; 3],
        }
    }

    /// Counts a call. True where it is one of those that fail.
    fn count_call(&mut self) -> bool
        ensures fails { IsTrue result ↔ FailsNext self.old }
        ensures called { IsCalled self.old self.new }
        ensures places { self.new.places ≡ self.old.places }
        ensures faults { self.new.faults ≡ self.old.faults }
    {
        self.calls = self.calls.saturating_add(1);
        is_failing(&self.failing, self.calls)
    }

    /// Counts a fault of a slot.
    fn count_fault(&mut self, slot: usize)
        requires { slot < 3 }

        ensures held { self.new.held.items ≡ self.old.held.items }
        ensures cut { self.new.cut ≡ self.old.cut }
        ensures failing { self.new.failing.items ≡ self.old.failing.items }
        ensures calls { self.new.calls ≡ self.old.calls }
        ensures places { self.new.places ≡ self.old.places }
        ensures increased { CountIncreased (faults_in self.old slot) (faults_in self.new slot) }
        ensures other_counts { UnchangedExcept slot (faults_in self.old) (faults_in self.new) }
        ensures later { (k : ℕ) → faults_in self.old k ≤ faults_in self.new k }
    {
        self.faults[slot] = self.faults[slot].saturating_add(1);
    }

    /// The bytes of an entry from a place on.
    fn bytes_from(&self, place: Place) -> &[u8]
        ensures { result.now ≡ drop place.at (bytes_at self.now.held.items place.entry) }
    {
        match self.held.get(place.entry) {
            Some(entry) => from_place(entry.1.as_slice(), place.at),
            None => &[],
        }
    }
}

impl Files for MemoryFiles {
    ghost use Rattle.byte_edge.specs.MemoryFiles.{IsCalled, FailsNext, IsOpenIn, held_in, cut_of, faults_in, left_in};

    ghost is_open = { IsOpenIn };

    ghost left = { left_in };

    ghost held = { held_in };

    ghost faults = { faults_in };

    /// Fails exactly where the number of the call is in `failing`, or no entry has the name.
    fn open_file(&mut self, slot: usize, name: &str) -> Result<(), Failed>
        requires { slot < 3 }

        ensures fails { IsErr result ↔ (FailsNext self.old ⊎ (held_in self.old name.now ≡ None)) }
        ensures called { IsCalled self.old self.new }

        ensures opened { OnOk result (IsOpenIn self.new slot) }
        ensures placed { OnOk result (left_in self.new slot ≡ held_in self.old name.now) }
        ensures unmoved { OnErr result (left_in self.new slot ≡ left_in self.old slot) }

        ensures call { IsCallOn slot (is_err result)
            (IsOpenIn self.old) (IsOpenIn self.new) (held_in self.old) (held_in self.new)
            (left_in self.old) (left_in self.new) (faults_in self.old) (faults_in self.new) }
    {
        if self.count_call() {
            self.count_fault(slot);
            return Err(Failed);
        }
        let Some(entry) = entry_named(&self.held, name) else {
            self.count_fault(slot);
            return Err(Failed);
        };
        self.places[slot] = Some(Place { entry, at: 0 });
        Ok(())
    }

    /// Fails exactly where the number of the call is in `failing`. Else it gives as many bytes as
    /// are left, as `into` has room for, and at most `cut`.
    fn read(&mut self, slot: usize, into: &mut [u8]) -> Result<usize, Failed>
        requires slot { slot < 3 }
        requires opened { IsOpenIn self.old slot }
        requires room { 0 < length into.old }

        ensures fails { IsErr result ↔ FailsNext self.old }
        ensures called { IsCalled self.old self.new }
        ensures count { IfOk result (λ n. IfSome (left_in self.old slot)
            (λ bytes. n ≡ min (length bytes) (min (length into.old) (cut_of self.old)))) }

        ensures bound { ReadsAtMost result into.new }
        ensures bytes { ReadConsumes
            (left_in self.old slot) (left_in self.new slot) result into.new }

        ensures call { IsCallOn slot (is_err result)
            (IsOpenIn self.old) (IsOpenIn self.new) (held_in self.old) (held_in self.new)
            (left_in self.old) (left_in self.new) (faults_in self.old) (faults_in self.new) }
    {
        if self.count_call() {
            self.count_fault(slot);
            return Err(Failed);
        }
        let Some(place) = self.places[slot] else {
            unreachable!();
        };
        let count = copy_front(self.bytes_from(place), into, self.cut);
        self.places[slot] = Some(Place {
            entry: place.entry,
            at: place.at + count,
        });
        Ok(count)
    }
}

/// The place of the first entry with a name.
fn entry_named(held: &[(String, Vec<u8>)], name: &str) -> Option<usize>
    ensures { result ≡ position (has_name name.now) held.now }
{
    held.iter().position(|entry| is_named(entry, name))
}

/// Whether an entry has a name.
fn is_named(entry: &(String, Vec<u8>), name: &str) -> bool
    ensures { result ≡ has_name name.now entry.now }
{
    entry.0.as_str() == name
}

/// The bytes from a place on, or none.
fn from_place(bytes: &[u8], at: usize) -> &[u8]
    ensures { result.now ≡ drop at bytes.now }
{
    if at > bytes.len() {
        return &[];
    }
    &bytes[at..]
}

/// Copies as many bytes as there are, as `into` has room for, and at most `most`.
fn copy_front(bytes: &[u8], into: &mut [u8], most: usize) -> usize
    ensures count { result ≡ min (length bytes.now) (min (length into.old) most) }
    ensures copied { take result into.new ≡ take result bytes.now }
{
    let count = bytes.len().min(into.len().min(most));
    into[..count].copy_from_slice(&bytes[..count]);
    count
}
