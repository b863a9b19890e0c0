//! Files of the host.
ghost use Rattle.std.specs.Prelude.{◌≡◌, ◌≤◌, ℕ, None, IfSome, IsSome, length, slice_index};

use super::{Failed, Files};
use std::io::Read;
use std::{fs, rt};

/// Files of the host, opened by their paths. Contracts learn nothing of what they hold.
#[derive(Drop)]
pub struct HostFiles<'a, R: rt::Files> {
    host: &'a R,
    first: Option<R::File>,
    second: Option<R::File>,
    third: Option<R::File>,
    faults: [u64; 3],
}

impl<'a, R: rt::Files> HostFiles<'a, R> {
    /// The files of `host`, with no slot open.
    pub fn new(host: &'a R) -> HostFiles<'a, R>
        ensures { (k : ℕ) → ⟦<HostFiles<'a, R> as Files>⟧.faults result k ≡ 0 }
    {
        HostFiles {
            host,
            first: None,
            second: None,
            third: None,
            faults: [0; 3],
        }
    }
}

impl<R: rt::Files> Files for HostFiles<'_, R> {
    ghost use Rattle.byte_edge.specs.HostFiles.{is_open_in};

    ghost is_open = { λ files slot. is_open_in files.first files.second files.third slot };

    ghost left = { λ _ _. None };

    ghost held = { λ _ _. None };

    ghost faults = { λ files slot. slice_index files.faults slot };

    fn open_file(&mut self, slot: usize, name: &str) -> Result<(), Failed> {
        let Ok(file) = fs::open(self.host, name) else {
            self.faults[slot] = self.faults[slot].saturating_add(1);
            return Err(Failed);
        };
        match slot {
            0 => self.first = Some(file),
            1 => self.second = Some(file),
            _ => self.third = Some(file),
        }
        Ok(())
    }

    fn read(&mut self, slot: usize, into: &mut [u8]) -> Result<usize, Failed> {
        let count = match slot {
            0 => read_from(&mut self.first, into),
            1 => read_from(&mut self.second, into),
            _ => read_from(&mut self.third, into),
        };
        let Some(count) = count else {
            self.faults[slot] = self.faults[slot].saturating_add(1);
            return Err(Failed);
        };
        Ok(count)
    }
}

/// Reads once from an open file. None where the host failed.
fn read_from<T: Read>(file: &mut Option<T>, into: &mut [u8]) -> Option<usize>
    requires { IsSome file.old }

    ensures some { IfSome result (λ n. n ≤ length into.new) }
    ensures stays_open { IsSome file.new }
{
    let Some(file) = file else {
        unreachable!();
    };
    file.read(into).ok()
}
