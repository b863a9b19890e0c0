//! Seconds in hours that are known.
ghost use Rattle.std.specs.Prelude.{◌≡◌, ◌<◌, ◌^◌, unsigned_abs};
ghost use Rattle.rule_meaning.specs.Clock.{hours_of as in_hours};

use byte_edge::NoMemory;
use clock_values::hours_of;
use exact_fraction::frac::Frac;
use std::alloc::Global;

/// How many numbers of seconds are known at a time.
const SLOTS: usize = 1024;

/// Some seconds in hours.
#[derive(Clone, Copy)]
struct Hours {
    seconds: i64,
    hours: Frac,
    ghost is_hours: { hours ≡ in_hours seconds },
}

/// Seconds in hours that were asked for before. Rows mostly have the same gap, and timers that come
/// again, so that few of them are divided.
#[derive(Drop)]
pub(crate) struct KnownHours {
    slots: Vec<Hours>,
}

impl KnownHours {
    /// Room for known hours, or NoMemory where memory is wanting.
    pub(crate) fn new(alloc: Global) -> Result<KnownHours, NoMemory> {
        let none = Hours {
            seconds: 0,
            hours: hours_of(0),
        };
        let slots = vec![in alloc; none; SLOTS]?;
        Ok(KnownHours { slots })
    }

    /// So many seconds in hours. It takes no memory, and divides only where the slot of the seconds
    /// has other ones: each remainder by 1,024 has a slot.
    pub(crate) fn hours_of(&mut self, seconds: i64) -> Frac
        requires fits { unsigned_abs seconds < 2 ^ 63 }
        ensures value { result ≡ in_hours seconds }
    {
        known_in(self.slots.as_mut_slice(), slot_of(seconds), seconds)
    }
}

/// The slot of some seconds.
fn slot_of(seconds: i64) -> usize {
    (seconds & 1023) as usize
}

/// So many seconds in hours, that are read off a slot, or else written into it.
fn known_in(slots: &mut [Hours], at: usize, seconds: i64) -> Frac
    requires fits { unsigned_abs seconds < 2 ^ 63 }
    ensures value { result ≡ in_hours seconds }
{
    if at >= slots.len() {
        return hours_of(seconds);
    }
    if slots[at].seconds == seconds {
        return slots[at].hours;
    }
    let hours = hours_of(seconds);
    slots[at] = Hours { seconds, hours };
    hours
}
