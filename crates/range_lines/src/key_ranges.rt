//! The ranges of keys.
ghost use Rattle.std.specs.Prelude.{◌≡◌, [], map, IfOk};
ghost use Rattle.std.specs.BTreeMap.{insert_entry};
ghost use Rattle.rule_types.specs.KeyOrder.{key_cmp};
ghost use Rattle.range_lines.specs.Lines.{closed as is_closed, range_of};
ghost use Rattle.range_lines.specs.Needs.{is_given};

use byte_edge::NoMemory;
use exact_fraction::frac::Frac;
use interval_sets::{Bound, Interval};
use list_types::Items;
use rule_types::Key;
use std::alloc::Global;
use std::collections::BTreeMap;
use std::marker::Model;

/// The ranges of keys; contracts see them in key order.
#[derive(Drop)]
pub(crate) struct KeyRanges {
    ranges: BTreeMap<Key, (Frac, Frac)>,
}

impl Model for KeyRanges {
    ghost use Rattle.std.specs.Prelude.{List};
    ghost use Rattle.exact_fraction.specs.Number.{Rational};
    ghost use Rattle.rule_types.specs.declared.key.Key.{Key};

    ghost Value = { List (Key × (Rational × Rational)) };

    ghost view = { λ held. held.ranges.entries };
}

impl KeyRanges {
    /// No ranges.
    pub(crate) fn new(alloc: Global) -> KeyRanges
        ensures { result ≡ [] }
    {
        KeyRanges {
            ranges: BTreeMap::new(alloc),
        }
    }

    /// Whether a key has a range.
    pub(crate) fn has(&self, key: &Key) -> bool
        ensures { result ≡ is_given self.now key.now }
    {
        self.ranges.contains_key(key)
    }

    /// These ranges with that of one key more, by its two ends.
    pub(crate) fn with(self, key: Key, low: Frac, high: Frac) -> Result<KeyRanges, NoMemory>
        ensures { IfOk result (λ held. held ≡ insert_entry key_cmp self key (low, high)) }
    {
        let KeyRanges { mut ranges } = self;
        match ranges.insert(key, (low, high)) {
            Ok(_) => Ok(KeyRanges { ranges }),
            Err(_) => Err(NoMemory),
        }
    }

    /// The list of the ranges, in key order.
    pub(crate) fn list(&self, alloc: Global) -> Result<Items<(Key, Interval)>, NoMemory>
        ensures { IfOk result (λ list. list ≡ map range_of self.now) }
    {
        let mut list = Items::new(alloc);
        for (key, ends) in self.ranges.iter() {
            let Ok(()) = list.push((*key, closed(ends.0, ends.1))) else {
                return Err(NoMemory);
            };
        }
        Ok(list)
    }
}

/// The interval from one number to another, both of them in it.
fn closed(low: Frac, high: Frac) -> Interval
    ensures { result ≡ is_closed low high }
{
    Interval {
        low: Bound::Bound(low, false),
        high: Bound::Bound(high, false),
    }
}
