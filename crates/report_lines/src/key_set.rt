//! Sets of keys.
ghost use Rattle.std.specs.Prelude.{◌≡◌, IfOk};
ghost use Rattle.std.specs.BTreeMap.{is_at};
ghost use Rattle.std.specs.List.{list_any};
ghost use Rattle.rule_types.specs.KeyOrder.{key_cmp};

use byte_edge::NoMemory;
use list_types::Items;
use rule_types::Key;
use std::alloc::Global;
use std::collections::BTreeSet;
use std::marker::Model;

/// Keys; contracts see them in key order, each once. A look-up takes time in proportion to the
/// logarithm of their number.
#[derive(Drop)]
pub struct KeySet {
    keys: BTreeSet<Key>,
}

impl Model for KeySet {
    ghost use Rattle.std.specs.Prelude.{List};
    ghost use Rattle.rule_types.specs.declared.key.Key.{Key};

    ghost Value = { List Key };

    ghost view = { λ set. set.keys.keys };
}

impl KeySet {
    /// The keys of a set.
    pub fn of(keys: BTreeSet<Key>) -> KeySet
        ensures value { result ≡ keys.keys }
    {
        KeySet { keys }
    }

    /// Whether a key is one of these.
    pub fn contains(&self, key: &Key) -> bool
        ensures value { result ≡ list_any (is_at (key_cmp key.now)) self.now }
    {
        self.keys.contains(key)
    }

    /// The list of the keys: NoMemory only where memory is wanting.
    pub fn list(&self, alloc: Global) -> Result<Items<Key>, NoMemory>
        ensures value { IfOk result (λ list. list ≡ self.now) }
    {
        let mut list = Items::new(alloc);
        for key in self.keys.iter() {
            let Ok(()) = list.push(*key) else {
                return Err(NoMemory);
            };
        }
        Ok(list)
    }
}
