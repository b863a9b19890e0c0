//! The values of keys.
ghost use Rattle.std.specs.Prelude.{◌≡◌, [], IfOk};
ghost use Rattle.std.specs.BTreeMap.{insert_entry};
ghost use Rattle.rule_types.specs.KeyOrder.{key_cmp};
ghost use Rattle.verdict_meaning.specs.Grids.{number_of_key};

use byte_edge::NoMemory;
use exact_fraction::frac::Frac;
use rule_types::Key;
use std::alloc::Global;
use std::collections::BTreeMap;
use std::marker::Model;

/// The values of keys; contracts see them in key order.
#[derive(Drop)]
pub(crate) struct Values {
    values: BTreeMap<Key, Frac>,
}

impl Model for Values {
    ghost use Rattle.std.specs.Prelude.{List};
    ghost use Rattle.exact_fraction.specs.Number.{Rational};
    ghost use Rattle.rule_types.specs.declared.key.Key.{Key};

    ghost Value = { List (Key × Rational) };

    ghost view = { λ held. held.values.entries };
}

impl Values {
    /// No values.
    pub(crate) fn new(alloc: Global) -> Values
        ensures { result ≡ [] }
    {
        Values {
            values: BTreeMap::new(alloc),
        }
    }

    /// These values with that of one key more.
    pub(crate) fn with(self, key: Key, value: Frac) -> Result<Values, NoMemory>
        ensures { IfOk result (λ held. held ≡ insert_entry key_cmp self key value) }
    {
        let Values { mut values } = self;
        match values.insert(key, value) {
            Ok(_) => Ok(Values { values }),
            Err(_) => Err(NoMemory),
        }
    }

    /// The value of a key, if it is one of these.
    pub(crate) fn of(&self, key: &Key) -> Option<Frac>
        ensures { result ≡ number_of_key key.now self.now }
    {
        match self.values.get(key) {
            Some(value) => Some(*value),
            None => None,
        }
    }
}
