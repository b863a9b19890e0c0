//! The places of columns.
ghost use Rattle.std.specs.Prelude.{◌≡◌, Some, None, OnOk, if◌then◌else◌};
ghost use Rattle.rule_types.specs.declared.condition.Side.{Side as AnySide};
ghost use Rattle.table_compiler.specs.Parts.{same_column};
ghost use Rattle.table_plan.specs.internal.Collected.{found};

use byte_edge::NoMemory;
use rule_types::{Key, Side};
use std::alloc::Global;
use std::collections::BTreeMap;

/// The places of columns, by key and by the place of an expression among the names.
#[derive(Drop)]
pub(crate) struct ColumnPlaces {
    keys: BTreeMap<Key, usize>,
    names: BTreeMap<u32, usize>,
}

impl ColumnPlaces {
    /// No places.
    pub(crate) fn new(alloc: Global) -> ColumnPlaces
        ensures { (column : AnySide) → found result column ≡ None }
    {
        ColumnPlaces {
            keys: BTreeMap::new(alloc),
            names: BTreeMap::new(alloc),
        }
    }

    /// The place of a column, if it has one.
    pub(crate) fn place(&self, side: &Side) -> Option<usize>
        ensures { result ≡ found self.now side.now }
    {
        match side {
            Side::Key(key) => self.keys.get(key).copied(),
            Side::Expr(name) => self.names.get(name).copied(),
        }
    }

    /// Gives a column a place.
    pub(crate) fn insert(&mut self, side: Side, at: usize) -> Result<(), NoMemory>
        ensures { OnOk result ((column : AnySide) → found self.new column
            ≡ (if same_column side column then Some at else found self.old column)) }
    {
        match side {
            Side::Key(key) => {
                self.keys.insert(key, at)?;
                Ok(())
            }
            Side::Expr(name) => {
                self.names.insert(name, at)?;
                Ok(())
            }
        }
    }
}
