//! The objects of one space.
ghost use Rattle.std.specs.Prelude.{◌≡◌, [], ◌<◌, ◌≤◌, ◌^◌, ◌↔◌, IfOk, OnOk, OnErr, IsTrue};
ghost use Rattle.std.specs.Prelude.{Err, false, option_map, slice_get, length};
ghost use Rattle.rule_types.specs.Finding.{finds};
ghost use Rattle.rule_types.specs.declared.refusal.AddFault.TheVariants.{Duplicate};
ghost use Rattle.object_index.specs.Names.{found_by};
ghost use Rattle.object_index.specs.Objects.{accepts as accepts_kind, accepts_at, is_named};
ghost use Rattle.object_index.specs.Objects.{names_of, and_object};

use crate::found::Found;
use crate::name_table::NameTable;
use byte_edge::NoMemory;
use rule_types::{AddFault, ObjectKind, ObjectWord};
use std::alloc::Global;
use std::marker::Model;

/// The objects of one space: their names, and the kind of each.
#[derive(Drop)]
pub(crate) struct SpaceNames {
    names: NameTable,
    kinds: Vec<ObjectKind>,
}

impl Model for SpaceNames {
    ghost use Rattle.std.specs.Prelude.{◌≡◌, List, length};
    ghost use Rattle.object_index.specs.Objects.{Object};
    ghost use Rattle.object_index.specs.internal.Objects.{objects_of};

    ghost Value = { List Object };

    ghost view = { λ held. objects_of held.names held.kinds.items };

    ghost invariant = { λ held. length held.kinds.items ≡ length held.names };
}

impl SpaceNames {
    /// No objects.
    pub(crate) fn new(alloc: Global) -> SpaceNames
        ensures { result ≡ [] }
    {
        SpaceNames {
            names: NameTable::new(alloc),
            kinds: Vec::new(alloc),
        }
    }

    /// Adds an object, and returns its number.
    pub(crate) fn add(&mut self, kind: ObjectKind, name: &[u8]) -> Result<u32, AddFault>
        requires few { length self.old < 2 ^ 32 }
        ensures number { IfOk result (λ number. number ≡ length self.old) }
        ensures added { OnOk result (self.new ≡ and_object self.old kind name.now) }
        ensures unchanged { OnErr result (self.new ≡ self.old) }
        ensures duplicate { (result ≡ Err Duplicate) ↔ IsTrue (is_named name.now self.old) }
    {
        if self.contains(name) {
            return Err(AddFault::Duplicate);
        }
        match self.add_new(kind, name) {
            Ok(number) => Ok(number),
            Err(_) => Err(AddFault::NoMemory),
        }
    }

    /// Whether an object has these very bytes as its name.
    pub(crate) fn contains(&self, name: &[u8]) -> bool
        ensures { result ≡ is_named name.now self.now }
    {
        self.names.contains(name)
    }

    /// Adds an object of a new name, and returns its number.
    fn add_new(&mut self, kind: ObjectKind, name: &[u8]) -> Result<u32, NoMemory>
        requires few { length self.old < 2 ^ 32 }
        requires absent { is_named name.now self.old ≡ false }
        ensures number { IfOk result (λ number. number ≡ length self.old) }
        ensures added { OnOk result (self.new ≡ and_object self.old kind name.now) }
        ensures unchanged { OnErr result (self.new ≡ self.old) }
    {
        let Ok(()) = self.kinds.push(kind) else {
            return Err(NoMemory);
        };
        match self.names.add_new(name) {
            Ok(number) => Ok(number),
            Err(_) => {
                self.kinds.pop();
                Err(NoMemory)
            }
        }
    }

    /// What a name finds.
    pub(crate) fn find(&self, alloc: Global, name: &[u8]) -> Result<Found, NoMemory>
        ensures { IfOk result (λ found. found_by found ≡ finds (names_of self.now) name.now) }
    {
        let found = self.names.find(alloc, name)?;
        Ok(found)
    }

    /// Whether a word accepts the object of a number.
    pub(crate) fn is_accepted(&self, word: ObjectWord, number: u32) -> bool
        ensures { result ≡ accepts_at word (slice_get self.now number) }
    {
        match self.kind(number) {
            Some(kind) => accepts(word, kind),
            None => false,
        }
    }

    /// How many objects there are: at most 2^32.
    pub(crate) fn len(&self) -> usize
        ensures value { result ≡ length self.now }
        ensures few { result ≤ 2 ^ 32 }
    {
        self.names.len()
    }

    /// The kind of a number.
    pub(crate) fn kind(&self, number: u32) -> Option<ObjectKind>
        ensures { result ≡ option_map (λ held. held.kind) (slice_get self.now number) }
    {
        kind_at(self.kinds.as_slice(), number)
    }

    /// The name of a number.
    pub(crate) fn name(&self, number: u32) -> Option<&[u8]>
        ensures { option_map (λ name. name.now) result
            ≡ option_map (λ held. held.name) (slice_get self.now number) }
    {
        self.names.name(number)
    }
}

/// The kind at a place of some kinds.
fn kind_at(kinds: &[ObjectKind], number: u32) -> Option<ObjectKind>
    ensures { result ≡ slice_get kinds.now number }
{
    match kinds.get(number as usize) {
        Some(kind) => Some(*kind),
        None => None,
    }
}

/// Whether a word accepts a kind.
fn accepts(word: ObjectWord, kind: ObjectKind) -> bool
    ensures { result ≡ accepts_kind word kind }
{
    match (word, kind) {
        (ObjectWord::Gage, ObjectKind::Gage) => true,
        (ObjectWord::Node, ObjectKind::Node) => true,
        (ObjectWord::Link, ObjectKind::Gage | ObjectKind::Node) => false,
        (ObjectWord::Link, _) => true,
        (ObjectWord::Conduit, ObjectKind::Conduit) => true,
        (ObjectWord::Pump, ObjectKind::Pump) => true,
        (ObjectWord::Orifice, ObjectKind::Orifice) => true,
        (ObjectWord::Weir, ObjectKind::Weir) => true,
        (ObjectWord::Outlet, ObjectKind::Outlet) => true,
        _ => false,
    }
}
