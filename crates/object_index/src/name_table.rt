//! A table of names.
ghost use Rattle.std.specs.Prelude.{◌≡◌, [], ◌∷◌, ◌++◌, ◌<◌, ◌≤◌, ◌^◌, ◌↔◌, IfOk, OnOk, OnErr};
ghost use Rattle.std.specs.Prelude.{Err, IsTrue, IfSome, false, option_map, slice_get, length};
ghost use Rattle.std.specs.Prelude.{position};
ghost use Rattle.std.specs.List.{list_any};
ghost use Rattle.std.specs.Str.{bytes_eq};
ghost use Rattle.rule_types.specs.Finding.{At, finds};
ghost use Rattle.rule_types.specs.declared.refusal.AddFault.TheVariants.{Duplicate};
ghost use Rattle.object_index.specs.Names.{found_by};

use crate::found::Found;
use crate::place::{Place, add_place, place_of, remove_place};
use byte_edge::NoMemory;
use list_types::Bytes;
use rule_types::AddFault;
use std::alloc::Global;
use std::collections::BTreeMap;
use std::marker::Model;

/// Names that differ in their bytes, numbered from 0 in the order in which they were added;
/// contracts see the list of them. A look-up takes time in proportion to the length of the name and
/// to the logarithm of the number of names, whatever the names are. Each name is held three times:
/// in its place, in an ordered map, and in lower case in another.
#[derive(Drop)]
pub struct NameTable {
    names: Vec<Bytes>,
    exact: BTreeMap<Vec<u8>, Place>,
    caseless: BTreeMap<Vec<u8>, Place>,
}

impl Model for NameTable {
    ghost use Rattle.std.specs.Prelude.{List, ℕ};
    ghost use Rattle.object_index.specs.internal.Indexed.{IsIndexed};

    ghost Value = { List (List ℕ) };

    ghost view = { λ table. table.names.items };

    ghost invariant = { λ table. IsIndexed table.names.items table.exact table.caseless };
}

impl NameTable {
    /// No names. It takes no memory, and keeps the allocator for `add`.
    pub fn new(alloc: Global) -> NameTable
        ensures value { result ≡ [] }
    {
        NameTable {
            names: Vec::new(alloc),
            exact: BTreeMap::new(alloc),
            caseless: BTreeMap::new(alloc),
        }
    }

    /// Adds a name at the end, and returns its number. Duplicate exactly where a name has these
    /// very bytes, and else NoMemory where there is no memory: the table is then as before. It
    /// takes the time of a look-up, and now and then, where it makes room for more, time by the
    /// number of names.
    pub fn add(&mut self, name: &[u8]) -> Result<u32, AddFault>
        requires few { length self.old < 2 ^ 32 }
        ensures number { IfOk result (λ number. number ≡ length self.old) }
        ensures added { OnOk result (self.new ≡ self.old ++ name.now ∷ []) }
        ensures unchanged { OnErr result (self.new ≡ self.old) }
        ensures duplicate { (result ≡ Err Duplicate)
            ↔ IsTrue (list_any (bytes_eq name.now) self.old) }
    {
        if self.contains(name) {
            return Err(AddFault::Duplicate);
        }
        match self.add_new(name) {
            Ok(number) => Ok(number),
            Err(_) => Err(AddFault::NoMemory),
        }
    }

    /// Adds a new name at the end, and returns its number.
    pub(crate) fn add_new(&mut self, name: &[u8]) -> Result<u32, NoMemory>
        requires few { length self.old < 2 ^ 32 }
        requires absent { list_any (bytes_eq name.now) self.old ≡ false }
        ensures number { IfOk result (λ number. number ≡ length self.old) }
        ensures added { OnOk result (self.new ≡ self.old ++ name.now ∷ []) }
        ensures unchanged { OnErr result (self.new ≡ self.old) }
    {
        let number = self.len() as u32;
        let alloc = *self.names.allocator();
        let Ok(own) = Vec::from_slice(alloc, name) else {
            return Err(NoMemory);
        };
        let Ok(copy) = Vec::from_slice(alloc, name) else {
            return Err(NoMemory);
        };
        let Ok(folded) = name.to_ascii_lowercase(alloc) else {
            return Err(NoMemory);
        };
        let Ok(()) = self.names.reserve(1) else {
            return Err(NoMemory);
        };
        let Ok(()) = add_place(&mut self.exact, copy, number) else {
            return Err(NoMemory);
        };
        let Ok(()) = add_place(&mut self.caseless, folded, number) else {
            remove_place(&mut self.exact, name);
            return Err(NoMemory);
        };
        let Ok(()) = self.names.push(Bytes::from_vec(own)) else {
            return Err(NoMemory);
        };
        Ok(number)
    }

    /// Whether a name has these very bytes. It takes no memory.
    pub fn contains(&self, name: &[u8]) -> bool
        ensures value { result ≡ list_any (bytes_eq name.now) self.now }
    {
        self.position(name).is_some()
    }

    /// The number of the name with these very bytes, which a look-up finds: None exactly where
    /// there is none. It takes no memory.
    pub fn position(&self, name: &[u8]) -> Option<u32>
        ensures value { result ≡ position (bytes_eq name.now) self.now }
        ensures found { IfSome result (λ number. finds self.now name.now ≡ At number) }
    {
        match place_of(&self.exact, name) {
            Found::Nothing => None,
            Found::At(number) => Some(number),
            Found::Several => None,
        }
    }

    /// What a name finds: the name with the same bytes, and failing that the only one that is equal
    /// when the case of ASCII letters is ignored. It takes memory for one copy of the name where no
    /// name has the same bytes; NoMemory only there.
    pub fn find(&self, alloc: Global, name: &[u8]) -> Result<Found, NoMemory>
        ensures value { IfOk result (λ found. found_by found ≡ finds self.now name.now) }
        ensures same_bytes { OnErr result (list_any (bytes_eq name.now) self.now ≡ false) }
    {
        if let Some(number) = self.position(name) {
            return Ok(Found::At(number));
        }
        let Ok(folded) = name.to_ascii_lowercase(alloc) else {
            return Err(NoMemory);
        };
        Ok(place_of(&self.caseless, folded.as_slice()))
    }

    /// The name of a number: None exactly where there are not so many. It takes no memory, and the
    /// same time however many names there are.
    pub fn name(&self, number: u32) -> Option<&[u8]>
        ensures value { option_map (λ name. name.now) result ≡ slice_get self.now number }
    {
        match self.names.get(number as usize) {
            Some(name) => Some(name.as_slice()),
            None => None,
        }
    }

    /// How many names there are: at most 2^32.
    pub fn len(&self) -> usize
        ensures value { result ≡ length self.now }
        ensures few { result ≤ 2 ^ 32 }
    {
        self.names.len()
    }
}
