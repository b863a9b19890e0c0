//! The names that are declared.
ghost use Rattle.std.specs.Prelude.{◌≡◌, [], ◌<◌, ◌≤◌, ◌^◌, ◌↔◌, IfOk, OnOk, OnErr, Err, IsSome};
ghost use Rattle.std.specs.Prelude.{length, slice_get, IfSome, None};
ghost use Rattle.rule_types.specs.declared.refusal.AddFault.TheVariants.{Duplicate};
ghost use Rattle.expr_parser.specs.Names.{place_of, variable_of, if_variable, with_name};
ghost use Rattle.expr_parser.specs.internal.Indexed.{number_in};

use byte_edge::NoMemory;
use list_types::Bytes;
use rule_types::AddFault;
use std::alloc::Global;
use std::collections::BTreeMap;
use std::marker::Model;

/// A declared name, and whether it is that of a variable or of an expression.
#[derive(Drop)]
pub struct DeclaredName {
    pub name: Bytes,
    pub is_variable: bool,
}

/// The declared names, numbered from 0 in the order in which they were added. Two names that differ
/// in the case of ASCII letters alone are one. Contracts see the list of names. Each name is held
/// twice: in its place, and in lower case in an ordered map, which gives its number.
#[derive(Drop)]
pub struct NameIndex {
    names: Vec<DeclaredName>,
    numbers: BTreeMap<Vec<u8>, u32>,
}

impl Model for NameIndex {
    ghost use Rattle.std.specs.Prelude.{List};
    ghost use Rattle.expr_parser.specs.declared.name_index.DeclaredName.{DeclaredName};
    ghost use Rattle.expr_parser.specs.internal.Indexed.{IsIndexed};

    ghost Value = { List DeclaredName };

    ghost view = { λ index. index.names.items };

    ghost invariant = { λ index. IsIndexed index.names.items index.numbers };
}

impl NameIndex {
    /// No names. It takes no memory, and keeps the allocator for `add`.
    pub fn new(alloc: Global) -> NameIndex
        ensures value { result ≡ [] }
    {
        NameIndex {
            names: Vec::new(alloc),
            numbers: BTreeMap::new(alloc),
        }
    }

    /// Adds a name at the end, which is that of a variable or of an expression, and returns its
    /// number. Duplicate exactly where the name is there, ignoring the case of ASCII letters, and
    /// else NoMemory where there is no memory: the index is then as before. It takes the time of a
    /// look-up, and now and then, where it makes room for more, time by the number of names.
    pub fn add(&mut self, name: &[u8], is_variable: bool) -> Result<u32, AddFault>
        requires few { length self.old < 2 ^ 32 }
        ensures number { IfOk result (λ number. number ≡ length self.old) }
        ensures added { OnOk result (self.new ≡ with_name self.old name.now is_variable) }
        ensures unchanged { OnErr result (self.new ≡ self.old) }
        ensures duplicate { (result ≡ Err Duplicate) ↔ IsSome (place_of self.old name.now) }
    {
        if self.find(name).is_some() {
            return Err(AddFault::Duplicate);
        }
        match self.add_new(name, is_variable) {
            Ok(number) => Ok(number),
            Err(_) => Err(AddFault::NoMemory),
        }
    }

    /// Adds a name that is not there at the end, and returns its number.
    fn add_new(&mut self, name: &[u8], is_variable: bool) -> Result<u32, NoMemory>
        requires few { length self.old < 2 ^ 32 }
        requires absent { place_of self.old name.now ≡ None }
        ensures number { IfOk result (λ number. number ≡ length self.old) }
        ensures added { OnOk result (self.new ≡ with_name self.old name.now is_variable) }
        ensures unchanged { OnErr result (self.new ≡ self.old) }
    {
        let number = self.names.len() as u32;
        let alloc = *self.names.allocator();
        let Ok(own) = Vec::from_slice(alloc, name) else {
            return Err(NoMemory);
        };
        let Ok(lower) = name.to_ascii_lowercase(alloc) else {
            return Err(NoMemory);
        };
        let Ok(()) = self.names.reserve(1) else {
            return Err(NoMemory);
        };
        let Ok(_) = self.numbers.insert(lower, number) else {
            return Err(NoMemory);
        };
        let declared = DeclaredName {
            name: Bytes::from_vec(own),
            is_variable,
        };
        let Ok(()) = self.names.push(declared) else {
            return Err(NoMemory);
        };
        Ok(number)
    }

    /// The number of a name, ignoring the case of ASCII letters: None exactly where it is not
    /// there. It takes time in proportion to the length of the name and to the logarithm of the
    /// number of names, and memory for one copy of the name until it returns; where there is none,
    /// it compares the name with each that is there instead.
    #[tactic(auto, unfolding(crate::specs::Names::place_of))]
    pub fn find(&self, name: &[u8]) -> Option<u32>
        ensures value { result ≡ place_of self.now name.now }
    {
        let alloc = *self.names.allocator();
        match name.to_ascii_lowercase(alloc) {
            Ok(lower) => number_of(&self.numbers, lower.as_slice()),
            Err(_) => match place_in(self.names.as_slice(), name) {
                Some(place) => Some(place as u32),
                None => None,
            },
        }
    }

    /// The number of the variable that a name is, ignoring the case of ASCII letters: None exactly
    /// where it is no name of a variable. It takes the time and the memory of `find`.
    #[tactic(auto, unfolding(crate::specs::Names::variable_of))]
    pub fn find_variable(&self, name: &[u8]) -> Option<u32>
        ensures value { result ≡ variable_of self.now name.now }
    {
        let place = self.find(name)?;
        variable_at(self.names.as_slice(), place)
    }

    /// How many names there are.
    pub fn len(&self) -> usize
        ensures value { result ≡ length self.now }
        ensures few { result ≤ 2 ^ 32 }
    {
        self.names.len()
    }
}

/// The number of a text in lower case.
fn number_of(numbers: &BTreeMap<Vec<u8>, u32>, text: &[u8]) -> Option<u32>
    ensures { result ≡ number_in numbers.now text.now }
{
    match numbers.get(text) {
        Some(number) => Some(*number),
        None => None,
    }
}

/// The place of a name among the names, from the first on.
#[tactic(auto, unfolding(crate::specs::Names::place_of))]
fn place_in(names: &[DeclaredName], name: &[u8]) -> Option<usize>
    ensures value { result ≡ place_of names.now name.now }
    ensures within { IfSome result (λ place. place < length names.now) }
{
    names.iter().position(|declared| name.eq_ignore_ascii_case(declared.name.as_slice()))
}

/// The place where it is that of a variable.
fn variable_at(names: &[DeclaredName], place: u32) -> Option<u32>
    ensures { result ≡ if_variable place (slice_get names.now place) }
{
    match names.get(place as usize) {
        Some(declared) => {
            if declared.is_variable {
                Some(place)
            } else {
                None
            }
        }
        None => None,
    }
}
