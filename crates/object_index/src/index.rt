//! The index of a network's objects.
ghost use Rattle.std.specs.Prelude.{◌≡◌, ◌<◌, ◌^◌, ◌↔◌, IfOk, OnOk, OnErr, IsTrue, Err, option_map};
ghost use Rattle.rule_types.specs.declared.refusal.AddFault.TheVariants.{Duplicate};
ghost use Rattle.object_index.specs.Objects.{no_objects, in_space, object_count, object_at};
ghost use Rattle.object_index.specs.Objects.{kind_space, word_space, is_named, with_object};
ghost use Rattle.object_index.specs.Objects.{next_number, resolution, Answers};

use crate::found::Found;
use crate::space_names::SpaceNames;
use crate::unresolved::Unresolved;
use rule_types::{AddFault, ObjectKind, ObjectNo, ObjectWord, Space};
use std::alloc::Global;
use std::marker::Model;

/// The named objects of a network: nodes, links and gages are one space of names each, and the
/// objects of a space are numbered from 0 in the order in which they were added.
#[derive(Drop)]
pub struct ObjectIndex {
    nodes: SpaceNames,
    links: SpaceNames,
    gages: SpaceNames,
}

impl Model for ObjectIndex {
    ghost use Rattle.object_index.specs.Objects.{Objects};

    ghost Value = { Objects };

    ghost view = { λ index.
        record { nodes = index.nodes; links = index.links; gages = index.gages } };
}

impl ObjectIndex {
    /// No objects. It takes no memory, and keeps the allocator for `add`.
    pub fn new(alloc: Global) -> ObjectIndex
        ensures value { result ≡ no_objects }
    {
        ObjectIndex {
            nodes: SpaceNames::new(alloc),
            links: SpaceNames::new(alloc),
            gages: SpaceNames::new(alloc),
        }
    }

    /// Adds an object at the end of the space of its kind, and returns its number. Duplicate
    /// exactly where an object of the space has these very bytes as its name, and else NoMemory
    /// where there is no memory: the index is then as before. It takes time in proportion to the
    /// length of the name and to the logarithm of the number of objects, whatever the names are,
    /// and now and then, where it makes room for more, by their number. It holds the name three
    /// times, once in lower case.
    pub fn add(&mut self, kind: ObjectKind, name: &[u8]) -> Result<ObjectNo, AddFault>
        requires few { object_count self.old < 2 ^ 32 }
        ensures number { IfOk result (λ object. object ≡ next_number self.old kind) }
        ensures added { OnOk result (self.new ≡ with_object self.old kind name.now) }
        ensures unchanged { OnErr result (self.new ≡ self.old) }
        ensures duplicate { (result ≡ Err Duplicate)
            ↔ IsTrue (is_named name.now (in_space self.old (kind_space kind))) }
    {
        let space = space_of_kind(kind);
        let added = match space {
            Space::Nodes => self.nodes.add(kind, name),
            Space::Links => self.links.add(kind, name),
            Space::Gages => self.gages.add(kind, name),
        };
        match added {
            Ok(index) => Ok(ObjectNo { space, index }),
            Err(fault) => Err(fault),
        }
    }

    /// Whether the space of a kind has an object with these very bytes as its name. It takes no
    /// memory, and time in proportion to the length of the name and to the logarithm of the number
    /// of objects.
    pub fn contains(&self, kind: ObjectKind, name: &[u8]) -> bool
        ensures value { result ≡ is_named name.now (in_space self.now (kind_space kind)) }
    {
        self.names_in(space_of_kind(kind)).contains(name)
    }

    /// The object that a word and a name of a control line give. The name finds the object of the
    /// word's space with the same bytes, and failing that the only one that is equal when the case
    /// of ASCII letters is ignored: Unknown where there is none, Ambiguous where there are several.
    /// WrongKind where the word does not accept the found object's kind; the kind does not narrow
    /// the search (the words and the kinds that they accept: SWMM 5.2 manual, [CONTROLS]). It takes
    /// time as `contains` does, and memory for one copy of the name where no name has the same
    /// bytes.
    pub fn resolve(
        &self,
        alloc: Global,
        word: ObjectWord,
        name: &[u8],
    ) -> Result<ObjectNo, Unresolved>
        ensures answer { Answers result (resolution self.now word name.now) }
    {
        let space = space_of_word(word);
        let names = self.names_in(space);
        let Ok(found) = names.find(alloc, name) else {
            return Err(Unresolved::NoMemory);
        };
        match found {
            Found::Nothing => Err(Unresolved::Unknown),
            Found::Several => Err(Unresolved::Ambiguous),
            Found::At(index) => {
                if names.is_accepted(word, index) {
                    Ok(ObjectNo { space, index })
                } else {
                    Err(Unresolved::WrongKind)
                }
            }
        }
    }

    /// The name of an object: None exactly where there is no such object. It takes no memory, and
    /// the same time however many objects there are.
    pub fn name(&self, object: ObjectNo) -> Option<&[u8]>
        ensures value { option_map (λ name. name.now) result
            ≡ option_map (λ held. held.name) (object_at self.now object) }
    {
        self.names_in(object.space).name(object.index)
    }

    /// The kind of an object: None exactly where there is no such object. It takes no memory, and
    /// the same time however many objects there are.
    pub fn kind(&self, object: ObjectNo) -> Option<ObjectKind>
        ensures value { result ≡ option_map (λ held. held.kind) (object_at self.now object) }
    {
        self.names_in(object.space).kind(object.index)
    }

    /// How many objects there are in the three spaces together. It takes no memory, and the same
    /// time however many there are.
    pub fn count(&self) -> usize
        ensures value { result ≡ object_count self.now }
    {
        self.nodes.len() + self.links.len() + self.gages.len()
    }

    /// The names of a space.
    fn names_in(&self, space: Space) -> &SpaceNames
        ensures { result.now ≡ in_space self.now space }
    {
        match space {
            Space::Nodes => &self.nodes,
            Space::Links => &self.links,
            Space::Gages => &self.gages,
        }
    }
}

/// The space of a kind's names.
fn space_of_kind(kind: ObjectKind) -> Space
    ensures { result ≡ kind_space kind }
{
    match kind {
        ObjectKind::Gage => Space::Gages,
        ObjectKind::Node => Space::Nodes,
        _ => Space::Links,
    }
}

/// The space that a word looks in.
fn space_of_word(word: ObjectWord) -> Space
    ensures { result ≡ word_space word }
{
    match word {
        ObjectWord::Gage => Space::Gages,
        ObjectWord::Node => Space::Nodes,
        _ => Space::Links,
    }
}
