//! Declared names.
ghost use Rattle.std.specs.Prelude.{◌≡◌, [], ◌<◌, IfOk, OnOk, OnErr, vec_capacity, vec_len};
ghost use Rattle.std.specs.List.{list_all};
ghost use Rattle.control_lines.specs.Views.{checked_now};
ghost use Rattle.expr_parser.specs.Names.{with_name};
ghost use Rattle.rule_types.specs.Reading.{is_variable_kind as is_of_variable};
ghost use Rattle.rule_parser.specs.Declarations.{name_place, variable_key as key_of, and_name};
ghost use Rattle.rule_parser.specs.Declarations.{begins_name as can_begin, is_reserved as reserves};
ghost use Rattle.rule_parser.specs.Declarations.{continues_name as can_continue};
ghost use Rattle.rule_parser.specs.Declarations.{is_name as has_form, name_read};
ghost use Rattle.rule_parser.specs.Conditions.{named_side as side_named};

use byte_edge::NoMemory;
use control_lines::{Fault, both, refused_where};
use expr_parser::NameIndex;
use key_words::{is_simulation, read_object_word};
use list_types::{Bytes, Items};
use network_lines::room_for;
use rule_types::{Cause, Key, NameDef, NameKind, Side};
use std::alloc::Global;
use std::marker::Model;

/// How many names a file may declare.
const MOST_NAMES: usize = 1_024;

/// The declared names in the order of the file, with an index of them; contracts see the list.
#[derive(Drop)]
pub(crate) struct NameList {
    names: Vec<NameDef>,
    index: NameIndex,
}

impl Model for NameList {
    ghost use Rattle.std.specs.Prelude.{◌≡◌, List};
    ghost use Rattle.rule_types.specs.declared.names.NameDef.{NameDef};
    ghost use Rattle.expr_parser.specs.Names.{declared_names};
    ghost use Rattle.rule_types.specs.contracts.names.NameDef as named;
    ghost use Rattle.std.specs.Coded.{coded_list};

    ghost Value = { List NameDef };

    ghost coded = { coded_list named.the_row.coded };

    ghost view = { λ list. list.names.items };

    ghost invariant = { λ list. list.index ≡ declared_names list.names.items };
}

impl NameList {
    ghost use Rattle.expr_parser.specs.Names.{declared_names};

    /// No names.
    pub(crate) fn new(alloc: Global) -> NameList
        ensures { result ≡ [] }
    {
        NameList {
            names: Vec::new(alloc),
            index: NameIndex::new(alloc),
        }
    }

    /// Adds a name that is not there.
    pub(crate) fn push(
        &mut self,
        alloc: Global,
        name: &[u8],
        stands_for: NameKind,
    ) -> Result<(), NoMemory>
        ensures { OnOk result (self.new ≡ and_name self.old name.now stands_for) }
    {
        let named = name_of(alloc, name, stands_for)?;
        enter(&mut self.names, &mut self.index, &named)?;
        self.names.push_reserved(named);
        Ok(())
    }

    /// The list of the names.
    pub(crate) fn into_items(self) -> Items<NameDef>
        ensures { result ≡ self }
    {
        let NameList { names, index: _ } = self;
        Items::from_vec(names)
    }

    /// The names as formulas see them.
    pub(crate) fn index(&self) -> &NameIndex
        ensures { result.now ≡ declared_names self.now }
    {
        &self.index
    }

    /// The key of the declared variable that an item is.
    #[tactic(auto, unfolding(crate::specs::Declarations::name_place))]
    pub(crate) fn variable_key(&self, item: &[u8]) -> Option<Key>
        ensures { result ≡ key_of self.now item.now }
    {
        let place = self.index.find(item)?;
        let named = self.names.get(place as usize)?;
        match &named.stands_for {
            NameKind::Variable(key) => Some(*key),
            NameKind::Formula(_) => None,
        }
    }

    /// The side that a declared name is: a variable is its key, and an expression its place.
    #[tactic(auto, unfolding(crate::specs::Declarations::name_place))]
    pub(crate) fn named_side(&self, item: &[u8]) -> Option<Side>
        ensures { result ≡ side_named self.now item.now }
    {
        let place = self.index.find(item)?;
        let named = self.names.get(place as usize)?;
        match &named.stands_for {
            NameKind::Variable(key) => Some(Side::Key(*key)),
            NameKind::Formula(_) => Some(Side::Expr(place)),
        }
    }

    /// That a name can be declared: DuplicateName where it is declared, ignoring the case of ASCII
    /// letters, ReservedName where it has not the form of a name or begins a key, and TooMany where
    /// there are 1,024 names already (SWMM 5.2 manual, [CONTROLS]).
    #[tactic(auto, unfolding(crate::specs::Declarations::name_read, crate::specs::Declarations::name_place))]
    pub(crate) fn check<'a>(&self, name: &'a [u8]) -> Result<((), ((), ())), Fault<'a>>
        ensures { checked_now result ≡ name_read self.now name.now }
    {
        let duplicate = Fault {
            cause: Cause::DuplicateName,
            token: name,
        };
        let reserved = Fault {
            cause: Cause::ReservedName,
            token: name,
        };
        let is_new = refused_where(self.index.find(name).is_some(), duplicate);
        let is_free = refused_where(!is_name(name) || is_reserved(name), reserved);
        both(
            is_new,
            both(is_free, room_for(b"names", MOST_NAMES, self.names.len())),
        )
    }
}

/// A name, with what it stands for.
fn name_of(alloc: Global, name: &[u8], stands_for: NameKind) -> Result<NameDef, NoMemory>
    ensures { IfOk result (λ named. named
        ≡ record { name = name.now; stands_for = stands_for }) }
{
    match Vec::from_slice(alloc, name) {
        Ok(own) => Ok(NameDef {
            name: Bytes::from_vec(own),
            stands_for,
        }),
        Err(_) => Err(NoMemory),
    }
}

/// Makes room for a name in a list, and enters it into the index.
fn enter(names: &mut Vec<NameDef>, index: &mut NameIndex, named: &NameDef) -> Result<(), NoMemory>
    ensures items { names.new.items ≡ names.old.items }
    ensures room { OnOk result (vec_len names.new < vec_capacity names.new) }
    ensures entered { OnOk result (index.new
        ≡ with_name index.old named.now.name (is_of_variable named.now.stands_for)) }
    ensures unchanged { OnErr result (index.new ≡ index.old) }
{
    const MOST: u64 = 1 << 32;
    if index.len() as u64 >= MOST {
        return Err(NoMemory);
    }
    let Ok(()) = names.reserve(1) else {
        return Err(NoMemory);
    };
    match index.add(named.name.as_slice(), is_variable(&named.stands_for)) {
        Ok(_) => Ok(()),
        Err(_) => Err(NoMemory),
    }
}

/// Whether a name is that of a variable.
fn is_variable(kind: &NameKind) -> bool
    ensures { result ≡ is_of_variable kind.now }
{
    matches!(kind, NameKind::Variable(_))
}

/// Whether a text has the form of a name: a letter or `_`, and behind it letters, digits and `_`.
#[tactic(auto, unfolding(crate::specs::Declarations::is_name))]
fn is_name(item: &[u8]) -> bool
    ensures { result ≡ has_form item.now }
{
    let [byte, later @ ..] = item else {
        return false;
    };
    begins_name(*byte) && continue_name(later)
}

/// Whether a name may go on with these bytes.
fn continue_name(bytes: &[u8]) -> bool
    ensures { result ≡ list_all can_continue bytes.now }
{
    for byte in bytes {
        if !continues_name(*byte) {
            return false;
        }
    }
    true
}

/// Whether a name may begin with a byte.
fn begins_name(byte: u8) -> bool
    ensures { result ≡ can_begin byte }
{
    byte.is_ascii_alphabetic() || byte == b'_'
}

/// Whether a name may go on with a byte.
fn continues_name(byte: u8) -> bool
    ensures { result ≡ can_continue byte }
{
    byte.is_ascii_alphanumeric() || byte == b'_'
}

/// Whether a text is a word that begins a key.
fn is_reserved(item: &[u8]) -> bool
    ensures { result ≡ reserves item.now }
{
    read_object_word(item).is_some() || is_simulation(item)
}
