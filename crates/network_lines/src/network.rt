//! The network of an input file: its objects, and what is read of its links.
ghost use Rattle.std.specs.Prelude.{◌≡◌, None, Some, IfOk, OnOk};
ghost use Rattle.std.specs.Option.{option_or};
ghost use Rattle.inp_text.specs.internal.Represents.{kept};
ghost use Rattle.inp_text.specs.Headings.{first_of as first_item_of};
ghost use Rattle.object_index.specs.Objects.{is_link as is_link_kind};
ghost use Rattle.control_lines.specs.Faults.{refusal_at, refusal_on};
ghost use Rattle.control_lines.specs.Views.{checked_now, fault_now, texts};
ghost use Rattle.network_lines.specs.Objects.{no_network, section_object, object_read, line_read};
ghost use Rattle.network_lines.specs.Objects.{data_of as data_in, links_with, with_new};
ghost use Rattle.network_lines.specs.Objects.{network_with, network_from, objects_refusal};
ghost use Rattle.network_lines.specs.Objects.{object_lines as lines_of_objects};
ghost use Rattle.network_lines.specs.internal.Views.{line_now, lines_now};

use crate::limit::room_for;
use crate::merged::{ObjectLine, object_lines};
use crate::object_line::{first_of, is_link, link_data, object_kind};
use byte_edge::NoMemory;
use control_lines::{Fault, both, refused_where};
use exact_fraction::frac::Frac;
use inp_text::{Sections, cut_line};
use list_types::Items;
use object_index::ObjectIndex;
use rule_types::{Cause, ObjectKind, Refusal};
use std::alloc::Global;

/// How many objects a file may have.
const MOST_OBJECTS: usize = 65_536;

/// What is read of a link's line.
#[derive(Clone, Copy)]
pub struct LinkData {
    /// The initial setting.
    pub setting: Frac,
    /// The hours that the link takes to open or close fully, 0 where it moves at once.
    pub rate: Frac,
}

/// The objects of a file, with what is read of each link's line, in link order.
#[derive(Drop)]
pub struct Network {
    pub objects: ObjectIndex,
    pub links: Items<LinkData>,
}

/// The network of some lines, and the first refusal among these lines.
#[derive(Drop)]
pub struct NetworkRead {
    pub network: Network,
    pub refusal: Option<Refusal>,
}

/// The objects of the ten sections of objects, in the order of the file, and the first refusal
/// among their lines: DuplicateName of a name that an object of the same space has, WrongValue and
/// NumberTooLarge of a pump's status and of an orifice's time, and TooMany where there are 65,536
/// objects already. Objects past that limit are found by their names too. It takes time in
/// proportion to the lines, and for each object one look-up of its name (the sections and the
/// places of items are those of the SWMM 5.2 manual, appendix D).
pub fn read_network(alloc: Global, sections: &Sections) -> Result<NetworkRead, NoMemory>
    ensures network { IfOk result (λ read. read.network
        ≡ network_from no_network (lines_of_objects (kept sections.now.kept))) }
    ensures refusal { IfOk result (λ read. read.refusal
        ≡ objects_refusal no_network (lines_of_objects (kept sections.now.kept))) }
{
    let lines = object_lines(alloc, sections)?;
    network_of(alloc, lines.as_slice())
}

/// The objects of lines in the order of the file, and the first refusal among these lines.
fn network_of(alloc: Global, lines: &[ObjectLine<'_>]) -> Result<NetworkRead, NoMemory>
    ensures network { IfOk result (λ read. read.network
        ≡ network_from no_network (lines_now lines.now)) }
    ensures refusal { IfOk result (λ read. read.refusal
        ≡ objects_refusal no_network (lines_now lines.now)) }
{
    let mut read = NetworkRead::new(alloc);
    match read.take_all(alloc, lines) {
        Ok(()) => Ok(read),
        Err(_) => {
            drop(read);
            Err(NoMemory)
        }
    }
}

impl NetworkRead {
    /// No objects, and no refusal.
    fn new(alloc: Global) -> NetworkRead
        ensures network { result.network ≡ no_network }
        ensures refusal { result.refusal ≡ None }
    {
        NetworkRead {
            network: Network {
                objects: ObjectIndex::new(alloc),
                links: Items::new(alloc),
            },
            refusal: None,
        }
    }

    /// Takes lines in the order of the file.
    fn take_all(&mut self, alloc: Global, lines: &[ObjectLine<'_>]) -> Result<(), NoMemory>
        ensures network { OnOk result (self.new.network
            ≡ network_from self.old.network (lines_now lines.now)) }
        ensures refusal { OnOk result (self.new.refusal ≡ option_or self.old.refusal
            (objects_refusal self.old.network (lines_now lines.now))) }
    {
        for line in lines {
            self.take(alloc, line)?;
        }
        Ok(())
    }

    /// Takes one more line.
    #[tactic(auto, unfolding(crate::specs::Objects::line_read))]
    fn take(&mut self, alloc: Global, found: &ObjectLine<'_>) -> Result<(), NoMemory>
        ensures network { OnOk result (self.new.network
            ≡ network_with (section_object found.now.section) self.old.network
            (line_now found.now)) }
        ensures refusal { OnOk result (self.new.refusal ≡ option_or self.old.refusal
            (refusal_at found.now.line.now.number (line_read self.old.network
            (line_now found.now)))) }
    {
        match object_kind(found.section) {
            Some(kind) => self.take_object(alloc, kind, found),
            None => Ok(()),
        }
    }

    /// Takes one more line of an object.
    #[tactic(auto, unfolding(crate::specs::Objects::line_read))]
    fn take_object(
        &mut self,
        alloc: Global,
        kind: ObjectKind,
        found: &ObjectLine<'_>,
    ) -> Result<(), NoMemory>
        requires kind { section_object found.now.section ≡ Some kind }
        ensures network { OnOk result (self.new.network
            ≡ network_with (Some kind) self.old.network (line_now found.now)) }
        ensures refusal { OnOk result (self.new.refusal ≡ option_or self.old.refusal
            (refusal_at found.now.line.now.number (line_read self.old.network
            (line_now found.now)))) }
    {
        let items = cut_line(alloc, found.line.bytes.as_slice())?;
        self.take_items(alloc, kind, found.line.number, items.as_slice())
    }

    /// Takes the items of one more line of an object.
    fn take_items(
        &mut self,
        alloc: Global,
        kind: ObjectKind,
        number: u64,
        items: &[&[u8]],
    ) -> Result<(), NoMemory>
        ensures network { OnOk result (self.new.network ≡ with_new self.old.network kind
            (first_item_of (texts items.now)) (data_in (object_read self.old.network kind
            (texts items.now) (first_item_of (texts items.now))))) }
        ensures refusal { OnOk result (self.new.refusal ≡ option_or self.old.refusal
            (refusal_at number (object_read self.old.network kind (texts items.now)
            (first_item_of (texts items.now))))) }
    {
        let name = first_of(items);
        let checked = read_object(&self.network, kind, items, name);
        let data = data_of(&checked);
        self.refuse(alloc, number, &checked)?;
        self.network.add(kind, name, data)
    }

    /// Notes the refusal of a line, if what was read of it is at fault, unless there is one.
    fn refuse(
        &mut self,
        alloc: Global,
        number: u64,
        checked: &Result<LinkData, Fault<'_>>,
    ) -> Result<(), NoMemory>
        ensures network { self.new.network ≡ self.old.network }
        ensures refusal { OnOk result (self.new.refusal ≡ option_or self.old.refusal
            (refusal_at number (checked_now checked.now))) }
    {
        if self.refusal.is_none() {
            if let Err(fault) = checked {
                self.refusal = Some(fault.refusal(alloc, number)?);
            }
        }
        Ok(())
    }
}

impl Network {
    /// Adds an object, unless its name is taken.
    fn add(&mut self, kind: ObjectKind, name: &[u8], link: LinkData) -> Result<(), NoMemory>
        ensures { OnOk result (self.new ≡ with_new self.old kind name.now link) }
    {
        const MOST: u64 = 1 << 32;
        if self.objects.contains(kind, name) {
            return Ok(());
        }
        if self.objects.count() as u64 >= MOST {
            return Err(NoMemory);
        }
        let Ok(_) = self.objects.add(kind, name) else {
            return Err(NoMemory);
        };
        add_link(&mut self.links, is_link(kind), link)
    }
}

/// Adds what is read of a link, if there is one more.
fn add_link(links: &mut Items<LinkData>, one_more: bool, link: LinkData) -> Result<(), NoMemory>
    ensures { OnOk result (links.new ≡ links_with one_more links.old link) }
{
    if one_more {
        return match links.push(link) {
            Ok(()) => Ok(()),
            Err(_) => Err(NoMemory),
        };
    }
    Ok(())
}

/// What is read of the line of an object of a kind, or the fault of the line.
fn read_object<'a>(
    network: &Network,
    kind: ObjectKind,
    found: &[&'a [u8]],
    name: &'a [u8],
) -> Result<LinkData, Fault<'a>>
    ensures { checked_now result ≡ object_read network.now kind (texts found.now) name.now }
{
    let fault = Fault {
        cause: Cause::DuplicateName,
        token: name,
    };
    let taken = refused_where(network.objects.contains(kind, name), fault);
    let room = room_for(b"objects", MOST_OBJECTS, network.objects.count());
    match both(taken, both(link_data(kind, found), room)) {
        Ok((_, (link, _))) => Ok(link),
        Err(fault) => Err(fault),
    }
}

/// What is read of a link; a link at fault is open at first and moves at once.
fn data_of(checked: &Result<LinkData, Fault<'_>>) -> LinkData
    ensures { result ≡ data_in (checked_now checked.now) }
{
    match checked {
        Ok(link) => *link,
        Err(_) => LinkData {
            setting: Frac::one(),
            rate: Frac::zero(),
        },
    }
}
