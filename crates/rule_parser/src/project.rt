//! The project of an input file.
ghost use Rattle.std.specs.Prelude.{◌≡◌, List, Some, Ok, All, IfOk, reverse};
ghost use Rattle.object_index.specs.Holding.{HoldsObjects};
ghost use Rattle.rule_types.specs.Tables.{HoldsTables};
ghost use Rattle.rule_types.specs.WellFormed.{WellFormed, IsRoutingStep};
ghost use Rattle.network_lines.specs.Bounds.{IsLinkData};
ghost use Rattle.inp_text.specs.Sections.{Line, section_lines};
ghost use Rattle.inp_text.specs.declared.section_kind.SectionKind.TheVariants.{Controls, Curves};
ghost use Rattle.inp_text.specs.declared.section_kind.SectionKind.TheVariants.{Series};
ghost use Rattle.inp_text.specs.internal.Represents.{Represents, kept};
ghost use Rattle.rule_types.specs.Refusals.{earlier};
ghost use Rattle.curves_series.specs.Names.{named_tables};
ghost use Rattle.network_lines.specs.Objects.{no_network, object_lines, objects_refusal};
ghost use Rattle.network_lines.specs.internal.Views.{IsStart};
ghost use Rattle.rule_parser.specs.Controls.{no_draft, controls_from};
ghost use Rattle.rule_parser.specs.Projects.{network_of, project_of, project_with, tables_of, Reads};
ghost use Rattle.rule_parser.specs.Projects.{long_refusal as refused_long};
ghost use Rattle.rule_parser.specs.internal.Fitting.{IsDone};
ghost use Rattle.rule_parser.specs.internal.ProjectParts.{both_read, first_of, project_by};
ghost use Rattle.rule_parser.specs.internal.Views.{text_and_long};

use crate::context::Context;
use crate::controls::read_controls;
use crate::draft::Draft;
use crate::rules::rules_of;
use crate::text::texts_refusal;
use byte_edge::NoMemory;
use control_lines::Fault;
use curves_series::{TableNames, Tables};
use inp_text::{SectionKind, Sections};
use network_lines::{Network, NetworkRead, OptionSet, read_network, read_options};
use object_index::ObjectIndex;
use rule_types::{Cause, ReadFault, Refusal, Rules, earlier_refusal};
use std::alloc::Global;

/// What an input file gives: its rules, the tables that they use, and the objects of the network.
#[derive(Drop)]
pub struct Project {
    pub rules: Rules,
    pub tables: Tables,
    pub objects: ObjectIndex,
}

/// The project of an input file, or its first refusal: on the least line that fails a check, and
/// there the first check that fails; NoMemory only where memory is out. It takes time in proportion
/// to the file, and one look-up for each object, each name of a table and each name in a control
/// line, which costs the logarithm of the number of such names, and so does an insertion for each
/// link that a rule acts on and each key that it reads; the formula of an expression is gone through
/// once, however many conditions read it (the format is that of the SWMM 5.2 manual).
pub fn read_project(alloc: Global, sections: &Sections) -> Result<Project, ReadFault>
    ensures file { (earlier : List Line) → Represents sections.now earlier
        → Reads (project_of (reverse earlier)) result }
    ensures well_formed { IfOk result (λ project. WellFormed project.rules) }
    ensures objects { IfOk result (λ project. HoldsObjects project.objects project.rules) }
    ensures tables { (earlier : List Line) → Represents sections.now earlier
        → IfOk result (λ project. HoldsTables project.tables project.rules.rules) }
{
    match read_parts(alloc, sections) {
        Ok(Ok(project)) => Ok(project),
        Ok(Err(refusal)) => Err(ReadFault::Refused(refusal)),
        Err(_) => Err(ReadFault::NoMemory),
    }
}

/// The project of the sections, or the first refusal.
fn read_parts(alloc: Global, sections: &Sections) -> Result<Result<Project, Refusal>, NoMemory>
    ensures file { (earlier : List Line) → Represents sections.now earlier
        → IfOk result (λ read. read ≡ project_of (reverse earlier)) }
    ensures well_formed { IfOk result (λ read. IfOk read (λ project. WellFormed project.rules)) }
    ensures objects { IfOk result (λ read. IfOk read (λ project.
        HoldsObjects project.objects project.rules)) }
{
    let set = read_options(alloc, sections.lines(SectionKind::Options))?;
    let options = set.options;
    let network = read_objects(alloc, sections, set.refusal)?;
    let controls = read_rules(alloc, sections, &network.network)?;
    project_by(alloc, &options, network, controls)
}

/// The objects, and the first refusal among their lines, those of the options, and lines that are
/// too long or have control bytes.
fn read_objects(
    alloc: Global,
    sections: &Sections,
    of_options: Option<Refusal>,
) -> Result<NetworkRead, NoMemory>
    ensures network { IfOk result (λ read. read.network
        ≡ network_of (kept sections.now.kept)) }
    ensures refusal { IfOk result (λ read. read.refusal
        ≡ earlier (earlier (text_and_long (kept sections.now.kept) sections.now.first_long)
        of_options) (objects_refusal no_network (object_lines (kept sections.now.kept)))) }
{
    let other = other_refusal(alloc, sections)?;
    let others = earlier_refusal(other, of_options);
    let NetworkRead { network, refusal } = read_network(alloc, sections)?;
    Ok(NetworkRead {
        network,
        refusal: earlier_refusal(others, refusal),
    })
}

/// The refusals of lines that are too long or have control bytes.
fn other_refusal(alloc: Global, sections: &Sections) -> Result<Option<Refusal>, NoMemory>
    ensures { IfOk result (λ refusal. refusal ≡ text_and_long (kept sections.now.kept)
        sections.now.first_long) }
{
    let texts = texts_refusal(alloc, sections)?;
    match long_refusal(alloc, sections.first_long()) {
        Ok(long) => Ok(earlier_refusal(long, texts)),
        Err(_) => Err(NoMemory),
    }
}

/// The refusal of the first line that is too long.
fn long_refusal(alloc: Global, long: Option<u64>) -> Result<Option<Refusal>, NoMemory>
    ensures { IfOk result (λ refusal. refusal ≡ refused_long long) }
{
    let Some(number) = long else {
        return Ok(None);
    };
    let fault = Fault {
        cause: Cause::LineTooLong,
        token: &[],
    };
    Ok(Some(fault.refusal(alloc, number)?))
}

/// The used tables, or the first refusal on their lines.
fn read_tables(alloc: Global, sections: &Sections) -> Result<Result<Tables, Refusal>, NoMemory>
    ensures { (earlier : List Line) → Represents sections.now earlier
        → IfOk result (λ read. read ≡ tables_of (λ kind. section_lines kind earlier)) }
{
    match Tables::read(alloc, sections) {
        Ok(tables) => Ok(Ok(tables)),
        Err(ReadFault::Refused(refusal)) => Ok(Err(refusal)),
        Err(ReadFault::NoMemory) => Err(NoMemory),
    }
}

/// The control lines, or the refusal of the first one that is at fault.
fn read_draft(
    alloc: Global,
    sections: &Sections,
    network: &Network,
) -> Result<Result<Draft, Refusal>, NoMemory>
    ensures value { (earlier : List Line) → Represents sections.now earlier
        → IfOk result (λ read. read ≡ controls_from (record {
          objects = network.now.objects;
          tables = named_tables (section_lines Curves earlier) (section_lines Series earlier);
        }) no_draft (section_lines Controls earlier)) }
    ensures fits { IfOk result (λ read. IfOk read (IsDone network.now.objects)) }
{
    let tables = TableNames::new(alloc, sections)?;
    let context = Context {
        objects: &network.objects,
        tables: &tables,
    };
    read_controls(alloc, context, sections.lines(SectionKind::Controls))
}

/// The control lines of a file, and the tables that they use.
#[derive(Drop)]
pub(crate) struct ControlsRead {
    pub(crate) tables: Tables,
    pub(crate) draft: Draft,
}

/// The used tables and the control lines, or the first refusal on their lines.
fn read_rules(
    alloc: Global,
    sections: &Sections,
    network: &Network,
) -> Result<Result<ControlsRead, Refusal>, NoMemory>
    ensures value { (earlier : List Line) → Represents sections.now earlier
        → IfOk result (λ read. read ≡ both_read (tables_of (λ kind. section_lines kind earlier))
        (controls_from (record {
          objects = network.now.objects;
          tables = named_tables (section_lines Curves earlier) (section_lines Series earlier);
        }) no_draft (section_lines Controls earlier))) }
    ensures fits { IfOk result (λ read. IfOk read (λ read. IsDone network.now.objects read.draft)) }
{
    let tables = read_tables(alloc, sections)?;
    let draft = read_draft(alloc, sections, network)?;
    Ok(both_read(tables, draft))
}

/// The tables and the control lines, or the lower of their refusals.
fn both_read(
    tables: Result<Tables, Refusal>,
    draft: Result<Draft, Refusal>,
) -> Result<ControlsRead, Refusal>
    ensures { result ≡ both_read tables draft }
{
    match tables {
        Ok(tables) => match draft {
            Ok(draft) => Ok(ControlsRead { tables, draft }),
            Err(refusal) => Err(refusal),
        },
        Err(first) => match draft {
            Ok(_) => Err(first),
            Err(second) => Err(first.lower(second)),
        },
    }
}

/// The project of all parts, or the first refusal of them.
fn project_by(
    alloc: Global,
    options: &OptionSet,
    network: NetworkRead,
    read: Result<ControlsRead, Refusal>,
) -> Result<Result<Project, Refusal>, NoMemory>
    requires start { IsStart options.now }
    requires done { IfOk read (λ read. IsDone network.network.objects read.draft) }
    requires step { IsRoutingStep options.now.routing_step }
    requires links { All IsLinkData network.network.links }
    ensures value { IfOk result (λ project. project
        ≡ project_by network.refusal options.now network.network read) }
    ensures well_formed { IfOk result (λ read. IfOk read (λ project. WellFormed project.rules)) }
    ensures objects { IfOk result (λ read. IfOk read (λ project.
        HoldsObjects project.objects project.rules)) }
{
    let NetworkRead { network, refusal } = network;
    match read {
        Ok(read) => match refusal {
            Some(refusal) => Ok(Err(refusal)),
            None => build(alloc, options, network, read),
        },
        Err(last) => Ok(Err(first_of(refusal, last))),
    }
}

/// The lower of a refusal and of another, if there is one.
fn first_of(other: Option<Refusal>, last: Refusal) -> Refusal
    ensures { result ≡ first_of other last }
{
    match other {
        Some(first) => first.lower(last),
        None => last,
    }
}

/// The project, where nothing is refused.
fn build(
    alloc: Global,
    options: &OptionSet,
    network: Network,
    read: ControlsRead,
) -> Result<Result<Project, Refusal>, NoMemory>
    requires start { IsStart options.now }
    requires done { IsDone network.objects read.draft }
    requires step { IsRoutingStep options.now.routing_step }
    requires links { All IsLinkData network.links }
    ensures value { IfOk result (λ project. project
        ≡ Ok (project_with options.now network read.tables read.draft)) }
    ensures well_formed { IfOk result (λ read. IfOk read (λ project. WellFormed project.rules)) }
    ensures objects { IfOk result (λ read. IfOk read (λ project.
        HoldsObjects project.objects project.rules)) }
{
    let ControlsRead { tables, draft } = read;
    match rules_of(alloc, options, &network, draft) {
        Ok(rules) => Ok(Ok(Project {
            rules,
            tables,
            objects: network.objects,
        })),
        Err(_) => Err(NoMemory),
    }
}
