//! Control bytes in the lines that are read.
ghost use Rattle.std.specs.Prelude.{◌≡◌, IfOk};
ghost use Rattle.inp_text.specs.internal.Represents.{kept};
ghost use Rattle.rule_types.specs.Refusals.{earlier};
ghost use Rattle.rule_parser.specs.Projects.{text_refusal as refusal_in, texts_refusal as refused};
ghost use Rattle.rule_parser.specs.Projects.{read_sections};

use byte_edge::NoMemory;
use control_lines::Fault;
use inp_text::{SectionKind, Sections, SourceLine, first_control};
use rule_types::{Cause, Refusal, earlier_refusal};
use std::alloc::Global;

/// The lowest refusal of a line with a control byte before its comment, in a section that is read.
pub(crate) fn texts_refusal(alloc: Global, sections: &Sections) -> Result<Option<Refusal>, NoMemory>
    ensures { IfOk result (λ refusal. refusal
        ≡ refused (kept sections.now.kept) read_sections) }
{
    let found = and_section(alloc, sections, SectionKind::Outlets, None)?;
    let found = and_section(alloc, sections, SectionKind::Weirs, found)?;
    let found = and_section(alloc, sections, SectionKind::Orifices, found)?;
    let found = and_section(alloc, sections, SectionKind::Pumps, found)?;
    let found = and_section(alloc, sections, SectionKind::Conduits, found)?;
    let found = and_section(alloc, sections, SectionKind::Storage, found)?;
    let found = and_section(alloc, sections, SectionKind::Dividers, found)?;
    let found = and_section(alloc, sections, SectionKind::Outfalls, found)?;
    let found = and_section(alloc, sections, SectionKind::Junctions, found)?;
    let found = and_section(alloc, sections, SectionKind::Gages, found)?;
    let found = and_section(alloc, sections, SectionKind::Series, found)?;
    let found = and_section(alloc, sections, SectionKind::Curves, found)?;
    let found = and_section(alloc, sections, SectionKind::Controls, found)?;
    and_section(alloc, sections, SectionKind::Options, found)
}

/// The lower of the refusals in a section and of others.
fn and_section(
    alloc: Global,
    sections: &Sections,
    kind: SectionKind,
    others: Option<Refusal>,
) -> Result<Option<Refusal>, NoMemory>
    ensures { IfOk result (λ refusal. refusal
        ≡ earlier (refusal_in (kept sections.now.kept kind)) others) }
{
    match text_refusal(alloc, sections.lines(kind)) {
        Ok(found) => Ok(earlier_refusal(found, others)),
        Err(_) => Err(NoMemory),
    }
}

/// The refusal of the first line with a control byte before its comment.
fn text_refusal(alloc: Global, lines: &[SourceLine]) -> Result<Option<Refusal>, NoMemory>
    ensures { IfOk result (λ refusal. refusal ≡ refusal_in lines.now) }
{
    for line in lines {
        if first_control(line.bytes.as_slice()).is_some() {
            let fault = Fault {
                cause: Cause::BadText,
                token: &[],
            };
            return Ok(Some(fault.refusal(alloc, line.number)?));
        }
    }
    Ok(None)
}
