//! The lines of objects.
ghost use Rattle.std.specs.Prelude.{◌≡◌};
ghost use Rattle.inp_text.specs.Headings.{first_of};
ghost use Rattle.object_index.specs.Objects.{is_link as is_link_kind};
ghost use Rattle.control_lines.specs.Views.{checked_now, texts};
ghost use Rattle.network_lines.specs.Objects.{section_object, pump_setting as pump_status};
ghost use Rattle.network_lines.specs.Objects.{orifice_rate as orifice_time, link_read};
ghost use Rattle.network_lines.specs.Objects.{pump_item, orifice_item};

use crate::network::LinkData;
use crate::value::{ValueKind, read_value};
use control_lines::Fault;
use exact_fraction::frac::Frac;
use inp_text::SectionKind;
use rule_types::ObjectKind;

/// The kind of the objects of a section: None where it is no section of objects.
pub(crate) fn object_kind(section: SectionKind) -> Option<ObjectKind>
    ensures { result ≡ section_object section }
{
    match section {
        SectionKind::Gages => Some(ObjectKind::Gage),
        SectionKind::Junctions => Some(ObjectKind::Node),
        SectionKind::Outfalls => Some(ObjectKind::Node),
        SectionKind::Dividers => Some(ObjectKind::Node),
        SectionKind::Storage => Some(ObjectKind::Node),
        SectionKind::Conduits => Some(ObjectKind::Conduit),
        SectionKind::Pumps => Some(ObjectKind::Pump),
        SectionKind::Orifices => Some(ObjectKind::Orifice),
        SectionKind::Weirs => Some(ObjectKind::Weir),
        SectionKind::Outlets => Some(ObjectKind::Outlet),
        _ => None,
    }
}

/// Whether a kind is that of a link.
pub(crate) fn is_link(kind: ObjectKind) -> bool
    ensures { result ≡ is_link_kind kind }
{
    !matches!(kind, ObjectKind::Gage | ObjectKind::Node)
}

/// The first of some items, and no bytes where there is none.
pub(crate) fn first_of<'a>(found: &[&'a [u8]]) -> &'a [u8]
    ensures { result.now ≡ first_of (texts found.now) }
{
    match found {
        [] => &[],
        [item, ..] => item,
    }
}

/// What is read of the line of an object of a kind beside its name.
pub(crate) fn link_data<'a>(kind: ObjectKind, found: &[&'a [u8]]) -> Result<LinkData, Fault<'a>>
    ensures { checked_now result ≡ link_read kind (texts found.now) }
{
    match kind {
        ObjectKind::Pump => match pump_setting(found) {
            Ok(setting) => Ok(LinkData {
                setting,
                rate: Frac::zero(),
            }),
            Err(fault) => Err(fault),
        },
        ObjectKind::Orifice => match orifice_rate(found) {
            Ok(rate) => Ok(LinkData {
                setting: Frac::one(),
                rate,
            }),
            Err(fault) => Err(fault),
        },
        _ => Ok(LinkData {
            setting: Frac::one(),
            rate: Frac::zero(),
        }),
    }
}

/// The initial setting of a pump, by the fifth item of its line.
fn pump_setting<'a>(found: &[&'a [u8]]) -> Result<Frac, Fault<'a>>
    ensures { checked_now result ≡ pump_status (pump_item (texts found.now)) }
{
    match found {
        [_, _, _, _, status, ..] => read_value(ValueKind::Status, status),
        _ => Ok(Frac::one()),
    }
}

/// The hours that an orifice takes to open or close fully, by the eighth item of its line.
fn orifice_rate<'a>(found: &[&'a [u8]]) -> Result<Frac, Fault<'a>>
    ensures { checked_now result ≡ orifice_time (orifice_item (texts found.now)) }
{
    match found {
        [_, _, _, _, _, _, _, time, ..] => read_value(ValueKind::TravelTime, time),
        _ => Ok(Frac::zero()),
    }
}
