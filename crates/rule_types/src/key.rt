//! Keys: what the conditions of rules read.
ghost use Rattle.std.specs.Prelude.{◌≡◌, ◌↔◌, ◌+◌, IsTrue};

use crate::object::ObjectNo;
use std::cmp::Ordering;

/// An attribute of the simulation's clock (the attributes are those of the SWMM 5.2 manual,
/// [CONTROLS]).
#[derive(Clone, Copy, Debug, PartialEq, Eq)]
pub enum ClockAttr {
    /// Hours since the start.
    Time,
    /// The day number, counted from 1970-01-01.
    Date,
    /// The month, from 1 for January.
    Month,
    /// The day of the week, from 1 for Sunday.
    Day,
    /// Hours since midnight.
    ClockTime,
    /// The day of the year, from 1 for January 1.
    DayOfYear,
}

impl ClockAttr {
    ghost use Rattle.rule_types.specs.KeyOrder.{clock_place};

    /// The place of an attribute in key order.
    fn place(self) -> u32
        ensures { result ≡ clock_place self }
    {
        match self {
            ClockAttr::Time => 0,
            ClockAttr::Date => 1,
            ClockAttr::Month => 2,
            ClockAttr::Day => 3,
            ClockAttr::ClockTime => 4,
            ClockAttr::DayOfYear => 5,
        }
    }
}

/// An attribute of an object (the attributes are those of the SWMM 5.2 manual, [CONTROLS]).
#[derive(Clone, Copy, Debug, PartialEq, Eq)]
pub enum Attr {
    /// A gage's rainfall intensity.
    Intensity,
    /// A gage's rainfall over the hours before, from 1 to 48 of them.
    HourDepth(u8),
    Depth,
    MaxDepth,
    FullDepth,
    Head,
    Volume,
    Inflow,
    Flow,
    FullFlow,
    Velocity,
    Length,
    Slope,
    /// A link's setting.
    Setting,
    /// 1 where the link's setting is above 0, else 0.
    Status,
    /// Hours since the link's last switch, where its setting is above 0.
    TimeOpen,
    /// Hours since the link's last switch, where its setting is 0.
    TimeClosed,
}

impl Attr {
    ghost use Rattle.rule_types.specs.KeyOrder.{attribute_place};

    /// The place of an attribute in key order.
    fn place(self) -> u32
        ensures { result ≡ attribute_place self }
    {
        match self {
            Attr::Flow => 0,
            Attr::FullFlow => 1,
            Attr::Depth => 2,
            Attr::MaxDepth => 3,
            Attr::FullDepth => 4,
            Attr::Head => 5,
            Attr::Volume => 6,
            Attr::Inflow => 7,
            Attr::Velocity => 8,
            Attr::Length => 9,
            Attr::Slope => 10,
            Attr::Setting => 11,
            Attr::Status => 12,
            Attr::TimeOpen => 13,
            Attr::TimeClosed => 14,
            Attr::Intensity => 15,
            Attr::HourDepth(hours) => u32::from(hours) + 16,
        }
    }
}

/// What a side of a condition or a variable reads: an attribute of an object, or of the clock (SWMM
/// 5.2 manual, [CONTROLS]).
#[derive(Clone, Copy, Debug)]
pub enum Key {
    Object(ObjectNo, Attr),
    Clock(ClockAttr),
}

impl Key {
    ghost use Rattle.rule_types.specs.KeyOrder.{key_place};
    ghost use Rattle.rule_types.specs.Keys.{is_time as reads_time};

    /// Whether the two are the same key.
    #[tactic(auto, using(crate::proofs::Equal::sames))]
    pub fn is_same(&self, other: &Key) -> bool
        ensures value { IsTrue result ↔ (self.now ≡ other.now) }
    {
        self == other
    }

    /// Whether the key's value is a time in hours: TIME, CLOCKTIME, TIMEOPEN or TIMECLOSED.
    pub fn is_time(&self) -> bool
        ensures value { result ≡ reads_time self.now }
    {
        match self {
            Key::Object(_, Attr::TimeOpen | Attr::TimeClosed) => true,
            Key::Clock(ClockAttr::Time | ClockAttr::ClockTime) => true,
            _ => false,
        }
    }

    /// The place of a key in key order: its space, its object's number and its attribute.
    fn place(&self) -> [u32; 3]
        ensures { result ≡ key_place self.now }
    {
        match self {
            Key::Object(object, attribute) => [
                object.space.place(),
                object.index,
                attribute.place(),
            ],
            Key::Clock(attribute) => [3, 0, attribute.place()],
        }
    }
}

/// Two keys are equal where their places in key order are.
impl PartialEq for Key {
    ghost use Rattle.rule_types.specs.KeyOrder.{key_place};
    ghost use Rattle.std.specs.Prelude.{nat_eq};
    ghost use Rattle.std.specs.Cmp.{on_per, partial_equiv_from_equiv};
    ghost use Rattle.std.specs.Cmp.Lexicographic.{pointwise, nat_list_eq_equiv};

    ghost eq = { λ key other. pointwise nat_eq (key_place key) (key_place other) };

    ghost laws = { on_per key_place (partial_equiv_from_equiv nat_list_eq_equiv) };

    fn eq(&self, other: &Key) -> bool {
        self.place() == other.place()
    }
}

impl Eq for Key {
    ghost use Rattle.rule_types.specs.KeyOrder.{key_place};
    ghost use Rattle.std.specs.Cmp.{on_equiv};
    ghost use Rattle.std.specs.Cmp.Lexicographic.{nat_list_eq_equiv};

    ghost laws = { on_equiv key_place nat_list_eq_equiv };
}

/// Key order: nodes, links and gages, each by number and then by attribute, and then the clock.
impl Ord for Key {
    ghost use Rattle.rule_types.specs.KeyOrder.{key_place, key_cmp};
    ghost use Rattle.std.specs.Prelude.{refl};
    ghost use Rattle.std.specs.Cmp.{on_total};
    ghost use Rattle.std.specs.Cmp.Lexicographic.{nat_list_cmp_total, texts_ties};

    ghost cmp = { key_cmp };

    ghost total = { on_total key_place nat_list_cmp_total };

    ghost matches_partial_cmp = { λ key other. refl };

    ghost matches_eq = { λ key other. texts_ties (key_place key) (key_place other) };

    fn cmp(&self, other: &Key) -> Ordering {
        self.place().cmp(&other.place())
    }
}

impl PartialOrd for Key {
    ghost use Rattle.rule_types.specs.KeyOrder.{key_place, key_cmp};
    ghost use Rattle.std.specs.Prelude.{Some};
    ghost use Rattle.std.specs.Cmp.{on_po};
    ghost use Rattle.std.specs.Cmp.Lexicographic.{texts_po};

    ghost partial_cmp = { λ key other. Some (key_cmp key other) };

    ghost laws = { on_po key_place texts_po };

    fn partial_cmp(&self, other: &Key) -> Option<Ordering> {
        Some(self.cmp(other))
    }
}
