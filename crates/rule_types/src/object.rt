//! Objects of the network and the words that name them.
ghost use Rattle.std.specs.Prelude.{◌≡◌};

/// A space of names: nodes, links or gages.
#[derive(Clone, Copy, Debug, PartialEq, Eq)]
pub enum Space {
    /// Junctions, outfalls, dividers and storage units.
    Nodes,
    /// Conduits, pumps, orifices, weirs and outlets.
    Links,
    /// Rain gages.
    Gages,
}

impl Space {
    ghost use Rattle.rule_types.specs.KeyOrder.{space_place};

    /// The place of a space in key order.
    pub(crate) fn place(self) -> u32
        ensures { result ≡ space_place self }
    {
        match self {
            Space::Nodes => 0,
            Space::Links => 1,
            Space::Gages => 2,
        }
    }
}

/// An object: its space, and its number there in the order of its lines, from 0.
#[derive(Clone, Copy, Debug, PartialEq, Eq)]
pub struct ObjectNo {
    /// The space of the object's name.
    pub space: Space,
    /// The object's place in its space.
    pub index: u32,
}

/// The kind of an object, by the section that its line stands in (SWMM 5.2 manual, appendix D).
#[derive(Clone, Copy, PartialEq, Eq)]
pub enum ObjectKind {
    Gage,
    Node,
    Conduit,
    Pump,
    Orifice,
    Weir,
    Outlet,
}

/// A word of a control line that names an object (SWMM 5.2 manual, [CONTROLS]).
#[derive(Clone, Copy, Debug, PartialEq, Eq)]
pub enum ObjectWord {
    Gage,
    Node,
    /// A link of any kind.
    Link,
    Conduit,
    Pump,
    Orifice,
    Weir,
    Outlet,
}
