//! The actions of rules, their places and what they order.
use exact_fraction::frac::Frac;

/// A curve's place, from 0, among all curves in the order of their first lines.
#[derive(Clone, Copy, PartialEq, Eq)]
pub struct CurveNo {
    pub index: u32,
}

/// A series' place, from 0, among all series in the order of their first lines.
#[derive(Clone, Copy, PartialEq, Eq)]
pub struct SeriesNo {
    pub index: u32,
}

/// The three numbers of a PID action (SWMM 5.2 manual, modulated controls).
#[derive(Clone, Copy, PartialEq, Eq)]
pub struct PidSet {
    pub gain: Frac,
    /// The integral time in minutes; 0 for no integral part.
    pub integral: Frac,
    /// The derivative time in minutes.
    pub derivative: Frac,
}

/// The two errors that a PID action keeps: the last and the one before.
#[derive(Clone, Copy, Debug, PartialEq, Eq)]
pub struct PidMemory {
    pub e1: Frac,
    pub e2: Frac,
}

/// Where an action takes its value from (SWMM 5.2 manual, [CONTROLS]).
#[derive(Clone, Copy, PartialEq, Eq)]
pub enum What {
    /// A number.
    Constant(Frac),
    /// The curve at the controller.
    Curve(CurveNo),
    /// The series at the moment.
    Series(SeriesNo),
    /// A PID controller, with its number among the PID actions of the file, from 0.
    Pid(PidSet, u32),
}

/// An action of a rule on a link, which is given by its place in link order (SWMM 5.2 manual,
/// [CONTROLS]).
#[derive(Clone, Copy, PartialEq, Eq)]
pub struct Action {
    pub link: u32,
    pub what: What,
}

/// The two branches of a rule, THEN and ELSE (SWMM 5.2 manual, [CONTROLS]).
#[derive(Clone, Copy, Debug, PartialEq, Eq)]
pub enum Branch {
    Then,
    Otherwise,
}

/// The place of an action: its rule in the file, its branch, and its place in the branch, both from
/// 0.
#[derive(Clone, Copy, Debug, PartialEq, Eq)]
pub struct ActionAt {
    pub rule: u32,
    pub branch: Branch,
    pub action: u32,
}

/// What a reading orders: the value that an action gives to a link.
#[derive(Clone, Copy, PartialEq, Eq)]
pub struct Order {
    pub link: u32,
    pub by: ActionAt,
    pub value: Frac,
}
