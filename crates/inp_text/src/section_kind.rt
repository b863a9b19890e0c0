//! The sections that are read.

/// A section of an input file that is read (SWMM 5.2 manual, appendix D).
#[derive(Clone, Copy, Debug, PartialEq, Eq)]
pub enum SectionKind {
    /// `[OPTIONS]`
    Options,
    /// `[RAINGAGES]`
    Gages,
    /// `[JUNCTIONS]`
    Junctions,
    /// `[OUTFALLS]`
    Outfalls,
    /// `[DIVIDERS]`
    Dividers,
    /// `[STORAGE]`
    Storage,
    /// `[CONDUITS]`
    Conduits,
    /// `[PUMPS]`
    Pumps,
    /// `[ORIFICES]`
    Orifices,
    /// `[WEIRS]`
    Weirs,
    /// `[OUTLETS]`
    Outlets,
    /// `[CONTROLS]`
    Controls,
    /// `[CURVES]`
    Curves,
    /// `[TIMESERIES]`
    Series,
}
