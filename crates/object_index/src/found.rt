//! What a name finds.
ghost use Rattle.std.specs.Prelude.{◌≡◌};

/// What a name finds among the names of a table.
#[derive(Clone, Copy, Debug, PartialEq, Eq)]
pub enum Found {
    /// No name has the same bytes, and none is equal when the case of ASCII letters is ignored.
    Nothing,
    /// The name of this number, from 0: the one with the same bytes, or else the only one that is
    /// equal when the case of ASCII letters is ignored.
    At(u32),
    /// No name has the same bytes, and several are equal when the case of ASCII letters is ignored.
    Several,
}
