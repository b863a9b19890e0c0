//! Why a name is not resolved.
ghost use Rattle.std.specs.Prelude.{◌≡◌};

/// Why a word and a name give no object.
#[derive(Clone, Copy, Debug, PartialEq, Eq)]
pub enum Unresolved {
    /// The space has no such name.
    Unknown,
    /// Several names of the space are equal when case is ignored, and none has the same bytes.
    Ambiguous,
    /// The object is of a kind that the word does not accept.
    WrongKind,
    /// There was no memory for the look-up.
    NoMemory,
}
