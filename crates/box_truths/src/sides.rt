//! The left sides of conditions, where a variable is the same as its key.
ghost use Rattle.std.specs.Prelude.{◌≡◌, slice_get};
ghost use Rattle.moment_pieces.specs.Sides.{kind_side, named_side, side_of};

use list_types::Items;
use rule_types::{NameDef, NameKind, Side};

/// The left side of a condition over these names, where a variable is the same as its key (SWMM 5.2
/// manual, [CONTROLS], named variables).
#[tactic(auto, unfolding(moment_pieces::specs::Sides::side_of))]
pub fn side_of(names: &Items<NameDef>, side: &Side) -> Side
    ensures value { result ≡ side_of names.now side.now }
{
    match side {
        Side::Key(key) => Side::Key(*key),
        Side::Expr(name) => named_side(names, *name),
    }
}

/// The side that is the name of this place.
fn named_side(names: &Items<NameDef>, name: u32) -> Side
    ensures value { result ≡ named_side name (slice_get names.now name) }
{
    match names.get(name as usize) {
        Some(named) => kind_side(name, &named.stands_for),
        None => Side::Expr(name),
    }
}

/// The side that stands for this.
fn kind_side(name: u32, kind: &NameKind) -> Side
    ensures value { result ≡ kind_side name kind.now }
{
    match kind {
        NameKind::Variable(key) => Side::Key(*key),
        NameKind::Formula(_) => Side::Expr(name),
    }
}
