//! Limits.
ghost use Rattle.std.specs.Prelude.{◌≡◌};
ghost use Rattle.control_lines.specs.Views.{checked_now};
ghost use Rattle.network_lines.specs.Limits.{room_for as has_room};

use control_lines::{Fault, refused_where};
use rule_types::Cause;

/// TooMany of some things where there are as many already as there may be.
#[tactic(auto, unfolding(crate::specs::Limits::room_for))]
pub fn room_for(things: &[u8], most: usize, count: usize) -> Result<(), Fault<'_>>
    ensures value { checked_now result ≡ has_room things.now most count }
{
    let fault = Fault {
        cause: Cause::TooMany,
        token: things,
    };
    refused_where(most <= count, fault)
}
