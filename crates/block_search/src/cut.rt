//! Where an axis is cut.
ghost use Rattle.std.specs.Prelude.{◌≡◌, true};
ghost use Rattle.block_search.specs.Blocks.{is_wide};
ghost use Rattle.block_search.specs.internal.Cuts.{IsMiddle};

use crate::span::Span;

/// The piece at which an axis is cut, and the first piece above the cut.
#[derive(Clone, Copy, Debug, PartialEq, Eq)]
pub(crate) struct Cut {
    pub at: u32,
    pub from: u32,
}

/// The middle of a span of more than one piece: a point of an axis of numbers.
pub(crate) fn middle(span: Span, of_moments: bool) -> Cut
    requires wide { is_wide span ≡ true }
    ensures middle { IsMiddle of_moments span result.at result.from }
{
    let middle = span.low + (span.high - span.low) / 2;
    if of_moments {
        return Cut {
            at: middle,
            from: middle,
        };
    }
    let at = middle - middle % 2;
    Cut { at, from: at + 1 }
}
