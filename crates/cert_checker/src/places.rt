//! The places of nodes, in the order of their lines.
ghost use Rattle.std.specs.Prelude.{◌≡◌, ℕ, ◌+◌};
ghost use Rattle.verdict_meaning.specs.Certificates.{shape_at};
ghost use Rattle.verdict_meaning.specs.Verdicts.{written_count};
ghost use Rattle.cert_checker.specs.internal.Narrowing.{Judges};

use verdict_meaning::{CertCause, CertEnd};

/// The place after another; it stays at 2^64-1.
pub(crate) fn next_place(place: u64) -> u64
    ensures next { (at : ℕ) → place ≡ written_count at → result ≡ written_count (at + 1) }
{
    place.saturating_add(1)
}

/// The node at a place is not well formed.
pub(crate) fn shape_fault(place: u64) -> Result<u64, CertEnd>
    ensures judged { Judges place result shape_at }
{
    Err(CertEnd::Fault {
        place,
        cause: CertCause::Shape,
    })
}
