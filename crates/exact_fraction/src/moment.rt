//! Moments.
ghost use Rattle.std.specs.Prelude.{◌≡◌, IfSome};
ghost use Rattle.exact_fraction.specs.Moments.{IsMoment, moment_at};

use std::marker::Model;

/// A second of the years 1 to 9999, counted from 1970-01-01T00:00:00 without leap seconds and
/// without zones.
#[derive(Clone, Copy, Debug, PartialEq, Eq)]
pub struct Moment {
    seconds: i64,
}

impl Model for Moment {
    ghost use Rattle.std.specs.Prelude.{ℤ};
    ghost use Rattle.exact_fraction.specs.Moments.{IsMoment};

    ghost Value = { ℤ };

    ghost view = { λ m. m.seconds };

    ghost invariant = { λ m. IsMoment m.seconds };

    ghost inverse = { λ s. record { seconds = s } };
}

impl Moment {
    /// The moment at `seconds` since 1970-01-01T00:00:00: None exactly where it lies outside the
    /// years 1 to 9999.
    pub fn make(seconds: i64) -> Option<Moment>
        ensures value { result ≡ moment_at seconds }
        ensures range { IfSome result (λ m. IsMoment m) }
    {
        const FIRST: i64 = -62_135_596_800;
        const LAST: i64 = 253_402_300_799;
        if seconds < FIRST || LAST < seconds {
            return None;
        }
        Some(Moment { seconds })
    }

    /// The seconds since 1970-01-01T00:00:00.
    pub fn seconds(self) -> i64
        ensures value { result ≡ self }
        ensures range { IsMoment self }
    {
        self.seconds
    }
}
