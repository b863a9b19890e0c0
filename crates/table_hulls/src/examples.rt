//! Worked examples of hulls. Each function here does nothing: its contract states what the
//! definitions give.
#![tactic(auto, unfolding(crate::proofs::ExampleWords::hull_words))]

ghost use Rattle.std.specs.Prelude.{◌≡◌, true, false, [], pos};
ghost use Rattle.exact_fraction.specs.Number.{zero, one};
ghost use Rattle.curves_series.specs.Examples.{natural, over, rising, falling, steep};
ghost use Rattle.table_hulls.specs.HullExamples.{between_ends};
ghost use Rattle.table_hulls.specs.Hulls.{curve_hull, series_hull, from_zero};

/// Hulls of curves over an interval, and of series over moments.
pub fn hulls()
    ensures rising { curve_hull rising (between_ends (natural 0) false (over 3 1) false)
        ≡ between_ends zero false (over 1 1) false }
    ensures past_last { curve_hull rising (between_ends (over 3 1) true (natural 9) true)
        ≡ between_ends (over 1 1) true one false }
    ensures past_all { curve_hull rising (between_ends (natural 4) false (natural 9) false)
        ≡ between_ends one false one false }
    ensures falling { curve_hull falling (between_ends (natural 1) false (natural 3) true)
        ≡ between_ends one false (over 3 1) false }
    ensures clamped { curve_hull falling (between_ends (natural 3) false (natural 9) false)
        ≡ between_ends zero false one false }
    ensures overflow { curve_hull steep (between_ends (over 1 1) false (natural 9) false)
        ≡ from_zero }
    ensures ends_at_points { curve_hull steep (between_ends (natural 0) false (natural 1) false)
        ≡ between_ends zero false (natural 9223372036854775807) false }
    ensures dated { series_hull (record { name = []; dated = true; points = rising })
        (pos 900) (pos 1800) (pos 5400) ≡ between_ends (over 1 5) false (over 1 1) false }
    ensures since_start { series_hull (record { name = []; dated = false; points = rising })
        (pos 3600) (pos 3600) (pos 7200) ≡ between_ends zero false (over 1 2) false }
{}
