//! Laws of the definitions. Each function here does nothing: its contract states laws for the
//! proofs of the crates above.
ghost use Rattle.std.specs.Prelude.{ℤ, ◌≤ℤ◌, List, IfOk, IsTrue};
ghost use Rattle.exact_fraction.specs.Number.{Rational};
ghost use Rattle.interval_sets.specs.Intervals.{lies_in};
ghost use Rattle.interval_sets.specs.declared.interval.Interval.{Interval};
ghost use Rattle.rule_meaning.specs.StraightLines.{line_value, series_x, IsTableValue};
ghost use Rattle.rule_types.specs.declared.table.Point.{Point};
ghost use Rattle.rule_types.specs.Tables.{SeriesTable, IsPointList};
ghost use Rattle.table_hulls.specs.Hulls.{curve_hull, series_hull};

/// A hull holds every value over its argument, also one whose steps do not fit.
pub fn hulls()
    ensures curve { (points : List Point) (over : Interval) (x y : Rational) → IsPointList points
        → IsTrue (lies_in over x) → IsTableValue points x y
        → IsTrue (lies_in (curve_hull points over) y) }
    ensures series { (series : SeriesTable) (start first last moment : ℤ) (y : Rational)
        → IsPointList series.points → first ≤ℤ moment → moment ≤ℤ last
        → IsTableValue series.points (series_x series start moment) y
        → IsTrue (lies_in (series_hull series start first last) y) }
{}

/// A hull holds every value that is computed over its argument.
pub fn computed_values()
    ensures curve { (points : List Point) (over : Interval) (x : Rational) → IsPointList points
        → IsTrue (lies_in over x)
        → IfOk (line_value points x) (λ y. IsTrue (lies_in (curve_hull points over) y)) }
    ensures series { (series : SeriesTable) (start first last moment : ℤ)
        → IsPointList series.points → first ≤ℤ moment → moment ≤ℤ last
        → IfOk (line_value series.points (series_x series start moment))
        (λ y. IsTrue (lies_in (series_hull series start first last) y)) }
{}
