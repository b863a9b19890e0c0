//! Worked examples of tables, their refusals and their names. Each function here does nothing: its
//! contract states what the definitions give.
#![tactic(auto, unfolding(crate::proofs::ExampleWords::table_words))]

ghost use Rattle.std.specs.Prelude.{◌≡◌, true, false, None, Some, Ok, Err, [], ◌∷◌, codes};
ghost use Rattle.std.specs.Prelude.{pos, negsuc};
ghost use Rattle.exact_fraction.specs.Number.{whole, zero, one};
ghost use Rattle.rule_meaning.specs.StraightLines.{line_value};
ghost use Rattle.rule_types.specs.declared.refusal.Cause.TheVariants.{BadCurve, BadSeries};
ghost use Rattle.rule_types.specs.declared.refusal.Cause.TheVariants.{NumberTooLarge};
ghost use Rattle.curves_series.specs.declared.fault.TableFault.TheVariants.{Unknown, FileSeries};
ghost use Rattle.curves_series.specs.Examples.{line, natural, over, point, by_curve, by_series};
ghost use Rattle.curves_series.specs.Examples.{with_curves, with_series, curve, series};
ghost use Rattle.curves_series.specs.Examples.{curves_alone, series_alone, refused};
ghost use Rattle.curves_series.specs.Examples.{rising, falling, steep};
ghost use Rattle.curves_series.specs.Names.{named_tables, curve_named, series_named};
ghost use Rattle.curves_series.specs.Reading.{tables_in};

/// Curves that are read: with points over several lines between which other lines may stand, under
/// their places among all curves, and only where a control line uses them.
pub fn curves()
    ensures two_lines { with_curves (line 8 (codes "C1 Control 0 0") ∷ line 9 (codes "C1 3 1") ∷ [])
        ≡ curves_alone (curve (codes "C1")
        (point (natural 0) (natural 0) ∷ point (natural 3) (natural 1) ∷ []) ∷ []) }
    ensures apart { with_curves (line 8 (codes "K Pump 9") ∷ line 9 (codes "C1 any 1 2 3 4")
        ∷ line 10 (codes "K x") ∷ line 12 (codes "C1 5 .5") ∷ [])
        ≡ curves_alone (None ∷ curve (codes "C1") (point (natural 1) (natural 2)
        ∷ point (natural 3) (natural 4) ∷ point (natural 5) (over 1 1) ∷ []) ∷ []) }
    ensures without_type_points { with_curves (line 8 (codes "C1 Control")
        ∷ line 9 (codes "C1 1 2") ∷ [])
        ≡ curves_alone (curve (codes "C1") (point (natural 1) (natural 2) ∷ []) ∷ []) }
    ensures unused { tables_in [] (line 8 (codes "C1") ∷ []) (line 9 (codes "T1 x") ∷ [])
        ≡ Ok (record { curves = None ∷ []; series = None ∷ [] }) }
    ensures any_case { tables_in (line 3 (codes "x = curve c1") ∷ [])
        (line 8 (codes "C1 Control 1 2") ∷ []) []
        ≡ curves_alone (curve (codes "C1") (point (natural 1) (natural 2) ∷ []) ∷ []) }
    ensures not_last { tables_in (line 3 (codes "= CURVE C1 x") ∷ line 4 (codes "CURVE C1")
        ∷ line 5 (codes "= CURVES C1") ∷ line 6 (codes "= TIMESERIES C1") ∷ [])
        (line 8 (codes "C1 Control 1 2") ∷ []) [] ≡ curves_alone (None ∷ []) }
    ensures ambiguous { tables_in (line 3 (codes "= CURVE k1") ∷ [])
        (line 8 (codes "K1") ∷ line 9 (codes "k1") ∷ line 10 (codes "KK") ∷ [])
        [] ≡ refused 9 BadCurve (codes "k1") }
    ensures several { tables_in (line 3 (codes "= CURVE Ka") ∷ [])
        (line 8 (codes "KA") ∷ line 9 (codes "kA") ∷ []) [] ≡ curves_alone (None ∷ None ∷ []) }
{}

/// Curves that are refused.
pub fn faulty_curves()
    ensures not_rising { with_curves (line 8 (codes "C1 Control 0 0") ∷ line 9 (codes "C1 0 1") ∷ [])
        ≡ refused 9 BadCurve (codes "C1") }
    ensures odd { with_curves (line 8 (codes "C1 Control 0 0 1") ∷ [])
        ≡ refused 8 BadCurve (codes "C1") }
    ensures no_number { with_curves (line 8 (codes "C1 Control 0 x") ∷ [])
        ≡ refused 8 BadCurve (codes "C1") }
    ensures no_type_word { with_curves (line 8 (codes "C1") ∷ line 9 (codes "C1 1 2") ∷ [])
        ≡ refused 8 BadCurve (codes "C1") }
    ensures no_point { with_curves (line 8 (codes "C1 Control") ∷ line 9 (codes "C1 1") ∷ [])
        ≡ refused 8 BadCurve (codes "C1") }
    ensures point_without_numbers { with_curves (line 8 (codes "C1 Control") ∷ line 9 (codes "C1 a b") ∷ [])
        ≡ refused 9 BadCurve (codes "C1") }
    ensures too_large { with_curves (line 8 (codes "C1 Control 5 0 1e99 1 3 1") ∷ [])
        ≡ refused 8 NumberTooLarge (codes "1e99") }
    ensures not_compared { with_curves (line 8 (codes "C1 Control 5 0") ∷ line 9 (codes "C1 9 1e99 7 1") ∷ [])
        ≡ refused 9 BadCurve (codes "C1") }
    ensures first_too_large { with_curves (line 8 (codes "C1 Control 1 1e98 1e99 1") ∷ [])
        ≡ refused 8 NumberTooLarge (codes "1e98") }
    ensures lowest { tables_in (line 3 (codes "a = CURVE C1") ∷ line 4 (codes "a = CURVE C2") ∷ [])
        (line 8 (codes "C1 Control 1 2") ∷ line 9 (codes "C2 Control x 1")
        ∷ line 10 (codes "C1 1 1") ∷ []) [] ≡ refused 9 BadCurve (codes "C2") }
{}

/// Series that are read: in hours since the start or, where the first entry has a date, since
/// 1970-01-01; a time may be past 24 hours.
pub fn time_series()
    ensures dated { with_series (line 8 (codes "T1 6-15-2001 7:00 0.1 8:00 0.2") ∷ [])
        ≡ series_alone (series (codes "T1") true (point (natural 275719) (over 1 9)
        ∷ point (natural 275720) (over 1 4) ∷ []) ∷ []) }
    ensures undated { with_series (line 8 (codes "T1 0 1 1:30 2") ∷ [])
        ≡ series_alone (series (codes "T1") false (point (natural 0) (natural 1)
        ∷ point (over 3 1) (natural 2) ∷ []) ∷ []) }
    ensures next_day { with_series (line 8 (codes "T1 6/15/2001 23:00 1")
        ∷ line 9 (codes "T1 23:30 2 6/16/2001 1:00 3") ∷ [])
        ≡ series_alone (series (codes "T1") true (point (natural 275735) (natural 1)
        ∷ point (over 551471 1) (natural 2) ∷ point (natural 275737) (natural 3) ∷ []) ∷ []) }
    ensures past_midnight { with_series (line 8 (codes "T1 6/15/2001 25:00 1 6/16/2001 2:00 2") ∷ [])
        ≡ series_alone (series (codes "T1") true (point (natural 275737) (natural 1)
        ∷ point (natural 275738) (natural 2) ∷ []) ∷ []) }
    ensures of_a_file { with_series (line 8 (codes "T1 x") ∷ line 9 (codes "T1 file f.dat") ∷ [])
        ≡ series_alone (None ∷ []) }
{}

/// Series that are refused.
pub fn faulty_series()
    ensures back_over_dates { with_series (line 8 (codes "T1 6/15/2001 25:00 1 6/16/2001 0:30 2") ∷ [])
        ≡ refused 8 BadSeries (codes "T1") }
    ensures late_date { with_series (line 8 (codes "T1 7:00 1")
        ∷ line 9 (codes "T1 6/16/2001 8:00 2") ∷ []) ≡ refused 9 BadSeries (codes "T1") }
    ensures no_such_day { with_series (line 8 (codes "T1 2/30/2001 8:00 2") ∷ [])
        ≡ refused 8 BadSeries (codes "T1") }
    ensures split { with_series (line 8 (codes "T1 7:00") ∷ line 9 (codes "T1 1") ∷ [])
        ≡ refused 8 BadSeries (codes "T1") }
    ensures split_after_date { with_series (line 8 (codes "T1 6/15/2001 7:00") ∷ [])
        ≡ refused 8 BadSeries (codes "T1") }
    ensures no_item { with_series (line 8 (codes "T1 0 1") ∷ line 9 (codes "T1") ∷ [])
        ≡ refused 9 BadSeries (codes "T1") }
    ensures too_large_time { with_series (line 8 (codes "T1 1e99 1") ∷ [])
        ≡ refused 8 NumberTooLarge (codes "1e99") }
    ensures too_large_value { with_series (line 8 (codes "T1 0:00 1e99") ∷ [])
        ≡ refused 8 NumberTooLarge (codes "1e99") }
    ensures too_late { with_series (line 8 (codes "T1 2000000 1") ∷ [])
        ≡ refused 8 BadSeries (codes "T1") }
    ensures order_goes_first { with_series (line 8 (codes "T1 1e99 1 2") ∷ [])
        ≡ refused 8 BadSeries (codes "T1") }
{}

/// What names find among curves and series.
pub fn names()
    ensures curve { curve_named (named_tables
        (line 8 (codes "K") ∷ line 9 (codes "C1 x") ∷ line 10 (codes "K y") ∷ []) []) (codes "c1")
        ≡ Ok (record { index = 1 }) }
    ensures no_curve { curve_named (named_tables (line 8 (codes "K") ∷ []) []) (codes "C1")
        ≡ Err Unknown }
    ensures several { curve_named (named_tables
        (line 8 (codes "Ka") ∷ line 9 (codes "kA") ∷ []) []) (codes "ka") ≡ Err Unknown }
    ensures series { series_named (named_tables []
        (line 8 (codes "K") ∷ line 9 (codes "T1 x FILE") ∷ [])) (codes "T1")
        ≡ Ok (record { index = 1 }) }
    ensures file_series { series_named (named_tables []
        (line 8 (codes "T1 0 1") ∷ line 9 (codes "T1 File x") ∷ [])) (codes "t1")
        ≡ Err FileSeries }
    ensures no_series { series_named (named_tables [] (line 8 (codes "T1 FILE x") ∷ []))
        (codes "T2") ≡ Err Unknown }
{}

/// Values of curves: at a point, between two points, outside of the points, clamped at 0, and where
/// a step does not fit.
pub fn values()
    ensures between { line_value rising (natural 1) ≡ Ok (over 1 2) }
    ensures at_last { line_value rising (natural 3) ≡ Ok one }
    ensures past_last { line_value rising (natural 12) ≡ Ok one }
    ensures before_first { line_value rising (whole (negsuc 0)) ≡ Ok zero }
    ensures fallen { line_value falling (over 19 3) ≡ Ok zero }
    ensures overflow { line_value steep (over 1 1) ≡ Err (record {}) }
    ensures at_first { line_value steep (natural 0) ≡ Ok zero }
{}
