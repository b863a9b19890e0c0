//! Worked examples: texts and the values that the definitions give them. Each function here does
//! nothing: its contract states examples, which the proofs compute.
ghost use Rattle.std.specs.Prelude.{◌≡◌, ℕ, ◌<◌, ◌≤◌, ◌*◌, ◌%◌, ◌⊎◌, ◌↔◌, ◌^◌, Bool, List, codes, ℤ, pos, negsuc, ◌-ℤ◌, Some, None, Ok, Err, length, decimal, IsTrue};
ghost use Rattle.std.specs.List.{list_all};
ghost use Rattle.std.specs.Char.{is_ascii_digit};
ghost use Rattle.std.specs.Str.Parse.{digits_value};
ghost use Rattle.exact_fraction.specs.Moments.{IsMoment, first_second, last_second};
ghost use Rattle.exact_fraction.specs.Number.{Rational, whole, zero, IsNumber};
ghost use Rattle.jiff_core.specs.Calendar.{IsCivilDate, days_from_civil, day_of_year};
ghost use Rattle.num_text.specs.declared.error.NumberFault.TheVariants.{BadNumber, TooLarge};
ghost use Rattle.num_text.specs.Bytes.{slash, hyphen};
ghost use Rattle.num_text.specs.CivilDays.{days_after_first, place_at, month_at, IsCivilDay};
ghost use Rattle.num_text.specs.ClockText.{ClockParts, IsClockText, seconds_of_parts};
ghost use Rattle.num_text.specs.Clocks.{clock, clock_below, moment_of};
ghost use Rattle.num_text.specs.Counts.{count_of};
ghost use Rattle.num_text.specs.DateText.{DateParts, IsDateText, day_of_parts, MonthDayParts, IsMonthDayText, place_of_parts, IsDayNumberText};
ghost use Rattle.num_text.specs.Dates.{date_of, day_of_year_of};
ghost use Rattle.num_text.specs.Numbers.{number_of, significand, end_zeros};
ghost use Rattle.num_text.specs.MomentText.{MomentParts, IsMomentText, moment_of_parts};
ghost use Rattle.num_text.specs.NumberText.{NumberParts, IsNumberText, value_of_parts};
ghost use Rattle.num_text.specs.Steps.{IsReadStep, step_of, routing_step_of};
ghost use Rattle.num_text.specs.TimeText.{IsDecimalUpTo, IsTimeText, IsStepText, IsRoutingStepText};
ghost use Rattle.num_text.specs.Times.{IsReadHours, IsReadTime, hours_in_digits, time_of};
ghost use Rattle.num_text.specs.Values.{written_value, spelled_value};
ghost use Rattle.num_text.specs.Written.{written_moment};

/// Worked examples of numbers, as the definitions compute them.
pub fn numbers()
    ensures tenth { number_of (codes "0.10") ≡ Ok (record { num = pos 1; below = 9 }) }
    ensures half { number_of (codes ".5") ≡ Ok (record { num = pos 1; below = 1 }) }
    ensures half_by_power { number_of (codes "5e-1") ≡ Ok (record { num = pos 1; below = 1 }) }
    ensures five { number_of (codes "5.") ≡ Ok (record { num = pos 5; below = 0 }) }
    ensures three { number_of (codes "+3") ≡ Ok (record { num = pos 3; below = 0 }) }
    ensures minus { number_of (codes "-2.50E+1") ≡ Ok (record { num = negsuc 24; below = 0 }) }
    ensures least { number_of (codes "1e-18")
        ≡ Ok (record { num = pos 1; below = 999999999999999999 }) }
    ensures least_again { number_of (codes "1000e-21")
        ≡ Ok (record { num = pos 1; below = 999999999999999999 }) }
    ensures nothing { number_of (codes "0e999") ≡ Ok zero }
    ensures too_small { number_of (codes "1e-19") ≡ Err TooLarge }
    ensures too_large { number_of (codes "9223372036854775808") ≡ Err TooLarge }
    ensures largest { number_of (codes "9223372036854775807")
        ≡ Ok (record { num = pos 9223372036854775807; below = 0 }) }
    ensures sign_alone { number_of (codes "-") ≡ Err BadNumber }
    ensures point_alone { number_of (codes ".") ≡ Err BadNumber }
    ensures no_exponent { number_of (codes "1e") ≡ Err BadNumber }
    ensures empty { number_of (codes "") ≡ Err BadNumber }
    ensures all_parts { number_of (codes "+.5E+01") ≡ Ok (record { num = pos 5; below = 0 }) }
    ensures point_and_power { number_of (codes "5.e1") ≡ Ok (record { num = pos 50; below = 0 }) }
    ensures power_of_zeros { number_of (codes "7e-000") ≡ Ok (record { num = pos 7; below = 0 }) }
{}

/// Texts that are no numbers.
pub fn no_numbers()
    ensures comma { number_of (codes "1,5") ≡ Err BadNumber }
    ensures two_points { number_of (codes "1.2.3") ≡ Err BadNumber }
    ensures point_and_power { number_of (codes ".e1") ≡ Err BadNumber }
    ensures power_with_point { number_of (codes "1e1.5") ≡ Err BadNumber }
    ensures power_of_four_digits { number_of (codes "1e0001") ≡ Err BadNumber }
    ensures power_without_digits { number_of (codes "1e+") ≡ Err BadNumber }
    ensures power_twice { number_of (codes "1e1e1") ≡ Err BadNumber }
    ensures two_signs { number_of (codes "--1") ≡ Err BadNumber }
    ensures sign_at_the_end { number_of (codes "1-") ≡ Err BadNumber }
    ensures space { number_of (codes "1 ") ≡ Err BadNumber }
    ensures letter { number_of (codes "1f") ≡ Err BadNumber }
    ensures hexadecimal { number_of (codes "0x1") ≡ Err BadNumber }
    ensures grouped { number_of (codes "1_000") ≡ Err BadNumber }
{}

/// Worked examples of written values.
pub fn values()
    ensures half { written_value (record { num = pos 1; below = 1 }) ≡ codes "0.5" }
    ensures third { written_value (record { num = negsuc 0; below = 2 }) ≡ codes "-1/3" }
    ensures seven { written_value (record { num = pos 7; below = 0 }) ≡ codes "7" }
    ensures nothing { written_value zero ≡ codes "0" }
    ensures hundredth { written_value (record { num = negsuc 4; below = 99 }) ≡ codes "-0.05" }
{}

/// Worked examples of times, dates and days of a year.
pub fn times()
    ensures hours { time_of (codes "1.50") ≡ Some (record { num = pos 3; below = 1 }) }
    ensures clock { time_of (codes "1:30") ≡ Some (record { num = pos 3; below = 1 }) }
    ensures seconds { time_of (codes "0:00:36") ≡ Some (record { num = pos 1; below = 99 }) }
    ensures minute_60 { time_of (codes "1:60") ≡ None }
    ensures point_last { time_of (codes "5.") ≡ None }
    ensures past_a_million { time_of (codes "1000000.1") ≡ None }
    ensures march { day_of_year_of (codes "3/1") ≡ Some 60 }
    ensures leap_day { day_of_year_of (codes "2/29") ≡ None }
    ensures last_day { day_of_year_of (codes "366") ≡ Some 366 }
    ensures day_0 { day_of_year_of (codes "0") ≡ None }
    ensures june_31 { date_of (codes "6/31/2001") ≡ None }
    ensures mixed { date_of (codes "6/15-2001") ≡ None }
    ensures written_june_31 { moment_of (codes "2001-06-31T00:00") ≡ None }
    ensures hyphens { moment_of (codes "6-15-2001T0:00") ≡ None }
    ensures hour_24 { moment_of (codes "2001-06-15 24:00") ≡ None }
    ensures small_t { moment_of (codes "2001-06-15t0:00") ≡ None }
{}

/// Texts that are no time values.
pub fn no_times()
    ensures point_first { time_of (codes ".5") ≡ None }
    ensures comma { time_of (codes "1,5") ≡ None }
    ensures ten_decimals { time_of (codes "1.0000000001") ≡ None }
    ensures plus { time_of (codes "+1") ≡ None }
    ensures power { time_of (codes "1e1") ≡ None }
    ensures hours_of_8_digits { time_of (codes "00000001:00") ≡ None }
    ensures minutes_of_3_digits { time_of (codes "1:005") ≡ None }
    ensures no_minutes { time_of (codes "1:") ≡ None }
    ensures second_60 { time_of (codes "1:00:60") ≡ None }
    ensures point_for_colon { time_of (codes "1:30.5") ≡ None }
    ensures clock_past_a_million { time_of (codes "1000000:00:01") ≡ None }
{}

/// Texts that are no dates and no days of a year.
pub fn no_days()
    ensures hyphen_and_slash { date_of (codes "6-15/2001") ≡ None }
    ensures year_of_2_digits { date_of (codes "6/15/01") ≡ None }
    ensures year_of_5_digits { date_of (codes "6/15/20010") ≡ None }
    ensures month_of_3_digits { date_of (codes "006/15/2001") ≡ None }
    ensures month_0 { date_of (codes "0/15/2001") ≡ None }
    ensures month_13 { date_of (codes "13/1/2001") ≡ None }
    ensures year_0 { date_of (codes "1/1/0000") ≡ None }
    ensures points { date_of (codes "6.15.2001") ≡ None }
    ensures year_first { date_of (codes "2001-06-15") ≡ None }
    ensures day_367 { day_of_year_of (codes "367") ≡ None }
    ensures day_of_4_digits { day_of_year_of (codes "0060") ≡ None }
    ensures day_by_hyphen { day_of_year_of (codes "3-1") ≡ None }
{}

/// Texts that are no moments.
pub fn no_moments()
    ensures month_of_1_digit { moment_of (codes "2001-6-15T7:30") ≡ None }
    ensures slashes_year_first { moment_of (codes "2001/06/15T7:30") ≡ None }
    ensures two_spaces { moment_of (codes "2001-06-15  7:30") ≡ None }
    ensures hours_of_3_digits { moment_of (codes "2001-06-15T007:30") ≡ None }
    ensures hours_alone { moment_of (codes "2001-06-15T7") ≡ None }
    ensures day_alone { moment_of (codes "2001-06-15") ≡ None }
    ensures minute_60 { moment_of (codes "2001-06-15T7:60") ≡ None }
    ensures underscore { moment_of (codes "2001-06-15_7:30") ≡ None }
    ensures zone { moment_of (codes "2001-06-15T7:30Z") ≡ None }
{}

/// Worked examples of the days that dates and moments write.
pub fn days()
    ensures slashes { date_of (codes "6/15/2001") ≡ Some (pos 11488) }
    ensures hyphens { date_of (codes "06-15-2001") ≡ Some (pos 11488) }
    ensures slashed_moment { moment_of (codes "6/15/2001T0:00") ≡ Some (pos 992563200) }
    ensures spaced_moment { moment_of (codes "2001-06-15 0:00") ≡ Some (pos 992563200) }
    ensures hours_of_one_digit { moment_of (codes "2001-06-15T7:30") ≡ Some (pos 992590200) }
    ensures written { written_moment (pos 992590200) ≡ codes "2001-06-15T07:30:00" }
    ensures first { written_moment first_second ≡ codes "0001-01-01T00:00:00" }
    ensures last { written_moment last_second ≡ codes "9999-12-31T23:59:59" }
{}

/// Worked examples of times of the clock, in seconds.
#[tactic(auto, unfolding(crate::specs::Fields::leading_digits, crate::specs::Fields::past_digits, crate::specs::Fields::field, crate::specs::Fields::field_below, crate::specs::Clocks::seconds_part, crate::specs::Clocks::clock))]
pub fn clocks()
    ensures minutes { clock 7 (codes "0:15") ≡ Some 900 }
    ensures seconds { clock 7 (codes "01:2:3") ≡ Some 3_723 }
    ensures longest { clock 7 (codes "9999999:59:59") ≡ Some 35_999_999_999 }
    ensures eight_digits { clock 7 (codes "00000001:00") ≡ None }
    ensures minute_60 { clock 7 (codes "0:60") ≡ None }
    ensures second_60 { clock 7 (codes "0:00:60") ≡ None }
    ensures hours_alone { clock 7 (codes "15") ≡ None }
    ensures no_hours { clock 7 (codes ":15") ≡ None }
    ensures colon_last { clock 7 (codes "1:15:") ≡ None }
    ensures four_parts { clock 7 (codes "1:15:00:00") ≡ None }
    ensures last_of_day { clock_below 7 86_400 (codes "23:59:59") ≡ Some 86_399 }
    ensures hour_24 { clock_below 7 86_400 (codes "24:00") ≡ None }
{}

/// Worked examples of hours and of steps.
#[tactic(auto, unfolding(crate::specs::Fields::leading_digits, crate::specs::Fields::past_digits, crate::specs::Fields::field, crate::specs::Fields::field_below, crate::specs::Clocks::seconds_part, crate::specs::Clocks::clock, crate::specs::Pointed::decimals, crate::specs::Pointed::decimal_up_to, crate::specs::Steps::step_of, crate::specs::Steps::routing_step_of, exact_fraction::specs::Number::ratio, exact_fraction::specs::Number::gcd, exact_fraction::specs::Number::last_remainder, exact_fraction::specs::Number::cancelled, exact_fraction::specs::Number::den, exact_fraction::specs::Number::whole, exact_fraction::specs::Order::less))]
pub fn steps()
    ensures hours { hours_in_digits (codes "1.50") ≡ Some (record { num = pos 3; below = 1 }) }
    ensures no_hours { hours_in_digits (codes "0") ≡ Some zero }
    ensures most_hours { hours_in_digits (codes "1000000.000000000")
        ≡ Some (whole (pos 1_000_000)) }
    ensures past_a_million { hours_in_digits (codes "1000000.000000001") ≡ None }
    ensures hours_by_clock { hours_in_digits (codes "1:30") ≡ None }
    ensures half { step_of (codes "0.5") ≡ Some (record { num = pos 1; below = 1 }) }
    ensures least { step_of (codes "0.000000001")
        ≡ Some (record { num = pos 1; below = 999_999_999 }) }
    ensures most { step_of (codes "86400.0") ≡ Some (whole (pos 86_400)) }
    ensures past_a_day { step_of (codes "86400.1") ≡ None }
    ensures nothing { step_of (codes "0") ≡ None }
    ensures nothing_again { step_of (codes "0.000000000") ≡ None }
    ensures ten_decimals { step_of (codes "0.0000000010") ≡ None }
    ensures point_last { step_of (codes "1.") ≡ None }
    ensures point_first { step_of (codes ".5") ≡ None }
    ensures power { step_of (codes "1e2") ≡ None }
    ensures plus { step_of (codes "+1") ≡ None }
    ensures empty { step_of (codes "") ≡ None }
    ensures step_by_clock { step_of (codes "0:30") ≡ None }
    ensures routing { routing_step_of (codes "1.5") ≡ Some (record { num = pos 3; below = 1 }) }
    ensures by_clock { routing_step_of (codes "0:00:30") ≡ Some (whole (pos 30)) }
    ensures day { routing_step_of (codes "24:00") ≡ Some (whole (pos 86_400)) }
    ensures past_the_day { routing_step_of (codes "24:00:01") ≡ None }
    ensures nothing_by_clock { routing_step_of (codes "0:00:00") ≡ None }
{}

/// Worked examples of counts.
#[tactic(auto, unfolding(crate::specs::Fields::leading_digits, crate::specs::Fields::past_digits, crate::specs::Counts::count_of))]
pub fn counts()
    ensures nothing { count_of (codes "0") ≡ Some 0 }
    ensures hundred { count_of (codes "100") ≡ Some 100 }
    ensures largest { count_of (codes "18446744073709551615") ≡ Some 18_446_744_073_709_551_615 }
    ensures too_large { count_of (codes "18446744073709551616") ≡ None }
    ensures long { count_of (codes "100000000000000000000") ≡ None }
    ensures padded { count_of (codes "01") ≡ None }
    ensures zeros { count_of (codes "00") ≡ None }
    ensures plus { count_of (codes "+1") ≡ None }
    ensures minus { count_of (codes "-1") ≡ None }
    ensures point { count_of (codes "1.0") ≡ None }
    ensures empty { count_of (codes "") ≡ None }
{}
