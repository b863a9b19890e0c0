//! Laws of the readings and writings. Each function here does nothing: its contract states laws for
//! the proofs of the crates above.
ghost use Rattle.std.specs.Prelude.{◌≡◌, ℕ, ◌<◌, ◌≤◌, ◌*◌, ◌%◌, ◌⊎◌, ◌↔◌, ◌^◌, Bool, List, codes, ℤ, pos, negsuc, ◌-ℤ◌, Some, None, Ok, Err, length, decimal, IsTrue};
ghost use Rattle.std.specs.List.{list_all};
ghost use Rattle.std.specs.Char.{is_ascii_digit};
ghost use Rattle.std.specs.Str.Parse.{digits_value};
ghost use Rattle.exact_fraction.specs.Moments.{IsMoment, first_second, last_second};
ghost use Rattle.exact_fraction.specs.Number.{Rational, whole, zero, IsNumber};
ghost use Rattle.jiff_core.specs.Calendar.{IsCivilDate, days_from_civil, day_of_year};
ghost use Rattle.num_text.specs.declared.error.NumberFault.TheVariants.{BadNumber, TooLarge};
ghost use Rattle.num_text.specs.Bytes.{slash, hyphen};
ghost use Rattle.num_text.specs.CivilDays.{days_after_first, place_at, month_at, IsCivilDay};
ghost use Rattle.num_text.specs.ClockText.{ClockParts, IsClockText, seconds_of_parts};
ghost use Rattle.num_text.specs.Clocks.{clock, clock_below, moment_of};
ghost use Rattle.num_text.specs.Counts.{count_of};
ghost use Rattle.num_text.specs.DateText.{DateParts, IsDateText, day_of_parts, MonthDayParts, IsMonthDayText, place_of_parts, IsDayNumberText};
ghost use Rattle.num_text.specs.Dates.{date_of, day_of_year_of};
ghost use Rattle.num_text.specs.Numbers.{number_of, number_in, significand, end_zeros};
ghost use Rattle.num_text.specs.MomentText.{MomentParts, IsMomentText, moment_of_parts};
ghost use Rattle.num_text.specs.NumberText.{NumberParts, IsNumberText, value_of_parts};
ghost use Rattle.num_text.specs.Steps.{IsReadStep, step_of, routing_step_of};
ghost use Rattle.num_text.specs.TimeText.{IsDecimalUpTo, IsTimeText, IsStepText, IsRoutingStepText};
ghost use Rattle.num_text.specs.Times.{IsReadHours, IsReadTime, hours_in_digits, time_of};
ghost use Rattle.num_text.specs.Values.{written_value, spelled_value};
ghost use Rattle.num_text.specs.Written.{written_moment};

/// What is written is read as what it was, and so two numbers or two moments that are written alike
/// are the same.
pub fn round_trips()
    ensures moment { (second : ℤ) → IsMoment second
        → moment_of (written_moment second) ≡ Some second }
    ensures value { (q : Rational) → IsNumber q → spelled_value (written_value q) ≡ Some q }
    ensures one_moment { (s t : ℤ) → IsMoment s → IsMoment t
        → written_moment s ≡ written_moment t → s ≡ t }
    ensures one_value { (p q : Rational) → IsNumber p → IsNumber q
        → written_value p ≡ written_value q → p ≡ q }
{}

/// The year, the month, the day of the month and the place in the year of a day that is so many
/// days after 0001-01-01 are those of the calendar: of each civil date from the year 1 on, by its
/// day number. None of these dates comes before 0001-01-01. The place in the year is from 1 to 366,
/// and the month from 1 to 12, of any number of days.
pub fn calendar()
    ensures date { (y m d : ℕ) → 1 ≤ y → IsCivilDate (pos y) m d
        → IsCivilDay (days_after_first (days_from_civil (pos y) m d))
        y m d (day_of_year (pos y) m d) }
    ensures number { (y m d : ℕ) → 1 ≤ y → IsCivilDate (pos y) m d
        → days_from_civil (pos y) m d
        ≡ pos (days_after_first (days_from_civil (pos y) m d)) -ℤ pos 719_162 }
    ensures place { (days : ℕ) → (1 ≤ place_at days) × (place_at days ≤ 366) }
    ensures month { (days : ℕ) → (1 ≤ month_at days) × (month_at days ≤ 12) }
{}

/// The significand of digits is 0 or not divisible by 10, and with the zeros at their end it is the
/// number that they write.
pub fn significands()
    ensures value { (digits : List ℕ) → IsTrue (list_all is_ascii_digit digits)
        → digits_value 10 digits ≡ significand digits * 10 ^ end_zeros digits }
    ensures least { (digits : List ℕ) → IsTrue (list_all is_ascii_digit digits)
        → (significand digits ≡ 0) ⊎ (significand digits % 10 ≡ 0 → ⊥) }
{}

/// What is read as a time value, as hours and as a step.
pub fn readings()
    ensures time { (text : List ℕ) (q : Rational) → time_of text ≡ Some q → IsReadTime q }
    ensures hours { (text : List ℕ) (q : Rational) → hours_in_digits text ≡ Some q → IsReadHours q }
    ensures step { (text : List ℕ) (q : Rational) → step_of text ≡ Some q → IsReadStep q }
    ensures routing_step { (text : List ℕ) (q : Rational) → routing_step_of text ≡ Some q
        → IsReadStep q }
{}

/// A count is read from the decimal digits that are written of it, and from no other text.
pub fn counts()
    ensures back { (n : ℕ) → n < 2 ^ 64 → count_of (decimal n) ≡ Some n }
    ensures written { (text : List ℕ) (n : ℕ) → count_of text ≡ Some n → text ≡ decimal n }
    ensures below { (text : List ℕ) (n : ℕ) → count_of text ≡ Some n → n < 2 ^ 64 }
{}

/// A number is read, with this value or as one that is too large, exactly where the text has the
/// parts of a number with this value. A text is no number exactly where it has no such parts. It
/// has these parts in one way only.
pub fn number_grammar()
    ensures read { (text : List ℕ) (q : Rational) → number_of text ≡ Ok q
        ↔ ((p : NumberParts) × IsNumberText text p × (value_of_parts p ≡ Ok q)) }
    ensures too_large { (text : List ℕ) → number_of text ≡ Err TooLarge
        ↔ ((p : NumberParts) × IsNumberText text p × (value_of_parts p ≡ Err TooLarge)) }
    ensures no_number { (text : List ℕ) → number_of text ≡ Err BadNumber
        ↔ ((p : NumberParts) → IsNumberText text p → ⊥) }
    ensures one { (text : List ℕ) (p q : NumberParts) → IsNumberText text p → IsNumberText text q
        → p ≡ q }
    ensures known { (text : List ℕ) (q : Rational) → number_in text ≡ Some q
        ↔ (number_of text ≡ Ok q) }
{}

/// A time of the clock is read, with this value in seconds, exactly where the text has the parts of
/// one. It has them in one way only.
pub fn clock_grammar()
    ensures read { (most : ℕ) (text : List ℕ) (number : ℕ) → clock most text ≡ Some number
        ↔ ((p : ClockParts) × IsClockText most text p × (seconds_of_parts p ≡ number)) }
    ensures one { (most : ℕ) (text : List ℕ) (p q : ClockParts) → IsClockText most text p
        → IsClockText most text q → p ≡ q }
{}

/// Time values, hours and steps are read, with this value, exactly where the text is one of this
/// value.
pub fn time_grammar()
    ensures time { (text : List ℕ) (q : Rational) → time_of text ≡ Some q ↔ IsTimeText text q }
    ensures hours { (text : List ℕ) (q : Rational) → hours_in_digits text ≡ Some q
        ↔ IsDecimalUpTo 1_000_000 text q }
    ensures step { (text : List ℕ) (q : Rational) → step_of text ≡ Some q ↔ IsStepText text q }
    ensures routing_step { (text : List ℕ) (q : Rational) → routing_step_of text ≡ Some q
        ↔ IsRoutingStepText text q }
{}

/// Dates, days of a year and moments are read, with this value, exactly where the text has the
/// parts of one of this value.
pub fn date_grammar()
    ensures date { (text : List ℕ) (day : ℤ) → date_of text ≡ Some day
        ↔ ((p : DateParts) × (IsDateText slash text p ⊎ IsDateText hyphen text p)
        × (day_of_parts p ≡ day)) }
    ensures day_of_year { (text : List ℕ) (place : ℕ) → day_of_year_of text ≡ Some place
        ↔ (((p : MonthDayParts) × IsMonthDayText text p × (place_of_parts p ≡ place))
        ⊎ (IsDayNumberText text × (digits_value 10 text ≡ place))) }
    ensures moment { (text : List ℕ) (second : ℤ) → moment_of text ≡ Some second
        ↔ ((p : MomentParts) × IsMomentText text p × (moment_of_parts p ≡ second)) }
{}
