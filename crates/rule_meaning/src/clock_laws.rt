//! Laws of the clock. Each function here does nothing: its contract states laws for the proofs of
//! the crates above.
ghost use Rattle.std.specs.Prelude.{◌≡◌, ℕ, ◌/◌, ◌%◌, ◌≤◌, ℤ, pos, ◌+ℤ◌, ◌*ℤ◌, ◌≤ℤ◌, ◌<ℤ◌};
ghost use Rattle.std.specs.Int.{int_rem_euclid};
ghost use Rattle.exact_fraction.specs.Number.{whole, zero};
ghost use Rattle.exact_fraction.specs.Order.{◌≤ℚ◌, ◌<ℚ◌};
ghost use Rattle.rule_types.specs.declared.key.ClockAttr.TheVariants.{Time, Date, Month, Day};
ghost use Rattle.rule_types.specs.declared.key.ClockAttr.TheVariants.{ClockTime, DayOfYear};
ghost use Rattle.rule_meaning.specs.Clock.{day_of, hours_of, week_day_of, clock_value};

/// A second is so many whole days and what is left of less than one, and so many seconds after the
/// first second of a day it is that many days later, and so far into its own.
pub fn day_seconds()
    ensures whole { (second : ℤ)
        → second ≡ day_of second *ℤ pos 86400 +ℤ int_rem_euclid second (pos 86400) }
    ensures bounds { (second : ℤ) → (pos 0 ≤ℤ int_rem_euclid second (pos 86400))
        × (int_rem_euclid second (pos 86400) <ℤ pos 86400) }
    ensures day_at { (base day : ℤ) (m : ℕ) → base ≡ day *ℤ pos 86400
        → day_of (base +ℤ pos m) ≡ day +ℤ pos (m / 86400) }
    ensures time_at { (base day : ℤ) (m : ℕ) → base ≡ day *ℤ pos 86400
        → int_rem_euclid (base +ℤ pos m) (pos 86400) ≡ pos (m % 86400) }
{}

/// DAY is from 1 to 7, and CLOCKTIME at least 0 and below 24 hours.
pub fn clock_bounds()
    ensures week_day { (day : ℤ) → (1 ≤ week_day_of day) × (week_day_of day ≤ 7) }
    ensures clock_time { (start second : ℤ) → (zero ≤ℚ clock_value ClockTime start second)
        × (clock_value ClockTime start second <ℚ whole (pos 24)) }
{}

/// Hours rise with seconds, and so TIME does, and within one day CLOCKTIME. DATE never falls.
pub fn clock_order()
    ensures hours { (a b : ℤ) → a ≤ℤ b → hours_of a ≤ℚ hours_of b }
    ensures hours_below { (a b : ℤ) → a <ℤ b → hours_of a <ℚ hours_of b }
    ensures time { (start a b : ℤ) → a <ℤ b
        → clock_value Time start a <ℚ clock_value Time start b }
    ensures date { (start a b : ℤ) → a ≤ℤ b
        → clock_value Date start a ≤ℚ clock_value Date start b }
    ensures clock_time { (start a b : ℤ) → day_of a ≡ day_of b → a <ℤ b
        → clock_value ClockTime start a <ℚ clock_value ClockTime start b }
{}

/// Within one day DATE, MONTH, DAY and DAYOFYEAR are the same.
pub fn one_day()
    ensures date { (start a b : ℤ) → day_of a ≡ day_of b
        → clock_value Date start a ≡ clock_value Date start b }
    ensures month { (start a b : ℤ) → day_of a ≡ day_of b
        → clock_value Month start a ≡ clock_value Month start b }
    ensures week_day { (start a b : ℤ) → day_of a ≡ day_of b
        → clock_value Day start a ≡ clock_value Day start b }
    ensures year_day { (start a b : ℤ) → day_of a ≡ day_of b
        → clock_value DayOfYear start a ≡ clock_value DayOfYear start b }
{}
