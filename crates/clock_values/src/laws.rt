//! Laws of the clock, of steps and of windows. Each function here does nothing: its contract states
//! laws for the proofs of the crates above.
ghost use Rattle.std.specs.Prelude.{◌≡◌, ℕ, ◌↔◌, ◌≤◌, Bool, true, false, ℤ, pos, ◌+ℤ◌, ◌-ℤ◌};
ghost use Rattle.std.specs.Prelude.{◌≤ℤ◌, IsTrue, Some, List};
ghost use Rattle.exact_fraction.specs.Number.{Rational, zero, one, whole};
ghost use Rattle.exact_fraction.specs.Order.{◌≤ℚ◌, ◌<ℚ◌};
ghost use Rattle.rule_types.specs.declared.condition.Condition.{Condition};
ghost use Rattle.rule_types.specs.declared.condition.Right.TheVariants as right;
ghost use Rattle.rule_types.specs.declared.key.ClockAttr.{ClockAttr};
ghost use Rattle.rule_types.specs.declared.key.ClockAttr.TheVariants.{Time, Month, Day, DayOfYear};
ghost use Rattle.rule_types.specs.declared.names.NameDef.{NameDef};
ghost use Rattle.rule_types.specs.declared.rules.Rules.{Rules};
ghost use Rattle.rule_types.specs.declared.state.State.{State};
ghost use Rattle.rule_types.specs.Fitting.{IsStep};
ghost use Rattle.rule_types.specs.WellFormed.{ConditionFits, IsRoutingStep, IsTimeValue};
ghost use Rattle.rule_types.specs.WellFormed.{WellFormed};
ghost use Rattle.rule_meaning.specs.Clock.{day_of, hours_of, clock_value};
ghost use Rattle.rule_meaning.specs.Condition.{hours_of_step, right_value, meets};
ghost use Rattle.rule_meaning.specs.Worth.{minutes_of};
ghost use Rattle.clock_values.specs.declared.window.Window.{Window};
ghost use Rattle.clock_values.specs.Seconds.{passes_throughout, passes_nowhere};
ghost use Rattle.clock_values.specs.Steps.{IsStepInHours, EndsFit};
ghost use Rattle.clock_values.specs.Windows.{differs, window_holds, window_of, window_turns};

/// MONTH is from 1 to 12, DAY from 1 to 7 and DAYOFYEAR from 1 to 366. TIME never falls, and within
/// one day no attribute of the clock does.
pub fn clock_hulls()
    ensures month { (start second : ℤ) → (one ≤ℚ clock_value Month start second)
        × (clock_value Month start second ≤ℚ whole (pos 12)) }
    ensures week_day { (start second : ℤ) → (one ≤ℚ clock_value Day start second)
        × (clock_value Day start second ≤ℚ whole (pos 7)) }
    ensures year_day { (start second : ℤ) → (one ≤ℚ clock_value DayOfYear start second)
        × (clock_value DayOfYear start second ≤ℚ whole (pos 366)) }
    ensures time { (start a b : ℤ) → a ≤ℤ b
        → clock_value Time start a ≤ℚ clock_value Time start b }
    ensures one_day { (attribute : ClockAttr) (start a b : ℤ) → day_of a ≡ day_of b → a ≤ℤ b
        → clock_value attribute start a ≤ℚ clock_value attribute start b }
{}

/// A step that a state can have is a step in hours, and its minutes are above 0. Routing steps are
/// such steps, that of well formed rules among them.
pub fn steps()
    ensures in_hours { (seconds : Rational) → IsStep seconds
        → IsStepInHours (hours_of_step seconds) }
    ensures minutes { (seconds : Rational) → IsStep seconds → zero <ℚ minutes_of seconds }
    ensures routing { (seconds : Rational) → IsRoutingStep seconds → IsStep seconds }
    ensures of_rules { (x : Rules) → WellFormed x → IsStep x.routing_step }
{}

/// The right side of a half-step condition is a time value, whatever the state. Half a step before
/// a time value and half a step after it are numbers that fit.
pub fn half_steps()
    ensures number { (names : List NameDef) (c : Condition) (q : Rational) → ConditionFits names c
        → c.right ≡ right.Value q → IsTrue c.half_step → IsTimeValue q }
    ensures value { (names : List NameDef) (x : Rules) (s : State) (c : Condition) (q : Rational)
        → ConditionFits names c → right_value x s c.right ≡ Some q → IsTrue c.half_step
        → IsTimeValue q }
    ensures fit { (q step : Rational) → IsTimeValue q → IsStepInHours step → EndsFit q step }
{}

/// So many whole seconds in hours meet a condition where its window says so, and it changes where
/// its window turns.
pub fn windows()
    ensures holds { (c : Condition) (step q : Rational) (second : ℤ)
        → meets c step (hours_of second) q ≡ window_holds (window_of c step q) second }
    ensures turns { (w : Window) (second : ℤ)
        → differs (window_holds w second) (window_holds w (second -ℤ pos 1))
        ≡ window_turns w second }
{}

/// A test passes throughout a run of seconds where it passes at each of them, and nowhere where it
/// passes at none.
pub fn runs_of_seconds()
    ensures throughout { (test : ℤ → Bool) (from : ℤ) (more : ℕ)
        → (passes_throughout test from more ≡ true)
        ↔ ((k : ℕ) → k ≤ more → test (from +ℤ pos k) ≡ true) }
    ensures nowhere { (test : ℤ → Bool) (from : ℤ) (more : ℕ)
        → (passes_nowhere test from more ≡ true)
        ↔ ((k : ℕ) → k ≤ more → test (from +ℤ pos k) ≡ false) }
{}
