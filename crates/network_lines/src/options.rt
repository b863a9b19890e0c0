//! The options of an input file.
ghost use Rattle.std.specs.Prelude.{◌≡◌, ◌<◌, neg_ℤ, pos, ◌≤ℤ◌, Some, IfOk, OnOk, IfSome};
ghost use Rattle.std.specs.Option.{option_or};
ghost use Rattle.inp_text.specs.Items.{items};
ghost use Rattle.rule_types.specs.declared.refusal.Cause.TheVariants.{BadOption};
ghost use Rattle.control_lines.specs.Faults.{or_fault, refusal_at, refusal_on};
ghost use Rattle.control_lines.specs.Views.{checked_now, fault_now, texts};
ghost use Rattle.num_text.specs.Clocks.{clock, seconds_at};
ghost use Rattle.network_lines.specs.Options.{no_options, start_of, option_set, option_read};
ghost use Rattle.network_lines.specs.Options.{with_start_date as starts_on, value_item};
ghost use Rattle.network_lines.specs.Options.{with_start_time as starts_at};
ghost use Rattle.network_lines.specs.Options.{with_routing_step as routes_by, rule_step_read};
ghost use Rattle.network_lines.specs.Options.{with_rule_step as rules_by, options_from};
ghost use Rattle.network_lines.specs.Options.{options_after, options_refusal};
ghost use Rattle.network_lines.specs.internal.Views.{IsStart};

use byte_edge::NoMemory;
use control_lines::Fault;
use exact_fraction::frac::Frac;
use exact_fraction::moment::Moment;
use inp_text::{SourceLine, cut_line};
use num_text::clocks::{read_clock, read_day_time};
use num_text::dates::read_date;
use num_text::steps::read_routing_step;
use rule_types::{Cause, Refusal};
use std::alloc::Global;

/// The options that are read (SWMM 5.2 manual, [OPTIONS]).
#[derive(Clone, Copy)]
pub struct OptionSet {
    /// The day number of START_DATE.
    pub start_day: Option<i32>,
    /// The second of the day of START_TIME.
    pub start_second: u64,
    /// ROUTING_STEP in seconds.
    pub routing_step: Frac,
    /// RULE_STEP in seconds.
    pub rule_step: Frac,
}

/// The options of some lines, and the first refusal among these lines.
#[derive(Drop)]
pub struct OptionsRead {
    pub options: OptionSet,
    pub refusal: Option<Refusal>,
}

impl OptionSet {
    /// Without options: no start, steps of 20 seconds, and rules that are read at each row.
    pub fn new() -> OptionSet
        ensures value { result ≡ no_options }
    {
        OptionSet {
            start_day: None,
            start_second: 0,
            routing_step: Frac::natural(20),
            rule_step: Frac::zero(),
        }
    }

    /// The moment at which a project starts: START_DATE at START_TIME, and none without START_DATE.
    pub fn start(&self) -> Option<Moment>
        requires start { IsStart self.now }
        ensures value { result ≡ start_of self.now }
    {
        let day = self.start_day?;
        moment_at(day, self.start_second as u32)
    }
}

/// The moment of a second of a day.
fn moment_at(day: i32, second: u32) -> Option<Moment>
    requires low { neg_ℤ (pos 719_162) ≤ℤ day }
    requires high { day ≤ℤ pos 2_932_896 }
    requires in_day { second < 86_400 }
    ensures value { result ≡ Some (seconds_at day second) }
{
    Moment::make(seconds_to(day, second))
}

/// The seconds from 1970-01-01T00:00:00 to a second of a day.
fn seconds_to(day: i32, second: u32) -> i64
    ensures value { result ≡ seconds_at day second }
{
    i64::from(day) * 86_400 + i64::from(second)
}

/// The options of the lines of [OPTIONS], of which the last one of a word counts, and the first
/// refusal among them: BadOption of a word whose value is outside its form, and RuleStep of a
/// RULE_STEP of more than a day. It takes time in proportion to the lines (SWMM 5.2 manual,
/// [OPTIONS]).
pub fn read_options(alloc: Global, lines: &[SourceLine]) -> Result<OptionsRead, NoMemory>
    ensures options { IfOk result (λ read. read.options ≡ options_from no_options lines.now) }
    ensures refusal { IfOk result (λ read. read.refusal ≡ options_refusal no_options lines.now) }
    ensures start { IfOk result (λ read. IsStart read.options) }
{
    let mut read = OptionsRead {
        options: OptionSet::new(),
        refusal: None,
    };
    for line in lines {
        read.take(alloc, line)?;
    }
    Ok(read)
}

impl OptionsRead {
    /// Takes one more line.
    fn take(&mut self, alloc: Global, line: &SourceLine) -> Result<(), NoMemory>
        requires start { IsStart self.old.options }
        ensures options { OnOk result (self.new.options
            ≡ options_after self.old.options
            (option_read self.old.options (items line.now.bytes))) }
        ensures refusal { OnOk result (self.new.refusal ≡ option_or self.old.refusal
            (refusal_at line.now.number (option_read self.old.options (items line.now.bytes)))) }
        ensures start { OnOk result (IsStart self.new.options) }
    {
        let found = cut_line(alloc, line.bytes.as_slice())?;
        match read_option(&self.options, found.as_slice()) {
            Ok(options) => {
                self.options = options;
                Ok(())
            }
            Err(fault) => self.refuse(alloc, line.number, fault),
        }
    }

    /// Notes the refusal of a line, unless there is one.
    fn refuse(&mut self, alloc: Global, number: u64, fault: Fault<'_>) -> Result<(), NoMemory>
        ensures options { self.new.options ≡ self.old.options }
        ensures refusal { OnOk result (self.new.refusal ≡ option_or self.old.refusal
            (Some (refusal_on number (fault_now fault.entry)))) }
    {
        if self.refusal.is_none() {
            self.refusal = Some(fault.refusal(alloc, number)?);
        }
        Ok(())
    }
}

/// The options after a line with these items, or the fault of the line.
#[tactic(auto, unfolding(crate::specs::Options::option_read))]
fn read_option<'a>(options: &OptionSet, found: &[&'a [u8]]) -> Result<OptionSet, Fault<'a>>
    requires start { IsStart options.now }
    ensures value { checked_now result ≡ option_read options.now (texts found.now) }
    ensures start { IfOk result IsStart }
{
    match found {
        [] => Ok(*options),
        [word] => set_option(options, word, &[]),
        [word, value, ..] => set_option(options, word, value),
    }
}

/// The options after the one of a word that has this value.
fn set_option<'a>(
    options: &OptionSet,
    word: &'a [u8],
    value: &'a [u8],
) -> Result<OptionSet, Fault<'a>>
    requires start { IsStart options.now }
    ensures value { checked_now result ≡ option_set options.now word.now value.now }
    ensures start { IfOk result IsStart }
{
    if word.eq_ignore_ascii_case(b"START_DATE") {
        return or_bad(with_start_date(options, value), word);
    }
    if word.eq_ignore_ascii_case(b"START_TIME") {
        return or_bad(with_start_time(options, value), word);
    }
    if word.eq_ignore_ascii_case(b"ROUTING_STEP") {
        return or_bad(with_routing_step(options, value), word);
    }
    if word.eq_ignore_ascii_case(b"RULE_STEP") {
        return with_rule_step(options, word, value);
    }
    Ok(*options)
}

/// The options, or BadOption of a word where there are none.
fn or_bad(options: Option<OptionSet>, word: &[u8]) -> Result<OptionSet, Fault<'_>>
    requires start { IfSome options IsStart }
    ensures value { checked_now result ≡ or_fault options BadOption word.now }
    ensures start { IfOk result IsStart }
{
    match options {
        Some(options) => Ok(options),
        None => Err(Fault {
            cause: Cause::BadOption,
            token: word,
        }),
    }
}

/// The options with this START_DATE.
fn with_start_date(options: &OptionSet, value: &[u8]) -> Option<OptionSet>
    requires start { IsStart options.now }
    ensures value { result ≡ starts_on options.now value.now }
    ensures start { IfSome result IsStart }
{
    let day = read_date(value)?;
    Some(OptionSet {
        start_day: Some(day),
        start_second: options.start_second,
        routing_step: options.routing_step,
        rule_step: options.rule_step,
    })
}

/// The options with this START_TIME.
fn with_start_time(options: &OptionSet, value: &[u8]) -> Option<OptionSet>
    requires start { IsStart options.now }
    ensures value { result ≡ starts_at options.now value.now }
    ensures start { IfSome result IsStart }
{
    let second = read_day_time(value)?;
    Some(OptionSet {
        start_day: options.start_day,
        start_second: second,
        routing_step: options.routing_step,
        rule_step: options.rule_step,
    })
}

/// The options with this ROUTING_STEP.
fn with_routing_step(options: &OptionSet, value: &[u8]) -> Option<OptionSet>
    requires start { IsStart options.now }
    ensures value { result ≡ routes_by options.now value.now }
    ensures start { IfSome result IsStart }
{
    let step = read_routing_step(value)?;
    Some(OptionSet {
        start_day: options.start_day,
        start_second: options.start_second,
        routing_step: step,
        rule_step: options.rule_step,
    })
}

/// The options with this RULE_STEP, which is at most a day.
fn with_rule_step<'a>(
    options: &OptionSet,
    word: &'a [u8],
    value: &'a [u8],
) -> Result<OptionSet, Fault<'a>>
    requires start { IsStart options.now }
    ensures value { checked_now result
        ≡ rules_by options.now word.now value.now (clock 7 value.now) }
    ensures start { IfOk result IsStart }
{
    let Some(seconds) = read_clock(value) else {
        return Err(Fault {
            cause: Cause::BadOption,
            token: word,
        });
    };
    if seconds > 86_400 {
        return Err(Fault {
            cause: Cause::RuleStep,
            token: value,
        });
    }
    Ok(OptionSet {
        start_day: options.start_day,
        start_second: options.start_second,
        routing_step: options.routing_step,
        rule_step: Frac::natural(seconds as u32),
    })
}
