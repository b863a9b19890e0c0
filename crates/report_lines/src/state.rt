//! The states of a report.
ghost use Rattle.std.specs.Prelude.{◌≡◌, ◌∷◌, [], suc, List, map, Some, None, IfOk};
ghost use Rattle.report_lines.specs.StateLines.{values_from, state_from, state_with, moment_by};
ghost use Rattle.report_lines.specs.StateLines.{moment_line as of_moment, value_line as of_value};
ghost use Rattle.report_lines.specs.StateLines.{is_present as has_key, setting_after as last_setting};
ghost use Rattle.report_lines.specs.StateLines.{is_open as opens, is_closed as closes};
ghost use Rattle.report_lines.specs.Words.{line_at};
ghost use Rattle.report_lines.specs.internal.Views.{reading_now, texts, values_go_on};
ghost use Rattle.rule_types.specs.declared.key.Key.{Key as AnyKey};
ghost use Rattle.verdict_meaning.specs.Grids.{sample_with, sample_links, number_of_key};
ghost use Rattle.verdict_meaning.specs.Grids.{timer_key as timer_of};
ghost use Rattle.std.specs.BTreeMap.{insert_entry};
ghost use Rattle.rule_types.specs.KeyOrder.{key_cmp};
ghost use Rattle.rule_types.specs.declared.key.Key.TheVariants.{Object};
ghost use Rattle.rule_types.specs.declared.object.Space.TheVariants.{Links};
ghost use Rattle.verdict_meaning.specs.Grids.{link_at as link_of};
ghost use Rattle.verdict_meaning.specs.Premises.{start_of};

use crate::body::Body;
use crate::key_line::past_key;
use crate::line::{is_word, next_place, text_at, words_of};
use crate::value::{moment_of, value_of};
use crate::values::Values;
use byte_edge::NoMemory;
use exact_fraction::frac::Frac;
use exact_fraction::moment::Moment;
use exact_fraction::relation::Relation;
use list_types::Items;
use rule_types::{Attr, Key, LinkState, ObjectNo, Rules, Space, State};
use std::alloc::Global;

/// The state from a line on, with the place of the line behind it; or the place of the first line at
/// fault.
#[tactic(auto, unfolding(crate::specs::StateLines::state_from))]
pub(crate) fn read_state(
    alloc: Global,
    body: Body<'_>,
    start: Moment,
    at: usize,
) -> Result<Result<(State, usize), usize>, NoMemory>
    requires start { start ≡ start_of body.rules.now }
    ensures { IfOk result (λ read. reading_now read ≡ state_from body.entry.lines.now
        body.entry.rules.now body.entry.objects.now body.entry.grid.now at) }
{
    match read_values(alloc, body, at)? {
        Ok(read) => state_with(alloc, body, start, &read.values, read.place),
        Err(fault) => Ok(Err(fault)),
    }
}

/// The state with these values.
fn state_with(
    alloc: Global,
    body: Body<'_>,
    start: Moment,
    values: &Values,
    at: usize,
) -> Result<Result<(State, usize), usize>, NoMemory>
    requires start { start ≡ start_of body.rules.now }
    ensures { IfOk result (λ read. reading_now read ≡ state_with body.entry.lines.now
        body.entry.rules.now body.entry.grid.now.has_moments values.now at) }
{
    if !body.grid.has_moments {
        let state = sample_at(alloc, body.rules, start, start, values)?;
        return Ok(Ok((state, at)));
    }
    match read_moment(alloc, body, at)? {
        Some(moment) => {
            let state = sample_at(alloc, body.rules, start, moment, values)?;
            Ok(Ok((state, next_place(at)?)))
        }
        None => Ok(Err(at)),
    }
}

/// How far the values of keys are read: those so far, the last setting among them, and the place of
/// the next line.
#[derive(Drop)]
pub(crate) struct Progress {
    pub(crate) values: Values,
    pub(crate) setting: Option<Frac>,
    pub(crate) place: usize,
}

/// The values of the grid's keys that the state has.
fn read_values(
    alloc: Global,
    body: Body<'_>,
    at: usize,
) -> Result<Result<Progress, usize>, NoMemory>
    ensures { IfOk result (λ read. values_go_on body.entry.lines.now body.entry.objects.now [] read
        ≡ values_from body.entry.lines.now body.entry.objects.now body.entry.grid.now.keys at None
        []) }
{
    let keys = body.grid.keys.list(alloc)?;
    let mut so_far = Progress {
        values: Values::new(alloc),
        setting: None,
        place: at,
    };
    for key in keys.as_slice() {
        match so_far.after_key(alloc, body, key)? {
            Ok(next) => so_far = next,
            Err(fault) => return Ok(Err(fault)),
        }
    }
    Ok(Ok(so_far))
}

impl Progress {
    /// The same after one key more.
    #[tactic(auto, unfolding(crate::specs::StateLines::values_from))]
    fn after_key(
        self,
        alloc: Global,
        body: Body<'_>,
        key: &Key,
    ) -> Result<Result<Progress, usize>, NoMemory>
        ensures { (later : List AnyKey) → IfOk result (λ read.
            values_go_on body.entry.lines.now body.entry.objects.now later read
            ≡ values_from body.entry.lines.now body.entry.objects.now (key.now ∷ later) self.place
            self.setting self.values) }
    {
        if !is_present(key, &self.setting) {
            return Ok(Ok(self));
        }
        match read_value_of(alloc, body, key, self.place)? {
            Some(number) => Ok(Ok(self.with_value(*key, number)?)),
            None => Ok(Err(self.place)),
        }
    }

    /// The same with the value of a key.
    fn with_value(self, key: Key, number: Frac) -> Result<Progress, NoMemory>
        ensures values { IfOk result (λ next. next.values
            ≡ insert_entry key_cmp self.values key number) }
        ensures setting { IfOk result (λ next. next.setting
            ≡ last_setting key number self.setting) }
        ensures place { IfOk result (λ next. next.place ≡ suc self.place) }
    {
        let Progress {
            values,
            setting,
            place,
        } = self;
        let setting = setting_after(&key, number, setting);
        let values = values.with(key, number)?;
        let place = next_place(place)?;
        Ok(Progress {
            values,
            setting,
            place,
        })
    }
}

/// The last setting, once a key has a value.
fn setting_after(key: &Key, number: Frac, setting: Option<Frac>) -> Option<Frac>
    ensures { result ≡ last_setting key.now number setting }
{
    match key {
        Key::Object(_, Attr::Setting) => Some(number),
        _ => setting,
    }
}

/// Whether a state of this setting has a key.
fn is_present(key: &Key, setting: &Option<Frac>) -> bool
    ensures { result ≡ has_key key.now setting.now }
{
    match key {
        Key::Object(_, Attr::TimeOpen) => is_open(setting),
        Key::Object(_, Attr::TimeClosed) => is_closed(setting),
        _ => true,
    }
}

/// Whether a setting is above 0.
fn is_open(setting: &Option<Frac>) -> bool
    ensures { result ≡ opens setting.now }
{
    match setting {
        Some(setting) => Frac::zero().is_less(setting),
        None => false,
    }
}

/// Whether a setting is 0.
fn is_closed(setting: &Option<Frac>) -> bool
    ensures { result ≡ closes setting.now }
{
    match setting {
        Some(setting) => Relation::Eq.holds(setting, &Frac::zero()),
        None => false,
    }
}

/// The value of a key that the line at a place writes.
fn read_value_of(
    alloc: Global,
    body: Body<'_>,
    key: &Key,
    at: usize,
) -> Result<Option<Frac>, NoMemory>
    ensures { IfOk result (λ value. value
        ≡ of_value body.entry.objects.now key.now (line_at body.entry.lines.now at)) }
{
    match text_at(body.lines, at) {
        Some(line) => match past_key(alloc, b"value", body.objects, key, line)? {
            Some(value) => Ok(value_of(value)),
            None => Ok(None),
        },
        None => Ok(None),
    }
}

/// The moment that the line at a place writes.
fn read_moment(alloc: Global, body: Body<'_>, at: usize) -> Result<Option<Moment>, NoMemory>
    ensures { IfOk result (λ moment. moment ≡ of_moment (line_at body.entry.lines.now at)) }
{
    match text_at(body.lines, at) {
        Some(line) => {
            let words = words_of(alloc, line)?;
            Ok(moment_by(words.as_slice()))
        }
        None => Ok(None),
    }
}

/// The moment of these words.
fn moment_by<'a>(words: &'a [&'a [u8]]) -> Option<Moment>
    ensures { result ≡ moment_by (texts words.now) }
{
    match words {
        [head, moment] => {
            if is_word(head, b"moment") {
                moment_of(moment)
            } else {
                None
            }
        }
        _ => None,
    }
}

/// The state at a moment with these values: what they do not give is as in a sample.
fn sample_at(
    alloc: Global,
    rules: &Rules,
    start: Moment,
    moment: Moment,
    values: &Values,
) -> Result<State, NoMemory>
    requires start { start ≡ start_of rules.now }
    ensures { IfOk result (λ state. state
        ≡ sample_with rules.now (Some (moment, moment)) values.now) }
{
    let inputs = inputs_of(alloc, rules.input_keys.as_slice(), values)?;
    let links = links_of(
        alloc,
        rules.tracked.as_slice(),
        rules.initial.as_slice(),
        values,
    )?;
    Ok(State {
        moment,
        start,
        step: rules.routing_step,
        inputs,
        links,
    })
}

/// The values of the input keys.
fn inputs_of(alloc: Global, keys: &[Key], values: &Values) -> Result<Items<Option<Frac>>, NoMemory>
    ensures { IfOk result (λ inputs. inputs
        ≡ map (λ key. number_of_key key values.now) keys.now) }
{
    let mut inputs = Items::new(alloc);
    for key in keys {
        let Ok(()) = inputs.push(values.of(key)) else {
            return Err(NoMemory);
        };
    }
    Ok(inputs)
}

/// The states of the tracked links.
#[tactic(auto, unfolding(verdict_meaning::specs::Grids::sample_links))]
fn links_of(
    alloc: Global,
    tracked: &[u32],
    settings: &[Frac],
    values: &Values,
) -> Result<Items<LinkState>, NoMemory>
    ensures { IfOk result (λ links. links ≡ sample_links values.now tracked.now settings.now) }
{
    let mut links = Items::new(alloc);
    let mut left = settings;
    for link in tracked {
        match left {
            [first, rest @ ..] => {
                let setting = values.of(&link_key(*link, Attr::Setting)).unwrap_or(*first);
                let Ok(()) = links.push(link_at(values, *link, setting)) else {
                    return Err(NoMemory);
                };
                left = rest;
            }
            [] => return Ok(links),
        }
    }
    Ok(links)
}

/// A link at a setting.
fn link_at(values: &Values, link: u32, setting: Frac) -> LinkState
    ensures { result ≡ link_of values.now link setting }
{
    let timer = values.of(&timer_key(setting, link)).unwrap_or(Frac::zero());
    LinkState {
        setting,
        target: setting,
        timer,
    }
}

/// The timer that a link of this setting has.
fn timer_key(setting: Frac, link: u32) -> Key
    ensures { result ≡ timer_of setting link }
{
    if Frac::zero().is_less(&setting) {
        link_key(link, Attr::TimeOpen)
    } else {
        link_key(link, Attr::TimeClosed)
    }
}

/// A key of a link.
fn link_key(link: u32, attribute: Attr) -> Key
    ensures { result ≡ Object (record { space = Links; index = link }) attribute }
{
    Key::Object(
        ObjectNo {
            space: Space::Links,
            index: link,
        },
        attribute,
    )
}
