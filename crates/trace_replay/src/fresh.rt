//! A replay that has seen no row.
ghost use Rattle.std.specs.Prelude.{◌≡◌, ◌++◌, IfOk, OnOk, Some, Contains, length, replicate};
ghost use Rattle.std.specs.Prelude.{slice_get};
ghost use Rattle.rule_types.specs.Reading.{pid_count};
ghost use Rattle.rule_types.specs.WellFormed.{WellFormed};
ghost use Rattle.rule_meaning.specs.History.{stayed};
ghost use Rattle.rule_meaning.specs.Pid.{fresh};
ghost use Rattle.rule_meaning.specs.Replay.{first_standings};
ghost use Rattle.replay_meaning.specs.Kept.{first_kept};
ghost use Rattle.trace_replay.specs.Progress.{kept_of, IsProgressOf, ArePlaces};
ghost use Rattle.trace_replay.specs.internal.Rows.{pids_among, is_pid_kind};

use crate::hours::KnownHours;
use crate::progress::Progress;
use crate::settings::copy_settings;
use byte_edge::NoMemory;
use exact_fraction::frac::Frac;
use rule_types::{Action, LinkState, PidMemory, Rule, Rules, What};
use std::alloc::Global;

/// The progress of a replay of these rules that has seen no row.
pub(crate) fn first_progress(alloc: Global, rules: &Rules) -> Result<Progress, NoMemory>
    requires well_formed { WellFormed rules.now }
    ensures kept { IfOk result (λ progress. kept_of progress ≡ first_kept rules.now) }
    ensures fits { IfOk result (IsProgressOf rules.now) }
{
    let known = KnownHours::new(alloc)?;
    let links = first_links(alloc, rules.initial.as_slice())?;
    let switches = vec![in alloc; None; rules.tracked.len()]?;
    let memories = fresh_memories(alloc, rules.rules.as_slice())?;
    let inputs = vec![in alloc; None; rules.input_keys.len()]?;
    let places = controlled_places(alloc, rules)?;
    let mut settings = vec![in alloc; Frac::zero(); places.len()]?;
    copy_settings(&places, &links, &mut settings);
    Ok(Progress {
        alloc,
        links,
        switches,
        memories,
        inputs,
        places,
        settings,
        known,
        start: rules.start,
        last: None,
        due: None,
        stop: None,
    })
}

/// Links at their initial settings.
#[tactic(auto, unfolding(rule_meaning::specs::Replay::first_standings))]
fn first_links(alloc: Global, initial: &[Frac]) -> Result<Vec<LinkState>, NoMemory>
    ensures standings { IfOk result (λ links. stayed links.items ≡ first_standings initial.now) }
    ensures each { IfOk result (λ links. length links.items ≡ length initial.now) }
{
    let mut links = Vec::with_capacity(alloc, initial.len())?;
    for setting in initial {
        links.push(LinkState {
            setting: *setting,
            target: *setting,
            timer: Frac::zero(),
        })?;
    }
    Ok(links)
}

/// A fresh memory for each PID action of rules, or NoMemory where memory is wanting.
pub fn fresh_memories(alloc: Global, rules: &[Rule]) -> Result<Vec<PidMemory>, NoMemory>
    ensures fresh { IfOk result
        (λ memories. memories.items ≡ replicate (pid_count rules.now) fresh) }
{
    let mut memories = Vec::new(alloc);
    for rule in rules {
        add_fresh(&mut memories, rule.then_actions.as_slice())?;
        add_fresh(&mut memories, rule.else_actions.as_slice())?;
    }
    Ok(memories)
}

/// Adds a fresh memory for each PID action among some.
fn add_fresh(memories: &mut Vec<PidMemory>, actions: &[Action]) -> Result<(), NoMemory>
    ensures { OnOk result (memories.new.items
        ≡ memories.old.items ++ replicate (pids_among actions.now) fresh) }
{
    for action in actions {
        if is_pid(&action.what) {
            memories.push(PidMemory {
                e1: Frac::zero(),
                e2: Frac::zero(),
            })?;
        }
    }
    Ok(())
}

/// Whether an action is a PID action.
fn is_pid(what: &What) -> bool
    ensures { result ≡ is_pid_kind what.now }
{
    matches!(what, What::Pid(_, _))
}

/// The places of the controlled links among the tracked ones.
fn controlled_places(alloc: Global, rules: &Rules) -> Result<Vec<usize>, NoMemory>
    requires well_formed { WellFormed rules.now }
    ensures places { IfOk result (λ places. ArePlaces rules.now places.items) }
{
    let mut places = Vec::with_capacity(alloc, rules.controlled.len())?;
    for link in rules.controlled.as_slice() {
        let place = place_among(rules.tracked.as_slice(), *link);
        places.push(place)?;
    }
    Ok(places)
}

/// The place of a link that is among links, found by halving where they rise.
fn place_among(links: &[u32], link: u32) -> usize
    requires among { Contains links.now link }
    ensures place { slice_get links.now result ≡ Some link }
{
    if let Ok(at) = links.binary_search(&link) {
        if links[at] == link {
            return at;
        }
    }
    first_place(links, link)
}

/// The place of a link that is among links, found one by one.
fn first_place(links: &[u32], link: u32) -> usize
    requires among { Contains links.now link }
    ensures place { slice_get links.now result ≡ Some link }
{
    match links.iter().position(|other| link == *other) {
        Some(at) => at,
        None => 0,
    }
}
