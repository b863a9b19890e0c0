//! One row of a replay.
ghost use Rattle.std.specs.Prelude.{◌≡◌, None, false, OnOk, length, map};
ghost use Rattle.std.specs.List.Sorted.{IsStrictlyIncreasing};
ghost use Rattle.exact_fraction.specs.Number.{zero};
ghost use Rattle.exact_fraction.specs.Order.{◌≤ℚ◌};
ghost use Rattle.rule_types.specs.declared.state.State.{State as AnyState};
ghost use Rattle.rule_types.specs.Fitting.{FitsRules, MemoriesFit};
ghost use Rattle.rule_types.specs.Tables.{HoldsTables};
ghost use Rattle.rule_types.specs.WellFormed.{WellFormed};
ghost use Rattle.rule_meaning.specs.History.{stayed, standings_after};
ghost use Rattle.rule_meaning.specs.Memories.{memory_of};
ghost use Rattle.rule_meaning.specs.Reading.{read_by};
ghost use Rattle.rule_meaning.specs.Replay.{switches_after};
ghost use Rattle.replay_meaning.specs.Kept.{after_row};
ghost use Rattle.replay_meaning.specs.Standing.{CanFollow};
ghost use Rattle.trace_replay.specs.Answers.{row_at};
ghost use Rattle.trace_replay.specs.Progress.{kept_of, IsProgressOf};
ghost use Rattle.trace_replay.specs.Readings.{given};
ghost use Rattle.trace_replay.specs.internal.Moving.{CanMove};
ghost use Rattle.trace_replay.specs.internal.Rows.{orders_when, reading_when, memories_when};
ghost use Rattle.trace_replay.specs.internal.Rows.{state_at};

use crate::follow::follow;
use crate::progress::Progress;
use crate::reads::Reads;
use crate::settings::copy_changed;
use crate::timers::set_timers;
use crate::times::{gap_at, is_due, last_due, start_at, step_at};
use exact_fraction::frac::Frac;
use exact_fraction::moment::Moment;
use list_types::Items;
use rule_types::{LinkState, Order, PidMemory, Rules, State, Stop};
use std::alloc::Global;
use std::mem;

/// Takes one more row, where no row stopped before.
pub(crate) fn take_row<R: Reads>(
    rules: &Rules,
    readings: &mut R,
    progress: &mut Progress,
    moment: Moment,
    inputs: &[Option<Frac>],
)
    requires ready { R.is_ready readings.old }
    requires made_for { R.made_for readings.old ≡ rules.now }
    requires going { progress.old.stop ≡ None }
    requires fits { IsProgressOf rules.now progress.old }
    requires follows { CanFollow (R.choice readings.old) rules.now (R.held readings.old)
        (kept_of progress.old) (row_at moment inputs.now) }

    ensures kept { kept_of progress.new
        ≡ after_row (R.choice readings.old) rules.now (R.held readings.old)
        (kept_of progress.old) (row_at moment inputs.now) }
    ensures fits { IsProgressOf rules.now progress.new }
    ensures ready { R.is_ready readings.new }
    ensures same_rules { R.made_for readings.new ≡ R.made_for readings.old }
    ensures same_tables { R.held readings.new ≡ R.held readings.old }
    ensures same_choice { R.choice readings.new ≡ R.choice readings.old }
{
    let alloc = progress.alloc;
    let start = start_at(progress.start, moment);
    let step = step_at(&rules.routing_step, progress.due, moment);
    let due = is_due(&rules.rule_step, progress.due, moment);
    let gap = gap_at(
        &mut progress.known,
        &rules.routing_step,
        progress.last,
        moment,
    );
    progress.inputs.copy_from_slice(inputs);
    set_timers(
        &mut progress.links,
        &progress.switches,
        &mut progress.known,
        start,
        moment,
    );
    let read = read_row(
        alloc,
        rules,
        readings,
        due,
        moment,
        start,
        step,
        &mut progress.inputs,
        &mut progress.links,
        &mut progress.memories,
    );
    let changed = stand(
        rules,
        readings,
        due,
        &read,
        &gap,
        &mut progress.links,
        &mut progress.switches,
        moment,
    );
    copy_changed(
        changed,
        &progress.places,
        &progress.links,
        &mut progress.settings,
    );
    progress.start = Some(start);
    progress.last = Some(moment);
    progress.due = last_due(due, moment, progress.due);
    progress.stop = read.err();
}

/// Reads the rules at the state of a row, if the row is due. The lists are lent to the state and
/// given back.
fn read_row<R: Reads>(
    alloc: Global,
    rules: &Rules,
    readings: &mut R,
    due: bool,
    moment: Moment,
    start: Moment,
    step: Frac,
    inputs: &mut Vec<Option<Frac>>,
    links: &mut Vec<LinkState>,
    memories: &mut [PidMemory],
) -> Result<(), Stop>
    requires ready { R.is_ready readings.old }
    requires well_formed { WellFormed rules.now }
    requires made_for { R.made_for readings.old ≡ rules.now }
    requires tables { HoldsTables (R.held readings.old) rules.now.rules }
    requires fits { FitsRules rules.now
        (state_at moment start step inputs.old.items links.old.items) }
    requires memories { MemoriesFit rules.now.rules memories.old }

    ensures inputs { inputs.new.items ≡ inputs.old.items }
    ensures links { links.new.items ≡ links.old.items }
    ensures reading { given result (orders_when due (R.last_orders readings.new))
        ≡ reading_when due (read_by (R.choice readings.old) rules.now (R.held readings.old)
        (state_at moment start step inputs.old.items links.old.items) (memory_of memories.old)) }
    ensures memories { memories.new
        ≡ memories_when due rules.now
        (state_at moment start step inputs.old.items links.old.items) memories.old
        (given result (orders_when due (R.last_orders readings.new))) }
    ensures ready { R.is_ready readings.new }
    ensures same_rules { R.made_for readings.new ≡ R.made_for readings.old }
    ensures same_tables { R.held readings.new ≡ R.held readings.old }
    ensures same_choice { R.choice readings.new ≡ R.choice readings.old }
{
    let state = State {
        moment,
        start,
        step,
        inputs: Items::from_vec(mem::replace(inputs, Vec::new(alloc))),
        links: Items::from_vec(mem::replace(links, Vec::new(alloc))),
    };
    let read = read_due(rules, readings, due, &state, memories);
    let State {
        moment: _,
        start: _,
        step: _,
        inputs: lent_inputs,
        links: lent_links,
    } = state;
    *inputs = lent_inputs.into_vec();
    *links = lent_links.into_vec();
    read
}

/// Reads the rules at a state, if its row is due.
fn read_due<R: Reads>(
    rules: &Rules,
    readings: &mut R,
    due: bool,
    state: &State,
    memories: &mut [PidMemory],
) -> Result<(), Stop>
    requires ready { R.is_ready readings.old }
    requires well_formed { WellFormed rules.now }
    requires made_for { R.made_for readings.old ≡ rules.now }
    requires tables { HoldsTables (R.held readings.old) rules.now.rules }
    requires fits { FitsRules rules.now state.now }
    requires memories { MemoriesFit rules.now.rules memories.old }

    ensures reading { given result (orders_when due (R.last_orders readings.new))
        ≡ reading_when due (read_by (R.choice readings.old) rules.now (R.held readings.old)
        state.now (memory_of memories.old)) }
    ensures memories { memories.new
        ≡ memories_when due rules.now state.now memories.old
        (given result (orders_when due (R.last_orders readings.new))) }
    ensures ready { R.is_ready readings.new }
    ensures same_rules { R.made_for readings.new ≡ R.made_for readings.old }
    ensures same_tables { R.held readings.new ≡ R.held readings.old }
    ensures same_choice { R.choice readings.new ≡ R.choice readings.old }
{
    if due {
        return readings.read(rules, state, memories);
    }
    Ok(())
}

/// The orders of the row that was read last: none where it is not due.
fn orders_of<R: Reads>(readings: &R, due: bool) -> &[Order]
    ensures { result.now ≡ orders_when due (R.last_orders readings.now) }
{
    if due {
        return readings.orders();
    }
    &[]
}

/// Moves the links by the orders of the reading of a row, and notes the row's moment as that of the
/// last switch of each link that it switches. False only where all links stay as they were, as after
/// a stop.
fn stand<R: Reads>(
    rules: &Rules,
    readings: &R,
    due: bool,
    read: &Result<(), Stop>,
    gap: &Frac,
    links: &mut [LinkState],
    switches: &mut [Option<Moment>],
    moment: Moment,
) -> bool
    requires well_formed { WellFormed rules.now }
    requires each_link { length links.old ≡ length rules.now.tracked }
    requires each_switch { length switches.old ≡ length rules.now.tracked }
    requires gap { zero ≤ℚ gap.now }
    requires in_order { OnOk read.now (IsStrictlyIncreasing
        (map (λ order. order.link) (orders_when due (R.last_orders readings.now)))) }
    requires can_move { OnOk read.now (CanMove (orders_when due (R.last_orders readings.now))
        rules.now.tracked rules.now.rates links.old) }
    ensures links { (state : AnyState) → state.links ≡ links.old
        → stayed links.new ≡ standings_after rules.now gap.now state
        (given read.now (orders_when due (R.last_orders readings.now))) }
    ensures switches { (state : AnyState) → state.links ≡ links.old
        → switches.new ≡ switches_after moment links.old (standings_after rules.now gap.now state
        (given read.now (orders_when due (R.last_orders readings.now)))) switches.old }
    ensures unchanged { result ≡ false → links.new ≡ links.old }
{
    match read {
        Ok(()) => follow(
            gap,
            orders_of(readings, due),
            rules.tracked.as_slice(),
            rules.rates.as_slice(),
            links,
            switches,
            moment,
        ),
        Err(_) => false,
    }
}
