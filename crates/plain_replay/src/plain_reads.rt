//! A reading of all rules, with its tables and with room for its orders.
ghost use Rattle.std.specs.Prelude.{◌≡◌, IfOk};
ghost use Rattle.rule_types.specs.Reading.{pid_count};
ghost use Rattle.rule_types.specs.WellFormed.{WellFormed};
ghost use Rattle.rule_meaning.specs.Reading.{settling};

use byte_edge::NoMemory;
use curves_series::Tables;
use plain_reading::Readings;
use rule_types::{Order, PidMemory, Rules, State, Stop};
use std::alloc::Global;
use trace_replay::{Reads, fresh_memories};

/// What reads all rules in their order at each state, and settles the listed pairs link by link
/// (SWMM 5.2 manual, [CONTROLS], PRIORITY).
#[derive(Drop)]
pub struct PlainReads<'a> {
    rules: &'a Rules,
    tables: &'a Tables,
    readings: Readings,
    orders: Vec<Order>,
}

impl<'a> PlainReads<'a> {
    /// A reading of these rules with these tables. NoMemory where memory is wanting; a reading
    /// takes none.
    pub fn new(
        alloc: Global,
        rules: &'a Rules,
        tables: &'a Tables,
    ) -> Result<PlainReads<'a>, NoMemory>
        requires well_formed { WellFormed rules.now }
        ensures ready { IfOk result ⟦<PlainReads<'a> as Reads>⟧.is_ready }
        ensures made_for { IfOk result
            (λ reads. ⟦<PlainReads<'a> as Reads>⟧.made_for reads ≡ rules.now) }
        ensures held { IfOk result (λ reads. ⟦<PlainReads<'a> as Reads>⟧.held reads ≡ tables.now) }
        ensures choice { IfOk result
            (λ reads. ⟦<PlainReads<'a> as Reads>⟧.choice reads ≡ settling rules.now) }
    {
        let count = count_pids(alloc, rules)?;
        let readings = Readings::new(alloc, rules, count)?;
        let orders = Vec::with_capacity(alloc, rules.controlled.len())?;
        Ok(PlainReads {
            rules,
            tables,
            readings,
            orders,
        })
    }
}

impl Reads for PlainReads<'_> {
    ghost use Rattle.std.specs.Vec.{vec_capacity};
    ghost use Rattle.rule_meaning.specs.Reading.{settling};
    ghost use Rattle.plain_replay.specs.Room.{HasRoom};

    ghost made_for = { λ reads. reads.rules.now };

    ghost held = { λ reads. reads.tables.now };

    ghost choice = { λ reads. settling reads.rules.now };

    ghost last_orders = { λ reads. reads.orders.items };

    ghost is_ready = { λ reads. HasRoom reads.rules.now reads.readings
        (vec_capacity reads.orders) };

    fn read(
        &mut self,
        rules: &Rules,
        state: &State,
        memories: &mut [PidMemory],
    ) -> Result<(), Stop> {
        self.readings
            .read(rules, self.tables, state, memories, &mut self.orders)
    }

    fn orders(&self) -> &[Order] {
        &self.orders
    }
}

/// How many PID actions rules have.
fn count_pids(alloc: Global, rules: &Rules) -> Result<usize, NoMemory>
    ensures { IfOk result (λ count. count ≡ pid_count rules.now.rules) }
{
    let memories = fresh_memories(alloc, rules.rules.as_slice())?;
    Ok(memories.len())
}
