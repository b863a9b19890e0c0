//! Readings of rules by tables, as a replay asks for them.
ghost use Rattle.std.specs.Prelude.{◌≡◌, IfOk};
ghost use Rattle.rule_types.specs.WellFormed.{WellFormed};
ghost use Rattle.rule_meaning.specs.Reading.{settling};
ghost use Rattle.table_compiler.specs.Meaning.{tabled};
ghost use Rattle.table_compiler.specs.Rows.{tables_of};
ghost use Rattle.table_run.specs.Sides.{ServesRules};

use crate::table_readings::TableReadings;
use byte_edge::NoMemory;
use curves_series::Tables;
use rule_types::{Order, PidMemory, Rules, State, Stop};
use std::alloc::Global;
use table_compiler::LinkTables;
use trace_replay::Reads;

/// What reads rules by the tables of their links: each link takes the pair of the first row of its
/// table that holds. All used names are worked out and all listed PID actions advance at each
/// reading, whatever the tables order. A link's table is looked at again only where one of its
/// columns has another piece or became missing or present, or where one of its parts is a condition
/// by its place.
#[derive(Drop)]
pub struct TableReads<'a> {
    rules: &'a Rules,
    tables: &'a Tables,
    readings: TableReadings,
    orders: Vec<Order>,
}

impl<'a> TableReads<'a> {
    /// A reading of these rules by `link_tables`, one for each controlled link in link order, whose
    /// columns stand on the left of conditions of the rules, with these tables of curves and
    /// series. By the tables that are compiled of the rules it takes the pairs that are settled
    /// (SWMM 5.2 manual, [CONTROLS], PRIORITY). `link_tables` may be let go after the call, which
    /// takes time by the number of the conditions of the rules and of the ends of the sets in the
    /// tables, times its logarithm. NoMemory where memory is wanting; a reading takes none.
    pub fn new(
        alloc: Global,
        rules: &'a Rules,
        tables: &'a Tables,
        link_tables: &LinkTables,
    ) -> Result<TableReads<'a>, NoMemory>
        requires well_formed { WellFormed rules.now }
        requires serves { ServesRules rules.now link_tables.now.tables }
        ensures ready { IfOk result ⟦<TableReads<'a> as Reads>⟧.is_ready }
        ensures made_for { IfOk result
            (λ reads. ⟦<TableReads<'a> as Reads>⟧.made_for reads ≡ rules.now) }
        ensures held { IfOk result (λ reads. ⟦<TableReads<'a> as Reads>⟧.held reads ≡ tables.now) }
        ensures choice { IfOk result (λ reads. ⟦<TableReads<'a> as Reads>⟧.choice reads
            ≡ tabled rules.now link_tables.now.tables) }
        ensures settling { link_tables.now.tables ≡ tables_of rules.now → IfOk result
            (λ reads. ⟦<TableReads<'a> as Reads>⟧.choice reads ≡ settling rules.now) }
    {
        let readings = TableReadings::new(alloc, rules, link_tables)?;
        let orders = Vec::with_capacity(alloc, rules.controlled.len())?;
        Ok(TableReads {
            rules,
            tables,
            readings,
            orders,
        })
    }

    /// How many rows of tables were looked at in all readings, in order up to the first that holds.
    /// It stays at the greatest u64. No clause ties it.
    pub fn rows_tried(&self) -> u64 {
        self.readings.rows_tried()
    }
}

impl Reads for TableReads<'_> {
    ghost use Rattle.std.specs.Vec.{vec_capacity};
    ghost use Rattle.table_run.specs.Kits.{HasTableRoom};
    ghost use Rattle.table_run.specs.Planned.{planned};

    ghost made_for = { λ reads. reads.rules.now };

    ghost held = { λ reads. reads.tables.now };

    ghost choice = { λ reads. planned reads.rules.now reads.readings.planned.plan };

    ghost last_orders = { λ reads. reads.orders.items };

    ghost is_ready = { λ reads. HasTableRoom reads.rules.now reads.readings
        (vec_capacity reads.orders) };

    fn read(
        &mut self,
        rules: &Rules,
        state: &State,
        memories: &mut [PidMemory],
    ) -> Result<(), Stop> {
        self.readings
            .read(rules, self.tables, state, memories, &mut self.orders)
    }

    fn orders(&self) -> &[Order] {
        &self.orders
    }
}
