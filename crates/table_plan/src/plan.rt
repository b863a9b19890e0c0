//! Plans of tables.
ghost use Rattle.std.specs.Prelude.{◌≡◌, ℕ, Bool, Option, List, length, IsTrue, IfOk};
ghost use Rattle.std.specs.List.{flat_map};
ghost use Rattle.rule_types.specs.declared.action.ActionAt.{ActionAt};
ghost use Rattle.table_compiler.specs.declared.table.LinkTable.{LinkTable};
ghost use Rattle.table_plan.specs.Columns.{AreColumnsOf};
ghost use Rattle.table_plan.specs.Ends.{table_ends};
ghost use Rattle.table_plan.specs.Plan.{pieces_of, first_by, keeps_order, IsPlanOf};
ghost use Rattle.table_plan.specs.Told.{Told, ordered_told, rows_at};

use crate::column_drafts::drafts_of;
use crate::column_ends::ends_of;
use crate::column_places::ColumnPlaces;
use crate::plan_column::PlanColumn;
use crate::plan_rows::PlanTable;
use crate::rising_cuts::columns_of;
use crate::row_walk::{first_row_of, keeps_table};
use crate::table_plans::plan_tables;
use crate::truths::Truths;
use byte_edge::NoMemory;
use list_types::Items;
use rule_types::ActionAt;
use std::alloc::Global;
use std::marker::Model;
use table_compiler::LinkTables;

/// Tables made ready to be read many times: each column once, with its cuts, and rows whose parts
/// are ranges of pieces. Reading them takes no memory and no look-up by key.
#[derive(Drop)]
pub struct TablePlan {
    columns: Items<PlanColumn>,
    tables: Items<PlanTable>,
}

impl Model for TablePlan {
    ghost use Rattle.std.specs.Prelude.{All};
    ghost use Rattle.table_plan.specs.PlanRows.{KnowsReads};
    ghost use Rattle.table_plan.specs.Plan.{Plan};
    ghost use Rattle.table_plan.specs.internal.FlatRows.{KnowsFlat};

    ghost Value = { Plan };

    ghost view = { λ p. record { columns = p.columns; tables = p.tables } };

    ghost invariant = { λ p. All KnowsReads p.tables × All KnowsFlat p.tables };
}

impl TablePlan {
    /// The plan of tables: its columns are those of the tables' parts, each once, and the cuts of
    /// each column are the finite ends of all sets that the tables have for it. NoMemory is the one
    /// error. It takes time by the number of ends times its logarithm.
    pub fn new(alloc: Global, tables: &LinkTables) -> Result<TablePlan, NoMemory>
        ensures plan { IfOk result (λ plan. IsPlanOf plan tables.now.tables) }
        ensures columns { IfOk result (λ plan. AreColumnsOf plan.columns
            (flat_map table_ends tables.now.tables)) }
    {
        let tables = tables.tables.as_slice();
        let ends = ends_of(alloc, tables)?;
        let mut places = ColumnPlaces::new(alloc);
        let drafts = drafts_of(alloc, &mut places, ends.as_slice())?;
        let columns = columns_of(alloc, drafts)?;
        let plans = plan_tables(alloc, &places, columns.as_slice(), tables)?;
        Ok(TablePlan {
            columns: Items::from_vec(columns),
            tables: Items::from_vec(plans),
        })
    }

    /// The columns, each once: what they read, and their cuts.
    pub fn columns(&self) -> &[PlanColumn]
        ensures value { result.now ≡ self.now.columns }
    {
        self.columns.as_slice()
    }

    /// The number of tables.
    pub fn count(&self) -> usize
        ensures value { result ≡ length self.now.tables }
    {
        self.tables.len()
    }

    /// What the table at a place, from 0, orders by the pieces of the columns, in their order: the
    /// action of the first row that holds, or nothing. A place past the last table has no rows. It
    /// takes no memory. `rows_tried` counts the rows that are looked at, up to the greatest u64; no
    /// clause ties it.
    pub fn first_row<T: Truths>(
        &self,
        table: usize,
        pieces: &[Option<usize>],
        truths: &T,
        rows_tried: &mut u64,
    ) -> Option<ActionAt>
        ensures first { result ≡ first_by self.now table pieces.now (T.truth truths.now) }
        ensures orders { (tables : List LinkTable) (told : Told) → IsPlanOf self.now tables
            → pieces.now ≡ pieces_of self.now.columns told.value → T.truth truths.now ≡ told.truth
            → result ≡ ordered_told told (rows_at tables table) }
    {
        let table = self.tables.get(table)?;
        first_row_of(table, pieces, truths, rows_tried)
    }

    /// Whether the table at a place, from 0, surely orders by the new pieces what it ordered by the
    /// old ones, whichever conditions hold: none of its columns has another piece, and no part of
    /// it is a condition by its place. It takes no memory, and time by the number of its columns.
    pub fn keeps_order(&self, table: usize, old: &[Option<usize>], new: &[Option<usize>]) -> bool
        ensures value { result ≡ keeps_order self.now table old.now new.now }
        ensures same { IsTrue result → (truth other : ActionAt → ℕ → Bool)
            → first_by self.now table new.now truth ≡ first_by self.now table old.now other }
    {
        let Some(table) = self.tables.get(table) else {
            return true;
        };
        keeps_table(table, old, new)
    }
}
