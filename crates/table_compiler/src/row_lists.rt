//! Tables while their rows are entered.
ghost use Rattle.std.specs.Prelude.{◌≡◌, ◌==◌, ◌++◌, ◌∷◌, [], ℕ, if◌then◌else◌, List, length, OnOk};
ghost use Rattle.std.specs.List.Sorted.{IsStrictlyIncreasing};
ghost use Rattle.table_compiler.specs.declared.table.TableRow.{TableRow};
ghost use Rattle.table_compiler.specs.Rows.{is_always as always_holds};
ghost use Rattle.table_compiler.specs.internal.Filling.{tables_with, with_row};
ghost use Rattle.table_compiler.specs.internal.Filling.{ends_always as last_always_holds};

use crate::table::{LinkTable, TableRow};
use byte_edge::NoMemory;

/// Enters a row in the table of a link, if the link has one.
pub(crate) fn enter_row(
    links: &[u32],
    tables: &mut [LinkTable],
    link: u32,
    row: TableRow,
) -> Result<(), NoMemory>
    requires rising { IsStrictlyIncreasing links.now }
    requires each { length tables.old ≡ length links.now }
    ensures rows { OnOk result ((rows : ℕ → List TableRow)
        → tables.old ≡ tables_with links.now rows
        → tables.new ≡ tables_with links.now
        (λ other. rows other ++ (if link == other then row ∷ [] else []))) }
    ensures each { length tables.new ≡ length tables.old }
{
    let Ok(at) = links.binary_search(&link) else {
        return Ok(());
    };
    add_row(&mut tables[at], row)?;
    Ok(())
}

/// Adds a row at the end of a table, unless the last row there always holds.
fn add_row(table: &mut LinkTable, row: TableRow) -> Result<(), NoMemory>
    ensures { OnOk result (table.new
        ≡ record { link = table.old.link; rows = with_row table.old.rows row }) }
{
    if ends_always(table.rows.as_slice()) {
        return Ok(());
    }
    table.rows.push(row)?;
    Ok(())
}

/// Whether the last row always holds.
fn ends_always(rows: &[TableRow]) -> bool
    ensures { result ≡ last_always_holds rows.now }
{
    match rows.last() {
        Some(row) => is_always(row),
        None => false,
    }
}

/// Whether a row always holds: it is a `when` row without clauses.
pub(crate) fn is_always(row: &TableRow) -> bool
    ensures { result ≡ always_holds row.now }
{
    !row.negated && row.clauses.as_slice().is_empty()
}
