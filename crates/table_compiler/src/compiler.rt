//! The tables of rules.
ghost use Rattle.std.specs.Prelude.{◌≡◌, [], ℕ, List, length, IfOk, OnOk};
ghost use Rattle.std.specs.List.{flat_map};
ghost use Rattle.rule_types.specs.WellFormed.{WellFormed};
ghost use Rattle.table_compiler.specs.Rows.{tables_of, rule_rows};
ghost use Rattle.table_compiler.specs.internal.Filling.{tables_with, rows_of_places};

use crate::link_tables::LinkTables;
use crate::ranks::ranked;
use crate::rule_rows::enter_rule_at;
use crate::table::LinkTable;
use byte_edge::NoMemory;
use list_types::Items;
use rule_types::Rules;
use std::alloc::Global;

/// The tables of rules: for each controlled link, in link order, its rows by falling rank, then by
/// rule, THEN before ELSE, each for the first action of its branch on the link. A row's clauses are
/// the groups of the premise, with conditions on one column united into one set and clauses of one
/// part on one column met; a condition against a key, or within half a step, stands by its number.
/// At every state the first row that holds orders the action that is settled for the link (SWMM 5.2
/// manual, [CONTROLS]; the laws say so). NoMemory is the one error. It takes time by the size of
/// the tables, by the conditions of each rule times the parts of its clauses, and by the number of
/// rules times its logarithm.
pub fn compile(alloc: Global, rules: &Rules) -> Result<LinkTables, NoMemory>
    requires well_formed { WellFormed rules.now }
    ensures tables { IfOk result (λ made. made.tables ≡ tables_of rules.now) }
{
    let places = ranked(alloc, rules.rules.as_slice())?;
    let mut tables = empty_tables(alloc, rules.controlled.as_slice())?;
    fill(alloc, rules, places.as_slice(), &mut tables)?;
    Ok(LinkTables {
        tables: Items::from_vec(tables),
    })
}

/// The tables of links without rows.
fn empty_tables(alloc: Global, links: &[u32]) -> Result<Vec<LinkTable>, NoMemory>
    ensures { IfOk result (λ tables. tables.items ≡ tables_with links.now (λ link. [])) }
{
    let mut tables = Vec::new(alloc);
    for link in links {
        tables.push(LinkTable {
            link: *link,
            rows: Items::new(alloc),
        })?;
    }
    Ok(tables)
}

/// Enters the rows of the rules at places in empty tables.
fn fill(
    alloc: Global,
    rules: &Rules,
    places: &[u32],
    tables: &mut [LinkTable],
) -> Result<(), NoMemory>
    requires well_formed { WellFormed rules.now }
    requires empty { tables.old ≡ tables_with rules.now.controlled (λ link. []) }
    ensures rows { OnOk result (tables.new
        ≡ tables_with rules.now.controlled (rows_of_places rules.now.rules places.now)) }
    ensures each { length tables.new ≡ length tables.old }
{
    for place in places {
        enter_rule_at(alloc, rules, tables, *place)?;
    }
    Ok(())
}
