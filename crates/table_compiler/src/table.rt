//! The table of a link.
ghost use Rattle.std.specs.Prelude.{◌≡◌};

use crate::part::Part;
use list_types::Items;
use rule_types::ActionAt;
use std::alloc::AllocError;

/// A clause of a row: it holds where some part holds.
#[derive(Debug, Drop)]
pub struct Clause {
    pub parts: Items<Part>,
}

/// A row of a table: where it holds, and no row before it does, its action is ordered.
#[derive(Debug, Drop)]
pub struct TableRow {
    /// The action that is ordered.
    pub action: ActionAt,
    /// The row holds where some clause does not hold; else where all clauses hold.
    pub negated: bool,
    pub clauses: Items<Clause>,
}

/// The table of a link.
#[derive(Debug, Drop)]
pub struct LinkTable {
    /// The link, by its place in link order.
    pub link: u32,
    pub rows: Items<TableRow>,
}

/// A copy takes memory, and equals its clause.
impl Clone for Clause {
    ghost is_clone = { λ clause copy. copy ≡ clause };

    fn clone(&self) -> Result<Clause, AllocError> {
        let parts = self.parts.clone()?;
        Ok(Clause { parts })
    }
}

/// A copy takes memory, and equals its row.
impl Clone for TableRow {
    ghost is_clone = { λ row copy. copy ≡ row };

    fn clone(&self) -> Result<TableRow, AllocError> {
        let clauses = self.clauses.clone()?;
        Ok(TableRow {
            action: self.action,
            negated: self.negated,
            clauses,
        })
    }
}

/// A copy takes memory, and equals its table.
impl Clone for LinkTable {
    ghost is_clone = { λ table copy. copy ≡ table };

    fn clone(&self) -> Result<LinkTable, AllocError> {
        let rows = self.rows.clone()?;
        Ok(LinkTable {
            link: self.link,
            rows,
        })
    }
}
