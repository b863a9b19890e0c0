//! The tables of the controlled links.
ghost use Rattle.std.specs.Prelude.{◌≡◌, IfOk};
ghost use Rattle.table_compiler.specs.TableText.{table_text};

use crate::table::LinkTable;
use crate::texts::write_tables;
use byte_edge::NoMemory;
use list_types::Items;
use object_index::ObjectIndex;
use rule_types::Rules;
use std::alloc::{AllocError, Global};

/// The tables of the controlled links, in link order.
#[derive(Debug, Drop)]
pub struct LinkTables {
    pub tables: Items<LinkTable>,
}

/// A copy takes memory, and equals its tables.
impl Clone for LinkTables {
    ghost is_clone = { λ tables copy. copy ≡ tables };

    fn clone(&self) -> Result<LinkTables, AllocError> {
        let tables = self.tables.clone()?;
        Ok(LinkTables { tables })
    }
}

impl LinkTables {
    /// The tables as text, where `rules` are those that they were made of and `objects` are the
    /// network's: a line `tables 1`, for each link a line `link NAME` with its rows, and a line
    /// `end`. A row is a line `row RULE BRANCH ACTION when` or `unless`, rules and actions counted
    /// from 1, and a line `clause` for each clause, its parts joined by ` | `: a column with its
    /// set, or `cond K`, the rule's condition K from 1. NoMemory is the one error. It takes time by
    /// the length of the text, where names are short.
    #[tactic(auto, unfolding(crate::specs::TableText::table_text))]
    pub fn text(
        &self,
        alloc: Global,
        rules: &Rules,
        objects: &ObjectIndex,
    ) -> Result<Vec<u8>, NoMemory>
        ensures text { IfOk result (λ text.
            text.items ≡ table_text rules.now objects.now self.now.tables) }
    {
        let mut out = Vec::new(alloc);
        out.extend_from_slice(b"tables 1\n")?;
        write_tables(&mut out, rules, objects, self.tables.as_slice())?;
        out.extend_from_slice(b"end\n")?;
        Ok(out)
    }
}
