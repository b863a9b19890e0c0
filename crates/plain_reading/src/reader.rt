//! The reading of one state, with memory taken for it.
ghost use Rattle.std.specs.Prelude.{◌≡◌, Result};
ghost use Rattle.rule_types.specs.Fitting.{FitsRules, MemoriesFit};
ghost use Rattle.rule_types.specs.Tables.{HoldsTables};
ghost use Rattle.rule_types.specs.WellFormed.{WellFormed};
ghost use Rattle.rule_meaning.specs.Memories.{memory_of};
ghost use Rattle.rule_meaning.specs.Reading.{read};
ghost use Rattle.plain_reading.specs.Answers.{Answers, Leaves, with_items};

use crate::readings::Readings;
use curves_series::Tables;
use rule_types::{Order, PidMemory, ReadingEnd, Rules, State};
use std::alloc::Global;

/// The orders of the reading of one state, where the PID actions have these memories, or its stop:
/// the first overflow or zero divisor among the used names in the order of the file, the listed PID
/// actions in the order of rules and of actions, and the settled pairs in the order of links. The
/// memories move on only where there are orders. NoMemory where memory is wanting.
pub fn read_rules(
    alloc: Global,
    rules: &Rules,
    tables: &Tables,
    state: &State,
    memory: &mut [PidMemory],
) -> Result<Vec<Order>, ReadingEnd>
    requires well_formed { WellFormed rules.now }
    requires tables { HoldsTables tables.now rules.now.rules }
    requires fits { FitsRules rules.now state.now }
    requires memories { MemoriesFit rules.now.rules memory.old }
    ensures answer { Answers (with_items result)
        (read rules.now tables.now state.now (memory_of memory.old)) }
    ensures memories { Leaves (with_items result) rules.now state.now
        (read rules.now tables.now state.now (memory_of memory.old)) memory.old memory.new }
{
    let Ok(mut readings) = Readings::new(alloc, rules, memory.len()) else {
        return Err(ReadingEnd::NoMemory);
    };
    let Ok(mut orders) = Vec::with_capacity(alloc, rules.controlled.len()) else {
        return Err(ReadingEnd::NoMemory);
    };
    match readings.read(rules, tables, state, memory, &mut orders) {
        Ok(()) => Ok(orders),
        Err(stop) => Err(ReadingEnd::Stop(stop)),
    }
}
