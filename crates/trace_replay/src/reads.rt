//! Readings of rules, as a replay asks for them.
ghost use Rattle.std.specs.Prelude.{◌≡◌, ℕ, List, Result};
ghost use Rattle.rule_types.specs.declared.action.Order.{Order as AnOrder};
ghost use Rattle.rule_types.specs.declared.rules.Rules.{Rules as AllRules};
ghost use Rattle.rule_types.specs.Fitting.{FitsRules, MemoriesFit};
ghost use Rattle.rule_types.specs.Tables.{TableSet, HoldsTables};
ghost use Rattle.rule_types.specs.WellFormed.{WellFormed};
ghost use Rattle.rule_meaning.specs.History.{memory_read};
ghost use Rattle.rule_meaning.specs.Memories.{memory_of};
ghost use Rattle.rule_meaning.specs.Reading.{Choice, read_by};
ghost use Rattle.trace_replay.specs.Readings.{given};

use rule_types::{Order, PidMemory, Rules, State, Stop};

/// What reads the rules at one state, and takes no memory for it.
pub trait Reads: Drop {
    // The rules that it was made for.
    ghost made_for: { Self → AllRules };

    // The tables that it has.
    ghost held: { Self → TableSet };

    // The pair that each link takes by it.
    ghost choice: { Self → Choice };

    // The orders of the last reading that did not stop.
    ghost last_orders: { Self → List AnOrder };

    // What has to hold before a reading, as that it has room.
    ghost is_ready: { Self → Type 0 };

    /// Reads the rules at a state, where the PID actions have these memories, and leaves the
    /// memories after the reading. After a stop they are as before.
    fn read(&mut self, rules: &Rules, state: &State, memories: &mut [PidMemory]) -> Result<(), Stop>
        requires ready { is_ready self.old }
        requires well_formed { WellFormed rules.now }
        requires rules { made_for self.old ≡ rules.now }
        requires tables { HoldsTables (held self.old) rules.now.rules }
        requires fits { FitsRules rules.now state.now }
        requires memories { MemoriesFit rules.now.rules memories.old }

        ensures orders { given result (last_orders self.new)
            ≡ read_by (choice self.old) rules.now (held self.old) state.now
            (memory_of memories.old) }
        ensures memories { (number : ℕ) → memory_of memories.new number
            ≡ memory_read rules.now state.now (memory_of memories.old) number
            (read_by (choice self.old) rules.now (held self.old) state.now
            (memory_of memories.old)) }
        ensures ready { is_ready self.new }
        ensures same_rules { made_for self.new ≡ made_for self.old }
        ensures same_tables { held self.new ≡ held self.old }
        ensures same_choice { choice self.new ≡ choice self.old };

    /// The orders of the last reading that did not stop, in link order.
    fn orders(&self) -> &[Order]
        ensures orders { result.now ≡ last_orders self.now };
}
