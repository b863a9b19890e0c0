//! Laws of `==`, and what well formed rules, and the states, tables and memories that fit them, say
//! of their parts. Each function here does nothing: its contract states what holds, for the proofs
//! of the crates above. They cite a clause by the term of its name in proofs/PublicLaws.antt.
ghost use Rattle.std.specs.Prelude.{◌<◌};
ghost use Rattle.std.specs.Prelude.{◌≡◌, ℕ, true, false, ◌&&◌, IsTrue, Option, Some, None, is_none};
ghost use Rattle.std.specs.Prelude.{List, EachIndex};
ghost use Rattle.std.specs.Prelude.{length, slice_index};
ghost use Rattle.rule_types.specs.Causes.{cause_number};
ghost use Rattle.rule_types.specs.Equality.{TellsEqual};
ghost use Rattle.rule_types.specs.Fitting.{FitsRules, SameSizes, ActionsCounted, MemoriesFit};
ghost use Rattle.rule_types.specs.Fitting.{PairCounted, PairReady};
ghost use Rattle.rule_types.specs.Refusals.{goes_before, lower, earlier};
ghost use Rattle.rule_types.specs.Tables.{TableSet, HoldsTables};
ghost use Rattle.rule_types.specs.Reading.{pid_numbers};
ghost use Rattle.rule_types.specs.WellFormed.{WellFormed, RuleFits, Orders, Times, CompleteLists};
ghost use Rattle.rule_types.specs.WellFormed.{InOrder, InBounds};
ghost use Rattle.rule_types.specs.WellFormed.{HasCompleteLists, PidsNumbered, IsHalfStep};
ghost use Rattle.rule_types.specs.WellFormed.{IsTimeRight};
ghost use Rattle.rule_types.specs.WellFormed.{takes_half_step};
ghost use Rattle.rule_types.specs.declared.action.ActionAt.{ActionAt};
ghost use Rattle.rule_types.specs.declared.action.PidMemory.{PidMemory};
ghost use Rattle.rule_types.specs.declared.names.NameDef.{NameDef};
ghost use Rattle.rule_types.specs.declared.rule.Rule.{Rule};
ghost use Rattle.rule_types.specs.declared.rules.Rules.{Rules};
ghost use Rattle.rule_types.specs.declared.state.State.{State};
ghost use Rattle.rule_types.specs.declared.condition.Condition.{Condition};
ghost use Rattle.rule_types.specs.declared.refusal.Refusal.{Refusal};
ghost use Rattle.rule_types.specs.contracts.object.SpacePartialEq.TheImpl as SpaceEq;
ghost use Rattle.rule_types.specs.contracts.object.ObjectKindPartialEq.TheImpl as ObjectKindEq;
ghost use Rattle.rule_types.specs.contracts.object.ObjectWordPartialEq.TheImpl as ObjectWordEq;
ghost use Rattle.rule_types.specs.contracts.object.ObjectNoPartialEq.TheImpl as ObjectNoEq;
ghost use Rattle.rule_types.specs.contracts.key.AttrPartialEq.TheImpl as AttrEq;
ghost use Rattle.rule_types.specs.contracts.key.ClockAttrPartialEq.TheImpl as ClockAttrEq;
ghost use Rattle.rule_types.specs.contracts.key.KeyPartialEq.TheImpl as KeyEq;
ghost use Rattle.rule_types.specs.contracts.condition.SidePartialEq.TheImpl as SideEq;
ghost use Rattle.rule_types.specs.contracts.condition.RightPartialEq.TheImpl as RightEq;
ghost use Rattle.rule_types.specs.contracts.condition.ConditionPartialEq.TheImpl as ConditionEq;
ghost use Rattle.rule_types.specs.contracts.action.CurveNoPartialEq.TheImpl as CurveNoEq;
ghost use Rattle.rule_types.specs.contracts.action.SeriesNoPartialEq.TheImpl as SeriesNoEq;
ghost use Rattle.rule_types.specs.contracts.action.PidSetPartialEq.TheImpl as PidSetEq;
ghost use Rattle.rule_types.specs.contracts.action.WhatPartialEq.TheImpl as WhatEq;
ghost use Rattle.rule_types.specs.contracts.action.ActionPartialEq.TheImpl as ActionEq;
ghost use Rattle.rule_types.specs.contracts.action.BranchPartialEq.TheImpl as BranchEq;
ghost use Rattle.rule_types.specs.contracts.action.ActionAtPartialEq.TheImpl as ActionAtEq;
ghost use Rattle.rule_types.specs.contracts.action.PidMemoryPartialEq.TheImpl as PidMemoryEq;
ghost use Rattle.rule_types.specs.contracts.state.LinkStatePartialEq.TheImpl as LinkStateEq;
ghost use Rattle.rule_types.specs.contracts.state.StatePartialEq.TheImpl as StateEq;
ghost use Rattle.rule_types.specs.contracts.row.RowPartialEq.TheImpl as RowEq;
ghost use Rattle.rule_types.specs.contracts.table.PointPartialEq.TheImpl as PointEq;
ghost use Rattle.rule_types.specs.contracts.action.OrderPartialEq.TheImpl as OrderEq;
ghost use Rattle.rule_types.specs.contracts.stop.StopCausePartialEq.TheImpl as StopCauseEq;
ghost use Rattle.rule_types.specs.contracts.stop.StopPlacePartialEq.TheImpl as StopPlaceEq;
ghost use Rattle.rule_types.specs.contracts.stop.StopPartialEq.TheImpl as StopEq;
ghost use Rattle.rule_types.specs.contracts.stop.ReadingEndPartialEq.TheImpl as ReadingEndEq;
ghost use Rattle.rule_types.specs.contracts.stop.RowStopPartialEq.TheImpl as RowStopEq;
ghost use Rattle.rule_types.specs.contracts.refusal.CausePartialEq.TheImpl as CauseEq;
ghost use Rattle.rule_types.specs.contracts.refusal.RefusalPartialEq.TheImpl as RefusalEq;
ghost use Rattle.rule_types.specs.contracts.refusal.ReadFaultPartialEq.TheImpl as ReadFaultEq;
ghost use Rattle.rule_types.specs.contracts.refusal.AddFaultPartialEq.TheImpl as AddFaultEq;

/// The `==` of objects and of keys tells exactly whether two are equal.
pub fn equal_keys()
    ensures space { TellsEqual SpaceEq.eq-value.it }
    ensures object_kind { TellsEqual ObjectKindEq.eq-value.it }
    ensures object_word { TellsEqual ObjectWordEq.eq-value.it }
    ensures object_no { TellsEqual ObjectNoEq.eq-value.it }
    ensures attr { TellsEqual AttrEq.eq-value.it }
    ensures clock_attr { TellsEqual ClockAttrEq.eq-value.it }
    ensures key { TellsEqual KeyEq.eq-value.it }
{}

/// The `==` of the parts of rules tells exactly whether two are equal.
pub fn equal_rules()
    ensures side { TellsEqual SideEq.eq-value.it }
    ensures right { TellsEqual RightEq.eq-value.it }
    ensures condition { TellsEqual ConditionEq.eq-value.it }
    ensures curve_no { TellsEqual CurveNoEq.eq-value.it }
    ensures series_no { TellsEqual SeriesNoEq.eq-value.it }
    ensures pid_set { TellsEqual PidSetEq.eq-value.it }
    ensures what { TellsEqual WhatEq.eq-value.it }
    ensures action { TellsEqual ActionEq.eq-value.it }
    ensures branch { TellsEqual BranchEq.eq-value.it }
    ensures action_at { TellsEqual ActionAtEq.eq-value.it }
{}

/// The `==` of states, of their links, of rows and of the memories of PID actions tells exactly
/// whether two are equal.
pub fn equal_states()
    ensures pid_memory { TellsEqual PidMemoryEq.eq-value.it }
    ensures link_state { TellsEqual LinkStateEq.eq-value.it }
    ensures state { TellsEqual StateEq.eq-value.it }
    ensures row { TellsEqual RowEq.eq-value.it }
{}

/// The `==` of points tells exactly whether two are equal.
pub fn equal_points()
    ensures point { TellsEqual PointEq.eq-value.it }
{}

/// The `==` of orders, stops, refusals and faults tells exactly whether two are equal.
pub fn equal_answers()
    ensures order { TellsEqual OrderEq.eq-value.it }
    ensures stop_cause { TellsEqual StopCauseEq.eq-value.it }
    ensures stop_place { TellsEqual StopPlaceEq.eq-value.it }
    ensures stop { TellsEqual StopEq.eq-value.it }
    ensures reading_end { TellsEqual ReadingEndEq.eq-value.it }
    ensures row_stop { TellsEqual RowStopEq.eq-value.it }
    ensures cause { TellsEqual CauseEq.eq-value.it }
    ensures refusal { TellsEqual RefusalEq.eq-value.it }
    ensures read_fault { TellsEqual ReadFaultEq.eq-value.it }
    ensures add_fault { TellsEqual AddFaultEq.eq-value.it }
{}

/// Refusals are in order by their lines and then by the numbers of their causes, and of several the
/// lowest is reported, however they are compared.
pub fn refusals()
    ensures by_line { (a b : Refusal) → a.line < b.line → goes_before a b ≡ true }
    ensures by_cause { (a b : Refusal) → a.line ≡ b.line → cause_number a.cause < cause_number b.cause
        → goes_before a b ≡ true }
    ensures transitive { (a b c : Refusal) → goes_before a b ≡ true → goes_before b c ≡ true
        → goes_before a c ≡ true }
    ensures irreflexive { (a : Refusal) → goes_before a a ≡ false }
    ensures tied { (a b : Refusal) → goes_before a b ≡ false → goes_before b a ≡ false
        → (a.line ≡ b.line) × (a.cause ≡ b.cause) }
    ensures least { (a b : Refusal)
        → (goes_before a (lower a b) ≡ false) × (goes_before b (lower a b) ≡ false) }
    ensures first { (a b : Refusal) → goes_before b a ≡ false → lower a b ≡ a }
    ensures second { (a b : Refusal) → goes_before b a ≡ true → lower a b ≡ b }
    ensures associative { (a b c : Refusal) → lower a (lower b c) ≡ lower (lower a b) c }
    ensures none { (a : Option Refusal) → earlier None a ≡ a }
    ensures alone { (a : Option Refusal) → earlier a None ≡ a }
    ensures both { (a b : Refusal) → earlier (Some a) (Some b) ≡ Some (lower a b) }
    ensures neither { (a b : Option Refusal) → is_none (earlier a b) ≡ (is_none a && is_none b) }
    ensures in_any_order { (a b c : Option Refusal) → earlier a (earlier b c) ≡ earlier (earlier a b) c }
{}

/// What the closed words of well formed rules say.
pub fn opened()
    ensures orders { (x : Rules) → InOrder x → Orders x }
    ensures times { (x : Rules) → InBounds x → Times x }
    ensures lists { (x : Rules) → HasCompleteLists x → CompleteLists x }
    ensures pid_places { (rules : List Rule) → PidsNumbered rules
        → EachIndex (pid_numbers rules) (λ k. slice_index (pid_numbers rules) k ≡ k) }
{}

/// What well formed rules, and the states, tables and memories that fit them, say of each rule and
/// of each action; and when a condition can be a half-step condition.
pub fn fitting()
    ensures half_step { (c : Condition) → IsTrue (takes_half_step c.left c.rel) → IsTimeRight c.right
        → IsHalfStep c }
    ensures actions { (names : List NameDef) (rule : Rule) → RuleFits names rule → ActionsCounted rule }
    ensures sizes { (x : Rules) (s : State) → FitsRules x s → SameSizes x s }
    ensures counted { (x : Rules) (memories : List PidMemory) → WellFormed x
        → MemoriesFit x.rules memories → (at : ActionAt)
        → PairCounted x.rules (length memories) at }
    ensures ready { (x : Rules) (tables : TableSet) (memories : List PidMemory) → WellFormed x
        → HoldsTables tables x.rules → MemoriesFit x.rules memories
        → (at : ActionAt) → PairReady x.rules tables (length memories) at }
{}
