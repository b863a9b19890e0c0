//! Laws of the definitions. Each function here does nothing: its contract states laws in the words
//! of the subject, for the proofs of the crates above.
ghost use Rattle.std.specs.Prelude.{◌≡◌, ℕ, ◌↔◌, Bool, true, false, not, ◌⊎◌, IsTrue, IfOk, IfSome};
ghost use Rattle.std.specs.Prelude.{Option, Some, None};
ghost use Rattle.std.specs.Prelude.{Result, Ok, Err, List, [], ◌∷◌, length, slice_get, position};
ghost use Rattle.std.specs.Prelude.{option_and_then, option_map, map, filter, take_while, drop};
ghost use Rattle.std.specs.Prelude.{All};
ghost use Rattle.std.specs.Prelude.{◌≤ℤ◌, ◌≤◌, ◌<◌, ◌-◌, ℤ, pos};
ghost use Rattle.std.specs.List.{Contains, list_all, list_any, flat_map, last_or, prefix_len};
ghost use Rattle.std.specs.List.{AllZip};
ghost use Rattle.std.specs.List.Sorted.{IsStrictlyIncreasing};
ghost use Rattle.std.specs.Option.{is_some};
ghost use Rattle.exact_fraction.specs.Number.{Rational, zero, one, IsNumber};
ghost use Rattle.exact_fraction.specs.Order.{◌≤ℚ◌};
ghost use Rattle.rule_types.specs.declared.action.ActionAt.{ActionAt};
ghost use Rattle.rule_types.specs.declared.action.Branch.{Branch};
ghost use Rattle.rule_types.specs.declared.action.Order.{Order};
ghost use Rattle.rule_types.specs.declared.action.PidMemory.{PidMemory};
ghost use Rattle.rule_types.specs.declared.action.PidSet.{PidSet};
ghost use Rattle.rule_types.specs.declared.condition.Condition.{Condition};
ghost use Rattle.rule_types.specs.declared.condition.Side.TheVariants.{Key, Expr};
ghost use Rattle.rule_types.specs.declared.condition.Right.TheVariants.{Value};
ghost use Rattle.rule_types.specs.declared.key.Attr.{Attr};
ghost use Rattle.rule_types.specs.declared.key.Attr.TheVariants.{TimeOpen, TimeClosed};
ghost use Rattle.rule_types.specs.declared.key.ClockAttr.{ClockAttr};
ghost use Rattle.rule_types.specs.declared.key.Key.{Key as AnyKey};
ghost use Rattle.rule_types.specs.declared.key.Key.TheVariants.{Object, Clock};
ghost use Rattle.rule_types.specs.declared.names.NameDef.{NameDef};
ghost use Rattle.rule_types.specs.declared.object.ObjectNo.{ObjectNo};
ghost use Rattle.rule_types.specs.declared.row.Row.{Row};
ghost use Rattle.rule_types.specs.declared.rule.Rule.{Rule};
ghost use Rattle.rule_types.specs.declared.rules.Rules.{Rules};
ghost use Rattle.rule_types.specs.declared.state.LinkState.{LinkState};
ghost use Rattle.rule_types.specs.declared.state.State.{State};
ghost use Rattle.rule_types.specs.declared.stop.Stop.{Stop};
ghost use Rattle.rule_types.specs.declared.table.Point.{Point};
ghost use Rattle.rule_types.specs.Fitting.{LinkFits, FitsRules, MemoriesFit};
ghost use Rattle.rule_types.specs.Keys.{is_input, is_link_state};
ghost use Rattle.rule_types.specs.Ranks.{precedes};
ghost use Rattle.rule_types.specs.Reading.{pid_count};
ghost use Rattle.rule_types.specs.Tables.{TableSet};
ghost use Rattle.rule_types.specs.WellFormed.{has_rate, InOrder, WellFormed};
ghost use Rattle.jiff_core.specs.Calendar.{IsCivilDate, days_from_civil, day_of_year};
ghost use Rattle.rule_meaning.specs.Clock.{IsClockDate};
ghost use Rattle.rule_meaning.specs.State.{beside, input_value, link_state, link_value, value};
ghost use Rattle.rule_meaning.specs.Condition.{holds, second_truth};
ghost use Rattle.rule_meaning.specs.Formula.{is_used, stop_from};
ghost use Rattle.rule_meaning.specs.Premise.{groups, premise_by, whole_holds, premise_at};
ghost use Rattle.rule_meaning.specs.Premise.{listed_by, listed};
ghost use Rattle.rule_meaning.specs.Premise.{listed_among, IsListed};
ghost use Rattle.rule_meaning.specs.SomeRules.{rules_at, is_among, HaveRulesOn};
ghost use Rattle.rule_meaning.specs.Settled.{is_on, beats, IsSettled, settled_on, IsOneBranchEach};
ghost use Rattle.rule_meaning.specs.StraightLines.{line_value, IsTableValue};
ghost use Rattle.rule_meaning.specs.Pid.{IsPidValue, IsKept, pid_step};
ghost use Rattle.rule_meaning.specs.Worth.{last_of, rate_of, is_pump, old_target};
ghost use Rattle.rule_meaning.specs.Movement.{moved};
ghost use Rattle.rule_meaning.specs.Memories.{memory_of, memories_after, SamePidMemories};
ghost use Rattle.rule_meaning.specs.Reading.{Choice, settling, read_by, read, OrderFits};
ghost use Rattle.rule_meaning.specs.Reading.{ActsOnLinks, AgreeAt};
ghost use Rattle.rule_meaning.specs.History.{is_due, memory_read, memory_by, memory, reading_by};
ghost use Rattle.rule_meaning.specs.History.{reading};
ghost use Rattle.rule_meaning.specs.History.{gap_hours, new_target, Standing, standing_of};
ghost use Rattle.rule_meaning.specs.History.{standings_by};
ghost use Rattle.rule_meaning.specs.History.{standings, controlled_settings, IsOnTheWay};
ghost use Rattle.rule_meaning.specs.Replay.{standings_now_by, last_switches_by, first_stop_by};
ghost use Rattle.rule_meaning.specs.Replay.{replayed_by};
ghost use Rattle.rule_meaning.specs.Replay.{RowsFit, IsWithinOne};

/// The clock has the date of the calendar: of each civil date from the year 1 on, by its day number.
pub fn dates()
    ensures calendar { (y m d : ℕ) → 1 ≤ y → IsCivilDate (pos y) m d
        → IsClockDate (days_from_civil (pos y) m d) y m (day_of_year (pos y) m d) }
{}

/// A link whose setting is at least 0 has just one of its two timers.
pub fn timers()
    ensures just_one { (link : LinkState) → zero ≤ℚ link.setting
        → is_some (link_value TimeClosed link) ≡ not (is_some (link_value TimeOpen link)) }
{}

/// What stands beside a thing in two lists is found by the thing's place: the first one that passes
/// the test.
pub fn look_ups<A, B>()
    ensures place { (passes : A → Bool) (things : List A) (values : List B) (k : ℕ) (thing : A)
        → slice_get things k ≡ Some thing → passes thing ≡ true
        → ((j : ℕ) (other : A) → j < k → slice_get things j ≡ Some other → passes other ≡ false)
        → length values ≡ length things → beside passes things values ≡ slice_get values k }
    ensures found { (passes : A → Bool) (things : List A) (values : List B) (k : ℕ)
        → position passes things ≡ Some k → length values ≡ length things
        → beside passes things values ≡ slice_get values k }
    ensures absent { (passes : A → Bool) (things : List A) (values : List B)
        → position passes things ≡ None → beside passes things values ≡ None }
{}

/// The last condition, whose sides are the controller and the set point, stands at the last place.
pub fn last_conditions()
    ensures at_end { (conditions : List Condition)
        → last_of conditions ≡ slice_get conditions (length conditions - 1) }
{}

/// The state, the rate and the old target of a tracked link stand at the link's place, and so does
/// whether a controlled link is a pump. Under states that fit, the state of a link has a setting, a
/// target and a timer of at least 0.
pub fn links_by_place()
    ensures state { (x : Rules) (s : State) (k link : ℕ) → InOrder x
        → length s.links ≡ length x.tracked
        → slice_get x.tracked k ≡ Some link → link_state x s link ≡ slice_get s.links k }
    ensures rate { (x : Rules) (k link : ℕ) (rate : Rational) → InOrder x
        → length x.rates ≡ length x.tracked
        → slice_get x.tracked k ≡ Some link → slice_get x.rates k ≡ Some rate
        → rate_of x link ≡ rate }
    ensures pump { (x : Rules) (k link : ℕ) (pump : Bool) → InOrder x
        → length x.pumps ≡ length x.controlled
        → slice_get x.controlled k ≡ Some link → slice_get x.pumps k ≡ Some pump
        → is_pump x link ≡ pump }
    ensures target { (x : Rules) (s : State) (k link : ℕ) (at : LinkState) → InOrder x
        → length s.links ≡ length x.tracked → slice_get x.tracked k ≡ Some link
        → slice_get s.links k ≡ Some at
        → old_target x s link ≡ at.target }
    ensures fits { (x : Rules) (s : State) (link : ℕ) → All LinkFits s.links
        → IfSome (link_state x s link) LinkFits }
{}

/// The value of an input key stands at the key's place among the inputs. A key of the trace has
/// that value, and the attributes of a link that are read off its setting and timer have the value
/// of the link's state.
pub fn keys_by_place()
    ensures input { (x : Rules) (s : State) (k : ℕ) (key : AnyKey) → InOrder x
        → length s.inputs ≡ length x.input_keys
        → slice_get x.input_keys k ≡ Some key
        → input_value x s key ≡ option_and_then (λ given. given) (slice_get s.inputs k) }
    ensures of_input { (x : Rules) (s : State) (key : AnyKey) → IsTrue (is_input key)
        → value x s key ≡ input_value x s key }
    ensures of_link { (x : Rules) (s : State) (object : ObjectNo) (attribute : Attr)
        → IsTrue (is_link_state attribute)
        → value x s (Object object attribute)
        ≡ option_and_then (link_value attribute) (link_state x s object.index) }
{}

/// Memories that agree on the PID actions of the rules give the same reading and leave memories
/// that agree there. A list of memories that fits well formed rules is left with one memory for each
/// PID action, and each is what the reading leaves.
pub fn memories()
    ensures reading { (choice : Choice) (x : Rules) (tables : TableSet) (s : State)
        (memory other : ℕ → PidMemory)
        → SamePidMemories x memory other → read_by choice x tables s memory
        ≡ read_by choice x tables s other }
    ensures leaves { (x : Rules) (s : State) (memory other : ℕ → PidMemory)
        (read : Result (List Order) Stop)
        → SamePidMemories x memory other
        → SamePidMemories x (λ number. memory_read x s memory number read)
        (λ number. memory_read x s other number read) }
    ensures as_many { (x : Rules) (s : State) (before : List PidMemory)
        (read : Result (List Order) Stop)
        → length (memories_after x s before read) ≡ pid_count x.rules }
    ensures list { (x : Rules) (s : State) (before : List PidMemory) (number : ℕ)
        (read : Result (List Order) Stop) → WellFormed x → MemoriesFit x.rules before
        → memory_of (memories_after x s before read) number
        ≡ memory_read x s (memory_of before) number read }
{}

/// The groups of a premise in a row are its conditions, whatever begins a group, and the first
/// group goes on to before the next condition that begins one. Where each condition is joined by
/// AND all must hold, and where none after the first one is, one that holds is enough. One walk
/// through the conditions gives the same premise, and so do truths that are given by place (SWMM
/// 5.2 manual, [CONTROLS], premises).
pub fn premises()
    ensures in_a_row { (begins : Condition → Bool) (cs : List Condition)
        → flat_map (λ g. g) (groups begins cs) ≡ cs }
    ensures all_by_and { (truth : Condition → Bool) (cs : List Condition)
        → list_all (λ c. c.joined_by_and) cs ≡ true
        → premise_by truth cs ≡ list_all truth cs }
    ensures all_by_or { (truth : Condition → Bool) (c : Condition) (more : List Condition)
        → list_all (λ c. not c.joined_by_and) more ≡ true
        → premise_by truth (c ∷ more) ≡ list_any truth (c ∷ more) }
    ensures from_front { (begins : Condition → Bool) (first : Condition) (more : List Condition)
        → groups begins (first ∷ more)
        ≡ (first ∷ take_while (λ c. not (begins c)) more)
        ∷ groups begins (drop (prefix_len (λ c. not (begins c)) more) more) }
    ensures walk { (truth : Condition → Bool) (cs : List Condition)
        → premise_by truth cs ≡ whole_holds truth cs }
    ensures by_place { (given : ℕ → Condition → Bool) (truth : Condition → Bool)
        (cs : List Condition)
        → ((place : ℕ) (c : Condition) → slice_get cs place ≡ Some c → given place c ≡ truth c)
        → premise_at given cs ≡ premise_by truth cs }
{}

/// A thing is one of a list where it is the first one or one of the others.
pub fn members<A>()
    ensures first { (first : A) (others : List A) → Contains (first ∷ others) first }
    ensures later { (first : A) (others : List A) (thing : A) → Contains others thing
        → Contains (first ∷ others) thing }
    ensures cases { (first : A) (others : List A) (thing : A) → Contains (first ∷ others) thing
        → (first ≡ thing) ⊎ Contains others thing }
{}

/// The listed pairs are those of each rule and each action of the branch that it lists: THEN where
/// its premise holds, else ELSE. However branches are given, each rule lists one of its branches,
/// and two ways to give them that agree on the rules list the same pairs (SWMM 5.2 manual,
/// [CONTROLS]).
pub fn listing()
    ensures listed { (x : Rules) (s : State) (at : ActionAt)
        → (Contains (listed x s) at ↔ IsListed x s at) }
    ensures one_branch_each { (x : Rules) (s : State) → IsOneBranchEach (listed x s) }
    ensures one_branch_given { (branch : ℕ → Rule → Branch) (rules : List Rule)
        → IsOneBranchEach (listed_by branch 0 rules) }
    ensures same_branches { (branch other : ℕ → Rule → Branch) (rules : List Rule)
        → ((place : ℕ) (rule : Rule) → slice_get rules place ≡ Some rule
        → branch place rule ≡ other place rule)
        → listed_by branch 0 rules ≡ listed_by other 0 rules }
{}

/// Rules precede one another in a strict order, in which two rules at different places are never
/// equal.
pub fn ranks()
    ensures asymmetric { (p q : Option Rational) (m n : ℕ) → precedes p m q n ≡ true
        → precedes q n p m ≡ false }
    ensures transitive { (p q r : Option Rational) (m n k : ℕ) → precedes p m q n ≡ true
        → precedes q n r k ≡ true
        → precedes p m r k ≡ true }
    ensures weak { (p q r : Option Rational) (m n k : ℕ) → precedes p m q n ≡ false
        → precedes q n r k ≡ false
        → precedes p m r k ≡ false }
    ensures ties { (p q : Option Rational) (m n : ℕ) → precedes p m q n ≡ false
        → precedes q n p m ≡ false → m ≡ n }
{}

/// Pairs go before one another in a strict order, in which two pairs are equal only at one place of
/// one rule.
pub fn pair_order()
    ensures asymmetric { (rules : List Rule) (p q : ActionAt) → beats rules p q ≡ true
        → beats rules q p ≡ false }
    ensures transitive { (rules : List Rule) (p q r : ActionAt) → beats rules p q ≡ true
        → beats rules q r ≡ true
        → beats rules p r ≡ true }
    ensures weak { (rules : List Rule) (p q r : ActionAt) → beats rules p q ≡ false
        → beats rules q r ≡ false
        → beats rules p r ≡ false }
    ensures ties { (rules : List Rule) (p q : ActionAt) → beats rules p q ≡ false
        → beats rules q p ≡ false
        → (p.rule ≡ q.rule) × (p.action ≡ q.action) }
{}

/// Some of the rules, by their numbers, are those rules in the order of the numbers. Where they have
/// every rule that acts on a link, the listed pairs of these rules settle the same pair there. A
/// name on the left side of a condition of some rules is used by them, and names are asked for by
/// any test that gives the same answers.
pub fn some_rules()
    ensures rule { (rules : List Rule) (numbers : List ℕ) (k number : ℕ)
        → All (λ n. n < length rules) numbers → slice_get numbers k ≡ Some number
        → slice_get (rules_at rules numbers) k ≡ slice_get rules number }
    ensures settled { (rules : List Rule) (pairs : List ActionAt) (link : ℕ) (numbers : List ℕ)
        → HaveRulesOn rules link numbers
        → settled_on rules (filter (λ at. is_among numbers at.rule) pairs) link
        ≡ settled_on rules pairs link }
    ensures listed { (x : Rules) (s : State) (link : ℕ) (numbers : List ℕ)
        → HaveRulesOn x.rules link numbers
        → settled_on x.rules (listed_among numbers x s) link
        ≡ settled_on x.rules (listed x s) link }
    ensures used { (x : Rules) (rules : List Rule) (k j name : ℕ) (rule : Rule) (c : Condition)
        → slice_get rules k ≡ Some rule → slice_get rule.conditions j ≡ Some c → c.left ≡ Expr name
        → IsTrue (is_used x rules name) }
    ensures asked { (x : Rules) (asks other : ℕ → Bool) (s : State) (at : ℕ) (names : List NameDef)
        → ((name : ℕ) → asks name ≡ other name)
        → stop_from x asks s at names ≡ stop_from x other s at names }
{}

/// A condition of the clock against a number depends on the moment, the start and the step alone.
pub fn seconds()
    ensures truth { (x : Rules) (s : State) (c : Condition) (attribute : ClockAttr) (q : Rational)
        → c.left ≡ Key (Clock attribute) → c.right ≡ Value q
        → holds x s c ≡ second_truth c s.step attribute q s.start s.moment }
{}

/// For each link at most one pair is settled, and one is exactly where a listed pair is on the
/// link. `settled_on` gives it, and the order of the listed pairs does not matter.
pub fn settling()
    ensures at_most_one { (rules : List Rule) (pairs : List ActionAt) (link : ℕ) (p q : ActionAt)
        → IsOneBranchEach pairs
        → IsSettled rules pairs link p → IsSettled rules pairs link q → p ≡ q }
    ensures at_least_one { (rules : List Rule) (pairs : List ActionAt) (link : ℕ) (p : ActionAt)
        → Contains pairs p
        → IsTrue (is_on rules link p) → (q : ActionAt) × IsSettled rules pairs link q }
    ensures only_where_listed { (rules : List Rule) (pairs : List ActionAt) (link : ℕ)
        (p : ActionAt) → IsSettled rules pairs link p
        → Contains pairs p × IsTrue (is_on rules link p) }
    ensures given { (rules : List Rule) (pairs : List ActionAt) (link : ℕ) (p : ActionAt)
        → IsOneBranchEach pairs
        → ((settled_on rules pairs link ≡ Some p) ↔ IsSettled rules pairs link p) }
    ensures none_given { (rules : List Rule) (pairs : List ActionAt) (link : ℕ) (p : ActionAt)
        → settled_on rules pairs link ≡ None → Contains pairs p → is_on rules link p ≡ false }
    ensures order_free { (rules : List Rule) (pairs others : List ActionAt) (link : ℕ)
        → IsOneBranchEach pairs
        → ((q : ActionAt) → Contains pairs q → Contains others q)
        → ((q : ActionAt) → Contains others q → Contains pairs q)
        → settled_on rules pairs link ≡ settled_on rules others link }
{}

/// Two choices that agree at a state and at every older one give the same reading and the same
/// standings there, and the same memories before it. A replay by one of them, with what it keeps,
/// is then a replay by the other.
pub fn choices()
    ensures reading { (choice other : Choice) (x : Rules) (tables : TableSet) (older : List State)
        (s : State)
        → AgreeAt x choice other s → All (AgreeAt x choice other) older
        → reading_by choice x tables older s ≡ reading_by other x tables older s }
    ensures standings { (choice other : Choice) (x : Rules) (tables : TableSet) (older : List State)
        (s : State)
        → AgreeAt x choice other s → All (AgreeAt x choice other) older
        → standings_by choice x tables older s ≡ standings_by other x tables older s }
    ensures memory { (choice other : Choice) (x : Rules) (tables : TableSet) (older : List State)
        (number : ℕ)
        → All (AgreeAt x choice other) older
        → memory_by choice x tables older number ≡ memory_by other x tables older number }
    ensures standings_now { (choice other : Choice) (x : Rules) (tables : TableSet)
        (states : List State)
        → All (AgreeAt x choice other) states
        → standings_now_by choice x tables states ≡ standings_now_by other x tables states }
    ensures switches { (choice other : Choice) (x : Rules) (tables : TableSet) (states : List State)
        → All (AgreeAt x choice other) states
        → last_switches_by choice x tables states ≡ last_switches_by other x tables states }
    ensures first_stop { (choice other : Choice) (x : Rules) (tables : TableSet)
        (states : List State)
        → All (AgreeAt x choice other) states
        → first_stop_by choice x tables states ≡ first_stop_by other x tables states }
    ensures replayed { (choice other : Choice) (x : Rules) (tables : TableSet) (rows : List Row)
        → All (AgreeAt x choice other) (replayed_by choice x tables rows)
        → replayed_by choice x tables rows ≡ replayed_by other x tables rows }
{}

/// The value of a table is at least 0, and that of a PID at least 0 and at most 1 unless the link
/// is a pump. A table's value is that of its straight line, and 0 where that is below 0. The errors
/// that a PID keeps are numbers with nine decimals after every step, and so after every list of
/// states (SWMM 5.2 manual, [CURVES], [TIMESERIES] and modulated controls).
pub fn values()
    ensures on_line { (points : List Point) (x y : Rational) → 0 < length points
        → line_value points x ≡ Ok y
        → IsTableValue points x y }
    ensures kept_step { (set : PidSet) (set_point x old minutes : Rational) (pump : Bool)
        (before : PidMemory) → IsKept before
        → IfOk (pid_step set set_point x old minutes pump before)
        (λ stepped. IsKept stepped.memory) }
    ensures kept { (choice : Choice) (x : Rules) (tables : TableSet) (states : List State)
        (number : ℕ)
        → IsKept (memory_by choice x tables states number) }
    ensures tables { (points : List Point) (x : Rational)
        → IfOk (line_value points x) (λ y. zero ≤ℚ y) }
    ensures pids { (set : PidSet) (set_point x old minutes : Rational) (pump : Bool)
        (before : PidMemory)
        → IfOk (pid_step set set_point x old minutes pump before)
        (λ stepped. IsPidValue pump stepped.value) }
{}

/// With a RULE_STEP of 0 every row is due, as long as moments do not fall. A row that is not due
/// reads nothing, and it keeps the memories, as a stop does (SWMM 5.2 manual, [OPTIONS],
/// RULE_STEP).
pub fn dues()
    ensures every_row { (older : List State) (s : State)
        → ((t : State) → Contains older t → t.moment ≤ℤ s.moment)
        → is_due zero older s ≡ true }
    ensures due { (x : Rules) (tables : TableSet) (older : List State) (s : State)
        → is_due x.rule_step older s ≡ true
        → reading x tables older s ≡ read x tables s (memory x tables older) }
    ensures not_due { (x : Rules) (tables : TableSet) (older : List State) (s : State)
        → is_due x.rule_step older s ≡ false
        → reading x tables older s ≡ Ok [] }
    ensures not_due_keeps { (x : Rules) (tables : TableSet) (older : List State) (s : State)
        (number : ℕ)
        → is_due x.rule_step older s ≡ false
        → memory x tables (s ∷ older) number ≡ memory x tables older number }
    ensures stop_keeps { (x : Rules) (tables : TableSet) (older : List State) (s : State)
        (number : ℕ) (stop : Stop)
        → reading x tables older s ≡ Err stop
        → memory x tables (s ∷ older) number ≡ memory x tables older number }
{}

/// At a state that fits well formed rules each order's value is at least 0, and at most 1 on a link
/// with a rate, as long as each pair that a link takes acts on that link, which settled pairs do.
/// The orders of a reading are on controlled links and rise by link.
pub fn orders()
    ensures settled { (x : Rules) → ActsOnLinks x (settling x) }
    ensures values { (choice : Choice) (x : Rules) (tables : TableSet) (older : List State)
        (s : State) → WellFormed x
        → ActsOnLinks x choice → FitsRules x s
        → IfOk (reading_by choice x tables older s) (All (OrderFits x)) }
    ensures controlled { (choice : Choice) (x : Rules) (tables : TableSet) (s : State)
        (memory : ℕ → PidMemory)
        → IfOk (read_by choice x tables s memory)
        (All (λ order. Contains x.controlled order.link)) }
    ensures rise { (choice : Choice) (x : Rules) (tables : TableSet) (s : State)
        (memory : ℕ → PidMemory) → InOrder x
        → IfOk (read_by choice x tables s memory)
        (λ orders. IsStrictlyIncreasing (map (λ order. order.link) orders)) }
{}

/// The new target of a link is the value of its order, and where it has none its old target. Orders
/// rise by link.
pub fn targets()
    ensures ordered { (orders : List Order) (k : ℕ) (order : Order) (old : Rational)
        → IsStrictlyIncreasing (map (λ one. one.link) orders) → slice_get orders k ≡ Some order
        → new_target orders order.link old ≡ order.value }
    ensures kept { (orders : List Order) (link : ℕ) (old : Rational)
        → ((k : ℕ) (order : Order) → slice_get orders k ≡ Some order → order.link ≡ link → ⊥)
        → new_target orders link old ≡ old }
{}

/// After a row each tracked link stands, at its place, at its new target and the setting that moved
/// towards it, and after a stop where it stood. The setting of a controlled link is that of the
/// link among the tracked ones.
pub fn standing()
    ensures moved { (choice : Choice) (x : Rules) (tables : TableSet) (older : List State)
        (s : State)
        (orders : List Order) (k link : ℕ) (rate : Rational) (old : LinkState)
        → reading_by choice x tables older s ≡ Ok orders → slice_get x.tracked k ≡ Some link
        → slice_get x.rates k ≡ Some rate → slice_get s.links k ≡ Some old
        → slice_get (standings_by choice x tables older s) k
        ≡ Some
        (standing_of rate (gap_hours x.routing_step older s) old.setting
        (new_target orders link old.target)) }
    ensures stayed { (choice : Choice) (x : Rules) (tables : TableSet) (older : List State)
        (s : State)
        (stop : Stop) (k : ℕ) (old : LinkState)
        → reading_by choice x tables older s ≡ Err stop → slice_get s.links k ≡ Some old
        → slice_get (standings_by choice x tables older s) k
        ≡ Some (record { setting = old.setting; target = old.target }) }
    ensures as_many { (choice : Choice) (x : Rules) (tables : TableSet) (older : List State)
        (s : State)
        → length x.rates ≡ length x.tracked → length s.links ≡ length x.tracked
        → length (standings_by choice x tables older s) ≡ length x.tracked }
    ensures setting { (x : Rules) (standing : List Standing) (j k link : ℕ) (at : Standing)
        → InOrder x
        → length standing ≡ length x.tracked → slice_get x.controlled j ≡ Some link
        → slice_get x.tracked k ≡ Some link → slice_get standing k ≡ Some at
        → slice_get (controlled_settings x standing) j ≡ Some at.setting }
    ensures settings { (x : Rules) (standing : List Standing)
        → length (controlled_settings x standing) ≡ length x.controlled }
{}

/// The first stop of a list of states is that of the oldest reading that stops.
pub fn first_stops()
    ensures kept { (choice : Choice) (x : Rules) (tables : TableSet) (older : List State)
        (s : State) (stop : Stop)
        → first_stop_by choice x tables older ≡ Some stop
        → first_stop_by choice x tables (s ∷ older) ≡ Some stop }
    ensures now { (choice : Choice) (x : Rules) (tables : TableSet) (older : List State) (s : State)
        (stop : Stop)
        → first_stop_by choice x tables older ≡ None → reading_by choice x tables older s ≡ Err stop
        → first_stop_by choice x tables (s ∷ older) ≡ Some stop }
    ensures none { (choice : Choice) (x : Rules) (tables : TableSet) (older : List State)
        (s : State)
        (orders : List Order)
        → first_stop_by choice x tables older ≡ None
        → reading_by choice x tables older s ≡ Ok orders
        → first_stop_by choice x tables (s ∷ older) ≡ None }
{}

/// The states that a replay makes of rows fit the rules, as long as each pair that a link takes
/// acts on that link. They are as many as the rows, and a link with a rate stands from 0 to 1 in
/// each of them, as its target does. Each state has the start of the rules, and where they have
/// none the moment of the first row.
pub fn replay()
    ensures as_many { (choice : Choice) (x : Rules) (tables : TableSet) (rows : List Row)
        → length (replayed_by choice x tables rows) ≡ length rows }
    ensures fit { (choice : Choice) (x : Rules) (tables : TableSet) (rows : List Row) → WellFormed x
        → ActsOnLinks x choice → RowsFit x rows
        → All (FitsRules x) (replayed_by choice x tables rows) }
    ensures within_one { (choice : Choice) (x : Rules) (tables : TableSet) (rows : List Row)
        → WellFormed x
        → ActsOnLinks x choice → RowsFit x rows
        → All (λ s. AllZip IsWithinOne x.rates s.links) (replayed_by choice x tables rows) }
    ensures dated { (choice : Choice) (x : Rules) (tables : TableSet) (rows : List Row) (start : ℤ)
        → x.start ≡ Some start → All (λ s. s.start ≡ start) (replayed_by choice x tables rows) }
    ensures undated { (choice : Choice) (x : Rules) (tables : TableSet) (rows : List Row)
        → x.start ≡ None
        → All (λ s. option_map (λ row. row.moment) (last_or None rows) ≡ Some s.start)
        (replayed_by choice x tables rows) }
{}

/// A link without a rate stands at its target after every row, and no link passes its target. It
/// moves through numbers that a program holds, where on a link with a rate the setting and the
/// target are from 0 to 1.
pub fn movement()
    ensures at_once { (rate gap y target : Rational) → has_rate rate ≡ false
        → moved rate gap y target ≡ target }
    ensures up { (rate gap y target : Rational) → y ≤ℚ target
        → (y ≤ℚ moved rate gap y target) × (moved rate gap y target ≤ℚ target) }
    ensures down { (rate gap y target : Rational) → target ≤ℚ y
        → (target ≤ℚ moved rate gap y target) × (moved rate gap y target ≤ℚ y) }
    ensures number { (rate gap y target : Rational) → IsNumber y → IsNumber target → zero ≤ℚ y
        → zero ≤ℚ target
        → (IsTrue (has_rate rate) → (y ≤ℚ one) × (target ≤ℚ one))
        → IsNumber (moved rate gap y target) }
    ensures at_target { (x : Rules) (tables : TableSet) (older : List State) (s : State)
        → FitsRules x s
        → AllZip (λ rate at. has_rate rate ≡ false → at.setting ≡ at.target) x.rates
        (standings x tables older s) }
    ensures on_the_way { (x : Rules) (tables : TableSet) (older : List State) (s : State)
        → length x.rates ≡ length x.tracked
        → length s.links ≡ length x.tracked
        → AllZip IsOnTheWay s.links (standings x tables older s) }
{}
