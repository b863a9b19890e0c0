//! Laws of sets and of cuts. Each function here does nothing: its contract states laws over all
//! fractions, for the proofs of the crates above.
ghost use Rattle.std.specs.Prelude.{◌≡◌, ℕ, ◌<◌, ◌↔◌, ◌&&◌, ◌||◌, not, true, false, IsTrue};
ghost use Rattle.std.specs.Prelude.{Some, pos, slice_get, List, [], ◌∷◌};
ghost use Rattle.std.specs.Bool.{Decides};
ghost use Rattle.exact_fraction.specs.Number.{Rational, IsNumber, whole};
ghost use Rattle.exact_fraction.specs.Order.{◌<ℚ◌, ◌≤ℚ◌, same};
ghost use Rattle.exact_fraction.specs.Relations.{relates};
ghost use Rattle.exact_fraction.specs.declared.relation.Relation.{Relation};
ghost use Rattle.exact_fraction.specs.declared.relation.Relation.TheVariants.{Eq, Ne, Lt, Gt};
ghost use Rattle.interval_sets.specs.contracts.interval.BoundPartialEq.TheImpl as BoundEq;
ghost use Rattle.interval_sets.specs.contracts.interval.IntervalPartialEq.TheImpl as IntervalEq;
ghost use Rattle.interval_sets.specs.declared.interval.Bound.{Bound};
ghost use Rattle.interval_sets.specs.declared.interval.Interval.{Interval};
ghost use Rattle.interval_sets.specs.Intervals.{is_above, is_below, lies_in};
ghost use Rattle.interval_sets.specs.Intervals.{IsAbove, IsBelow, IsInside, has_member, has_gap};
ghost use Rattle.interval_sets.specs.Intervals.{earlier_low, later_low, earlier_high, later_high};
ghost use Rattle.interval_sets.specs.Intervals.{overlap_of, hull_of, point_of};
ghost use Rattle.interval_sets.specs.Sets.{members, is_normal, AreHeld, IsNormal, normal_form};
ghost use Rattle.interval_sets.specs.Sets.{set_of, union_of, intersection_of, complement_of};
ghost use Rattle.interval_sets.specs.Cuts.{IsRising};
ghost use Rattle.interval_sets.specs.Examples.{open_interval, half_open};

/// The tests of ends decide the relations, and which fractions are on the inner side of the earlier
/// and of the later of two ends.
pub fn ends()
    ensures above { (low : Bound) (q : Rational) → IsTrue (is_above low q) ↔ IsAbove low q }
    ensures below { (high : Bound) (q : Rational) → IsTrue (is_below high q) ↔ IsBelow high q }
    ensures earlier_low { (a b : Bound) (q : Rational) → is_above (earlier_low a b) q
        ≡ (is_above a q || is_above b q) }
    ensures later_low { (a b : Bound) (q : Rational) → is_above (later_low a b) q
        ≡ (is_above a q && is_above b q) }
    ensures earlier_high { (a b : Bound) (q : Rational) → is_below (earlier_high a b) q
        ≡ (is_below a q && is_below b q) }
    ensures later_high { (a b : Bound) (q : Rational) → is_below (later_high a b) q
        ≡ (is_below a q || is_below b q) }
{}

/// What lies in an interval: a convex set of fractions, with its overlap and its hull with another.
pub fn intervals()
    ensures inside { (piece : Interval) (q : Rational) → IsTrue (lies_in piece q)
        ↔ IsInside piece q }
    ensures convex { (piece : Interval) (p q r : Rational) → IsTrue (lies_in piece p)
        → IsTrue (lies_in piece r)
        → p ≤ℚ q → q ≤ℚ r → IsTrue (lies_in piece q) }
    ensures point { (p q : Rational) → lies_in (point_of p) q ≡ same q p }
    ensures overlap { (p r : Interval) (q : Rational) → lies_in (overlap_of p r) q
        ≡ (lies_in p q && lies_in r q) }
    ensures hull_left { (p r : Interval) (q : Rational) → IsTrue (lies_in p q)
        → IsTrue (lies_in (hull_of p r) q) }
    ensures hull_right { (p r : Interval) (q : Rational) → IsTrue (lies_in r q)
        → IsTrue (lies_in (hull_of p r) q) }
    ensures hull_least { (p r piece : Interval) → IsTrue (has_member p.low p.high)
        → IsTrue (has_member r.low r.high)
        → ((q : Rational) → IsTrue (lies_in p q) → IsTrue (lies_in piece q))
        → ((q : Rational) → IsTrue (lies_in r q) → IsTrue (lies_in piece q))
        → (q : Rational) → IsTrue (lies_in (hull_of p r) q) → IsTrue (lies_in piece q) }
    ensures hull_joined { (p r : Interval) (q : Rational) → has_gap p.high r.low ≡ false
        → has_gap r.high p.low ≡ false
        → lies_in (hull_of p r) q ≡ (lies_in p q || lies_in r q) }
{}

/// `==` of ends and of intervals tells exactly whether two are equal.
pub fn equality()
    ensures bound { (a b : Bound) → Decides (BoundEq.eq-value.it a b) (a ≡ b) }
    ensures interval { (a b : Interval) → Decides (IntervalEq.eq-value.it a b) (a ≡ b) }
{}

/// Normal form is unique, its tests of ends tell whether some fraction lies in a piece and between
/// two pieces.
pub fn normal_form()
    ensures unique { (a b : List Interval) → IsNormal a → IsNormal b
        → ((q : Rational) → members a q ≡ members b q) → a ≡ b }
    ensures not_empty { (piece : Interval)
        → IsTrue (has_member piece.low piece.high) ↔ ((q : Rational) × IsTrue (lies_in piece q)) }
    ensures apart { (high low : Bound)
        → IsTrue (has_gap high low) ↔ ((q : Rational) × (is_below high q
        ≡ false) × (is_above low q ≡ false)) }
{}

/// The members of the sets that the operations make, for all lists of intervals, also those that
/// are not in normal form.
pub fn set_members()
    ensures normal_form { (a : List Interval) (q : Rational) → members (normal_form a) q
        ≡ members a q }
    ensures relation { (rel : Relation) (c q : Rational) → members (set_of rel c) q
        ≡ relates rel q c }
    ensures union { (a b : List Interval) (q : Rational) → members (union_of a b) q
        ≡ (members a q || members b q) }
    ensures intersection { (a b : List Interval) (q : Rational)
        → members (intersection_of a b) q ≡ (members a q && members b q) }
    ensures complement { (a : List Interval) (q : Rational) → members (complement_of a) q
        ≡ not (members a q) }
{}

/// The operations make pieces that are not empty and rise, with gaps between them, from all lists
/// of intervals.
pub fn set_order()
    ensures normal_form { (a : List Interval) → IsTrue (is_normal (normal_form a)) }
    ensures relation { (rel : Relation) (c : Rational) → IsTrue (is_normal (set_of rel c)) }
    ensures union { (a b : List Interval) → IsTrue (is_normal (union_of a b)) }
    ensures intersection { (a b : List Interval) → IsTrue (is_normal (intersection_of a b)) }
    ensures complement { (a : List Interval) → IsTrue (is_normal (complement_of a)) }
    ensures same { (a : List Interval) → IsNormal a → normal_form a ≡ a }
{}

/// The operations make no ends but those that they are given.
pub fn set_ends()
    ensures normal_form { (a : List Interval) → AreHeld a → AreHeld (normal_form a) }
    ensures relation { (rel : Relation) (c : Rational) → IsNumber c → AreHeld (set_of rel c) }
    ensures union { (a b : List Interval) → AreHeld a → AreHeld b → AreHeld (union_of a b) }
    ensures intersection { (a b : List Interval) → AreHeld a → AreHeld b
        → AreHeld (intersection_of a b) }
    ensures complement { (a : List Interval) → AreHeld a → AreHeld (complement_of a) }
{}

/// Which sets have no piece: those without members.
pub fn empty_sets()
    ensures normal { (a : List Interval) → IsTrue (is_normal a)
        → (a ≡ []) ↔ ((q : Rational) → members a q ≡ false) }
    ensures relation { (rel : Relation) (c : Rational) → ¬ (set_of rel c ≡ []) }
    ensures union { (a b : List Interval)
        → (union_of a b ≡ []) ↔ ((q : Rational) → (members a q || members b q) ≡ false) }
    ensures union_left { (a b : List Interval) → IsTrue (is_normal a) → ¬ (a ≡ [])
        → ¬ (union_of a b ≡ []) }
    ensures intersection { (a b : List Interval)
        → (intersection_of a b ≡ []) ↔ ((q : Rational) → (members a q && members b q) ≡ false) }
{}

/// Each cut is below each later one, and cuts rise where the first is below the second and the rest
/// rises.
pub fn cuts()
    ensures rising { (cuts : List Rational) → IsRising cuts → (i j : ℕ) (p q : Rational) → i < j
        → slice_get cuts i ≡ Some p → slice_get cuts j ≡ Some q → p <ℚ q }
    ensures one { (p : Rational) → IsRising (p ∷ []) }
    ensures next { (p q : Rational) (cuts : List Rational)
        → IsRising (p ∷ q ∷ cuts) ↔ ((p <ℚ q) × IsRising (q ∷ cuts)) }
{}

/// Worked examples, as the definitions compute them: two intervals that touch at a number are apart
/// where both leave it out, and one interval where one of them has it.
pub fn examples()
    ensures apart { is_normal (open_interval 1 5 ∷ open_interval 5 9 ∷ []) ≡ true }
    ensures one { is_normal (half_open 1 5 ∷ open_interval 5 9 ∷ []) ≡ false }
    ensures empty { is_normal (half_open 5 5 ∷ []) ≡ false }
    ensures touching { union_of (open_interval 5 9 ∷ []) (open_interval 1 5 ∷ [])
        ≡ open_interval 1 5 ∷ open_interval 5 9 ∷ [] }
    ensures joined { union_of (set_of Eq (whole (pos 5)))
        (open_interval 1 5 ∷ open_interval 5 9 ∷ []) ≡ open_interval 1 9 ∷ [] }
    ensures others { complement_of (set_of Eq (whole (pos 5))) ≡ set_of Ne (whole (pos 5)) }
    ensures between { intersection_of (set_of Gt (whole (pos 1))) (set_of Lt (whole (pos 5)))
        ≡ open_interval 1 5 ∷ [] }
    ensures nothing { intersection_of (set_of Lt (whole (pos 5))) (set_of Gt (whole (pos 5))) ≡ [] }
{}
