//! Laws of the numbers. Each function here does nothing: its contract states laws over all
//! fractions, in lowest terms or not, for the proofs of the crates above.
ghost use Rattle.std.specs.Prelude.{
  ◌≡◌,
  ◌↔◌,
  ◌⊎◌,
  IsTrue,
  true,
  false,
  not,
  ◌&&◌,
  ℕ,
  pred,
  ◌<◌,
  ◌≤◌,
  ◌*◌,
  ◌^◌,
  ℤ,
  pos,
  negsuc,
  ◌+ℤ◌,
  ◌-ℤ◌,
  ◌*ℤ◌,
  ◌≤ℤ◌,
  ◌<ℤ◌,
  int_lt,
  unsigned_abs,
};
ghost use Rattle.std.specs.Int.{IsGcd, ◌∣◌, int_div_euclid};
ghost use Rattle.std.specs.Bool.{Decides};
ghost use Rattle.std.specs.Ordering.{MatchOrdering};
ghost use Rattle.exact_fraction.specs.Number.{
  Rational,
  den,
  fits,
  gcd,
  ratio,
  whole,
  zero,
  one,
  IsLowest,
};
ghost use Rattle.exact_fraction.specs.Order.{
  ◌≤ℚ◌,
  ◌<ℚ◌,
  ◌=ℚ◌,
  compares,
  less,
  same,
  lesser_of,
  greater_of,
  IsBetween,
};
ghost use Rattle.exact_fraction.specs.Operations.{
  sum_of,
  difference_of,
  product_of,
  quotient_of,
  negation_of,
  round9_of,
  nearest_whole,
  IsNearest,
  middle_of,
  line_at,
};
ghost use Rattle.exact_fraction.specs.Checked.{made, fitting, checked, is_zero, checked_quotient};
ghost use Rattle.exact_fraction.specs.Moments.{moment_at};
ghost use Rattle.exact_fraction.specs.Relations.{relates};
ghost use Rattle.exact_fraction.specs.declared.frac.Frac.{Frac};
ghost use Rattle.exact_fraction.specs.declared.moment.Moment.{Moment};
ghost use Rattle.exact_fraction.specs.declared.relation.Relation.{Relation};
ghost use Rattle.exact_fraction.specs.declared.relation.Relation.TheVariants.{
  Eq,
  Ne,
  Lt,
  Le,
  Gt,
  Ge,
};
ghost use Rattle.exact_fraction.specs.declared.error.DivFault.{DivFault};
ghost use Rattle.exact_fraction.specs.declared.error.DivFault.TheVariants as fault;
ghost use Rattle.exact_fraction.specs.contracts.frac.FracPartialEq.TheImpl as FracEq;
ghost use Rattle.exact_fraction.specs.contracts.moment.MomentPartialEq.TheImpl as MomentEq;
ghost use Rattle.exact_fraction.specs.contracts.relation.RelationPartialEq.TheImpl as RelationEq;
ghost use Rattle.exact_fraction.specs.contracts.error.DivFaultPartialEq.TheImpl as DivFaultEq;

/// A ratio, and so the result of each operation, is in lowest terms and has the value of its two
/// numbers.
pub fn lowest_terms()
    ensures positive { (q : Rational) → 0 < den q }
    ensures greatest { (a b : ℕ) → IsGcd a b (gcd a b) }
    ensures lowest { (n : ℤ) (d : ℕ) → 0 < d → IsLowest (ratio n d) }
    ensures value { (n : ℤ) (d : ℕ) → 0 < d
        → (ratio n d).num *ℤ pos d ≡ n *ℤ pos (den (ratio n d)) }
    ensures no_greater { (n : ℤ) (d : ℕ) → 0 < d
        → (unsigned_abs (ratio n d).num ≤ unsigned_abs n) × (den (ratio n d) ≤ d) }
    ensures divides { (n : ℤ) (d : ℕ) → 0 < d → den (ratio n d) ∣ d }
    ensures fits { (n : ℤ) (d : ℕ) → 0 < d → unsigned_abs n < 2 ^ 63 → d < 2 ^ 63
        → IsTrue (fits (ratio n d)) }
    ensures overflows { (n : ℤ) (d : ℕ) → 0 < d → 2 ^ 63 * d ≤ unsigned_abs n
        → fits (ratio n d) ≡ false }
    ensures of_same { (n m : ℤ) (d e : ℕ) → 0 < d → 0 < e → n *ℤ pos e ≡ m *ℤ pos d
        → ratio n d ≡ ratio m e }
    ensures unique { (p q : Rational) → IsLowest p → IsLowest q → p =ℚ q → p ≡ q }
    ensures itself { (q : Rational) → IsLowest q → ratio q.num (den q) ≡ q }
    ensures of_whole { (n : ℤ) → IsLowest (whole n) }
    ensures of_sum { (p q : Rational) → IsLowest (sum_of p q) × IsLowest (difference_of p q) }
    ensures of_product { (p q : Rational) → IsLowest (product_of p q) × IsLowest (quotient_of p q) }
    ensures of_sign { (p : Rational) → IsLowest p → IsLowest (negation_of p) }
    ensures of_rounding { (q : Rational) → IsLowest (round9_of q) }
{}

/// Ratios are ordered as the fractions that they reduce, and over one denominator as their
/// numerators.
pub fn ratios()
    ensures at_most { (n m : ℤ) (d e : ℕ) → 0 < d → 0 < e → (n *ℤ pos e) ≤ℤ (m *ℤ pos d)
        → ratio n d ≤ℚ ratio m e }
    ensures below { (n m : ℤ) (d e : ℕ) → 0 < d → 0 < e → (n *ℤ pos e) <ℤ (m *ℤ pos d)
        → ratio n d <ℚ ratio m e }
    ensures same { (n : ℤ) (d : ℕ) → 0 < d → ratio n d =ℚ record { num = n; below = pred d } }
    ensures numerators_at_most { (n m : ℤ) (d : ℕ) → 0 < d → n ≤ℤ m → ratio n d ≤ℚ ratio m d }
    ensures numerators_below { (n m : ℤ) (d : ℕ) → 0 < d → n <ℤ m → ratio n d <ℚ ratio m d }
    ensures less_left { (n : ℤ) (d : ℕ) (q : Rational) → 0 < d
        → less (ratio n d) q ≡ int_lt (n *ℤ pos (den q)) (q.num *ℤ pos d) }
    ensures less_right { (n : ℤ) (d : ℕ) (q : Rational) → 0 < d
        → less q (ratio n d) ≡ int_lt (q.num *ℤ pos d) (n *ℤ pos (den q)) }
{}

/// A sum and a difference over a common multiple of the denominators, and the bounds under which
/// they fit.
pub fn common_denominators()
    ensures difference { (p q : Rational) (j k l : ℕ) → 0 < l → l ≡ k * den p → l ≡ j * den q
        → difference_of p q ≡ ratio (p.num *ℤ pos k -ℤ q.num *ℤ pos j) l }
    ensures sum { (p q : Rational) (j k l : ℕ) → 0 < l → l ≡ k * den p → l ≡ j * den q
        → sum_of p q ≡ ratio (p.num *ℤ pos k +ℤ q.num *ℤ pos j) l }
    ensures difference_fits { (p q : Rational) (j k l : ℕ)
        → 0 < l → l ≡ k * den p → l ≡ j * den q
        → unsigned_abs (p.num *ℤ pos k -ℤ q.num *ℤ pos j) < 2 ^ 63 → l < 2 ^ 63
        → IsTrue (fits (difference_of p q)) }
    ensures sum_fits { (p q : Rational) (j k l : ℕ)
        → 0 < l → l ≡ k * den p → l ≡ j * den q
        → unsigned_abs (p.num *ℤ pos k +ℤ q.num *ℤ pos j) < 2 ^ 63 → l < 2 ^ 63
        → IsTrue (fits (sum_of p q)) }
{}

/// The quotient of whole numbers by a positive one is the floor, and there is one floor.
pub fn floors()
    ensures at_most { (n : ℤ) (d : ℕ) → 0 < d → (pos d *ℤ int_div_euclid n (pos d)) ≤ℤ n }
    ensures above { (n : ℤ) (d : ℕ) → 0 < d
        → n <ℤ (pos d *ℤ (int_div_euclid n (pos d) +ℤ pos 1)) }
    ensures unique { (n m : ℤ) (d : ℕ) → 0 < d → (pos d *ℤ m) ≤ℤ n
        → n <ℤ (pos d *ℤ (m +ℤ pos 1)) → int_div_euclid n (pos d) ≡ m }
{}

/// The order is a dense total order, and the lesser and the greater of two numbers are their
/// bounds.
pub fn order()
    ensures reflexive { (p : Rational) → p ≤ℚ p }
    ensures total { (p q : Rational) → (p ≤ℚ q) ⊎ (q <ℚ p) }
    ensures apart { (p q : Rational) → p ≤ℚ q → ¬ (q <ℚ p) }
    ensures antisymmetric { (p q : Rational) → p ≤ℚ q → q ≤ℚ p → p =ℚ q }
    ensures same_is_at_most { (p q : Rational) → p =ℚ q → (p ≤ℚ q) × (q ≤ℚ p) }
    ensures same_symmetric { (p q : Rational) → p =ℚ q → q =ℚ p }
    ensures same_transitive { (p q r : Rational) → p =ℚ q → q =ℚ r → p =ℚ r }
    ensures below_is_at_most { (p q : Rational) → p <ℚ q → p ≤ℚ q }
    ensures transitive { (p q r : Rational) → p ≤ℚ q → q ≤ℚ r → p ≤ℚ r }
    ensures below_transitive { (p q r : Rational) → p <ℚ q → q <ℚ r → p <ℚ r }
    ensures below_at_most { (p q r : Rational) → p <ℚ q → q ≤ℚ r → p <ℚ r }
    ensures at_most_below { (p q r : Rational) → p ≤ℚ q → q <ℚ r → p <ℚ r }
    ensures lesser { (p q : Rational) → (lesser_of p q ≤ℚ p) × (lesser_of p q ≤ℚ q) }
    ensures greater { (p q : Rational) → (p ≤ℚ greater_of p q) × (q ≤ℚ greater_of p q) }
    ensures dense { (p q : Rational) → p <ℚ q → (p <ℚ middle_of p q) × (middle_of p q <ℚ q) }
{}

/// Each test agrees with the order.
pub fn tests()
    ensures less { (p q : Rational) → IsTrue (less p q) ↔ (p <ℚ q) }
    ensures not_less { (p q : Rational) → less p q ≡ false ↔ (q ≤ℚ p) }
    ensures same { (p q : Rational) → IsTrue (same p q) ↔ (p =ℚ q) }
    ensures compares { (p q : Rational) → MatchOrdering (compares p q) (p <ℚ q) (p =ℚ q) (q <ℚ p) }
    ensures less_of_same { (p q r : Rational) → p =ℚ q
        → (less p r ≡ less q r) × (less r p ≡ less r q) }
    ensures same_of_same { (p q r : Rational) → p =ℚ q
        → (same p r ≡ same q r) × (same r p ≡ same r q) }
    ensures same_by_less { (p q : Rational) → same p q ≡ (not (less p q) && not (less q p)) }
    ensures is_zero { (q : Rational) → IsTrue (is_zero q) ↔ (q =ℚ zero) }
    ensures above_zero { (q : Rational) → zero <ℚ q → is_zero q ≡ false }
    ensures below_zero { (q : Rational) → q <ℚ zero → is_zero q ≡ false }
    ensures equal { (p q : Rational) → IsTrue (relates Eq p q) ↔ (p =ℚ q) }
    ensures unequal { (p q : Rational) → IsTrue (relates Ne p q) ↔ (¬ (p =ℚ q)) }
    ensures below { (p q : Rational) → IsTrue (relates Lt p q) ↔ (p <ℚ q) }
    ensures at_most { (p q : Rational) → IsTrue (relates Le p q) ↔ (p ≤ℚ q) }
    ensures above { (p q : Rational) → IsTrue (relates Gt p q) ↔ (q <ℚ p) }
    ensures at_least { (p q : Rational) → IsTrue (relates Ge p q) ↔ (q ≤ℚ p) }
{}

/// What a test and a checked answer tell, one way or the other.
pub fn tells()
    ensures less { (p q : Rational)
        → ((less p q ≡ true) × (p <ℚ q)) ⊎ ((less p q ≡ false) × (q ≤ℚ p)) }
    ensures same { (p q : Rational)
        → ((same p q ≡ true) × (p =ℚ q)) ⊎ ((same p q ≡ false) × ¬ (p =ℚ q)) }
    ensures fitting { (q : Rational)
        → ((fits q ≡ true) × (fitting q ≡ Some q)) ⊎ ((fits q ≡ false) × (fitting q ≡ None)) }
    ensures checked { (q : Rational)
        → ((fits q ≡ true) × (checked q ≡ Ok q))
        ⊎ ((fits q ≡ false) × (checked q ≡ Err (record {}))) }
    ensures quotient { (p q : Rational)
        → ((is_zero q ≡ true) × (checked_quotient p q ≡ Err fault.Zero))
        ⊎ ((is_zero q ≡ false) × (fits (quotient_of p q) ≡ true)
        × (checked_quotient p q ≡ Ok (quotient_of p q)))
        ⊎ ((is_zero q ≡ false) × (fits (quotient_of p q) ≡ false)
        × (checked_quotient p q ≡ Err fault.Overflow)) }
{}

/// Sums and differences keep the order of what is added to, and turn that of what is taken away; a
/// sign turns the order.
pub fn sums()
    ensures commutes { (p q : Rational) → sum_of p q ≡ sum_of q p }
    ensures associates { (p q r : Rational) → sum_of (sum_of p q) r ≡ sum_of p (sum_of q r) }
    ensures with_zero { (p : Rational) → sum_of p zero =ℚ p }
    ensures with_difference { (p q : Rational) → sum_of p (difference_of q p) =ℚ q }
    ensures as_sum { (p q : Rational) → difference_of p q ≡ sum_of p (negation_of q) }
    ensures of_same { (p q r : Rational) → p =ℚ q → sum_of p r ≡ sum_of q r }
    ensures difference_of_same { (p q r : Rational) → p =ℚ q
        → (difference_of p r ≡ difference_of q r) × (difference_of r p ≡ difference_of r q) }
    ensures at_most { (p q r : Rational) → p ≤ℚ q → sum_of p r ≤ℚ sum_of q r }
    ensures below { (p q r : Rational) → p <ℚ q → sum_of p r <ℚ sum_of q r }
    ensures difference_at_most { (p q r : Rational) → p ≤ℚ q
        → difference_of p r ≤ℚ difference_of q r }
    ensures difference_below { (p q r : Rational) → p <ℚ q
        → difference_of p r <ℚ difference_of q r }
    ensures taken_at_most { (p q r : Rational) → p ≤ℚ q → difference_of r q ≤ℚ difference_of r p }
    ensures taken_below { (p q r : Rational) → p <ℚ q → difference_of r q <ℚ difference_of r p }
    ensures difference_sign { (p q : Rational) → p ≤ℚ q → zero ≤ℚ difference_of q p }
    ensures sign_at_most { (p q : Rational) → p ≤ℚ q → negation_of q ≤ℚ negation_of p }
    ensures sign_below { (p q : Rational) → p <ℚ q → negation_of q <ℚ negation_of p }
    ensures sign_twice { (p : Rational) → negation_of (negation_of p) ≡ p }
{}

/// A product or quotient by a positive number keeps the order, and one by a negative number turns
/// it. A quotient by a greater positive number is nearer to 0.
pub fn products()
    ensures commutes { (p q : Rational) → product_of p q ≡ product_of q p }
    ensures with_zero { (p : Rational) → product_of p zero =ℚ zero }
    ensures with_one { (p : Rational) → product_of p one =ℚ p }
    ensures of_same { (p q r : Rational) → p =ℚ q → product_of p r ≡ product_of q r }
    ensures at_most { (p q r : Rational) → zero ≤ℚ r → p ≤ℚ q → product_of p r ≤ℚ product_of q r }
    ensures below { (p q r : Rational) → zero <ℚ r → p <ℚ q → product_of p r <ℚ product_of q r }
    ensures turned_at_most { (p q r : Rational) → r ≤ℚ zero → p ≤ℚ q
        → product_of q r ≤ℚ product_of p r }
    ensures turned_below { (p q r : Rational) → r <ℚ zero → p <ℚ q
        → product_of q r <ℚ product_of p r }
    ensures quotient { (p q : Rational) → ¬ (q =ℚ zero) → product_of (quotient_of p q) q =ℚ p }
    ensures quotient_at_most { (p q r : Rational) → zero <ℚ r → p ≤ℚ q
        → quotient_of p r ≤ℚ quotient_of q r }
    ensures quotient_turned { (p q r : Rational) → r <ℚ zero → p ≤ℚ q
        → quotient_of q r ≤ℚ quotient_of p r }
    ensures quotient_below { (p q r : Rational) → zero <ℚ r → p <ℚ q
        → quotient_of p r <ℚ quotient_of q r }
    ensures quotient_turned_below { (p q r : Rational) → r <ℚ zero → p <ℚ q
        → quotient_of q r <ℚ quotient_of p r }
    ensures by_greater { (p r s : Rational) → zero ≤ℚ p → zero <ℚ r → zero <ℚ s → r ≤ℚ s
        → quotient_of p s ≤ℚ quotient_of p r }
    ensures by_greater_turned { (p r s : Rational) → p ≤ℚ zero → zero <ℚ r → zero <ℚ s → r ≤ℚ s
        → quotient_of p r ≤ℚ quotient_of p s }
    ensures quotient_signs { (p r : Rational) → ¬ (r =ℚ zero)
        → quotient_of (negation_of p) (negation_of r) ≡ quotient_of p r }
{}

/// A straight line goes through its two points, rises throughout or falls throughout, and a value
/// on it between two points lies between the values of the points.
pub fn straight_line()
    ensures at_first { (x0 y0 x1 y1 : Rational) → x0 <ℚ x1 → line_at x0 y0 x1 y1 x0 =ℚ y0 }
    ensures at_last { (x0 y0 x1 y1 : Rational) → x0 <ℚ x1 → line_at x0 y0 x1 y1 x1 =ℚ y1 }
    ensures rising { (x0 y0 x1 y1 x z : Rational) → x0 <ℚ x1 → y0 ≤ℚ y1 → x ≤ℚ z
        → line_at x0 y0 x1 y1 x ≤ℚ line_at x0 y0 x1 y1 z }
    ensures falling { (x0 y0 x1 y1 x z : Rational) → x0 <ℚ x1 → y1 ≤ℚ y0 → x ≤ℚ z
        → line_at x0 y0 x1 y1 z ≤ℚ line_at x0 y0 x1 y1 x }
    ensures rising_below { (x0 y0 x1 y1 x z : Rational) → x0 <ℚ x1 → y0 <ℚ y1 → x <ℚ z
        → line_at x0 y0 x1 y1 x <ℚ line_at x0 y0 x1 y1 z }
    ensures falling_below { (x0 y0 x1 y1 x z : Rational) → x0 <ℚ x1 → y1 <ℚ y0 → x <ℚ z
        → line_at x0 y0 x1 y1 z <ℚ line_at x0 y0 x1 y1 x }
    ensures between { (x0 y0 x1 y1 x : Rational) → x0 <ℚ x1 → x0 ≤ℚ x → x ≤ℚ x1
        → IsBetween y0 y1 (line_at x0 y0 x1 y1 x) }
{}

/// Rounding gives the nearest multiple of 10^-9, half away from 0.
pub fn rounding()
    ensures nearest { (n : ℤ) (d : ℕ) → 0 < d → IsNearest n d (nearest_whole n d) }
    ensures multiple { (q : Rational) → (round9_of q).num *ℤ pos 1000000000
        ≡ nearest_whole (q.num *ℤ pos 1000000000) (den q) *ℤ pos (den (round9_of q)) }
    ensures of_ratio { (n : ℤ) (d : ℕ) → 0 < d
        → round9_of (ratio n d) ≡ ratio (nearest_whole (n *ℤ pos 1000000000) d) 1000000000 }
    ensures divides { (q : Rational) → den (round9_of q) ∣ 1000000000 }
    ensures at_most { (p q : Rational) → p ≤ℚ q → round9_of p ≤ℚ round9_of q }
{}

/// `==` of numbers, moments, relations and faults tells exactly whether two are equal.
pub fn equality()
    ensures fraction { (a b : Frac) → Decides (FracEq.eq-value.it a b) (a ≡ b) }
    ensures moment { (a b : Moment) → Decides (MomentEq.eq-value.it a b) (a ≡ b) }
    ensures relation { (a b : Relation) → Decides (RelationEq.eq-value.it a b) (a ≡ b) }
    ensures fault { (a b : DivFault) → Decides (DivFaultEq.eq-value.it a b) (a ≡ b) }
{}

/// Worked examples, as the definitions compute them.
pub fn examples()
    ensures cancelled { made (pos 6) (pos 4) ≡ Some (record { num = pos 3; below = 1 }) }
    ensures below_one { made (pos 6) (negsuc 3) ≡ None }
    ensures too_large { made (pos 9223372036854775808) (pos 1) ≡ None }
    ensures too_low { made (negsuc 9223372036854775807) (pos 1) ≡ None }
    ensures wide { made (pos 27670116110564327424) (pos 6)
        ≡ Some (whole (pos 4611686018427387904)) }
    ensures sum { checked (sum_of (ratio (pos 1) 6) (ratio (pos 1) 10))
        ≡ Ok (record { num = pos 4; below = 14 }) }
    ensures overflow { checked (sum_of (whole (pos 9223372036854775807)) one) ≡ Err (record {}) }
    ensures difference { difference_of (ratio (pos 1) 3) (ratio (pos 1) 2)
        ≡ record { num = negsuc 0; below = 5 } }
    ensures product { product_of (ratio (pos 2) 3) (ratio (pos 3) 4)
        ≡ record { num = pos 1; below = 1 } }
    ensures quotient { quotient_of (ratio (pos 1) 2) (ratio (negsuc 2) 4)
        ≡ record { num = negsuc 1; below = 2 } }
    ensures zero_divisor { checked_quotient one zero ≡ Err fault.Zero }
    ensures rounded { round9_of (ratio (pos 2) 3)
        ≡ record { num = pos 666666667; below = 999999999 } }
    ensures rounded_away { round9_of (ratio (negsuc 0) 2000000000)
        ≡ record { num = negsuc 0; below = 999999999 } }
    ensures halfway { line_at zero one (whole (pos 2)) (whole (pos 4)) one
        ≡ record { num = pos 5; below = 1 } }
    ensures first_moment { moment_at (negsuc 62135596799) ≡ Some (negsuc 62135596799) }
    ensures before_first { moment_at (negsuc 62135596800) ≡ None }
    ensures last_moment { moment_at (pos 253402300799) ≡ Some (pos 253402300799) }
    ensures after_last { moment_at (pos 253402300800) ≡ None }
{}
