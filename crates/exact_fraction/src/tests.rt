//! Values that were worked out by hand.
use crate::error::{DivFault, Overflow};
use crate::frac::Frac;
use crate::moment::Moment;
use crate::relation::Relation;

/// The numerator and the denominator, where there is a number.
fn parts(number: Option<Frac>) -> Option<(i64, i64)> {
    match number {
        Some(number) => Some((number.num(), number.den())),
        None => None,
    }
}

#[test]
fn makes_lowest_terms(rt: HostRuntime) {
    assert_eq!(rt; parts(Frac::make(6, 4)), Some((3, 2)));
    assert_eq!(rt; parts(Frac::make(6, -4)), None);
    assert_eq!(rt; parts(Frac::make(0, 7)), Some((0, 1)));
    assert_eq!(rt; parts(Frac::make(9223372036854775808, 1)), None);
    assert_eq!(rt; parts(Frac::make(-9223372036854775808, 1)), None);
    assert_eq!(rt;
        parts(Frac::make(27670116110564327424, 6)),
        Some((4611686018427387904, 1))
    );
}

#[test]
fn computes(rt: HostRuntime) {
    let two_thirds = Frac::make(2, 3).expect(&rt, "two thirds");
    let three_quarters = Frac::make(-3, 4).expect(&rt, "three quarters below 0");
    let tiny = Frac::make(-1, 2_000_000_000).expect(&rt, "a tiny number below 0");
    let greatest = Frac::make(9223372036854775807, 1).expect(&rt, "the greatest number");
    assert_eq!(rt; parts(two_thirds.add(three_quarters).ok()), Some((-1, 12)));
    assert_eq!(rt; parts(two_thirds.sub(three_quarters).ok()), Some((17, 12)));
    assert_eq!(rt; parts(two_thirds.mul(three_quarters).ok()), Some((-1, 2)));
    assert_eq!(rt; parts(two_thirds.div(three_quarters).ok()), Some((-8, 9)));
    assert_eq!(rt;
        parts(two_thirds.round9().ok()),
        Some((666666667, 1000000000))
    );
    assert_eq!(rt; parts(tiny.round9().ok()), Some((-1, 1000000000)));
    assert!(rt; greatest.add(Frac::one()) == Err(Overflow));
    assert!(rt; greatest.round9() == Ok(greatest));
    assert!(rt; Frac::one().div(Frac::zero()) == Err(DivFault::Zero));
    assert!(rt; greatest.div(tiny) == Err(DivFault::Overflow));
    assert!(rt; two_thirds.neg().max(three_quarters) == two_thirds.neg());
    assert!(rt; two_thirds.neg().min(three_quarters) == three_quarters);
    assert!(rt; Relation::Ge.holds(&two_thirds, &two_thirds));
    assert!(rt; !Relation::Gt.holds(&two_thirds, &two_thirds));
}

#[test]
fn makes_whole_numbers(rt: HostRuntime) {
    assert_eq!(rt;
        parts(Some(Frac::whole(-2147483648))),
        Some((-2147483648, 1))
    );
    assert_eq!(rt;
        parts(Some(Frac::natural(4294967295))),
        Some((4294967295, 1))
    );
    assert!(rt; Frac::whole(0).is_zero());
    assert!(rt; !Frac::natural(1).is_zero());
    assert!(rt; Frac::whole(-1).is_less(&Frac::zero()));
    assert!(rt; !Frac::zero().is_less(&Frac::zero()));
}

#[test]
fn makes_decimals(rt: HostRuntime) {
    assert_eq!(rt; parts(Frac::decimal(12345, 3)), Some((2469, 200)));
    assert_eq!(rt; parts(Frac::decimal(-1500, 2)), Some((-15, 1)));
    assert_eq!(rt; parts(Frac::decimal(0, 4294967295)), Some((0, 1)));
    assert_eq!(rt; parts(Frac::decimal(7, 0)), Some((7, 1)));
    assert_eq!(rt; parts(Frac::decimal(1, 18)), Some((1, 1000000000000000000)));
    assert_eq!(rt; parts(Frac::decimal(1, 19)), None);
    assert_eq!(rt; parts(Frac::decimal(-9223372036854775808, 63)), None);
    assert_eq!(rt;
        parts(Frac::decimal(-9223372036854775808, 27)),
        Some((-68719476736, 7450580596923828125))
    );
    assert_eq!(rt;
        parts(Frac::decimal(9223372036854775807, 0)),
        Some((9223372036854775807, 1))
    );
    assert_eq!(rt; parts(Frac::decimal(-9223372036854775808, 0)), None);
}

#[test]
fn divides(rt: HostRuntime) {
    let half = Frac::make(1, 2).expect(&rt, "one half");
    let greatest = Frac::make(9223372036854775807, 1).expect(&rt, "the greatest number");
    let low = Frac::whole(-3);
    let two = Frac::natural(2);
    assert!(rt; !low.is_zero());
    assert!(rt; !two.is_zero());
    assert!(rt; !half.is_zero());
    assert_eq!(rt; parts(half.quotient(low).ok()), Some((-1, 6)));
    assert_eq!(rt; parts(half.quotient(two).ok()), Some((1, 4)));
    assert!(rt; greatest.quotient(half) == Err(Overflow));
}

#[test]
fn bounds_moments(rt: HostRuntime) {
    assert!(rt; Moment::make(-62_135_596_801).is_none());
    assert!(rt; Moment::make(253_402_300_800).is_none());
    let first = Moment::make(-62_135_596_800).expect(&rt, "the first second of the year 1");
    assert_eq!(rt; first.seconds(), -62_135_596_800);
}
