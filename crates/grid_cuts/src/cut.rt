//! Numbers as they are put in order.
use exact_fraction::frac::Frac;
use std::cmp::Ordering;

/// A number among the cuts of a key, in the order of numbers.
#[derive(Clone, Copy, Debug)]
pub(crate) struct Cut {
    pub(crate) number: Frac,
}

/// Two cuts are equal where their numbers are the same.
impl PartialEq for Cut {
    ghost use Rattle.std.specs.Cmp.{eq_by_cmp_equiv, on_per, partial_equiv_from_equiv};
    ghost use Rattle.std.specs.Ordering.{is_eq};
    ghost use Rattle.grid_cuts.specs.internal.NumberOrder.{compares_total, cut_cmp, number_of};

    ghost eq = { λ cut other. is_eq (cut_cmp cut other) };

    ghost laws = { on_per number_of (partial_equiv_from_equiv (eq_by_cmp_equiv compares_total)) };

    fn eq(&self, other: &Cut) -> bool {
        self.number.cmp(&other.number).is_eq()
    }
}

impl Eq for Cut {
    ghost use Rattle.std.specs.Cmp.{eq_by_cmp_equiv, on_equiv};
    ghost use Rattle.grid_cuts.specs.internal.NumberOrder.{compares_total, number_of};

    ghost laws = { on_equiv number_of (eq_by_cmp_equiv compares_total) };
}

impl Ord for Cut {
    ghost use Rattle.std.specs.Prelude.{refl};
    ghost use Rattle.std.specs.Cmp.{on_total};
    ghost use Rattle.grid_cuts.specs.internal.NumberOrder.{compares_total, cut_cmp, number_of};

    ghost cmp = { cut_cmp };

    ghost total = { on_total number_of compares_total };

    ghost matches_partial_cmp = { λ cut other. refl };

    ghost matches_eq = { λ cut other. refl };

    fn cmp(&self, other: &Cut) -> Ordering {
        self.number.cmp(&other.number)
    }
}

impl PartialOrd for Cut {
    ghost use Rattle.std.specs.Prelude.{Some, refl};
    ghost use Rattle.std.specs.Cmp.{on_total, po};
    ghost use Rattle.grid_cuts.specs.internal.NumberOrder.{compares_total, cut_cmp, number_of};

    ghost partial_cmp = { λ cut other. Some (cut_cmp cut other) };

    ghost laws = { po (on_total number_of compares_total) (λ cut other. refl) };

    fn partial_cmp(&self, other: &Cut) -> Option<Ordering> {
        Some(self.cmp(other))
    }
}
