//! Worked examples. Each function here does nothing: its contract states what the definitions
//! compute.
#![tactic(auto, unfolding(crate::proofs::ExampleWords::piece_words))]

ghost use Rattle.std.specs.Prelude.{◌≡◌, pos, [], ◌∷◌};
ghost use Rattle.exact_fraction.specs.Number.{whole};
ghost use Rattle.table_plan.specs.Pieces.{piece};

/// The pieces of numbers among the cuts 2 and 5: below both, a cut, between them, the other cut,
/// above both. Among no cuts there is one piece.
pub fn pieces()
    ensures below { piece (whole (pos 2) ∷ whole (pos 5) ∷ []) (whole (pos 1)) ≡ 0 }
    ensures first { piece (whole (pos 2) ∷ whole (pos 5) ∷ []) (whole (pos 2)) ≡ 1 }
    ensures between { piece (whole (pos 2) ∷ whole (pos 5) ∷ []) (whole (pos 3)) ≡ 2 }
    ensures second { piece (whole (pos 2) ∷ whole (pos 5) ∷ []) (whole (pos 5)) ≡ 3 }
    ensures above { piece (whole (pos 2) ∷ whole (pos 5) ∷ []) (whole (pos 9)) ≡ 4 }
    ensures alone { piece [] (whole (pos 9)) ≡ 0 }
{}
