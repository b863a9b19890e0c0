//! Worked examples: tokens, and what texts are read as. Each function here does nothing: its
//! contract states examples, which the proofs compute.
#![tactic(auto, unfolding(crate::proofs::ExampleWords::reading_words))]

ghost use Rattle.expr_parser.specs.examples.Lexing.{AreNumbers, AreTokens, AreFound};
ghost use Rattle.expr_parser.specs.examples.Readings.{AreRead, AreUnknown, AreOutside, AreBounds};

/// Numbers are read as long as they go, and what is left of a text gives the next token.
pub fn numbers()
    ensures { AreNumbers }
{}

/// Names, signs, spaces, and bytes that begin no token.
pub fn tokens()
    ensures { AreTokens }
{}

/// Names that are found, ignoring case, and those of variables among them.
pub fn names()
    ensures { AreFound }
{}

/// Formulas.
pub fn formulas()
    ensures { AreRead }
{}

/// Names that are no variables, and functions that there are not.
pub fn unknown_names()
    ensures { AreUnknown }
{}

/// Texts outside the grammar.
pub fn other_texts()
    ensures { AreOutside }
{}

/// Numbers past their bounds, and formulas of 64 and of 65 levels.
pub fn bounds()
    ensures { AreBounds }
{}
