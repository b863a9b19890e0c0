//! The functions of formulas.
ghost use Rattle.std.specs.Prelude.{◌≡◌};
ghost use Rattle.expr_parser.specs.Formulas.{function_in};

/// A function of formulas.
#[derive(Clone, Copy, PartialEq, Eq)]
pub enum Function {
    Abs,
    Sgn,
    Step,
}

/// The function that a name is, ignoring the case of ASCII letters.
#[tactic(auto, unfolding(crate::specs::Formulas::function_in))]
pub(crate) fn function_in(name: &[u8]) -> Option<Function>
    ensures { result ≡ function_in name.now }
{
    if name.eq_ignore_ascii_case(b"abs") {
        return Some(Function::Abs);
    }
    if name.eq_ignore_ascii_case(b"sgn") {
        return Some(Function::Sgn);
    }
    if name.eq_ignore_ascii_case(b"step") {
        return Some(Function::Step);
    }
    None
}
