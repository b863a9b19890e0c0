//! The tokens of a formula.
use inp_text::Span;

/// What a token of a formula is.
#[derive(Clone, Copy, PartialEq, Eq)]
pub enum TokenKind {
    Name,
    Number,
    Plus,
    Minus,
    Star,
    Slash,
    Caret,
    Open,
    Close,
    /// A byte that begins no token.
    Stray,
    /// There is no token.
    End,
}

/// A token of a formula, and its place in the formula's text.
#[derive(Clone, Copy, PartialEq, Eq)]
pub struct Token {
    pub kind: TokenKind,
    pub span: Span,
}
