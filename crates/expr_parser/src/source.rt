//! The text of a formula, and the names that are declared before it.
ghost use Rattle.std.specs.Prelude.{◌≡◌, ◌-◌, length, take, drop};
ghost use Rattle.expr_parser.specs.Tokens.{token_text};
ghost use Rattle.expr_parser.specs.Names.{variable_of};
ghost use Rattle.expr_parser.specs.Formulas.{function_of, digit_in, digit_of};
ghost use Rattle.num_text.specs.Numbers.{number_in};

use crate::function::{Function, function_in};
use crate::name_index::NameIndex;
use crate::token::Token;
use exact_fraction::frac::Frac;
use num_text::numbers::number_in;
use std::marker::Model;

/// The text of a formula, and the names that are declared before it.
#[derive(Drop)]
pub(crate) struct SourceText<'a> {
    text: &'a [u8],
    names: &'a NameIndex,
}

impl<'a> Model for SourceText<'a> {
    ghost use Rattle.expr_parser.specs.Formulas.{Source};
    ghost use Rattle.expr_parser.specs.internal.Views.{source_of};

    ghost Value = { Source };

    ghost view = { source_of };
}

impl<'a> SourceText<'a> {
    pub(crate) fn new(text: &'a [u8], names: &'a NameIndex) -> SourceText<'a>
        ensures { result ≡ record { text = text.now; names = names.now } }
    {
        SourceText { text, names }
    }

    /// The length of the text.
    pub(crate) fn len(&self) -> usize
        ensures { result ≡ length self.now.text }
    {
        self.text.len()
    }

    /// The bytes of a token.
    #[tactic(auto, unfolding(crate::specs::Tokens::token_text))]
    pub(crate) fn token_text(&self, token: Token) -> &'a [u8]
        ensures value { result.now ≡ token_text self.now.text token }
    {
        cut(self.text, token.span.start, token.span.end)
    }

    /// The variable that a token is.
    pub(crate) fn variable_of(&self, token: Token) -> Option<u32>
        ensures { result ≡ variable_of self.now.names (token_text self.now.text token) }
    {
        self.names.find_variable(self.token_text(token))
    }

    /// The function that a token is.
    pub(crate) fn function_of(&self, token: Token) -> Option<Function>
        ensures { result ≡ function_of self.now token }
    {
        function_in(self.token_text(token))
    }

    /// The number that a token writes.
    pub(crate) fn number_of(&self, token: Token) -> Option<Frac>
        ensures { result ≡ number_in (token_text self.now.text token) }
    {
        number_in(self.token_text(token))
    }

    /// The digit that a token is.
    #[tactic(auto, unfolding(crate::specs::Formulas::digit_of))]
    pub(crate) fn digit_of(&self, token: Token) -> Option<u8>
        ensures { result ≡ digit_of self.now token }
    {
        digit_in(self.token_text(token))
    }
}

/// The bytes from `start` to before `end`, as far as there are such.
fn cut(text: &[u8], start: usize, end: usize) -> &[u8]
    ensures { result.now ≡ take (end - start) (drop start text.now) }
{
    first_of(past(text, start), end.saturating_sub(start))
}

/// The bytes from a place on.
fn past(text: &[u8], start: usize) -> &[u8]
    ensures { result.now ≡ drop start text.now }
{
    if start < text.len() {
        &text[start..]
    } else {
        &text[text.len()..]
    }
}

/// The first bytes of a text, and all of it where it has fewer.
fn first_of(text: &[u8], length: usize) -> &[u8]
    ensures { result.now ≡ take length text.now }
{
    if length < text.len() {
        &text[..length]
    } else {
        text
    }
}

/// The digit from 0 to 8 that a text is.
fn digit_in(text: &[u8]) -> Option<u8>
    ensures { result ≡ digit_in text.now }
{
    match text {
        [byte] => {
            if b'0' <= *byte && *byte <= b'8' {
                Some(*byte - b'0')
            } else {
                None
            }
        }
        _ => None,
    }
}
