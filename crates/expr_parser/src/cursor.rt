//! A place among the tokens of a formula.
ghost use Rattle.std.specs.Prelude.{◌≡◌, length, drop};
ghost use Rattle.expr_parser.specs.Parsers.{Reads, is_close, take_token as token_taken};
ghost use Rattle.expr_parser.specs.Tokens.{kind};

use crate::failure::Failure;
use crate::token::{Token, TokenKind};
use std::marker::Model;

/// A place among the tokens of a formula. Contracts see the tokens from there on.
#[derive(Drop)]
pub(crate) struct Cursor<'a> {
    all: &'a [Token],
    at: usize,
}

impl<'a> Model for Cursor<'a> {
    ghost use Rattle.std.specs.Prelude.{List};
    ghost use Rattle.expr_parser.specs.declared.token.Token.{Token};
    ghost use Rattle.expr_parser.specs.internal.Views.{tokens_ahead};

    ghost Value = { List Token };

    ghost view = { tokens_ahead };
}

impl<'a> Cursor<'a> {
    pub(crate) fn new(all: &'a [Token]) -> Cursor<'a>
        ensures { result ≡ all.now }
    {
        Cursor { all, at: 0 }
    }

    /// The kind of the next token.
    pub(crate) fn peek(&self) -> TokenKind
        ensures { result ≡ kind self.now }
    {
        kind_at(self.all, self.at)
    }

    /// How many tokens there are from the next one on.
    pub(crate) fn left(&self) -> usize
        ensures { result ≡ length self.now }
    {
        self.all.len().saturating_sub(self.at)
    }

    /// Takes the next token.
    pub(crate) fn take(&mut self) -> Result<Token, Failure>
        ensures { Reads (token_taken self.old) result self.new }
    {
        if self.at < self.all.len() {
            let token = self.all[self.at];
            self.at += 1;
            Ok(token)
        } else {
            Err(Failure::Grammar)
        }
    }
}

/// The kind of the token at a place.
pub(crate) fn kind_at(tokens: &[Token], at: usize) -> TokenKind
    ensures { result ≡ kind (drop at tokens.now) }
{
    if at < tokens.len() {
        tokens[at].kind
    } else {
        TokenKind::End
    }
}

/// Whether a kind is that of `)`.
pub(crate) fn is_close(kind: TokenKind) -> bool
    ensures { result ≡ is_close kind }
{
    matches!(kind, TokenKind::Close)
}
