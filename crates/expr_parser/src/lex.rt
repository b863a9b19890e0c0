//! The cutting of a text into tokens.
ghost use Rattle.std.specs.Prelude.{◌≡◌, ℕ, ◌≤◌, ◌<◌, length, drop, IfOk, OnOk, [], ◌∷◌, ◌++◌};
ghost use Rattle.std.specs.List.{prefix_len};
ghost use Rattle.expr_parser.specs.Tokens.{begins_name, continues_name, sign_kind, is_stray};
ghost use Rattle.expr_parser.specs.Tokens.{number_or_sign, lexeme, token_at, tokens};

use crate::numbers::number_length;
use crate::token::{Token, TokenKind};
use byte_edge::NoMemory;
use inp_text::Span;
use std::alloc::Global;

/// A kind of token, and a length in bytes.
#[derive(Clone, Copy)]
pub struct Lexeme {
    pub kind: TokenKind,
    pub length: usize,
}

/// The tokens of a text, up to and with the first byte that begins no token. It takes time in
/// proportion to the text.
pub(crate) fn tokens(alloc: Global, text: &[u8]) -> Result<Vec<Token>, NoMemory>
    ensures value { IfOk result (λ found. found.items ≡ tokens text.now) }
{
    let mut found = Vec::new(alloc);
    let mut at = 0;
    while at < text.len() {
        if text[at] == b' ' {
            at += 1;
        } else {
            let token = token_at(text, at);
            note(&mut found, token)?;
            if is_stray(token.kind) {
                return Ok(found);
            }
            at = token.span.end;
        }
    }
    Ok(found)
}

/// Notes a token behind the others.
fn note(found: &mut Vec<Token>, token: Token) -> Result<(), NoMemory>
    ensures { OnOk result (found.new.items ≡ found.old.items ++ token ∷ []) }
{
    match found.push(token) {
        Ok(()) => Ok(()),
        Err(_) => Err(NoMemory),
    }
}

/// The token at a place that holds no space.
fn token_at(text: &[u8], at: usize) -> Token
    requires { at < length text.now }
    ensures value { result ≡ token_at at (lexeme (drop at text.now)) }
    ensures within { result.span.end ≤ length text.now }
    ensures longer { at < result.span.end }
{
    let found = first_lexeme(&text[at..]);
    Token {
        kind: found.kind,
        span: Span {
            start: at,
            end: at + found.length,
        },
    }
}

/// The token at the head of a text that begins with no space.
#[tactic(auto, unfolding(crate::specs::Tokens::lexeme))]
fn first_lexeme(text: &[u8]) -> Lexeme
    ensures value { result ≡ lexeme text.now }
    ensures within { result.length ≤ length text.now }
    ensures some { 0 < length text.now → 0 < result.length }
{
    match text {
        [byte, bytes @ ..] => {
            if begins_name(*byte) {
                Lexeme {
                    kind: TokenKind::Name,
                    length: 1 + name_length(bytes),
                }
            } else {
                number_or_sign(*byte, number_length(text))
            }
        }
        [] => Lexeme {
            kind: TokenKind::End,
            length: 0,
        },
    }
}

/// A number of this length, and the byte by itself where the length is 0.
fn number_or_sign(byte: u8, length: usize) -> Lexeme
    ensures value { result ≡ number_or_sign byte length }
    ensures some { 0 < result.length }
    ensures least { (n : ℕ) → 0 < n → length ≤ n → result.length ≤ n }
{
    if length == 0 {
        Lexeme {
            kind: sign_kind(byte),
            length: 1,
        }
    } else {
        Lexeme {
            kind: TokenKind::Number,
            length,
        }
    }
}

/// How many bytes go on with a name.
fn name_length(text: &[u8]) -> usize
    ensures value { result ≡ prefix_len continues_name text.now }
    ensures within { result ≤ length text.now }
{
    let mut end = 0;
    while end < text.len() && continues_name(text[end]) {
        end += 1;
    }
    end
}

/// Whether a byte begins a name.
fn begins_name(byte: u8) -> bool
    ensures { result ≡ begins_name byte }
{
    byte.is_ascii_alphabetic() || byte == b'_'
}

/// Whether a byte goes on with a name.
fn continues_name(byte: u8) -> bool
    ensures { result ≡ continues_name byte }
{
    byte.is_ascii_alphanumeric() || byte == b'_'
}

/// The kind of a token of one byte.
#[tactic(auto, unfolding(crate::specs::Tokens::sign_kind))]
fn sign_kind(byte: u8) -> TokenKind
    ensures { result ≡ sign_kind byte }
{
    if byte == b'+' {
        TokenKind::Plus
    } else if byte == b'-' {
        TokenKind::Minus
    } else if byte == b'*' {
        TokenKind::Star
    } else if byte == b'/' {
        TokenKind::Slash
    } else if byte == b'^' {
        TokenKind::Caret
    } else if byte == b'(' {
        TokenKind::Open
    } else if byte == b')' {
        TokenKind::Close
    } else {
        TokenKind::Stray
    }
}

/// Whether the byte of a token begins none.
fn is_stray(kind: TokenKind) -> bool
    ensures { result ≡ is_stray kind }
{
    matches!(kind, TokenKind::Stray)
}
