//! A place among tokens.
ghost use Rattle.std.specs.Prelude.{◌≡◌, option_map, IfNone};
ghost use Rattle.just_text.specs.Tokens.{word_of};
ghost use Rattle.parse_expressions.specs.Reading.{Gives, ahead, with_front, first, accept, expect, is_next, is_keyword, shown};
ghost use Rattle.parse_expressions.specs.declared.fault.Fault.TheVariants.{Unexpected};

use crate::fault::Fault;
use just_text::{Token, TokenKind};
use std::alloc::Global;

/// A place among the tokens of a justfile. White space doesn't count.
#[derive(Clone, Copy)]
pub struct Cursor<'t, 'src> {
    pub(crate) alloc: Global,
    pub(crate) rest: &'t [Token<'src>],
}

impl<'t, 'src> Cursor<'t, 'src> {
    /// Before these tokens.
    pub fn new(alloc: Global, tokens: &'t [Token<'src>]) -> Cursor<'t, 'src>
        ensures { ahead result ≡ shown tokens.now }
    {
        Cursor {
            alloc,
            rest: tokens,
        }
    }

    /// Skips white space.
    pub(crate) fn skip_whitespace(&mut self)
        ensures stays { ahead self.new ≡ ahead self.old }
        ensures front { ahead self.new ≡ with_front self.new.rest.now }
    {
        while let [token, ..] = self.rest
            && token.kind == TokenKind::Whitespace
        {
            self.rest = &self.rest[1..];
        }
    }

    /// The next token, which is not taken.
    pub fn peek(&mut self) -> Option<Token<'src>>
        ensures value { result ≡ first (ahead self.old) }
        ensures stays { ahead self.new ≡ ahead self.old }
    {
        self.skip_whitespace();
        self.rest.first().copied()
    }

    /// Takes the next token if it is of that kind, and else nothing.
    #[tactic(auto, unfolding(crate::specs::Reading::accept))]
    pub fn accept(&mut self, kind: TokenKind) -> Option<Token<'src>>
        ensures accepted { accept word_of kind (ahead self.old) ≡ option_map (λ t. (t, ahead self.new)) result }
        ensures none { IfNone result (ahead self.new ≡ ahead self.old) }
    {
        self.skip_whitespace();
        let token = *self.rest.first()?;
        if token.kind != kind {
            return None;
        }
        self.rest = &self.rest[1..];
        Some(token)
    }

    /// The fault that the next token is not expected here, or that the tokens end.
    pub fn unexpected(&mut self) -> Fault<'src>
        ensures { result ≡ Unexpected (first (ahead self.old)) }
    {
        Fault::Unexpected(self.peek())
    }

    /// Takes the next token, which has to be of that kind. `Unexpected` tells which other token is
    /// next, or that the tokens end.
    #[tactic(auto, unfolding(crate::specs::Reading::accept, crate::specs::Reading::expect))]
    pub fn expect(&mut self, kind: TokenKind) -> Result<Token<'src>, Fault<'src>>
        ensures { Gives (λ t. (t, ahead self.new)) result (expect word_of kind (ahead self.old)) }
    {
        self.skip_whitespace();
        let Some(token) = self.rest.first() else {
            return Err(Fault::Unexpected(None));
        };
        if token.kind != kind {
            return Err(Fault::Unexpected(Some(*token)));
        }
        self.rest = &self.rest[1..];
        Ok(*token)
    }

    /// Whether the next token is of that kind.
    #[tactic(auto, unfolding(crate::specs::Reading::accept, crate::specs::Reading::is_next))]
    #[inline(never)]
    pub fn is_next(&mut self, kind: TokenKind) -> bool
        ensures value { result ≡ is_next word_of kind (ahead self.old) }
        ensures stays { ahead self.new ≡ ahead self.old }
    {
        match self.peek() {
            Some(token) => token.kind == kind,
            None => false,
        }
    }

    /// Whether the next token is an identifier with that text.
    #[tactic(auto, unfolding(crate::specs::Reading::is_keyword))]
    #[inline(never)]
    pub fn is_keyword(&mut self, keyword: &str) -> bool
        ensures value { result ≡ is_keyword word_of keyword.now (ahead self.old) }
        ensures stays { ahead self.new ≡ ahead self.old }
    {
        match self.peek() {
            Some(token) => token.kind == TokenKind::Identifier && token.lexeme() == keyword,
            None => false,
        }
    }
}
