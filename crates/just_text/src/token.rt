//! Tokens and their places.
ghost use Rattle.std.specs.Prelude.{◌≡◌, ◌+◌, take, drop};
ghost use Rattle.std.specs.Str.{IsCharBoundary};

use crate::compile_error::{CompileError, CompileErrorKind};
use crate::token_kind::TokenKind;
use std::cmp::Ordering;

/// A part of a source. `offset`, `length` and `column` count bytes, `line` lines, all from 0; the
/// column counts from the line's first byte, after a byte order mark. 32 bits tell each place, since a
/// source has many tokens.
#[derive(Clone, Copy, Debug)]
pub struct Token<'src> {
    pub column: u32,
    pub kind: TokenKind,
    pub length: u32,
    pub line: u32,
    pub offset: u32,
    pub path: &'src str,
    pub src: &'src str,
    ghost begins: { IsCharBoundary src.now offset },
    ghost ends: { IsCharBoundary src.now (offset + length) },
}

impl<'src> Token<'src> {
    ghost use Rattle.just_text.specs.Tokens.{lexeme};
    ghost use Rattle.just_text.specs.Order.{place};

    /// The token's text.
    pub fn lexeme(&self) -> &'src str
        ensures { result.now ≡ lexeme self.now }
    {
        &self.src[self.offset as usize..self.offset as usize + self.length as usize]
    }

    /// Where the token stands, and its kind.
    fn place(&self) -> [usize; 5]
        ensures { result ≡ place self.now }
    {
        let kind = self.kind as usize;
        [
            self.offset as usize,
            self.line as usize,
            self.column as usize,
            self.length as usize,
            kind,
        ]
    }

    /// A refusal whose place is this token.
    pub fn error(&self, kind: CompileErrorKind) -> CompileError<'src>
        ensures kind { result.kind ≡ kind }
        ensures place { result.token ≡ self.now }
    {
        CompileError { token: *self, kind }
    }
}

impl PartialEq for Token<'_> {
    ghost use Rattle.std.specs.Cmp.Rules.{comparing};
    ghost use Rattle.std.proofs.Common.{rules};
    ghost use Rattle.just_text.specs.Order.{token_eq};

    ghost eq = { token_eq };

    ghost laws = { Prim.search (comparing, rules) depth 9 };

    fn eq(&self, other: &Token<'_>) -> bool {
        self.path == other.path && self.place() == other.place() && self.src == other.src
    }
}

impl Eq for Token<'_> {
    ghost use Rattle.std.specs.Cmp.Rules.{comparing};
    ghost use Rattle.std.proofs.Common.{rules};

    ghost laws = { Prim.search (comparing, rules) depth 9 };
}

impl PartialOrd for Token<'_> {
    ghost use Rattle.std.specs.Cmp.{partial_order_from_own_ties};
    ghost use Rattle.std.specs.Cmp.Rules.{comparing};
    ghost use Rattle.std.specs.Ordering.{as_partial_cmp};
    ghost use Rattle.std.proofs.Common.{rules};
    ghost use Rattle.just_text.specs.Order.{token_cmp, token_ties};

    ghost partial_cmp = { as_partial_cmp token_cmp };

    ghost laws = { partial_order_from_own_ties (Prim.search (comparing, rules) depth 9) token_ties };

    fn partial_cmp(&self, other: &Token<'_>) -> Option<Ordering> {
        Some(self.cmp(other))
    }
}

/// By path, then by place and kind, and last by the whole source.
impl Ord for Token<'_> {
    ghost use Rattle.std.specs.Cmp.Rules.{comparing};
    ghost use Rattle.std.proofs.Common.{rules};
    ghost use Rattle.just_text.specs.Order.{token_cmp, token_ties};

    ghost cmp = { token_cmp };

    ghost total = { Prim.search (comparing, rules) depth 9 };

    ghost matches_partial_cmp = { Prim.search (comparing, rules) };

    ghost matches_eq = { token_ties };

    fn cmp(&self, other: &Token<'_>) -> Ordering {
        let here = self.path.cmp(other.path);
        match here.then(self.place().cmp(&other.place())) {
            Ordering::Equal => self.src.cmp(other.src),
            unequal => unequal,
        }
    }
}
