//! Names in a source.
ghost use Rattle.std.specs.Prelude.{◌≡◌, Some};
ghost use Rattle.std.specs.Cmp.{partial_order_from_own_ties};
ghost use Rattle.std.specs.Cmp.Rules.{comparing};
ghost use Rattle.std.specs.Ordering.{as_partial_cmp};
ghost use Rattle.std.proofs.Common.{rules};
ghost use Rattle.just_text.specs.Order.{name_cmp, name_eq, name_ties};
ghost use Rattle.just_text.specs.Tokens.{lexeme};

use crate::token::Token;
use std::cmp::Ordering;
use std::fmt;

/// A name where it is written.
#[derive(Clone, Copy, Debug)]
pub struct Name<'src> {
    pub token: Token<'src>,
}

impl<'src> Name<'src> {
    /// The name that the token writes, whatever the token's kind.
    pub fn from_token(token: Token<'src>) -> Name<'src>
        ensures { result.token ≡ token.entry }
    {
        Name { token }
    }

    /// The name's text.
    pub fn lexeme(&self) -> &'src str
        ensures { result.now ≡ lexeme self.now.token }
    {
        self.token.lexeme()
    }
}

impl fmt::Display for Name<'_> {
    ghost output = { λ name. Some (lexeme name.token) };

    fn fmt<W: fmt::Write>(&self, f: &mut fmt::Formatter<W>) -> fmt::Result {
        f.write_str(self.lexeme())
    }
}

impl PartialEq for Name<'_> {
    ghost eq = { name_eq };

    ghost laws = { Prim.search (comparing, rules) depth 9 };

    fn eq(&self, other: &Name<'_>) -> bool {
        self.lexeme() == other.lexeme() && self.token == other.token
    }
}

impl Eq for Name<'_> {
    ghost laws = { Prim.search (comparing, rules) depth 9 };
}

impl PartialOrd for Name<'_> {
    ghost partial_cmp = { as_partial_cmp name_cmp };

    ghost laws = { partial_order_from_own_ties (Prim.search (comparing, rules) depth 9) name_ties };

    fn partial_cmp(&self, other: &Name<'_>) -> Option<Ordering> {
        Some(self.cmp(other))
    }
}

/// By the names' texts, then by where they are written.
impl Ord for Name<'_> {
    ghost cmp = { name_cmp };

    ghost total = { Prim.search (comparing, rules) depth 9 };

    ghost matches_partial_cmp = { Prim.search (comparing, rules) };

    ghost matches_eq = { name_ties };

    fn cmp(&self, other: &Name<'_>) -> Ordering {
        match self.lexeme().cmp(other.lexeme()) {
            Ordering::Equal => self.token.cmp(&other.token),
            unequal => unequal,
        }
    }
}
