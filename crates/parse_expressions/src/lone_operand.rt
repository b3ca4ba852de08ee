//! Operands that are one token.
ghost use Rattle.std.specs.Prelude.{◌≡◌};
ghost use Rattle.just_text.specs.Tokens.{word_of};
ghost use Rattle.parse_expressions.specs.Alone.{goes_on, is_alone, may_be_alone};
ghost use Rattle.parse_expressions.specs.Reading.{ahead};

use crate::cursor::Cursor;
use crate::operator::Operator;
use just_text::{Token, TokenKind};

/// Whether the token is a string, or a name that begins no choice.
fn may_be_alone(token: Token) -> bool
    ensures { result ≡ may_be_alone (word_of token.entry) }
{
    match token.kind {
        TokenKind::StringToken => true,
        TokenKind::Identifier => token.lexeme() != "if",
        _ => false,
    }
}

/// Whether an operand goes on with a token of this kind: an operator, or the arguments of a call.
fn goes_on(kind: TokenKind) -> bool
    ensures { result ≡ goes_on kind }
{
    kind == TokenKind::ParenL || Operator::of_kind(kind).is_some()
}

impl<'t, 'src> Cursor<'t, 'src> {
    /// Whether the next token is a whole operand, of every rank.
    #[tactic(auto, unfolding(crate::specs::Alone::is_alone))]
    #[inline(never)]
    pub(crate) fn is_alone(&mut self) -> bool
        ensures value { result ≡ is_alone word_of (ahead self.old) }
        ensures stays { ahead self.new ≡ ahead self.old }
    {
        self.skip_whitespace();
        let [token, rest @ ..] = self.rest else {
            return false;
        };
        if !may_be_alone(*token) {
            return false;
        }
        match Cursor::new(self.alloc, rest).peek() {
            Some(behind) => !goes_on(behind.kind),
            None => true,
        }
    }
}
