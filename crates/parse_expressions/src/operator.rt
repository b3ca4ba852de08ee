//! Operators and how they bind.
ghost use Rattle.std.specs.Prelude.{◌≡◌, ◌≢◌, ◌<◌, ◌≤◌, ℕ, None, option_map, IfNone, IsSome};
ghost use Rattle.std.specs.Option.{option_map as mapped};
ghost use Rattle.just_text.specs.Tokens.{word_of};
ghost use Rattle.parse_expressions.specs.Operators.{operator_of, rank, right_rank};
ghost use Rattle.parse_expressions.specs.Reading.{ahead, operator_at, prefix_at};
ghost use Rattle.parse_expressions.specs.Seen.{operator_seen, prefix_seen};

use crate::cursor::Cursor;
use just_text::{Token, TokenKind};
use tree_expressions::ConditionalOperator;

/// An operator between two expressions.
#[derive(Clone, Copy)]
pub(crate) enum Operator {
    Or,
    And,
    Comparison(ConditionalOperator),
    ListConcatenation,
    Concatenation,
    Join,
}

/// An operator without a left side.
#[derive(Clone, Copy)]
pub(crate) enum Prefix {
    Not,
    Join,
}

impl Operator {
    /// The operator of that token.
    pub(crate) fn of_kind(kind: TokenKind) -> Option<Operator>
        ensures { operator_of kind ≡ mapped operator_seen result }
    {
        match kind {
            TokenKind::BarBar => Some(Operator::Or),
            TokenKind::AmpersandAmpersand => Some(Operator::And),
            TokenKind::EqualsEquals => Some(Operator::Comparison(ConditionalOperator::Equality)),
            TokenKind::BangEquals => Some(Operator::Comparison(ConditionalOperator::Inequality)),
            TokenKind::EqualsTilde => Some(Operator::Comparison(ConditionalOperator::RegexMatch)),
            TokenKind::BangTilde => Some(Operator::Comparison(ConditionalOperator::RegexMismatch)),
            TokenKind::PlusPlus => Some(Operator::ListConcatenation),
            TokenKind::Plus => Some(Operator::Concatenation),
            TokenKind::Slash => Some(Operator::Join),
            _ => None,
        }
    }

    /// How loosely it binds.
    fn rank(self) -> u8
        ensures { result ≡ rank (operator_seen self) }
    {
        match self {
            Operator::Or => 6,
            Operator::And => 5,
            Operator::Comparison(_) => 4,
            Operator::ListConcatenation => 3,
            Operator::Concatenation | Operator::Join => 2,
        }
    }

    /// The rank of what may stand on its right.
    pub(crate) fn right_rank(self) -> u8
        ensures { result ≡ right_rank (operator_seen self) }
    {
        match self {
            Operator::Comparison(_) => 3,
            other => other.rank(),
        }
    }
}

impl<'t, 'src> Cursor<'t, 'src> {
    /// Takes the next token if it is an operator of that rank.
    #[tactic(auto, unfolding(crate::specs::Reading::operator_at))]
    pub(crate) fn operator(&mut self, rank: u8) -> Option<(Token<'src>, Operator)>
        ensures accepted { operator_at word_of rank (ahead self.old) ≡ option_map (λ p. ((p.0, operator_seen p.1), ahead self.new)) result }
        ensures none { IfNone result (ahead self.new ≡ ahead self.old) }
    {
        self.skip_whitespace();
        let token = *self.rest.first()?;
        let operator = Operator::of_kind(token.kind)?;
        if operator.rank() != rank {
            return None;
        }
        self.rest = &self.rest[1..];
        Some((token, operator))
    }

    /// Takes the next token if it is an operator of that rank without a left side.
    #[tactic(auto, unfolding(crate::specs::Reading::prefix_at))]
    pub(crate) fn prefix(&mut self, rank: u8) -> Option<(Token<'src>, Prefix)>
        ensures accepted { prefix_at word_of rank (ahead self.old) ≡ option_map (λ p. ((p.0, prefix_seen p.1), ahead self.new)) result }
        ensures none { IfNone result (ahead self.new ≡ ahead self.old) }
    {
        match rank {
            1 => Some((self.accept(TokenKind::Bang)?, Prefix::Not)),
            2 => Some((self.accept(TokenKind::Slash)?, Prefix::Join)),
            _ => None,
        }
    }

    /// The greatest rank, up to that one, of which the next token is an operator without a left side; 0 where there is none.
    #[tactic(auto, unfolding(crate::specs::Reading::prefix_at, crate::specs::Reading::accept))]
    #[inline(never)]
    pub(crate) fn prefix_rank(&mut self, rank: u8) -> u8
        ensures within { result ≤ rank }
        ensures found { result ≢ 0 → IsSome (prefix_at word_of result (ahead self.old)) }
        ensures others { (other : ℕ) → result < other → other ≤ rank → prefix_at word_of other (ahead self.old) ≡ None }
        ensures stays { ahead self.new ≡ ahead self.old }
    {
        let Some(token) = self.peek() else {
            return 0;
        };
        match token.kind {
            TokenKind::Bang if rank >= 1 => 1,
            TokenKind::Slash if rank >= 2 => 2,
            _ => 0,
        }
    }
}
