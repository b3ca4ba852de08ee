//! Expressions put together from their parts.
ghost use Rattle.std.specs.Prelude.{◌≡◌, ◌∷◌, ◌++◌, option_map};
ghost use Rattle.std.specs.List.{flat_map};
ghost use Rattle.just_text.specs.Tokens.{lexeme};
ghost use Rattle.tree_expressions.specs.Shape as shape;
ghost use Rattle.tree_expressions.specs.Shape.{inner_shape, shape_of, shapes_of};
ghost use Rattle.parse_expressions.specs.Literals.{held_by, held_if, of_assertion, of_call};
ghost use Rattle.parse_expressions.specs.Reading.{asserted, chosen, prefixed as prefixed_shape};
ghost use Rattle.parse_expressions.specs.Seen.{operator_seen, prefix_seen};

use crate::operator::{Operator, Prefix};
use just_text::{Name, Token};
use tree_expressions::Expression;

/// An operator and its two sides.
#[inline(never)]
pub(crate) fn binary<'src>(
    lhs: Box<Expression<'src>>,
    token: Token<'src>,
    operator: Operator,
    rhs: Box<Expression<'src>>,
) -> Expression<'src>
    ensures shape { shape_of result ≡ shape.binary (operator_seen operator) (shape_of lhs.entry.value) (shape_of rhs.entry.value) }
    ensures held { held_by result ≡ held_by lhs.entry.value ++ held_by rhs.entry.value }
{
    match operator {
        Operator::Or => Expression::Or { lhs, rhs },
        Operator::And => Expression::And { lhs, rhs },
        Operator::Comparison(operator) => Expression::Comparison {
            lhs,
            operator,
            rhs,
            token,
        },
        Operator::ListConcatenation => Expression::ListConcatenation {
            lhs,
            operator: token,
            rhs,
        },
        Operator::Concatenation => Expression::Concatenation {
            lhs,
            operator: token,
            rhs,
        },
        Operator::Join => Expression::Join {
            lhs: Some(lhs),
            operator: token,
            rhs,
        },
    }
}

/// An operator without a left side, and its operand.
#[inline(never)]
pub(crate) fn prefixed<'src>(
    token: Token<'src>,
    prefix: Prefix,
    operand: Box<Expression<'src>>,
) -> Expression<'src>
    ensures shape { shape_of result ≡ prefixed_shape (prefix_seen prefix) (shape_of operand.entry.value) }
    ensures held { held_by result ≡ held_by operand.entry.value }
{
    match prefix {
        Prefix::Not => Expression::Not { operand },
        Prefix::Join => Expression::Join {
            lhs: None,
            operator: token,
            rhs: operand,
        },
    }
}

/// A call in the file of that path. Its name borrows the path, which is what `source_file()` there
/// answers.
#[inline(never)]
pub(crate) fn call<'src>(
    name: Name<'src>,
    path: &'src str,
    arguments: Vec<Expression<'src>>,
) -> Expression<'src>
    ensures shape { shape_of result ≡ shape.call (lexeme name.entry.token) (shapes_of arguments.entry.items) }
    ensures held { held_by result ≡ of_call path.now ∷ flat_map held_by arguments.entry.items }
{
    let name = named(name.token, path);
    Expression::Call { name, arguments }
}

// The name that the token writes, in the file of that path.
fn named<'src>(token: Token<'src>, path: &'src str) -> Name<'src>
    ensures text { lexeme result.token ≡ lexeme token.entry }
    ensures path { result.token.path.now ≡ path.now }
{
    Name::from_token(Token {
        column: token.column,
        kind: token.kind,
        length: token.length,
        line: token.line,
        offset: token.offset,
        path,
        src: token.src,
    })
}

/// A call of `assert`.
#[inline(never)]
pub(crate) fn assertion<'src>(
    name: Name<'src>,
    condition: Box<Expression<'src>>,
    message: Option<Box<Expression<'src>>>,
) -> Expression<'src>
    ensures shape { shape_of result ≡ asserted (shape_of condition.entry.value) (inner_shape message.entry) }
    ensures held { held_by result ≡ of_assertion (lexeme name.entry.token) ∷ held_by condition.entry.value ++ held_if (option_map (λ m. m.value) message.entry) }
{
    Expression::Assert {
        condition,
        message,
        name,
    }
}

/// A conditional.
#[inline(never)]
pub(crate) fn conditional<'src>(
    condition: Box<Expression<'src>>,
    then: Box<Expression<'src>>,
    otherwise: Option<Box<Expression<'src>>>,
) -> Expression<'src>
    ensures shape { shape_of result ≡ chosen (shape_of condition.entry.value) (shape_of then.entry.value) (inner_shape otherwise.entry) }
    ensures held { held_by result ≡ held_by condition.entry.value ++ held_by then.entry.value ++ held_if (option_map (λ o. o.value) otherwise.entry) }
{
    Expression::Conditional {
        condition,
        then,
        otherwise,
    }
}
