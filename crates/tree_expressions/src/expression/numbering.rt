//! Numbers for the variables of expressions.
ghost use Rattle.tree_expressions.specs.Numbering as spec;

use crate::expression::Expression;
use crate::string_literal::StringLiteral;
use just_text::{Name, Number, Token, TokenKind};
use std::mem;

/// Who knows the numbers of variables.
pub trait VariableNumbers {
    ghost use Rattle.std.specs.Prelude.{◌≡◌, List, Option, ℕ};

    /// The number for each name that has one.
    ghost number: { Self → List ℕ → Option ℕ };

    /// The number for the name, if it has one.
    fn number_for(&self, name: &str) -> Option<Number>
        ensures { result ≡ number self.now name.now };
}

/// Stands where an expression has been taken out.
fn placeholder<'src>() -> Expression<'src> {
    let token = Token {
        column: 0,
        kind: TokenKind::Eof,
        length: 0,
        line: 0,
        offset: 0,
        path: "",
        src: "",
    };
    Expression::Variable {
        name: Name::from_token(token),
        number: None,
    }
}

/// An expression of this form from parts that are resolved first, and from others as they are.
macro_rules! resolved {
    ($numbers:expr, $form:ident, [$($part:ident),*], [$($other:ident),*]) => {
        Expression::$form {
            $($part: resolve_inner($part, $numbers),)*
            $($other,)*
        }
    };
}

impl<'src> Expression<'src> {
    /// Gives each variable of the expression, and of all expressions in it, the number for its name, if
    /// there is one, else none. Nothing else changes. Takes no memory.
    ///
    /// It takes the expression out, and puts it back with the numbers of its variables.
    #[cycle(resolve)]
    pub fn resolve_variables<N: VariableNumbers>(&mut self, numbers: &N)
        ensures { spec.IsNumbered (N.number numbers.now) self.old self.new }
    {
        let taken = mem::replace(self, placeholder());
        *self = taken.resolve(numbers);
    }

    /// The expression with the numbers of its variables.
    #[cycle(resolve)]
    fn resolve<N: VariableNumbers>(self, numbers: &N) -> Expression<'src>
        ensures { spec.IsNumbered (N.number numbers.now) self.entry result }
    {
        match self {
            Expression::And { lhs, rhs } => resolved!(numbers, And, [lhs, rhs], []),
            Expression::Assert {
                condition,
                message,
                name,
            } => {
                let message = resolve_if_there(message, numbers);
                resolved!(numbers, Assert, [condition], [message, name])
            }
            Expression::Call { name, arguments } => {
                let arguments = resolve_row(arguments, numbers);
                Expression::Call { name, arguments }
            }
            Expression::Comparison {
                lhs,
                operator,
                rhs,
                token,
            } => resolved!(numbers, Comparison, [lhs, rhs], [operator, token]),
            Expression::Concatenation { lhs, operator, rhs } => {
                resolved!(numbers, Concatenation, [lhs, rhs], [operator])
            }
            Expression::Conditional {
                condition,
                then,
                otherwise,
            } => {
                let otherwise = resolve_if_there(otherwise, numbers);
                resolved!(numbers, Conditional, [condition, then], [otherwise])
            }
            Expression::FormatString { start, expressions } => {
                let expressions = resolve_interpolations(expressions, numbers);
                Expression::FormatString { start, expressions }
            }
            Expression::Group { contents } => resolved!(numbers, Group, [contents], []),
            Expression::Join { lhs, operator, rhs } => {
                let lhs = resolve_if_there(lhs, numbers);
                resolved!(numbers, Join, [rhs], [lhs, operator])
            }
            Expression::List { elements, token } => {
                let elements = resolve_row(elements, numbers);
                Expression::List { elements, token }
            }
            Expression::ListConcatenation { lhs, operator, rhs } => {
                resolved!(numbers, ListConcatenation, [lhs, rhs], [operator])
            }
            Expression::Not { operand } => resolved!(numbers, Not, [operand], []),
            Expression::Or { lhs, rhs } => resolved!(numbers, Or, [lhs, rhs], []),
            Expression::Variable {
                name,
                number: _number,
            } => {
                let number = numbers.number_for(name.lexeme());
                Expression::Variable { name, number }
            }
            Expression::Backtick { contents, token } => Expression::Backtick { contents, token },
            Expression::StringLiteral { string_literal } => {
                Expression::StringLiteral { string_literal }
            }
        }
    }
}

/// The same of an expression inside another, if it is there.
#[cycle(resolve)]
fn resolve_if_there<'src, N: VariableNumbers>(
    expression: Option<Box<Expression<'src>>>,
    numbers: &N,
) -> Option<Box<Expression<'src>>>
    ensures { spec.IsNumberedIfThere (N.number numbers.now) expression.entry result }
{
    match expression {
        None => None,
        Some(expression) => Some(resolve_inner(expression, numbers)),
    }
}

/// The same of an expression inside another.
#[cycle(resolve)]
fn resolve_inner<'src, N: VariableNumbers>(
    mut expression: Box<Expression<'src>>,
    numbers: &N,
) -> Box<Expression<'src>>
    ensures { spec.IsNumbered (N.number numbers.now) expression.entry.value result.value }
{
    expression.resolve_variables(numbers);
    expression
}

/// The same of a row of expressions.
#[cycle(resolve)]
fn resolve_row<'src, N: VariableNumbers>(
    mut expressions: Vec<Expression<'src>>,
    numbers: &N,
) -> Vec<Expression<'src>>
    ensures { spec.AreNumbered (N.number numbers.now) expressions.entry.items result.items }
{
    for index in 0..expressions.len() {
        expressions[index].resolve_variables(numbers);
    }
    expressions
}

/// The same of the interpolations of a format string.
#[cycle(resolve)]
fn resolve_interpolations<'src, N: VariableNumbers>(
    mut interpolations: Vec<(Expression<'src>, StringLiteral<'src>)>,
    numbers: &N,
) -> Vec<(Expression<'src>, StringLiteral<'src>)>
    ensures { spec.AreInterpolationsNumbered (N.number numbers.now) interpolations.entry.items result.items }
{
    for index in 0..interpolations.len() {
        interpolations[index].0.resolve_variables(numbers);
    }
    interpolations
}
