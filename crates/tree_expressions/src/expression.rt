//! Expressions.
ghost use Rattle.std.specs.Prelude.{◌≡◌, Some};
ghost use Rattle.tree_expressions.specs.FirstTokens.{first_token_of};

mod numbering;

use crate::operator::ConditionalOperator;
use crate::printing;
use crate::string_literal::StringLiteral;
use just_text::{Name, Number, Text, Token};
pub use numbering::VariableNumbers;
use std::fmt;

/// An expression as it is written. Its order and equality are by all that it holds, places in the file included.
pub enum Expression<'src> {
    /// `lhs && rhs`
    And {
        lhs: Box<Expression<'src>>,
        rhs: Box<Expression<'src>>,
    },
    /// `assert(condition)` or `assert(condition, message)`; the name is `assert`.
    Assert {
        condition: Box<Expression<'src>>,
        message: Option<Box<Expression<'src>>>,
        name: Name<'src>,
    },
    /// A command between backticks, and its text.
    Backtick {
        contents: Text,
        token: Token<'src>,
    },
    /// `name(argument, argument)`
    Call {
        name: Name<'src>,
        arguments: Vec<Expression<'src>>,
    },
    /// `lhs == rhs` and the like; the token is the operator's.
    Comparison {
        lhs: Box<Expression<'src>>,
        operator: ConditionalOperator,
        rhs: Box<Expression<'src>>,
        token: Token<'src>,
    },
    /// `lhs + rhs`
    Concatenation {
        lhs: Box<Expression<'src>>,
        operator: Token<'src>,
        rhs: Box<Expression<'src>>,
    },
    /// `if condition { then } else { otherwise }`
    Conditional {
        condition: Box<Expression<'src>>,
        then: Box<Expression<'src>>,
        otherwise: Option<Box<Expression<'src>>>,
    },
    /// A string with interpolations: its first part, then expressions, each with the part after it.
    FormatString {
        start: StringLiteral<'src>,
        expressions: Vec<(Expression<'src>, StringLiteral<'src>)>,
    },
    /// `(contents)`
    Group {
        contents: Box<Expression<'src>>,
    },
    /// `lhs / rhs` or `/ rhs`
    Join {
        lhs: Option<Box<Expression<'src>>>,
        operator: Token<'src>,
        rhs: Box<Expression<'src>>,
    },
    /// `[element, element]`; the token is the bracket that opens.
    List {
        elements: Vec<Expression<'src>>,
        token: Token<'src>,
    },
    /// `lhs ++ rhs`
    ListConcatenation {
        lhs: Box<Expression<'src>>,
        operator: Token<'src>,
        rhs: Box<Expression<'src>>,
    },
    /// `!operand`
    Not {
        operand: Box<Expression<'src>>,
    },
    /// `lhs || rhs`
    Or {
        lhs: Box<Expression<'src>>,
        rhs: Box<Expression<'src>>,
    },
    StringLiteral {
        string_literal: StringLiteral<'src>,
    },
    /// A name, and the number of what it names, once that is known.
    Variable {
        name: Name<'src>,
        number: Option<Number>,
    },
}

/// What an expression holds is dropped here, so that whatever drops one elsewhere is proved by this alone.
impl Drop for Expression<'_> {
    fn drop(self) {
        match self {
            Expression::And {
                lhs: _lhs,
                rhs: _rhs,
            } => {}
            Expression::Assert {
                condition: _condition,
                message: _message,
                name: _name,
            } => {}
            Expression::Backtick {
                contents: _contents,
                token: _token,
            } => {}
            Expression::Call {
                name: _name,
                arguments: _arguments,
            } => {}
            Expression::Comparison {
                lhs: _lhs,
                operator: _operator,
                rhs: _rhs,
                token: _token,
            } => {}
            Expression::Concatenation {
                lhs: _lhs,
                operator: _operator,
                rhs: _rhs,
            } => {}
            Expression::Conditional {
                condition: _condition,
                then: _then,
                otherwise: _otherwise,
            } => {}
            Expression::FormatString {
                start: _start,
                expressions: _expressions,
            } => {}
            Expression::Group {
                contents: _contents,
            } => {}
            Expression::Join {
                lhs: _lhs,
                operator: _operator,
                rhs: _rhs,
            } => {}
            Expression::List {
                elements: _elements,
                token: _token,
            } => {}
            Expression::ListConcatenation {
                lhs: _lhs,
                operator: _operator,
                rhs: _rhs,
            } => {}
            Expression::Not { operand: _operand } => {}
            Expression::Or {
                lhs: _lhs,
                rhs: _rhs,
            } => {}
            Expression::StringLiteral {
                string_literal: _string_literal,
            } => {}
            Expression::Variable {
                name: _name,
                number: _number,
            } => {}
        }
    }
}

impl<'src> Expression<'src> {
    /// The first token of those that the expression keeps, which is the one that it begins with: but an
    /// `if`, a `!` and the parenthesis of a group are not kept, and there it is the first one after.
    pub fn first_token(&self) -> Token<'src>
        ensures { result ≡ first_token_of self.now }
    {
        let first = match self {
            Expression::And { lhs, .. }
            | Expression::Comparison { lhs, .. }
            | Expression::Concatenation { lhs, .. }
            | Expression::ListConcatenation { lhs, .. }
            | Expression::Or { lhs, .. }
            | Expression::Join { lhs: Some(lhs), .. } => lhs,
            Expression::Conditional { condition, .. } => condition,
            Expression::Group { contents } => contents,
            Expression::Not { operand } => operand,
            Expression::Assert { name, .. }
            | Expression::Call { name, .. }
            | Expression::Variable { name, .. } => return name.token,
            Expression::Backtick { token, .. } | Expression::List { token, .. } => return *token,
            Expression::FormatString { start, .. } => return start.token,
            Expression::Join {
                lhs: None,
                operator,
                ..
            } => return *operator,
            Expression::StringLiteral { string_literal } => return string_literal.token,
        };
        first.first_token()
    }
}

impl fmt::Display for Expression<'_> {
    ghost use Rattle.tree_expressions.specs.Shape.{shape_of};
    ghost use Rattle.tree_expressions.specs.Printing.{text_of};

    ghost output = { λ e. Some (text_of (shape_of e)) };

    fn fmt<W: fmt::Write>(&self, f: &mut fmt::Formatter<W>) -> fmt::Result {
        printing::print(f, self)
    }
}
