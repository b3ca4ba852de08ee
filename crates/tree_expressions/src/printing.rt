//! How expressions are printed.
ghost use Rattle.std.specs.Prelude.{◌≡◌, ◌<◌, ◌++◌, codes};
ghost use Rattle.std.specs.Fmt.{WritesOnOk};
ghost use Rattle.tree_expressions.specs.Layouts.{layout_text, layout_size, choice_text, mark_between};
ghost use Rattle.tree_expressions.specs.Printing.{text_of, text_of_all, text_of_interpolations, behind_else};
ghost use Rattle.tree_expressions.specs.Shape.{shape_of, shapes_of, interpolations_of};
ghost use Rattle.tree_expressions.specs.declared.expression.Expression.{size-Expression};

use crate::expression::Expression;
use crate::string_literal::StringLiteral;
use just_text::Name;
use std::fmt;
use std::fmt::{Formatter, Write};

/// What is printed for an expression, with the expressions inside it.
enum Layout<'e, 'src> {
    /// A text alone.
    Text(&'e str),
    /// The two sides of an operator, and the operator between them.
    Sides(&'e Expression<'src>, &'e str, &'e Expression<'src>),
    /// An expression between two texts.
    Between(&'e str, &'e Expression<'src>, &'e str),
    /// Two expressions: a text before them, one between them and one after them.
    Pair(&'e str, &'e Expression<'src>, &'e str, &'e Expression<'src>, &'e str),
    /// The condition of a conditional, and what it gives in either case.
    Choice(&'e Expression<'src>, &'e Expression<'src>, &'e Expression<'src>),
    /// A name, which may be empty, and a row between two marks.
    Row(&'e str, &'e str, &'e [Expression<'src>], &'e str),
    /// The first part of a format string, and interpolations with the parts after them.
    Interpolations(&'e str, &'e [(Expression<'src>, StringLiteral<'src>)]),
}

/// The operator that an expression has between two sides, and the one of a join without a left side;
/// empty for any other form.
fn mark(expression: &Expression) -> &'static str
    ensures { result.now ≡ mark_between (shape_of expression.now) }
{
    match expression {
        Expression::Or { .. } => "||",
        Expression::And { .. } => "&&",
        Expression::Comparison { operator, .. } => operator.mark(),
        Expression::ListConcatenation { .. } => "++",
        Expression::Concatenation { .. } => "+",
        Expression::Join { .. } => "/",
        _ => "",
    }
}

/// What is printed for an expression.
#[tactic(auto, unfolding(crate::specs::Printing::text_of))]
fn layout_of<'e, 'src>(expression: &'e Expression<'src>) -> Layout<'e, 'src>
    ensures text { layout_text result ≡ text_of (shape_of expression.now) }
    ensures smaller { layout_size result < size-Expression expression.now }
{
    match expression {
        Expression::Or { lhs, rhs }
        | Expression::And { lhs, rhs }
        | Expression::Comparison { lhs, rhs, .. }
        | Expression::ListConcatenation { lhs, rhs, .. }
        | Expression::Concatenation { lhs, rhs, .. }
        | Expression::Join {
            lhs: Some(lhs),
            rhs,
            ..
        } => Layout::Sides(lhs, mark(expression), rhs),
        Expression::Join { lhs: None, rhs, .. } => Layout::Between("/ ", rhs, ""),
        Expression::Not { operand } => Layout::Between("!", operand, ""),
        Expression::Group { contents } => Layout::Between("(", contents, ")"),
        Expression::Assert {
            condition,
            message: None,
            ..
        } => Layout::Between("assert(", condition, ")"),
        Expression::Assert {
            condition,
            message: Some(message),
            ..
        } => Layout::Pair("assert(", condition, ", ", message, ")"),
        Expression::Conditional {
            condition,
            then,
            otherwise: None,
        } => Layout::Pair("if ", condition, " { ", then, " }"),
        Expression::Conditional {
            condition,
            then,
            otherwise: Some(otherwise),
        } => Layout::Choice(condition, then, otherwise),
        Expression::StringLiteral {
            string_literal: StringLiteral { token, .. },
        }
        | Expression::Backtick { token, .. }
        | Expression::Variable {
            name: Name { token },
            ..
        } => Layout::Text(token.lexeme()),
        Expression::Call { name, arguments } => Layout::Row(name.lexeme(), "(", arguments, ")"),
        Expression::List { elements, .. } => Layout::Row("", "[", elements, "]"),
        Expression::FormatString { start, expressions } => {
            Layout::Interpolations(start.token.lexeme(), expressions)
        }
    }
}

/// The marks around what stands after `else`: none around a conditional.
fn braces(other: &Expression) -> (&'static str, &'static str)
    ensures { result.0.now ++ text_of (shape_of other.now) ++ result.1.now ≡ behind_else (shape_of other.now) (text_of (shape_of other.now)) }
{
    match other {
        Expression::Conditional { .. } => ("", ""),
        _ => ("{ ", " }"),
    }
}

/// Writes an expression.
#[cycle(print)]
pub fn print<W: Write>(f: &mut Formatter<W>, expression: &Expression) -> fmt::Result
    ensures { WritesOnOk W.write_str_gives f.old result (text_of (shape_of expression.now)) f.new }
{
    match layout_of(expression) {
        Layout::Text(text) => f.write_str(text),
        Layout::Sides(lhs, mark, rhs) => print_sides(f, lhs, mark, rhs),
        Layout::Between(before, inner, behind) => print_between(f, before, inner, behind),
        Layout::Pair(before, first, between, second, behind) => {
            print_pair(f, before, first, between, second, behind)
        }
        Layout::Choice(condition, then, other) => print_choice(f, condition, then, other),
        Layout::Row(name, before, elements, behind) => print_row(f, name, before, elements, behind),
        Layout::Interpolations(start, interpolations) => {
            print_interpolations(f, start, interpolations)
        }
    }
}

/// The two sides of an operator, and the operator between them.
#[cycle(print)]
fn print_sides<W: Write>(
    f: &mut Formatter<W>,
    lhs: &Expression,
    mark: &str,
    rhs: &Expression,
) -> fmt::Result
    ensures { WritesOnOk W.write_str_gives f.old result (text_of (shape_of lhs.now) ++ codes " " ++ mark.now ++ codes " " ++ text_of (shape_of rhs.now)) f.new }
{
    print(f, lhs)?;
    write!(f, " {mark} ")?;
    print(f, rhs)
}

/// An expression between two texts.
#[cycle(print)]
fn print_between<W: Write>(
    f: &mut Formatter<W>,
    before: &str,
    expression: &Expression,
    behind: &str,
) -> fmt::Result
    ensures { WritesOnOk W.write_str_gives f.old result (before.now ++ text_of (shape_of expression.now) ++ behind.now) f.new }
{
    f.write_str(before)?;
    print(f, expression)?;
    f.write_str(behind)
}

/// Two expressions: a text before them, one between them and one after them.
#[cycle(print)]
fn print_pair<W: Write>(
    f: &mut Formatter<W>,
    before: &str,
    first: &Expression,
    between: &str,
    second: &Expression,
    behind: &str,
) -> fmt::Result
    ensures { WritesOnOk W.write_str_gives f.old result (before.now ++ text_of (shape_of first.now) ++ between.now ++ text_of (shape_of second.now) ++ behind.now) f.new }
{
    print_between(f, before, first, between)?;
    print_between(f, "", second, behind)
}

/// A conditional with both cases.
#[cycle(print)]
fn print_choice<W: Write>(
    f: &mut Formatter<W>,
    condition: &Expression,
    then: &Expression,
    other: &Expression,
) -> fmt::Result
    ensures { WritesOnOk W.write_str_gives f.old result (choice_text condition.now then.now other.now) f.new }
{
    print_pair(f, "if ", condition, " { ", then, " } else ")?;
    let (opening, closing) = braces(other);
    print_between(f, opening, other, closing)
}

/// A name, and a row between two marks.
#[cycle(print)]
fn print_row<W: Write>(
    f: &mut Formatter<W>,
    name: &str,
    before: &str,
    elements: &[Expression],
    behind: &str,
) -> fmt::Result
    ensures { WritesOnOk W.write_str_gives f.old result (name.now ++ before.now ++ text_of_all (shapes_of elements.now) ++ behind.now) f.new }
{
    f.write_str(name)?;
    f.write_str(before)?;
    print_all(f, elements)?;
    f.write_str(behind)
}

/// A row, with a comma and a space between two.
#[cycle(print)]
#[tactic(auto, unfolding(crate::specs::Printing::text_of))]
fn print_all<W: Write>(f: &mut Formatter<W>, expressions: &[Expression]) -> fmt::Result
    ensures { WritesOnOk W.write_str_gives f.old result (text_of_all (shapes_of expressions.now)) f.new }
{
    let Some((first, others)) = expressions.split_first() else {
        return Ok(());
    };
    print(f, first)?;
    for other in others {
        print_between(f, ", ", other, "")?;
    }
    Ok(())
}

/// A part of a format string, and interpolations with the parts after them.
#[cycle(print)]
#[tactic(auto, unfolding(crate::specs::Printing::text_of))]
fn print_interpolations<W: Write>(
    f: &mut Formatter<W>,
    start: &str,
    interpolations: &[(Expression, StringLiteral)],
) -> fmt::Result
    ensures { WritesOnOk W.write_str_gives f.old result (start.now ++ text_of_interpolations (interpolations_of interpolations.now)) f.new }
{
    f.write_str(start)?;
    for (expression, part) in interpolations {
        print_between(f, "", expression, part.token.lexeme())?;
    }
    Ok(())
}
