//! Which files are printed so that they are read as they were.
ghost use Rattle.std.specs.Prelude.{◌≡◌};
ghost use Rattle.std.specs.List.{list_all, list_any};
ghost use Rattle.tree_expressions.specs.Shape.{shape_of};
ghost use Rattle.tree_items.specs.Files.{item_shape, item_shapes};
ghost use Rattle.tree_items.specs.Lines.{pieces_of};
ghost use Rattle.tree_items.specs.Printable as spec;
ghost use Rattle.tree_items.specs.Recipes.{argument_shape, argument_shapes, body_shape, dependency_shape, dependency_shapes, parameter_shape, parameter_shapes, recipe_shape};

use crate::ast::Item;
use crate::line::Line;
use crate::recipe::{DependencyArgument, Parameter, ParameterKind, Recipe, UnresolvedDependency};
use tree_expressions::Expression;

/// Whether the expression is a conditional.
fn is_choice(expression: &Expression) -> bool
    ensures { result ≡ spec.is_choice (shape_of expression.now) }
{
    match expression {
        Expression::Conditional { .. } => true,
        _ => false,
    }
}

/// Whether the printed expression ends in a conditional without `else`, which would take one that
/// follows.
#[tactic(auto, unfolding(crate::specs::Printable::takes_else))]
fn takes_else(expression: &Expression) -> bool
    ensures { result ≡ spec.takes_else (shape_of expression.now) }
{
    let last = match expression {
        Expression::And { rhs, .. }
        | Expression::Comparison { rhs, .. }
        | Expression::Concatenation { rhs, .. }
        | Expression::Join { rhs, .. }
        | Expression::ListConcatenation { rhs, .. }
        | Expression::Or { rhs, .. } => rhs,
        Expression::Not { operand } => operand,
        Expression::Conditional {
            otherwise: Some(otherwise),
            ..
        } if is_choice(otherwise) => otherwise,
        Expression::Conditional { otherwise, .. } => return otherwise.is_none(),
        Expression::Assert { .. }
        | Expression::Backtick { .. }
        | Expression::Call { .. }
        | Expression::FormatString { .. }
        | Expression::Group { .. }
        | Expression::List { .. }
        | Expression::StringLiteral { .. }
        | Expression::Variable { .. } => return false,
    };
    takes_else(last)
}

/// Whether the expression begins with the name `else`.
#[tactic(auto, unfolding(crate::specs::Printable::begins_with_else))]
fn begins_with_else(expression: &Expression) -> bool
    ensures { result ≡ spec.begins_with_else (shape_of expression.now) }
{
    let first = match expression {
        Expression::And { lhs, .. }
        | Expression::Comparison { lhs, .. }
        | Expression::Concatenation { lhs, .. }
        | Expression::Join { lhs: Some(lhs), .. }
        | Expression::ListConcatenation { lhs, .. }
        | Expression::Or { lhs, .. } => lhs,
        Expression::Call { name, .. } | Expression::Variable { name, .. } => {
            return name.lexeme() == "else";
        }
        Expression::Assert { .. }
        | Expression::Backtick { .. }
        | Expression::Conditional { .. }
        | Expression::FormatString { .. }
        | Expression::Group { .. }
        | Expression::Join { lhs: None, .. }
        | Expression::List { .. }
        | Expression::Not { .. }
        | Expression::StringLiteral { .. } => return false,
    };
    begins_with_else(first)
}

/// Whether the argument begins with the name `else`; a star stands before it.
fn argument_is_else(argument: &DependencyArgument) -> bool
    ensures { result ≡ spec.argument_is_else (argument_shape argument.now) }
{
    !argument.starred && begins_with_else(&argument.expression)
}

/// Whether no argument that begins with the name `else` follows one that would take it.
fn are_closed(arguments: &[DependencyArgument]) -> bool
    ensures { result ≡ spec.are_closed (argument_shapes arguments.now) }
{
    let mut takes = false;
    for argument in arguments {
        if takes && argument_is_else(argument) {
            return false;
        }
        takes = takes_else(&argument.expression);
    }
    true
}

fn is_closed(dependency: &UnresolvedDependency) -> bool
    ensures { result ≡ spec.is_closed (dependency_shape dependency.now) }
{
    are_closed(dependency.arguments.as_slice())
}

fn are_all_closed(dependencies: &[UnresolvedDependency]) -> bool
    ensures { result ≡ list_all spec.is_closed (dependency_shapes dependencies.now) }
{
    for dependency in dependencies {
        if !is_closed(dependency) {
            return false;
        }
    }
    true
}

/// Whether the default would take an `else` that follows.
fn default_takes_else(parameter: &Parameter) -> bool
    ensures { result ≡ spec.parameter_takes_else (parameter_shape parameter.now) }
{
    match &parameter.default {
        Some(default) => takes_else(default),
        None => false,
    }
}

/// Whether the parameter's name is `else`; a mark stands before it.
fn parameter_is_else(parameter: &Parameter) -> bool
    ensures { result ≡ spec.parameter_is_else (parameter_shape parameter.now) }
{
    match parameter.kind {
        ParameterKind::Singular => !parameter.export && parameter.name.lexeme() == "else",
        ParameterKind::Plus | ParameterKind::Star => false,
    }
}

/// Whether no parameter that is named `else` follows a default that would take it.
fn are_separate(parameters: &[Parameter]) -> bool
    ensures { result ≡ spec.are_separate (parameter_shapes parameters.now) }
{
    let mut takes = false;
    for parameter in parameters {
        if takes && parameter_is_else(parameter) {
            return false;
        }
        takes = default_takes_else(parameter);
    }
    true
}

fn has_return(line: &Line) -> bool
    ensures { result ≡ spec.has_return (pieces_of line.now) }
{
    line.ends_in_return()
}

/// Whether a line ends in a carriage return.
fn any_return(lines: &[Line]) -> bool
    ensures { result ≡ list_any spec.has_return (body_shape lines.now) }
{
    for line in lines {
        if has_return(line) {
            return true;
        }
    }
    false
}

fn is_recipe_printable<'src>(recipe: &Recipe<'src, UnresolvedDependency<'src>>) -> bool
    ensures { result ≡ spec.is_recipe_printable (recipe_shape recipe.now) }
{
    if any_return(recipe.body.as_slice()) || !are_separate(recipe.parameters.as_slice()) {
        return false;
    }
    are_all_closed(recipe.priors.as_slice()) && are_all_closed(recipe.subsequents.as_slice())
}

fn is_item_printable(item: &Item) -> bool
    ensures { result ≡ spec.is_item_printable (item_shape item.now) }
{
    match item {
        Item::Recipe(recipe) => is_recipe_printable(recipe),
        Item::Alias(_)
        | Item::Assignment(_)
        | Item::Comment(_)
        | Item::Function(_)
        | Item::Import(_)
        | Item::Module(_)
        | Item::Newline
        | Item::Set(_)
        | Item::Unexport(_) => true,
    }
}

/// Whether each recipe is printed so that it is read as it was.
pub(crate) fn are_printable(items: &[Item]) -> bool
    ensures { result ≡ spec.printable (item_shapes items.now) }
{
    for item in items {
        if !is_item_printable(item) {
            return false;
        }
    }
    true
}
