//! Features that need the setting of lists.
ghost use Rattle.std.specs.Prelude.{◌≡◌, ◌++◌, Some};
ghost use Rattle.std.specs.List.{flat_map};
ghost use Rattle.std.specs.Option.{option_or};
ghost use Rattle.just_modules.specs.Lists as spec;
ghost use Rattle.just_modules.specs.Lists.{feature_of, first};

use just_text::Token;
use tree_attributes::{Attribute, AttributeSet, Interpreter, Setting};
use tree_expressions::{Expression, StringLiteral};
use tree_items::{
    DependencyArgument, Fragment, Item, Line, ListFeature, Parameter, Recipe, UnresolvedDependency,
};

/// A feature, and where it is used.
#[derive(Clone, Copy)]
pub struct ListUse<'src> {
    pub feature: ListFeature,
    pub token: Token<'src>,
}

/// The use of the feature at the token.
fn used<'src>(feature: ListFeature, token: Token<'src>) -> Option<ListUse<'src>>
    ensures { feature_of result ≡ Some feature }
{
    Some(ListUse { feature, token })
}

/// The first of two uses.
fn either<'src>(
    first: Option<ListUse<'src>>,
    second: Option<ListUse<'src>>,
) -> Option<ListUse<'src>>
    ensures { feature_of result ≡ option_or (feature_of first.entry) (feature_of second.entry) }
{
    match first {
        Some(used) => Some(used),
        None => second,
    }
}

/// The first use in an expression.
#[cycle(list_use)]
#[tactic(auto, using(crate::proofs::Features::first_both), unfolding(meaning_rules::specs::Rules::lists_in))]
pub fn in_expression<'src>(expression: &Expression<'src>) -> Option<ListUse<'src>>
    ensures { feature_of result ≡ first (spec.in_expression expression.now) }
{
    match expression {
        Expression::List { token, .. } => used(ListFeature::Literal, *token),
        Expression::ListConcatenation { operator, .. } => {
            used(ListFeature::Concatenation, *operator)
        }
        Expression::Not { operand } => used(ListFeature::Not, operand.first_token()),
        Expression::Comparison { token, .. } => used(ListFeature::Comparison, *token),
        Expression::Conditional {
            condition,
            otherwise: None,
            ..
        } => used(ListFeature::ConditionalWithoutElse, condition.first_token()),
        Expression::Conditional {
            condition,
            then,
            otherwise: Some(otherwise),
        } => in_choice(condition, then, otherwise),
        Expression::Assert {
            condition,
            message,
            ..
        } => either(in_condition(condition), in_optional(message)),
        Expression::And { lhs, rhs }
        | Expression::Or { lhs, rhs }
        | Expression::Concatenation { lhs, rhs, .. } => in_both(lhs, rhs),
        Expression::Join { lhs, rhs, .. } => either(in_optional(lhs), in_expression(rhs)),
        Expression::Group { contents } => in_expression(contents),
        Expression::Call { arguments, .. } => in_row(arguments),
        Expression::FormatString { expressions, .. } => in_interpolations(expressions),
        Expression::Backtick { .. }
        | Expression::StringLiteral { .. }
        | Expression::Variable { .. } => None,
    }
}

/// The first use in two expressions.
#[cycle(list_use)]
#[tactic(auto, using(crate::proofs::Features::first_both))]
fn in_both<'src>(lhs: &Expression<'src>, rhs: &Expression<'src>) -> Option<ListUse<'src>>
    ensures { feature_of result ≡ first (spec.in_expression lhs.now ++ spec.in_expression rhs.now) }
{
    either(in_expression(lhs), in_expression(rhs))
}

/// The first use in a conditional with both branches.
#[cycle(list_use)]
#[tactic(auto, using(crate::proofs::Features::first_three))]
fn in_choice<'src>(
    condition: &Expression<'src>,
    then: &Expression<'src>,
    otherwise: &Expression<'src>,
) -> Option<ListUse<'src>>
    ensures { feature_of result ≡ first (spec.in_condition condition.now ++ spec.in_expression then.now ++ spec.in_expression otherwise.now) }
{
    let branches = either(in_expression(then), in_expression(otherwise));
    either(in_condition(condition), branches)
}

/// The first use in a condition, which may be a comparison.
#[cycle(list_use)]
#[tactic(auto, using(crate::proofs::Features::first_both), unfolding(meaning_rules::specs::Rules::lists_in))]
fn in_condition<'src>(condition: &Expression<'src>) -> Option<ListUse<'src>>
    ensures { feature_of result ≡ first (spec.in_condition condition.now) }
{
    match condition {
        Expression::Comparison { lhs, rhs, .. } => in_both(lhs, rhs),
        _ => in_expression(condition),
    }
}

/// The first use in an expression that may be absent.
#[cycle(list_use)]
fn in_optional<'src>(expression: &Option<Box<Expression<'src>>>) -> Option<ListUse<'src>>
    ensures { feature_of result ≡ first (spec.in_boxed expression.now) }
{
    match expression {
        Some(expression) => in_expression(expression),
        None => None,
    }
}

/// The first use in a row of expressions.
#[cycle(list_use)]
fn in_row<'src>(expressions: &[Expression<'src>]) -> Option<ListUse<'src>>
    ensures { feature_of result ≡ first (flat_map spec.in_expression expressions.now) }
{
    for expression in expressions {
        let found = in_expression(expression);
        if found.is_some() {
            return found;
        }
    }
    None
}

/// The first use in the interpolations of a format string.
#[cycle(list_use)]
fn in_interpolations<'src>(
    expressions: &[(Expression<'src>, StringLiteral<'src>)],
) -> Option<ListUse<'src>>
    ensures { feature_of result ≡ first (flat_map spec.in_interpolation expressions.now) }
{
    for (expression, _) in expressions {
        let found = in_expression(expression);
        if found.is_some() {
            return found;
        }
    }
    None
}

/// The first use in an expression that may be absent.
fn in_option<'src>(expression: &Option<Expression<'src>>) -> Option<ListUse<'src>>
    ensures { feature_of result ≡ first (spec.in_option expression.now) }
{
    match expression {
        Some(expression) => in_expression(expression),
        None => None,
    }
}

#[tactic(auto, using(crate::proofs::Features::first_both))]
fn in_interpreter<'src>(interpreter: &Interpreter<Expression<'src>>) -> Option<ListUse<'src>>
    ensures { feature_of result ≡ first (spec.in_interpreter interpreter.now) }
{
    either(
        in_expression(&interpreter.command),
        in_row(interpreter.arguments.as_slice()),
    )
}

#[tactic(auto, using(crate::proofs::Features::first_both))]
fn in_attribute<'src>(attribute: &Attribute<'src>) -> Option<ListUse<'src>>
    ensures { feature_of result ≡ first (spec.in_attribute attribute.now) }
{
    match attribute {
        Attribute::Arg(options) => in_option(&options.value),
        Attribute::Confirm(prompt) => in_option(prompt),
        Attribute::Env { key, value } => either(in_expression(key), in_expression(value)),
        Attribute::Script(Some(interpreter)) => in_interpreter(interpreter),
        _ => None,
    }
}

fn in_attributes<'src>(attributes: &AttributeSet<'src>) -> Option<ListUse<'src>>
    ensures { feature_of result ≡ first (spec.in_attributes attributes.now) }
{
    for item in attributes.iter() {
        let found = in_attribute(&item.attribute);
        if found.is_some() {
            return found;
        }
    }
    None
}

fn in_setting<'src>(setting: &Setting<'src>) -> Option<ListUse<'src>>
    ensures { feature_of result ≡ first (spec.in_setting setting.now) }
{
    match setting {
        Setting::DotenvCommand(value)
        | Setting::DotenvFilename(value)
        | Setting::DotenvPath(value)
        | Setting::Tempdir(value)
        | Setting::WorkingDirectory(value) => in_expression(value),
        Setting::ScriptInterpreter(interpreter)
        | Setting::Shell(interpreter)
        | Setting::WindowsShell(interpreter) => in_interpreter(interpreter),
        Setting::Truth(_, _) | Setting::Indentation(_) | Setting::MinimumVersion(_) => None,
    }
}

#[tactic(auto, using(crate::proofs::Features::first_both))]
fn in_parameter<'src>(parameter: &Parameter<'src>) -> Option<ListUse<'src>>
    ensures { feature_of result ≡ first (spec.in_parameter parameter.now) }
{
    either(in_option(&parameter.default), in_option(&parameter.value))
}

fn in_parameters<'src>(parameters: &[Parameter<'src>]) -> Option<ListUse<'src>>
    ensures { feature_of result ≡ first (flat_map spec.in_parameter parameters.now) }
{
    for parameter in parameters {
        let found = in_parameter(parameter);
        if found.is_some() {
            return found;
        }
    }
    None
}

/// The first use in an argument of a dependency whose name stands at the token.
fn in_argument<'src>(
    argument: &DependencyArgument<'src>,
    token: Token<'src>,
) -> Option<ListUse<'src>>
    ensures { feature_of result ≡ first (spec.in_argument argument.now) }
{
    if argument.starred {
        return used(ListFeature::StarredArgument, token);
    }
    in_expression(&argument.expression)
}

/// The first use in arguments of a dependency whose name stands at the token.
fn in_arguments<'src>(
    arguments: &[DependencyArgument<'src>],
    token: Token<'src>,
) -> Option<ListUse<'src>>
    ensures { feature_of result ≡ first (flat_map spec.in_argument arguments.now) }
{
    for argument in arguments {
        let found = in_argument(argument, token);
        if found.is_some() {
            return found;
        }
    }
    None
}

fn in_dependency<'src>(dependency: &UnresolvedDependency<'src>) -> Option<ListUse<'src>>
    ensures { feature_of result ≡ first (spec.in_dependency dependency.now) }
{
    let token = dependency.recipe.last().token;
    in_arguments(dependency.arguments.as_slice(), token)
}

fn in_dependencies<'src>(dependencies: &[UnresolvedDependency<'src>]) -> Option<ListUse<'src>>
    ensures { feature_of result ≡ first (flat_map spec.in_dependency dependencies.now) }
{
    for dependency in dependencies {
        let found = in_dependency(dependency);
        if found.is_some() {
            return found;
        }
    }
    None
}

fn in_fragment<'src>(fragment: &Fragment<'src>) -> Option<ListUse<'src>>
    ensures { feature_of result ≡ first (spec.in_fragment fragment.now) }
{
    match fragment {
        Fragment::Interpolation { expression } => in_expression(expression),
        Fragment::Text { .. } => None,
    }
}

fn in_fragments<'src>(fragments: &[Fragment<'src>]) -> Option<ListUse<'src>>
    ensures { feature_of result ≡ first (flat_map spec.in_fragment fragments.now) }
{
    for fragment in fragments {
        let found = in_fragment(fragment);
        if found.is_some() {
            return found;
        }
    }
    None
}

fn in_line<'src>(line: &Line<'src>) -> Option<ListUse<'src>>
    ensures { feature_of result ≡ first (spec.in_line line.now) }
{
    in_fragments(line.fragments.as_slice())
}

fn in_body<'src>(body: &[Line<'src>]) -> Option<ListUse<'src>>
    ensures { feature_of result ≡ first (flat_map spec.in_line body.now) }
{
    for line in body {
        let found = in_line(line);
        if found.is_some() {
            return found;
        }
    }
    None
}

/// The first use in the recipe's attributes, header or body.
#[tactic(auto, using(crate::proofs::Features::first_both))]
fn in_recipe<'src>(recipe: &Recipe<'src, UnresolvedDependency<'src>>) -> Option<ListUse<'src>>
    ensures { feature_of result ≡ first (spec.in_recipe recipe.now) }
{
    let header = either(
        in_attributes(&recipe.attributes),
        in_parameters(recipe.parameters.as_slice()),
    );
    let dependencies = either(
        in_dependencies(recipe.priors.as_slice()),
        in_dependencies(recipe.subsequents.as_slice()),
    );
    either(
        header,
        either(dependencies, in_body(recipe.body.as_slice())),
    )
}

/// The first use in an item of a feature that needs the setting of lists.
pub fn list_use<'src>(item: &Item<'src>) -> Option<ListUse<'src>>
    ensures { feature_of result ≡ first (spec.lists_of item.now) }
{
    match item {
        Item::Assignment(assignment) => in_expression(&assignment.value),
        Item::Function(function) => in_expression(&function.body),
        Item::Recipe(recipe) => in_recipe(recipe),
        Item::Set(set) => in_setting(&set.value),
        _ => None,
    }
}
