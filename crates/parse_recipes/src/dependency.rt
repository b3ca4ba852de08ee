//! Dependencies of recipes.
ghost use Rattle.std.specs.Prelude.{◌≡◌, IfOk, IfSome, count_by, length, option_map, suc};
ghost use Rattle.just_text.specs.Tokens.{word_of};
ghost use Rattle.just_text.specs.declared.token_kind.TokenKind.TheVariants.{ParenR};
ghost use Rattle.parse_recipes.specs.Cooked.{AreArgumentsCooked, AreDependenciesCooked, IsArgumentCooked, IsDependencyCooked};
ghost use Rattle.tree_items.specs.Recipes.{argument_shape, argument_shapes, dependency_shape, dependency_shapes};
ghost use Rattle.parse_expressions.specs.Origins.{origin_of};
ghost use Rattle.parse_expressions.specs.Reading.{Gives, ahead};
ghost use Rattle.parse_recipes.specs.Reading.{argument_at, arguments_at, dependency_at, dependencies_at, subsequents_at, until};

use crate::parameter::marked;
use crate::path::namepath;
use crate::shrinking::{push_compact, shrunk};
use just_text::{CompileErrorKind, Expander, Token, TokenKind};
use parse_expressions::{Context, Cursor, Fault};
use std::alloc::Global;
use tree_items::{DependencyArgument, UnresolvedDependency};

/// An argument, perhaps after a star.
#[tactic(auto, unfolding(crate::specs::Reading::argument_at))]
fn argument<'src, E: Expander>(
    cursor: &mut Cursor<'_, 'src>,
    context: &Context<'_, 'src, E>,
) -> Result<DependencyArgument<'src>, Fault<'src>>
    ensures gives { Gives (λ a. (argument_shape a, ahead cursor.new)) result (argument_at word_of (E.expansion context.now.expander.now) (ahead cursor.old)) }
    ensures cooked { IfOk result (IsArgumentCooked (origin_of E.expansion context.now)) }
{
    let starred = marked(cursor, TokenKind::Asterisk);
    let expression = cursor.expression(context)?;
    Ok(DependencyArgument {
        expression,
        starred,
    })
}

/// The arguments up to the closing parenthesis, however many have a star.
fn arguments_to_end<'src, E: Expander>(
    alloc: Global,
    cursor: &mut Cursor<'_, 'src>,
    context: &Context<'_, 'src, E>,
) -> Result<Vec<DependencyArgument<'src>>, Fault<'src>>
    ensures gives { Gives (λ xs. (argument_shapes xs.items, ahead cursor.new)) result (until word_of (argument_at word_of (E.expansion context.now.expander.now)) ParenR (suc (length (ahead cursor.old))) (ahead cursor.old)) }
    ensures cooked { IfOk result (λ xs. AreArgumentsCooked (origin_of E.expansion context.now) xs.items) }
{
    let mut arguments = Vec::new(alloc);
    while cursor.accept(TokenKind::ParenR).is_none() {
        push_compact(&mut arguments, argument(cursor, context)?)?;
    }
    Ok(arguments)
}

/// How many arguments have a star.
fn stars(arguments: &[DependencyArgument]) -> usize
    ensures { result ≡ count_by (λ a. a.starred) arguments.now }
{
    arguments.iter().filter(|argument| argument.starred).count()
}

/// The arguments up to the closing parenthesis, of which at most one has a star. The token is where
/// the dependency begins.
#[tactic(auto, unfolding(crate::specs::Reading::arguments_at))]
fn arguments<'src, E: Expander>(
    alloc: Global,
    cursor: &mut Cursor<'_, 'src>,
    context: &Context<'_, 'src, E>,
    token: Token<'src>,
) -> Result<Vec<DependencyArgument<'src>>, Fault<'src>>
    ensures gives { Gives (λ xs. (argument_shapes xs.items, ahead cursor.new)) result (arguments_at word_of (E.expansion context.now.expander.now) token.entry (ahead cursor.old)) }
    ensures cooked { IfOk result (λ xs. AreArgumentsCooked (origin_of E.expansion context.now) xs.items) }
{
    let arguments = arguments_to_end(alloc, cursor, context)?;
    if stars(&arguments) > 1 {
        return Err(Fault::Refused(token, CompileErrorKind::TwoStars));
    }
    Ok(arguments)
}

/// A dependency, if one comes here: a path, or a path and arguments in parentheses.
#[tactic(auto, unfolding(crate::specs::Reading::dependency_at))]
fn dependency<'src, E: Expander>(
    alloc: Global,
    cursor: &mut Cursor<'_, 'src>,
    context: &Context<'_, 'src, E>,
) -> Result<Option<UnresolvedDependency<'src>>, Fault<'src>>
    ensures gives { Gives (λ d. (option_map dependency_shape d, ahead cursor.new)) result (dependency_at word_of (E.expansion context.now.expander.now) (ahead cursor.old)) }
    ensures cooked { IfOk result (λ d. IfSome d (IsDependencyCooked (origin_of E.expansion context.now))) }
{
    if let Some(token) = cursor.accept(TokenKind::ParenL) {
        let recipe = namepath(alloc, cursor)?;
        let arguments = arguments(alloc, cursor, context, token)?;
        return Ok(Some(UnresolvedDependency {
            arguments: shrunk(arguments),
            recipe,
        }));
    }
    if !cursor.is_next(TokenKind::Identifier) {
        return Ok(None);
    }
    let recipe = namepath(alloc, cursor)?;
    let arguments = Vec::new(alloc);
    Ok(Some(UnresolvedDependency { arguments, recipe }))
}

/// Takes the dependencies that stand here, if there are any.
///
/// Refused where an argument is refused, where two arguments of a dependency have a star, where no
/// name comes after a parenthesis or `::`, and where memory runs out. After a refusal it is not
/// said where the cursor stands.
pub fn dependencies<'src, E: Expander>(
    alloc: Global,
    cursor: &mut Cursor<'_, 'src>,
    context: &Context<'_, 'src, E>,
) -> Result<Vec<UnresolvedDependency<'src>>, Fault<'src>>
    ensures gives { Gives (λ ds. (dependency_shapes ds.items, ahead cursor.new)) result (dependencies_at word_of (E.expansion context.now.expander.now) (ahead cursor.old)) }
    ensures cooked { IfOk result (λ ds. AreDependenciesCooked (origin_of E.expansion context.now) ds.items) }
{
    let mut dependencies = Vec::new(alloc);
    while let Some(dependency) = dependency(alloc, cursor, context)? {
        push_compact(&mut dependencies, dependency)?;
    }
    Ok(dependencies)
}

/// Takes `&&` and the dependencies after it, if it stands here.
///
/// `Unexpected` where `&&` stands here and no dependency after it. Refused also as `dependencies`
/// refuses. After a refusal it is not said where the cursor stands.
#[tactic(auto, unfolding(crate::specs::Reading::subsequents_at))]
pub fn subsequents<'src, E: Expander>(
    alloc: Global,
    cursor: &mut Cursor<'_, 'src>,
    context: &Context<'_, 'src, E>,
) -> Result<Vec<UnresolvedDependency<'src>>, Fault<'src>>
    ensures gives { Gives (λ ds. (dependency_shapes ds.items, ahead cursor.new)) result (subsequents_at word_of (E.expansion context.now.expander.now) (ahead cursor.old)) }
    ensures cooked { IfOk result (λ ds. AreDependenciesCooked (origin_of E.expansion context.now) ds.items) }
{
    if cursor.accept(TokenKind::AmpersandAmpersand).is_none() {
        return Ok(Vec::new(alloc));
    }
    let dependencies = dependencies(alloc, cursor, context)?;
    if dependencies.is_empty() {
        return Err(cursor.unexpected());
    }
    Ok(dependencies)
}
