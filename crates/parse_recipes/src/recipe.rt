//! Recipes.
ghost use Rattle.std.specs.Prelude.{◌≡◌, IfOk};
ghost use Rattle.just_text.specs.Tokens.{word_of};
ghost use Rattle.tree_items.specs.Recipes.{recipe_shape};
ghost use Rattle.parse_recipes.specs.Numbering.{AreBindingsUsed, AreNumbered, AreUsed, GivesUnless, IsFrugal, IsRecipeNumbered};
ghost use Rattle.parse_recipes.specs.Cooked.{AreDependenciesCooked, AreParametersCooked, IsRecipeCooked};
ghost use Rattle.parse_recipes.specs.Plain.{ArePlain, IsPlainRecipe};
ghost use Rattle.parse_recipes.specs.Seen.{header_shape};
ghost use Rattle.parse_expressions.specs.Origins.{origin_of};
ghost use Rattle.parse_expressions.specs.Reading.{ahead};
ghost use Rattle.parse_recipes.specs.Reading.{header_at, recipe_at};

use crate::body::body;
use crate::dependency::{dependencies, subsequents};
use crate::numbering::next_recipe;
use crate::parameter::{marked, parameters};
use crate::shrinking::shrunk;
use just_text::{Expander, Name, Numerator, TokenKind};
use parse_expressions::{Context, Cursor, Fault, end_of_line};
use std::alloc::Global;
use tree_attributes::AttributeSet;
use tree_items::{Parameter, Recipe, UnresolvedDependency};

/// A recipe's first line from its parameters on.
#[derive(Drop)]
struct HeaderRead<'src> {
    parameters: Vec<Parameter<'src>>,
    priors: Vec<UnresolvedDependency<'src>>,
    subsequents: Vec<UnresolvedDependency<'src>>,
}

/// A recipe without its attributes, and how many blank lines after its body belong to the file.
#[derive(Drop)]
pub struct RecipeRead<'src> {
    pub recipe: Recipe<'src, UnresolvedDependency<'src>>,
    pub blank_lines: usize,
}

/// What stands between a recipe's name and the end of its first line.
#[tactic(auto, unfolding(crate::specs::Reading::header_at))]
fn header<'src, E: Expander>(
    alloc: Global,
    cursor: &mut Cursor<'_, 'src>,
    context: &Context<'_, 'src, E>,
    numerator: &mut Numerator,
) -> Result<HeaderRead<'src>, Fault<'src>>
    ensures gives { GivesUnless (AreBindingsUsed numerator.new) (λ h. (header_shape h, ahead cursor.new)) result (header_at word_of (E.expansion context.now.expander.now) (ahead cursor.old)) }
    ensures numbers { IfOk result (λ h. AreNumbered numerator.old numerator.new h.parameters.items) }
    ensures frugal { IsFrugal (ahead cursor.old) numerator.old numerator.new }
    ensures plain { IfOk result (λ h. ArePlain h.parameters.items) }
    ensures parameters { IfOk result (λ h. AreParametersCooked (origin_of E.expansion context.now) h.parameters.items) }
    ensures priors { IfOk result (λ h. AreDependenciesCooked (origin_of E.expansion context.now) h.priors.items) }
    ensures subsequents { IfOk result (λ h. AreDependenciesCooked (origin_of E.expansion context.now) h.subsequents.items) }
{
    let parameters = parameters(alloc, cursor, context, numerator)?;
    cursor.expect(TokenKind::Colon)?;
    let priors = dependencies(alloc, cursor, context)?;
    let subsequents = subsequents(alloc, cursor, context)?;
    end_of_line(cursor)?;
    Ok(HeaderRead {
        parameters,
        priors,
        subsequents,
    })
}

/// Takes the recipe that stands here, without its attributes: its parameters have no options yet.
/// It has the next recipe's number, and its parameters have the next bindings' numbers.
///
/// Refused where no recipe stands here, where a parameter has the name of one before or follows one
/// that takes all values that remain, where two arguments of a dependency have a star, where an
/// expression is refused, and where numbers or memory run out. After a refusal it is not said where
/// the cursor stands; no more numbers of a kind were used than there were tokens.
#[tactic(auto, unfolding(crate::specs::Reading::recipe_at))]
pub fn recipe<'src, E: Expander>(
    alloc: Global,
    cursor: &mut Cursor<'_, 'src>,
    context: &Context<'_, 'src, E>,
    numerator: &mut Numerator,
) -> Result<RecipeRead<'src>, Fault<'src>>
    ensures gives { GivesUnless (AreUsed numerator.new) (λ r. ((recipe_shape r.recipe, r.blank_lines), ahead cursor.new)) result (recipe_at word_of (E.expansion context.now.expander.now) (ahead cursor.old)) }
    ensures numbers { IfOk result (λ r. IsRecipeNumbered numerator.old numerator.new r.recipe) }
    ensures frugal { IsFrugal (ahead cursor.old) numerator.old numerator.new }
    ensures plain { IfOk result (λ r. IsPlainRecipe r.recipe) }
    ensures cooked { IfOk result (λ r. IsRecipeCooked (origin_of E.expansion context.now) r.recipe) }
{
    let quiet = marked(cursor, TokenKind::At);
    let name = cursor.expect(TokenKind::Identifier)?;
    let number = next_recipe(numerator)?;
    let header = header(alloc, cursor, context, numerator)?;
    let body = body(alloc, cursor, context)?;
    Ok(RecipeRead {
        recipe: Recipe {
            attributes: AttributeSet::new(alloc),
            body: shrunk(body.lines),
            name: Name::from_token(name),
            number,
            parameters: shrunk(header.parameters),
            priors: shrunk(header.priors),
            quiet,
            subsequents: shrunk(header.subsequents),
        },
        blank_lines: body.blank_lines,
    })
}
