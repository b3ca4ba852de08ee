//! The rules that the `arg`s of a recipe have to keep.
ghost use Rattle.std.specs.Prelude.{◌≡◌, IfOk, map};
ghost use Rattle.std.specs.List.{All};
ghost use Rattle.just_text.specs.declared.compile_error.CompileErrorKind.TheVariants as kinds;
ghost use Rattle.tree_attributes.specs.Attributes.{options_shape};
ghost use Rattle.tree_items.specs.Recipes.{parameter_shapes};
ghost use Rattle.parse_expressions.specs.Literals.{Origin};
ghost use Rattle.parse_attributes.specs.Cooked.{AreCookedOptions};
ghost use Rattle.parse_attributed_items.specs.Names.{repeated_fault};
ghost use Rattle.parse_attributed_items.specs.Options.{GivesOrRefuses};
ghost use Rattle.parse_attributed_items.specs.Places.{HasPlaces};
ghost use Rattle.parse_attributed_items.specs.Rules.{arg_keyword, fault_of, names_of};

use crate::defaults::check_late;
use crate::names::{NameKind, repeated};
use crate::places::Places;
use just_text::{CompileErrorKind, Text};
use parse_expressions::Fault;
use std::alloc::{AllocError, Global};
use tree_attributes::ArgumentOptions;
use tree_items::Parameter;

/// That an `arg` does not fit the recipe with that name.
fn invalid(alloc: Global, recipe: &str) -> Result<CompileErrorKind, AllocError>
    ensures { IfOk result (λ kind. kind ≡ kinds.InvalidAttribute arg_keyword recipe.now) }
{
    let keyword = Text::from_text(alloc, "arg")?;
    let recipe = Text::from_text(alloc, recipe)?;
    Ok(CompileErrorKind::InvalidAttribute(keyword, recipe))
}

/// That a parameter has two `arg`s.
fn duplicate(alloc: Global) -> Result<CompileErrorKind, AllocError>
    ensures { IfOk result (λ kind. kind ≡ kinds.DuplicateAttribute arg_keyword) }
{
    let keyword = Text::from_text(alloc, "arg")?;
    Ok(CompileErrorKind::DuplicateAttribute(keyword))
}

/// Refuses the first `arg` that says the same name of that kind as an earlier one.
fn check_repeated<'src>(
    alloc: Global,
    recipe: &str,
    options: &[ArgumentOptions<'src>],
    kind: NameKind,
) -> Result<(), Fault<'src>>
    ensures { (origin : Origin) → All (AreCookedOptions origin) options.now → GivesOrRefuses result (repeated_fault origin.expansion kind recipe.now (map options_shape options.now)) }
{
    match repeated(alloc, options, kind)? {
        None => Ok(()),
        Some(token) => {
            let why = match kind {
                NameKind::Parameter => duplicate(alloc)?,
                NameKind::Long | NameKind::Short => invalid(alloc, recipe)?,
            };
            Err(Fault::Refused(token, why))
        }
    }
}

/// Refuses the first `arg` that breaks a rule; if none does, the first parameter after a default
/// that needs a value.
pub(crate) fn check<'src>(
    alloc: Global,
    recipe: &str,
    places: &Places<'src>,
    parameters: &[Parameter<'src>],
    options: &[ArgumentOptions<'src>],
) -> Result<(), Fault<'src>>
    ensures { (origin : Origin) → All (AreCookedOptions origin) options.now → HasPlaces places.now (names_of (parameter_shapes parameters.now)) → GivesOrRefuses result (fault_of origin.expansion recipe.now (map options_shape options.now) (parameter_shapes parameters.now)) }
{
    if let Some(token) = places.unknown(options) {
        return Err(Fault::Refused(token, invalid(alloc, recipe)?));
    }
    check_repeated(alloc, recipe, options, NameKind::Parameter)?;
    check_repeated(alloc, recipe, options, NameKind::Long)?;
    check_repeated(alloc, recipe, options, NameKind::Short)?;
    check_late(alloc, parameters, options)
}
