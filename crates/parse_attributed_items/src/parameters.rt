//! Parameters with the options that `arg`s give them.
ghost use Rattle.std.specs.Prelude.{◌≡◌, IfOk, map, true};
ghost use Rattle.std.specs.List.{All};
ghost use Rattle.tree_attributes.specs.Attributes.{options_shape};
ghost use Rattle.tree_items.specs.Recipes.{parameter_shapes};
ghost use Rattle.parse_attributes.specs.Cooked.{AreCookedOptions};
ghost use Rattle.parse_expressions.specs.Literals.{Origin};
ghost use Rattle.parse_recipes.specs.Plain.{ArePlain};
ghost use Rattle.parse_attributed_items.specs.Rules.{are_distinct, fault_of, names_of};
ghost use Rattle.parse_attributed_items.specs.Options.{AreValuesCooked, GivesOrRefuses, HaveOptions, bare_all};
ghost use Rattle.parse_attributed_items.specs.Whole.{AreWholeOptions};

use crate::options::with_all;
use crate::places::Places;
use crate::rules::check;
use parse_expressions::Fault;
use std::alloc::Global;
use tree_attributes::ArgumentOptions;
use tree_items::Parameter;

/// Gives the parameters of the recipe with that name the options that its `arg`s say of them.
///
/// Refused at the `arg` that names no parameter, that names one of an earlier `arg`, or that has the
/// long or the short name of an earlier one; at a parameter after a default that has none, takes
/// one value, and is no option; and where memory runs out.
pub fn with_options<'src>(
    alloc: Global,
    recipe: &str,
    parameters: Vec<Parameter<'src>>,
    options: Vec<ArgumentOptions<'src>>,
) -> Result<Vec<Parameter<'src>>, Fault<'src>>
    ensures gives { (origin : Origin) → All (AreCookedOptions origin) options.entry.items → GivesOrRefuses result (fault_of origin.expansion recipe.now (map options_shape options.entry.items) (parameter_shapes parameters.entry.items)) }
    ensures options { (origin : Origin) → All (AreCookedOptions origin) options.entry.items → ArePlain parameters.entry.items → are_distinct (names_of (parameter_shapes parameters.entry.items)) ≡ true
        → All (AreWholeOptions origin.expansion) (map options_shape options.entry.items) → IfOk result (λ ps. HaveOptions origin.expansion (map options_shape options.entry.items) ps.items) }
    ensures kept { IfOk result (λ ps. bare_all ps.items ≡ bare_all parameters.entry.items) }
    ensures cooked { (origin : Origin) → All (AreCookedOptions origin) options.entry.items → ArePlain parameters.entry.items → IfOk result (λ ps. AreValuesCooked origin ps.items) }
{
    let places = Places::of_parameters(alloc, &parameters)?;
    check(alloc, recipe, &places, &parameters, &options)?;
    Ok(with_all(parameters, &places, options))
}
