//! Parameters after defaults.
ghost use Rattle.std.specs.Prelude.{◌≡◌, ◌||◌, [], IfOk, List, is_some, map};
ghost use Rattle.std.specs.List.{All};
ghost use Rattle.std.specs.Option.{option_map};
ghost use Rattle.just_text.specs.Tokens.{lexeme};
ghost use Rattle.just_text.specs.declared.compile_error.CompileErrorKind.TheVariants as kinds;
ghost use Rattle.tree_attributes.specs.Attributes.{OptionsShape, options_shape};
ghost use Rattle.tree_items.specs.declared.ast.Item.TheVariants as items;
ghost use Rattle.tree_items.specs.Files.{item_shape};
ghost use Rattle.tree_items.specs.Recipes.{parameter_shape, parameter_shapes};
ghost use Rattle.parse_expressions.specs.Literals.{Expansion, Origin};
ghost use Rattle.parse_attributes.specs.Cooked.{AreCookedOptions};
ghost use Rattle.parse_attributed_items.specs.Fitting.{argument_fault};
ghost use Rattle.parse_attributed_items.specs.Names.{AreOptions};
ghost use Rattle.parse_attributed_items.specs.Options.{GivesOrRefuses};
ghost use Rattle.parse_attributed_items.specs.Rules.{late, may_lack};

use just_text::{CompileErrorKind, Name, Text};
use parse_expressions::Fault;
use std::alloc::{AllocError, Global};
use std::collections::BTreeSet;
use tree_attributes::{ArgumentOptions, LongName};
use tree_items::{Item, Parameter, Recipe, UnresolvedDependency};

/// Whether the `arg` gives its parameter a name after two dashes or after one.
fn names_option(options: &ArgumentOptions) -> bool
    ensures { result ≡ (is_some (options_shape options.now).long || is_some (options_shape options.now).short) }
{
    !matches!(options.long, LongName::Absent) || options.short.is_some()
}

/// The names of the parameters that are options.
fn option_names<'a>(
    alloc: Global,
    options: &'a [ArgumentOptions],
) -> Result<BTreeSet<&'a str>, AllocError>
    ensures { (origin : Origin) → All (AreCookedOptions origin) options.now → IfOk result (AreOptions origin.expansion (map options_shape options.now)) }
{
    let mut names = BTreeSet::new(alloc);
    for options in options {
        if names_option(options) {
            names.insert(options.name.cooked.as_str())?;
        }
    }
    Ok(names)
}

/// Whether the parameter needs no value.
fn may_lack(options: &BTreeSet<&str>, parameter: &Parameter) -> bool
    ensures { (expansion : Expansion) (os : List OptionsShape) → AreOptions expansion os options.now → result ≡ may_lack expansion os (parameter_shape parameter.now) }
{
    parameter.default.is_some()
        || parameter.kind.is_variadic()
        || options.contains(parameter.name.lexeme())
}

/// The first parameter after a default that needs a value.
fn late<'src>(options: &BTreeSet<&str>, parameters: &[Parameter<'src>]) -> Option<Name<'src>>
    ensures { (expansion : Expansion) (os : List OptionsShape) → AreOptions expansion os options.now → option_map (λ n. lexeme n.token) result ≡ late expansion os (parameter_shapes parameters.now) }
{
    let mut is_behind_default = false;
    for parameter in parameters {
        if is_behind_default && !may_lack(options, parameter) {
            return Some(parameter.name);
        }
        is_behind_default = is_behind_default || parameter.default.is_some();
    }
    None
}

/// Refuses the first parameter after a default that needs a value.
pub(crate) fn check_late<'src>(
    alloc: Global,
    parameters: &[Parameter<'src>],
    options: &[ArgumentOptions<'src>],
) -> Result<(), Fault<'src>>
    ensures { (origin : Origin) → All (AreCookedOptions origin) options.now → GivesOrRefuses result (option_map kinds.RequiredParameterFollowsDefault (late origin.expansion (map options_shape options.now) (parameter_shapes parameters.now))) }
{
    let option_names = option_names(alloc, options)?;
    match late(&option_names, parameters) {
        None => Ok(()),
        Some(name) => {
            let text = Text::from_text(alloc, name.lexeme())?;
            Err(Fault::Refused(
                name.token,
                CompileErrorKind::RequiredParameterFollowsDefault(text),
            ))
        }
    }
}

/// Refuses the first parameter after a default that needs a value, of a recipe without `arg`s.
fn check_recipe<'src>(
    alloc: Global,
    recipe: &Recipe<'src, UnresolvedDependency<'src>>,
) -> Result<(), Fault<'src>>
    ensures { (origin : Origin) → GivesOrRefuses result (argument_fault origin.expansion [] (item_shape (items.Recipe recipe.now))) }
{
    check_late(alloc, recipe.parameters.as_slice(), &[])
}

/// Refuses the first parameter after a default that needs a value, where the item is a recipe
/// without attributes.
pub(crate) fn check_unattributed<'src>(alloc: Global, item: &Item<'src>) -> Result<(), Fault<'src>>
    ensures { (origin : Origin) → GivesOrRefuses result (argument_fault origin.expansion [] (item_shape item.now)) }
{
    match item {
        Item::Recipe(recipe) => check_recipe(alloc, recipe),
        _ => Ok(()),
    }
}
