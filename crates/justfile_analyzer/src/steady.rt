//! Whether recipes are entered alike as dependencies and by words.
ghost use Rattle.std.specs.Prelude.{◌≡◌, ◌++◌, ◌↔◌, ℕ, true, map, IfOk, OnOk};
ghost use Rattle.std.specs.List.{flat_map, list_any};
ghost use Rattle.tree_attributes.specs.Sets.Sets.{items_of};
ghost use Rattle.resolve_references.specs.References.{references_of};
ghost use Rattle.justfile_analyzer.specs.Steady as spec;
ghost use Rattle.justfile_analyzer.specs.Values.{has_value, value_at, value_in};

use crate::calls::references_ask;
use evaluate_context::{FunctionRef, Settings};
use modules_compilation::{Compilation, Place};
use resolve_analysis::{ModuleLists, ResolvedRecipe};
use resolve_references::References;
use std::alloc::{AllocError, Global};
use tree_attributes::{Attribute, AttributeSet};
use tree_items::{DependencyArgument, Parameter, Recipe, UnresolvedDependency};

fn add_attribute<'src>(
    references: &mut References<'src>,
    attribute: &Attribute<'src>,
) -> Result<(), AllocError>
    ensures { OnOk result (references.new.list.items ≡ references.old.list.items ++ flat_map references_of (spec.first_of_attribute attribute.now)) }
{
    match attribute {
        Attribute::Confirm(Some(prompt)) => references.add(prompt),
        Attribute::Env { key, value } => {
            references.add(key)?;
            references.add(value)
        }
        _ => Ok(()),
    }
}

fn add_attributes<'src>(
    references: &mut References<'src>,
    attributes: &AttributeSet<'src>,
) -> Result<(), AllocError>
    ensures { OnOk result (references.new.list.items ≡ references.old.list.items ++ flat_map references_of (flat_map spec.first_of_item (items_of attributes.now))) }
{
    for item in attributes.iter() {
        add_attribute(references, &item.attribute)?;
    }
    Ok(())
}

fn add_parameter<'src>(
    references: &mut References<'src>,
    parameter: &Parameter<'src>,
) -> Result<(), AllocError>
    ensures { OnOk result (references.new.list.items ≡ references.old.list.items ++ flat_map references_of (spec.first_of_parameter parameter.now)) }
{
    match &parameter.default {
        Some(default) => references.add(default),
        None => Ok(()),
    }
}

fn add_parameters<'src>(
    references: &mut References<'src>,
    parameters: &[Parameter<'src>],
) -> Result<(), AllocError>
    ensures { OnOk result (references.new.list.items ≡ references.old.list.items ++ flat_map references_of (flat_map spec.first_of_parameter parameters.now)) }
{
    for parameter in parameters {
        add_parameter(references, parameter)?;
    }
    Ok(())
}

fn add_arguments<'src>(
    references: &mut References<'src>,
    arguments: &[DependencyArgument<'src>],
) -> Result<(), AllocError>
    ensures { OnOk result (references.new.list.items ≡ references.old.list.items ++ flat_map references_of (map spec.argument_of arguments.now)) }
{
    for argument in arguments {
        references.add(&argument.expression)?;
    }
    Ok(())
}

fn add_dependencies<'src>(
    references: &mut References<'src>,
    dependencies: &[UnresolvedDependency<'src>],
) -> Result<(), AllocError>
    ensures { OnOk result (references.new.list.items ≡ references.old.list.items ++ flat_map references_of (flat_map spec.arguments_of dependencies.now)) }
{
    for dependency in dependencies {
        add_arguments(references, dependency.arguments.as_slice())?;
    }
    Ok(())
}

/// Adds what is evaluated before the recipe's body.
fn add_front<'src>(
    references: &mut References<'src>,
    recipe: &Recipe<'src, UnresolvedDependency<'src>>,
) -> Result<(), AllocError>
    ensures { OnOk result (references.new.list.items ≡ references.old.list.items ++ flat_map references_of (spec.first_of_front recipe.now)) }
{
    add_attributes(references, &recipe.attributes)?;
    add_parameters(references, recipe.parameters.as_slice())?;
    add_dependencies(references, recipe.priors.as_slice())
}

/// Adds what is evaluated before the recipe's body, and the arguments of its subsequents, where these
/// share its table.
fn add_recipe<'src>(
    references: &mut References<'src>,
    recipe: &Recipe<'src, UnresolvedDependency<'src>>,
    share_subsequents: bool,
) -> Result<(), AllocError>
    ensures { OnOk result (references.new.list.items ≡ references.old.list.items ++ flat_map references_of (spec.first_of_recipe share_subsequents recipe.now)) }
{
    add_front(references, recipe)?;
    if share_subsequents {
        return add_dependencies(references, recipe.subsequents.as_slice());
    }
    Ok(())
}

/// What is evaluated before the bodies of the recipes at these places, and the arguments of their
/// subsequents, where these share the recipes' table.
fn added<'src>(
    alloc: Global,
    compilation: &Compilation<'src>,
    places: &[Place],
    share_subsequents: bool,
) -> Result<References<'src>, AllocError>
    ensures { IfOk result (λ references. references.list.items ≡ flat_map references_of (flat_map (spec.first_at compilation.now share_subsequents) places.now)) }
{
    let mut references = References::new(alloc);
    for place in places {
        if let Some(recipe) = compilation.recipe(*place) {
            add_recipe(&mut references, recipe, share_subsequents)?;
        }
    }
    Ok(references)
}

/// Whether a parameter's value is replaced where words call its recipe.
fn any_value(parameters: &[Parameter]) -> bool
    ensures { result ≡ list_any has_value parameters.now }
{
    for parameter in parameters {
        if parameter.value.is_some() {
            return true;
        }
    }
    false
}

/// Whether the recipe at the place has such a parameter.
fn has_value(compilation: &Compilation, place: Place) -> bool
    ensures { result ≡ value_at compilation.now place }
{
    match compilation.recipe(place) {
        Some(recipe) => any_value(recipe.parameters.as_slice()),
        None => false,
    }
}

/// Whether one of the recipes has such a parameter.
fn any_recipe_value(compilation: &Compilation, recipes: &[ResolvedRecipe]) -> bool
    ensures { result ≡ list_any (value_in compilation.now) recipes.now }
{
    for resolved in recipes {
        if has_value(compilation, resolved.place) {
            return true;
        }
    }
    false
}

/// Whether what is evaluated before the bodies of the module's recipes, which stand at these places,
/// or in the arguments of subsequents that share their table, asks for the flag of dependencies.
fn recipes_ask<'src>(
    alloc: Global,
    compilation: &Compilation<'src>,
    places: &[Place],
    functions: &[FunctionRef<'_, 'src>],
    share_subsequents: bool,
) -> Result<bool, AllocError>
    ensures { IfOk result (λ asks. (asks ≡ true) ↔ spec.AskFirst compilation.now functions.now share_subsequents places.now) }
{
    let references = added(alloc, compilation, places, share_subsequents)?;
    references_ask(alloc, functions, references.as_slice())
}

/// The same of one of the modules, which keep this and have these settings.
fn any_module_asks<'src>(
    alloc: Global,
    compilation: &Compilation<'src>,
    lists: &[ModuleLists<'src, '_>],
    settings: &[Settings],
) -> Result<bool, AllocError>
    ensures { IfOk result (λ asks. (asks ≡ true) ↔ ((home : ℕ) × spec.ModuleAsks compilation.now lists.now settings.now home)) }
{
    let modules = compilation.modules.as_slice();
    for module in 0..modules.len().min(lists.len()).min(settings.len()) {
        let places = modules[module].recipes.as_slice();
        if recipes_ask(
            alloc,
            compilation,
            places,
            lists[module].functions.as_slice(),
            settings[module].share_subsequents,
        )? {
            return Ok(true);
        }
    }
    Ok(false)
}

/// Whether each of these recipes of all modules, which keep this and have these settings, is entered
/// alike as a dependency and by words: no call of the built-in `is_dependency` is written in a default,
/// an `env` attribute, an argument of a dependency before a body or a confirmation, in an argument of a
/// dependency after a body where the module's settings share subsequents, or in a function that is
/// called from there through any chain of calls, and no parameter has a `value`. Refused only where
/// memory is.
pub fn is_steady<'src>(
    alloc: Global,
    compilation: &Compilation<'src>,
    recipes: &[ResolvedRecipe<'src>],
    lists: &[ModuleLists<'src, '_>],
    settings: &[Settings],
) -> Result<bool, AllocError>
    ensures { IfOk result (λ steady. (steady ≡ true) ↔ spec.AreSteadyAt compilation.now recipes.now lists.now settings.now) }
{
    if any_recipe_value(compilation, recipes) {
        return Ok(false);
    }
    Ok(!any_module_asks(alloc, compilation, lists, settings)?)
}
