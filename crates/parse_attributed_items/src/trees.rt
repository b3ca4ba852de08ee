//! Items with the attributes before them.
ghost use Rattle.std.specs.Prelude.{◌≡◌, ◌||◌, IfOk, List};
ghost use Rattle.just_text.specs.Numbers.{Numbers};
ghost use Rattle.tree_items.specs.declared.ast.Item.TheVariants as items;
ghost use Rattle.tree_attributes.specs.Attributes.{AttributeShape};
ghost use Rattle.tree_items.specs.Files.{item_shape};
ghost use Rattle.tree_items.specs.Recipes.{recipe_shape};
ghost use Rattle.tree_attributes.specs.Sets.Sets.{items_of, shapes_in, is_private as are_private};
ghost use Rattle.parse_expressions.specs.Literals.{Origin};
ghost use Rattle.parse_recipes.specs.Cooked.{IsRecipeCooked};
ghost use Rattle.parse_recipes.specs.Numbering.{IsRecipeNumbered};
ghost use Rattle.parse_attributed_items.specs.Options.{AreValuesCooked, GivesOrRefuses};
ghost use Rattle.parse_attributed_items.specs.Fitting.{argument_fault, with_attributes};
ghost use Rattle.parse_attributed_items.specs.Held.{AreAscii, HasOptions, IsItemCooked, IsItemNumbered, IsOwnItem};
ghost use Rattle.parse_attributed_items.specs.Plain.{IsBareCooked, IsBareRecipe, IsBareTree};
ghost use Rattle.parse_attributed_items.specs.Seen.{AreWholeArguments, AreWholeOrdered};

use crate::parameters::with_options;
use crate::split::OrderedAttributes;
use just_text::Namepath;
use parse_expressions::Fault;
use std::alloc::Global;
use tree_attributes::AttributeSet;
use tree_items::{Alias, Assignment, Binding, Item, Module, Recipe, Set, UnresolvedDependency};

/// The alias after these attributes.
fn alias_with<'src>(
    alias: Alias<'src, Namepath<'src>>,
    attributes: AttributeSet<'src>,
) -> Alias<'src, Namepath<'src>>
    ensures { result ≡ record alias.entry { attributes = attributes.entry } }
{
    Alias {
        attributes,
        name: alias.name,
        target: alias.target,
    }
}

/// The assignment after these attributes, private if it was or if one of them says so.
fn assignment_with<'src>(
    assignment: Assignment<'src>,
    attributes: AttributeSet<'src>,
) -> Assignment<'src>
    ensures { result ≡ record assignment.entry { attributes = attributes.entry; private = assignment.entry.private || are_private (items_of attributes.entry) } }
{
    let private = attributes.private();
    Binding {
        attributes,
        eager: assignment.eager,
        export: assignment.export,
        file_depth: assignment.file_depth,
        name: assignment.name,
        number: assignment.number,
        prelude: assignment.prelude,
        private: assignment.private || private,
        value: assignment.value,
    }
}

/// The submodule after these attributes.
fn module_with<'src>(submodule: Module<'src>, attributes: AttributeSet<'src>) -> Module<'src>
    ensures { result ≡ record submodule.entry { attributes = attributes.entry } }
{
    Module {
        attributes,
        name: submodule.name,
        optional: submodule.optional,
        path: submodule.path,
    }
}

/// The setting after these attributes.
fn set_with<'src>(set: Set<'src>, attributes: AttributeSet<'src>) -> Set<'src>
    ensures { result ≡ record set.entry { attributes = attributes.entry } }
{
    Set {
        attributes,
        name: set.name,
        value: set.value,
    }
}

/// The recipe after these attributes, whose `arg`s give its parameters their options.
fn recipe_with<'src>(
    alloc: Global,
    recipe: Recipe<'src, UnresolvedDependency<'src>>,
    known: OrderedAttributes<'src>,
) -> Result<Recipe<'src, UnresolvedDependency<'src>>, Fault<'src>>
    ensures gives { (origin : Origin) (written : List AttributeShape) → AreWholeOrdered origin written known.entry → GivesOrRefuses result (argument_fault origin.expansion written (item_shape (items.Recipe recipe.entry))) }
    ensures attributes { IfOk result (λ r. r.attributes ≡ known.entry.attributes) }
    ensures shape { IfOk result (λ r. recipe_shape r ≡ recipe_shape recipe.entry) }
    ensures numbers { (old new : Numbers) → IsRecipeNumbered old new recipe.entry → IfOk result (IsRecipeNumbered old new) }
    ensures options { (origin : Origin) (written : List AttributeShape) → AreWholeOrdered origin written known.entry → AreWholeArguments origin.expansion written → IsBareRecipe recipe.entry → IfOk result (HasOptions origin.expansion) }
    ensures letters { (origin : Origin) (written : List AttributeShape) → AreWholeOrdered origin written known.entry → AreWholeArguments origin.expansion written → IsBareRecipe recipe.entry → IfOk result (λ r. AreAscii r.parameters.items) }
    ensures cooked { (origin : Origin) → IsRecipeCooked origin recipe.entry → IfOk result (IsRecipeCooked origin) }
    ensures values { (origin : Origin) (written : List AttributeShape) → AreWholeOrdered origin written known.entry → IsBareRecipe recipe.entry → IfOk result (λ r. AreValuesCooked origin r.parameters.items) }
{
    let name = recipe.name;
    let parameters = with_options(alloc, name.lexeme(), recipe.parameters, known.options)?;
    Ok(Recipe {
        attributes: known.attributes,
        body: recipe.body,
        name,
        number: recipe.number,
        parameters,
        priors: recipe.priors,
        quiet: recipe.quiet,
        subsequents: recipe.subsequents,
    })
}

/// The recipe after these attributes, as an item.
fn recipe_item_with<'src>(
    alloc: Global,
    recipe: Recipe<'src, UnresolvedDependency<'src>>,
    known: OrderedAttributes<'src>,
) -> Result<Item<'src>, Fault<'src>>
    ensures gives { (origin : Origin) (written : List AttributeShape) → AreWholeOrdered origin written known.entry → GivesOrRefuses result (argument_fault origin.expansion written (item_shape (items.Recipe recipe.entry))) }
    ensures shape { IfOk result (λ i. item_shape i ≡ with_attributes (shapes_in known.entry.attributes) (item_shape (items.Recipe recipe.entry))) }
    ensures numbers { (old new : Numbers) → IsItemNumbered old new (items.Recipe recipe.entry) → IfOk result (IsItemNumbered old new) }
    ensures own { (origin : Origin) (written : List AttributeShape) → AreWholeOrdered origin written known.entry → AreWholeArguments origin.expansion written → IsBareTree (items.Recipe recipe.entry) → IfOk result (IsOwnItem origin.expansion) }
    ensures cooked { (origin : Origin) (written : List AttributeShape) → AreWholeOrdered origin written known.entry → IsBareTree (items.Recipe recipe.entry) → IsBareCooked origin (items.Recipe recipe.entry) → IfOk result (IsItemCooked origin) }
{
    let recipe = recipe_with(alloc, recipe, known)?;
    Ok(Item::Recipe(recipe))
}

/// The item after these attributes; an item that takes none as it is.
///
/// Refused where the `arg`s break a rule of the recipe's parameters, and where memory runs out.
pub(crate) fn item_with<'src>(
    alloc: Global,
    item: Item<'src>,
    known: OrderedAttributes<'src>,
) -> Result<Item<'src>, Fault<'src>>
    ensures gives { (origin : Origin) (written : List AttributeShape) → AreWholeOrdered origin written known.entry → GivesOrRefuses result (argument_fault origin.expansion written (item_shape item.entry)) }
    ensures shape { IfOk result (λ i. item_shape i ≡ with_attributes (shapes_in known.entry.attributes) (item_shape item.entry)) }
    ensures numbers { (old new : Numbers) → IsItemNumbered old new item.entry → IfOk result (IsItemNumbered old new) }
    ensures own { (origin : Origin) (written : List AttributeShape) → AreWholeOrdered origin written known.entry → AreWholeArguments origin.expansion written → IsBareTree item.entry → IfOk result (IsOwnItem origin.expansion) }
    ensures cooked { (origin : Origin) (written : List AttributeShape) → AreWholeOrdered origin written known.entry → IsBareTree item.entry → IsBareCooked origin item.entry → IfOk result (IsItemCooked origin) }
{
    match item {
        Item::Alias(alias) => Ok(Item::Alias(alias_with(alias, known.attributes))),
        Item::Assignment(assignment) => Ok(Item::Assignment(assignment_with(
            assignment,
            known.attributes,
        ))),
        Item::Module(submodule) => Ok(Item::Module(module_with(submodule, known.attributes))),
        Item::Recipe(recipe) => recipe_item_with(alloc, recipe, known),
        Item::Set(set) => Ok(Item::Set(set_with(set, known.attributes))),
        other => Ok(other),
    }
}
