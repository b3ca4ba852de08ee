//! What modules offer: their recipes and submodules that are not private.
ghost use Rattle.std.specs.Prelude.{◌≡◌, IfOk, OnOk, ◌++◌, filter, map, option_map};
ghost use Rattle.tree_attributes.specs.Sets.Sets.{items_of};
ghost use Rattle.modules_compilation.specs.Places.{item_at, text_of};
ghost use Rattle.justfile_analyzer.specs.Offers as spec;

use modules_compilation::{Compilation, ModuleNode, Place};
use std::alloc::{AllocError, Global};
use tree_attributes::AttributeSet;
use tree_items::{Item, Recipe, UnresolvedDependency};

/// A recipe that is borrowed.
#[derive(Clone, Copy)]
pub struct RecipeRef<'a, 'src> {
    pub recipe: &'a Recipe<'src, UnresolvedDependency<'src>>,
    /// Where it stands.
    pub place: Place,
}

/// Whether the name or an attribute makes an item private.
fn is_private(name: &str, attributes: &AttributeSet) -> bool
    ensures { result ≡ spec.is_private name.now (items_of attributes.now) }
{
    name.starts_with('_') || attributes.private()
}

/// The places of the module's recipes, by name.
pub(crate) fn recipe_places<'a, 'src>(
    compilation: &'a Compilation<'src>,
    module: usize,
) -> &'a [Place]
    ensures { result.now ≡ spec.recipe_places compilation.now «module» }
{
    match compilation.module(module) {
        Some(node) => node.recipes.as_slice(),
        None => &[],
    }
}

/// The recipe at the place, if there is one that is not private.
fn public_recipe<'a, 'src>(
    compilation: &'a Compilation<'src>,
    place: Place,
) -> Option<RecipeRef<'a, 'src>>
    ensures { option_map spec.lent result ≡ spec.offered_at compilation.now place }
{
    let Some(recipe) = compilation.recipe(place) else {
        return None;
    };
    if is_private(recipe.name.lexeme(), &recipe.attributes) {
        return None;
    }
    Some(RecipeRef { recipe, place })
}

/// The recipes at the places that are not private, in this order.
pub(crate) fn recipes_at<'a, 'src>(
    alloc: Global,
    compilation: &'a Compilation<'src>,
    places: &[Place],
) -> Result<Vec<RecipeRef<'a, 'src>>, AllocError>
    ensures { IfOk result (λ recipes. map spec.lent recipes.items ≡ spec.offered_among compilation.now places.now) }
{
    let mut recipes = Vec::new(alloc);
    for place in places {
        if let Some(recipe) = public_recipe(compilation, *place) {
            recipes.push(recipe)?;
        }
    }
    Ok(recipes)
}

/// The module's recipes that are not private, by name.
pub(crate) fn public_recipes<'a, 'src>(
    alloc: Global,
    compilation: &'a Compilation<'src>,
    module: usize,
) -> Result<Vec<RecipeRef<'a, 'src>>, AllocError>
    ensures { IfOk result (λ recipes. map spec.lent recipes.items ≡ spec.offered_recipes compilation.now «module») }
{
    recipes_at(alloc, compilation, recipe_places(compilation, module))
}

/// The places of the module's submodules, by name.
fn submodules<'a, 'src>(compilation: &'a Compilation<'src>, module: usize) -> &'a [usize]
    ensures { result.now ≡ spec.submodules compilation.now «module» }
{
    match compilation.module(module) {
        Some(node) => node.submodules.as_slice(),
        None => &[],
    }
}

fn node_name<'src>(node: &ModuleNode<'src>) -> &'src str
    ensures { result.now ≡ text_of node.now.name }
{
    match &node.name {
        Some(name) => name.lexeme(),
        None => "",
    }
}

/// The module's name, which is empty for the root.
pub(crate) fn module_name<'src>(compilation: &Compilation<'src>, module: usize) -> &'src str
    ensures { result.now ≡ spec.module_name compilation.now «module» }
{
    match compilation.module(module) {
        Some(node) => node_name(node),
        None => "",
    }
}

/// The attributes of the `mod` item at the place, if there is one.
fn attributes_at<'a, 'src>(
    compilation: &'a Compilation<'src>,
    place: Place,
) -> Option<&'a AttributeSet<'src>>
    ensures { option_map (λ set. items_of set.now) result ≡ spec.attributes_of (item_at compilation.now place) }
{
    match compilation.item(place) {
        Some(Item::Module(item)) => Some(&item.attributes),
        _ => None,
    }
}

/// The attributes of the module's `mod` item, if it has one.
pub(crate) fn module_attributes<'a, 'src>(
    compilation: &'a Compilation<'src>,
    module: usize,
) -> Option<&'a AttributeSet<'src>>
    ensures { option_map (λ set. items_of set.now) result ≡ spec.module_attributes compilation.now «module» }
{
    match compilation.module(module)?.item {
        Some(place) => attributes_at(compilation, place),
        None => None,
    }
}

fn is_public(compilation: &Compilation, module: usize) -> bool
    ensures { result ≡ spec.is_public compilation.now «module» }
{
    match module_attributes(compilation, module) {
        Some(attributes) => !is_private(module_name(compilation, module), attributes),
        None => true,
    }
}

/// The places of the module's submodules that are not private, by name.
pub(crate) fn public_modules(
    alloc: Global,
    compilation: &Compilation,
    module: usize,
) -> Result<Vec<usize>, AllocError>
    ensures { IfOk result (λ modules. modules.items ≡ spec.offered_modules compilation.now «module») }
{
    let mut modules = Vec::new(alloc);
    for place in submodules(compilation, module) {
        if is_public(compilation, *place) {
            modules.push(*place)?;
        }
    }
    Ok(modules)
}
