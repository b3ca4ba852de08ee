//! Recipes with their modules, and how many values they take.
ghost use Rattle.std.specs.Prelude.{◌≡◌, ◌++◌, IfOk, OnOk, map};
ghost use Rattle.std.specs.List.{count_by};
ghost use Rattle.resolve_recipes.specs.Counts.{are_taken, count_of};
ghost use Rattle.resolve_recipes.specs.Counts as spec;
ghost use Rattle.resolve_recipes.specs.Nodes.{all_kept, kept_by, view};
ghost use Rattle.resolve_recipes.specs.Standing.{last_place, place_in};

use crate::item_places::ItemPlaces;
use modules_compilation::{Compilation, ModuleNode, Place};
use std::alloc::{AllocError, Global};
use tree_items::{Parameter, ParameterKind, Recipe, UnresolvedDependency};

/// How many values a recipe takes.
#[derive(Clone, Copy, Debug)]
pub struct ValueCount {
    pub least: usize,
    /// None where there is no greatest number.
    pub most: Option<usize>,
}

/// Whether a dependency has to give the parameter a value.
fn is_required(parameter: &Parameter) -> bool
    ensures { result ≡ spec.is_required parameter.now }
{
    parameter.default.is_none() && parameter.kind != ParameterKind::Star && !parameter.flag
}

/// How many of the parameters have to be given a value.
fn required_count(parameters: &[Parameter]) -> usize
    ensures { result ≡ count_by spec.is_required parameters.now }
{
    let mut count: usize = 0;
    for place in 0..parameters.len() {
        count += usize::from(is_required(&parameters[place]));
    }
    count
}

/// Whether the last of the parameters takes all values that remain.
fn is_open(parameters: &[Parameter]) -> bool
    ensures { result ≡ spec.is_open parameters.now }
{
    match parameters.last() {
        Some(last) => last.kind.is_variadic(),
        None => false,
    }
}

impl ValueCount {
    /// How many values the parameters take of a dependency. Takes no memory.
    pub fn of(parameters: &[Parameter]) -> ValueCount
        ensures { result ≡ count_of parameters.now }
    {
        let least = required_count(parameters);
        let most = if is_open(parameters) {
            None
        } else {
            Some(parameters.len())
        };
        ValueCount { least, most }
    }

    /// Whether so many are taken.
    pub fn takes(self, count: usize) -> bool
        ensures { result ≡ are_taken self count }
    {
        match self.most {
            Some(most) => self.least <= count && count <= most,
            None => self.least <= count,
        }
    }
}

/// A recipe that is kept.
#[derive(Clone, Copy)]
pub struct RecipeNode<'src, 'a> {
    pub recipe: &'a Recipe<'src, UnresolvedDependency<'src>>,
    pub module: usize,
    /// Where it stands.
    pub place: Place,
}

fn add_nodes<'a, 'src>(
    compilation: &'a Compilation<'src>,
    module: usize,
    node: &ModuleNode<'src>,
    nodes: &mut Vec<RecipeNode<'src, 'a>>,
) -> Result<(), AllocError>
    ensures { OnOk result (map view nodes.new.items ≡ map view nodes.old.items ++ kept_by compilation.now «module» node.now) }
{
    for place in &node.recipes {
        if let Some(recipe) = compilation.recipe(*place) {
            nodes.push(RecipeNode {
                recipe,
                module,
                place: *place,
            })?;
        }
    }
    Ok(())
}

/// The recipes that are kept, module by module, those of a module as they stand in its list. Refused
/// only where memory is.
pub fn recipe_nodes<'a, 'src>(
    alloc: Global,
    compilation: &'a Compilation<'src>,
) -> Result<Vec<RecipeNode<'src, 'a>>, AllocError>
    ensures { IfOk result (λ nodes. map view nodes.items ≡ all_kept compilation.now) }
{
    let mut nodes = Vec::new(alloc);
    for module in 0..compilation.modules.len() {
        let node = &compilation.modules[module];
        add_nodes(compilation, module, node, &mut nodes)?;
    }
    Ok(nodes)
}

/// How many values each recipe takes. Refused only where memory is.
pub fn value_counts(alloc: Global, nodes: &[RecipeNode]) -> Result<Vec<ValueCount>, AllocError>
    ensures { IfOk result (λ counts. counts.items ≡ map (λ node. count_of node.recipe.now.parameters.items) nodes.now) }
{
    let mut counts = Vec::new(alloc);
    for node in nodes {
        counts.push(ValueCount::of(node.recipe.parameters.as_slice()))?;
    }
    Ok(counts)
}

/// The place of each recipe among these, by where it stands; the last place, where it is among them
/// twice. Refused only where memory is.
pub fn recipe_places(alloc: Global, nodes: &[RecipeNode]) -> Result<ItemPlaces, AllocError>
    ensures { IfOk result (λ places. (item : Place) → place_in places item ≡ last_place 0 (map (λ node. node.place) nodes.now) item) }
{
    let mut places = ItemPlaces::new(alloc);
    for place in 0..nodes.len() {
        places.insert(nodes[place].place, place)?;
    }
    Ok(places)
}
