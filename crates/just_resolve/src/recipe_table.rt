//! The recipes of all modules in their order, and what aliases stand for.
ghost use Rattle.std.specs.Prelude.{◌≡◌, ◌≢◌, Err, IfErr, IfOk, Ok, Some, map};
ghost use Rattle.std.specs.Option.{option_map};
ghost use Rattle.std.specs.Result.{result_err};
ghost use Rattle.resolve_order.specs.Needs.{rows};
ghost use Rattle.resolve_recipes.specs.Named.{AllByName};
ghost use Rattle.resolve_recipes.specs.Nodes.{view};
ghost use Rattle.resolve_recipes.specs.Refusals.{out_of_memory, told};
ghost use Rattle.resolve_references.specs.declared.read_fault.ReadFault.TheVariants as reading;
ghost use Rattle.just_resolve.specs.Recipes as recipes_spec;
ghost use Rattle.just_resolve.specs.Recipes.{resolved_in, seen};
ghost use Rattle.just_resolve.specs.Table as spec;
ghost use Rattle.just_resolve.specs.Table.{ArePlaces, IsAliasRefused, IsNotSorted, IsRefusedFor, IsRefusedIn, IsSorted, IsTable, IsTableFor, IsTableIn, IsTableOf, IsTableRefused, disabled_refusal, first_of, lists_in, recipe_refusal, refusal_at};
ghost use Rattle.just_resolve.specs.declared.error.Error.TheVariants.{OutOfMemory};

use crate::cycles::recipe_order;
use crate::error::Error;
use crate::recipes::resolved_recipe;
use modules_compilation::{Compilation, Place};
use resolve_analysis::{ModuleReads, RecipeTable, ResolvedRecipe};
use resolve_recipes::{
    DependencyFault, ItemPlaces, RecipeNode, RecipeResolver, ResolvedAlias, all_needs,
    check_dependencies, ranks, recipe_nodes, recipe_places, resolved_aliases, value_counts,
};
use resolve_references::ReadFault;
use std::alloc::{AllocError, Global};
use tree_items::{Recipe, UnresolvedDependency};

/// Whether the dependencies of the module's recipe, which is disabled, name recipes.
fn check_recipe<'a, 'src>(
    compilation: &'a Compilation<'src>,
    resolver: &RecipeResolver,
    module: usize,
    recipe: &'a Recipe<'src, UnresolvedDependency<'src>>,
) -> Result<(), DependencyFault<'a, 'src>>
    ensures { AllByName compilation.now → option_map told (result_err result) ≡ recipe_refusal compilation.now resolver.now «module» recipe.now }
{
    let name = recipe.name;
    let priors = recipe.priors.as_slice();
    let subsequents = recipe.subsequents.as_slice();
    check_dependencies(compilation, resolver, module, name, priors)?;
    check_dependencies(compilation, resolver, module, name, subsequents)
}

/// The same of the recipe that stands at the place, if one does.
fn check_place<'a, 'src>(
    compilation: &'a Compilation<'src>,
    resolver: &RecipeResolver,
    module: usize,
    place: Place,
) -> Result<(), DependencyFault<'a, 'src>>
    ensures { AllByName compilation.now → option_map told (result_err result) ≡ refusal_at compilation.now resolver.now «module» place }
{
    match compilation.recipe(place) {
        Some(recipe) => check_recipe(compilation, resolver, module, recipe),
        None => Ok(()),
    }
}

/// The same of the module's recipes that are disabled.
fn check_module<'a, 'src>(
    compilation: &'a Compilation<'src>,
    resolver: &RecipeResolver,
    module: usize,
    disabled: &[Place],
) -> Result<(), DependencyFault<'a, 'src>>
    ensures { AllByName compilation.now → option_map told (result_err result) ≡ first_of (refusal_at compilation.now resolver.now «module») disabled.now }
{
    for place in disabled {
        check_place(compilation, resolver, module, *place)?;
    }
    Ok(())
}

/// The same of all modules.
fn check_disabled<'a, 'src>(
    compilation: &'a Compilation<'src>,
    resolver: &RecipeResolver,
) -> Result<(), DependencyFault<'a, 'src>>
    ensures { AllByName compilation.now → option_map told (result_err result) ≡ disabled_refusal compilation.now resolver.now }
{
    let modules = compilation.modules.as_slice();
    for module in 0..modules.len() {
        let disabled = modules[module].disabled.as_slice();
        check_module(compilation, resolver, module, disabled)?;
    }
    Ok(())
}

/// The recipe at the place, with its row of needs there.
fn recipe_at<'src>(
    alloc: Global,
    nodes: &[RecipeNode<'src, '_>],
    reads: &[ModuleReads<'src>],
    needs: &[Vec<usize>],
    ranks: &[usize],
    place: usize,
) -> Result<Option<ResolvedRecipe<'src>>, ReadFault<'src>>
    ensures ok { IfOk result (λ found. recipes_spec.resolved_at (map view nodes.now) reads.now (rows needs.now) ranks.now place ≡ option_map (λ recipe. Ok (seen recipe)) found) }
    ensures err { IfErr result (λ fault. fault ≢ reading.OutOfMemory → recipes_spec.resolved_at (map view nodes.now) reads.now (rows needs.now) ranks.now place ≡ Some (Err fault)) }
{
    let Some(node) = nodes.get(place) else {
        return Ok(None);
    };
    let Some(row) = needs.get(place) else {
        return Ok(None);
    };
    let Some(home) = reads.get(node.module) else {
        return Ok(None);
    };
    let recipe = resolved_recipe(alloc, node, &home.resolver, ranks, row.as_slice())?;
    Ok(Some(recipe))
}

/// The recipes in this order, with these needs.
fn recipes_in_order<'src>(
    alloc: Global,
    nodes: &[RecipeNode<'src, '_>],
    reads: &[ModuleReads<'src>],
    needs: &[Vec<usize>],
    order: &[usize],
    ranks: &[usize],
) -> Result<Vec<ResolvedRecipe<'src>>, ReadFault<'src>>
    ensures ok { IfOk result (λ recipes. resolved_in (map view nodes.now) reads.now (rows needs.now) ranks.now order.now ≡ Ok (map seen recipes.items)) }
    ensures err { IfErr result (λ fault. fault ≢ reading.OutOfMemory → resolved_in (map view nodes.now) reads.now (rows needs.now) ranks.now order.now ≡ Err fault) }
{
    let mut recipes = Vec::with_capacity(alloc, order.len())?;
    for place in order {
        if let Some(recipe) = recipe_at(alloc, nodes, reads, needs, ranks, *place)? {
            recipes.push(recipe)?;
        }
    }
    Ok(recipes)
}

/// The place of each recipe by where it stands.
fn places_of(alloc: Global, recipes: &[ResolvedRecipe]) -> Result<ItemPlaces, AllocError>
    ensures { IfOk result (λ places. ArePlaces (map (λ recipe. recipe.place) recipes.now) places) }
{
    let mut places = ItemPlaces::new(alloc);
    for place in 0..recipes.len() {
        places.insert(recipes[place].place, place)?;
    }
    Ok(places)
}

/// The aliases of each module.
fn all_aliases<'src, 'a>(
    alloc: Global,
    compilation: &'a Compilation<'src>,
    resolver: &RecipeResolver,
    ranks: &[usize],
) -> Result<Vec<Vec<ResolvedAlias<'src>>>, DependencyFault<'a, 'src>>
    ensures ok { IfOk result (λ all. AllByName compilation.now → spec.all_aliases compilation.now resolver.now.places.now ranks.now ≡ Ok (lists_in all.items)) }
    ensures err { IfErr result (λ fault. told fault ≢ out_of_memory → AllByName compilation.now → spec.all_aliases compilation.now resolver.now.places.now ranks.now ≡ Err (told fault)) }
{
    let modules = compilation.modules.as_slice();
    let mut all = Vec::new(alloc);
    for module in 0..modules.len() {
        let node = &modules[module];
        all.push(resolved_aliases(alloc, compilation, resolver, ranks, module, node)?)?;
    }
    Ok(all)
}

/// The table of these recipes.
fn table_of<'src, 'a>(
    alloc: Global,
    compilation: &'a Compilation<'src>,
    resolver: &RecipeResolver,
    recipes: Vec<ResolvedRecipe<'src>>,
    ranks: &[usize],
) -> Result<Box<RecipeTable<'src>>, Error<'src>>
    ensures ok { IfOk result (λ table. AllByName compilation.now → IsTableOf compilation.now resolver.now ranks.now (map seen recipes.entry.items) table.value) }
    ensures err { IfErr result (λ error. error ≢ OutOfMemory → AllByName compilation.now → IsAliasRefused compilation.now resolver.now ranks.now error) }
{
    let places = places_of(alloc, recipes.as_slice())?;
    let aliases = all_aliases(alloc, compilation, resolver, ranks)?;
    let table = RecipeTable {
        recipes,
        places,
        aliases,
    };
    Ok(Box::new(alloc, table)?)
}

/// The table of these recipes in this order, with these needs.
fn table_in_order<'src, 'a>(
    alloc: Global,
    compilation: &'a Compilation<'src>,
    resolver: &RecipeResolver,
    nodes: &[RecipeNode<'src, 'a>],
    reads: &[ModuleReads<'src>],
    needs: &[Vec<usize>],
    order: &[usize],
) -> Result<Box<RecipeTable<'src>>, Error<'src>>
    ensures ok { IfOk result (λ table. AllByName compilation.now → IsTableIn compilation.now resolver.now (map view nodes.now) reads.now (rows needs.now) order.now table.value) }
    ensures err { IfErr result (λ error. error ≢ OutOfMemory → AllByName compilation.now → IsRefusedIn compilation.now resolver.now (map view nodes.now) reads.now (rows needs.now) order.now error) }
{
    let ranks = ranks(alloc, order)?;
    let recipes = recipes_in_order(alloc, nodes, reads, needs, order, &ranks)?;
    table_of(alloc, compilation, resolver, recipes, ranks.as_slice())
}

/// The table of these recipes.
fn resolved_table<'src, 'a>(
    alloc: Global,
    compilation: &'a Compilation<'src>,
    resolver: &RecipeResolver,
    nodes: &[RecipeNode<'src, 'a>],
    reads: &[ModuleReads<'src>],
) -> Result<Box<RecipeTable<'src>>, Error<'src>>
    ensures ok { IfOk result (λ table. AllByName compilation.now → IsSorted compilation.now resolver.now nodes.now reads.now table.value) }
    ensures err { IfErr result (λ error. error ≢ OutOfMemory → AllByName compilation.now → IsNotSorted compilation.now resolver.now nodes.now reads.now error) }
{
    check_disabled(compilation, resolver)?;
    let needs = all_needs(alloc, compilation, resolver, nodes)?;
    let order = recipe_order(alloc, nodes, needs.as_slice())?;
    table_in_order(
        alloc,
        compilation,
        resolver,
        nodes,
        reads,
        needs.as_slice(),
        order.as_slice(),
    )
}

/// The table of these recipes.
fn table_of_nodes<'src, 'a>(
    alloc: Global,
    compilation: &'a Compilation<'src>,
    nodes: &[RecipeNode<'src, 'a>],
    reads: &[ModuleReads<'src>],
) -> Result<Box<RecipeTable<'src>>, Error<'src>>
    ensures ok { IfOk result (λ table. AllByName compilation.now → IsTableFor compilation.now reads.now nodes.now table.value) }
    ensures err { IfErr result (λ error. error ≢ OutOfMemory → AllByName compilation.now → IsRefusedFor compilation.now reads.now nodes.now error) }
{
    let counts = value_counts(alloc, nodes)?;
    let places = recipe_places(alloc, nodes)?;
    let resolver = RecipeResolver {
        counts: counts.as_slice(),
        places: &places,
    };
    resolved_table(alloc, compilation, &resolver, nodes, reads)
}

/// The same of the recipes of a list. It doesn't change them: a list that a function owns is borrowed so, as
/// borrowing it to be read takes the check too many steps.
fn table_of_list<'src, 'a>(
    alloc: Global,
    compilation: &'a Compilation<'src>,
    nodes: &mut [RecipeNode<'src, 'a>],
    reads: &[ModuleReads<'src>],
) -> Result<Box<RecipeTable<'src>>, Error<'src>>
    ensures ok { IfOk result (λ table. AllByName compilation.now → IsTableFor compilation.now reads.now nodes.old table.value) }
    ensures err { IfErr result (λ error. error ≢ OutOfMemory → AllByName compilation.now → IsRefusedFor compilation.now reads.now nodes.old error) }
{
    table_of_nodes(alloc, compilation, &*nodes, reads)
}

/// The recipes that are kept, each after those that it depends on, and what aliases stand for; the
/// modules read this. Refused where a dependency names no recipe, or one that takes another number of
/// values, also one of a recipe that is disabled; where a dependency or an alias names a module; where
/// recipes depend on each other in a cycle; where a recipe reads a name that stands for nothing, or
/// calls no function or one with another number of arguments; and where memory runs out.
pub fn recipe_table<'src, 'a>(
    alloc: Global,
    compilation: &'a Compilation<'src>,
    reads: &[ModuleReads<'src>],
) -> Result<Box<RecipeTable<'src>>, Error<'src>>
    ensures ok { IfOk result (λ table. AllByName compilation.now → IsTable compilation.now reads.now table.value) }
    ensures err { IfErr result (λ error. error ≢ OutOfMemory → AllByName compilation.now → IsTableRefused compilation.now reads.now error) }
{
    let mut nodes = recipe_nodes(alloc, compilation)?;
    let nodes = nodes.as_mut_slice();
    table_of_list(alloc, compilation, nodes, reads)
}
