//! What recipes depend on, by places.
ghost use Rattle.std.specs.Prelude.{◌≡◌, ◌≢◌, ◌++◌, IfErr, IfOk, Ok, Err, map};
ghost use Rattle.std.specs.List.{slice_set};
ghost use Rattle.resolve_recipes.specs.Named.{AllByName};
ghost use Rattle.resolve_recipes.specs.Nodes.{view};
ghost use Rattle.resolve_recipes.specs.Ranks.{AreRanks};
ghost use Rattle.resolve_recipes.specs.Refusals.{out_of_memory, told};
ghost use Rattle.resolve_recipes.specs.Resolving as spec;

use crate::fault::DependencyFault;
use crate::recipe_node::RecipeNode;
use crate::recipe_resolver::{RecipeResolver, add_places};
use modules_compilation::Compilation;
use std::alloc::{AllocError, Global};
use tree_items::{Recipe, UnresolvedDependency};

/// What the recipe depends on, by places: the priors, then the subsequents.
fn needs_of<'a, 'src>(
    alloc: Global,
    compilation: &Compilation<'src>,
    resolver: &RecipeResolver,
    module: usize,
    recipe: &'a Recipe<'src, UnresolvedDependency<'src>>,
) -> Result<Vec<usize>, DependencyFault<'a, 'src>>
    ensures ok { IfOk result (λ needs. AllByName compilation.now → spec.needs_of compilation.now resolver.now «module» recipe.now.name (recipe.now.priors.items ++ recipe.now.subsequents.items) ≡ Ok needs.items) }
    ensures err { IfErr result (λ fault. told fault ≢ out_of_memory → AllByName compilation.now → spec.needs_of compilation.now resolver.now «module» recipe.now.name (recipe.now.priors.items ++ recipe.now.subsequents.items) ≡ Err (told fault)) }
{
    let name = recipe.name;
    let priors = recipe.priors.as_slice();
    let subsequents = recipe.subsequents.as_slice();
    let mut needs = Vec::new(alloc);
    if let Err(fault) = add_places(compilation, resolver, &mut needs, module, name, priors) {
        return Err(fault);
    }
    match add_places(compilation, resolver, &mut needs, module, name, subsequents) {
        Ok(()) => Ok(needs),
        Err(fault) => Err(fault),
    }
}

/// For each recipe that is kept the places of those that it depends on: the priors in order, then the
/// subsequents. Refused where a dependency names no recipe, a module, or a recipe that takes another
/// number of values; and where memory runs out.
pub fn all_needs<'a, 'src>(
    alloc: Global,
    compilation: &Compilation<'src>,
    resolver: &RecipeResolver,
    nodes: &[RecipeNode<'src, 'a>],
) -> Result<Vec<Vec<usize>>, DependencyFault<'a, 'src>>
    ensures ok { IfOk result (λ rows. AllByName compilation.now → spec.all_needs compilation.now resolver.now (map view nodes.now) ≡ Ok (map (λ row. row.items) rows.items)) }
    ensures err { IfErr result (λ fault. told fault ≢ out_of_memory → AllByName compilation.now → spec.all_needs compilation.now resolver.now (map view nodes.now) ≡ Err (told fault)) }
{
    let mut all = Vec::new(alloc);
    for node in nodes {
        match needs_of(alloc, compilation, resolver, node.module, node.recipe) {
            Ok(needs) => all.push(needs)?,
            Err(fault) => return Err(fault),
        }
    }
    Ok(all)
}

/// Notes the rank of the thing at the place, if there is one.
fn note_rank(ranks: &mut [usize], place: usize, rank: usize)
    ensures { ranks.new ≡ slice_set ranks.old place rank }
{
    if place < ranks.len() {
        ranks[place] = rank;
    }
}

/// At each place the place that it has in the order; 0 where the order doesn't have it. Refused only
/// where memory runs out.
pub fn ranks(alloc: Global, order: &[usize]) -> Result<Vec<usize>, AllocError>
    ensures { IfOk result (λ ranks. AreRanks order.now ranks.items) }
{
    let mut ranks = vec![in alloc; 0; order.len()]?;
    for rank in 0..order.len() {
        note_rank(&mut ranks, order[rank], rank);
    }
    Ok(ranks)
}
