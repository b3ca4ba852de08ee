//! Recipes with what they depend on and read.
ghost use Rattle.std.specs.Prelude.{◌≡◌, ◌≢◌, Err, IfErr, IfOk, Ok};
ghost use Rattle.resolve_recipes.specs.Nodes.{view};
ghost use Rattle.resolve_references.specs.ItemReferences.{references_of_recipe};
ghost use Rattle.resolve_references.specs.Places.{places_of};
ghost use Rattle.resolve_references.specs.declared.read_fault.ReadFault.TheVariants.{OutOfMemory};
ghost use Rattle.just_resolve.specs.Recipes as spec;
ghost use Rattle.just_resolve.specs.Recipes.{resolved, seen};

use resolve_analysis::ResolvedRecipe;
use resolve_recipes::RecipeNode;
use resolve_references::{ReadFault, VariableResolver, recipe_references};
use std::alloc::{AllocError, Global};
use tree_items::{Recipe, UnresolvedDependency};

/// The ranks of these places.
fn ranks_at(alloc: Global, ranks: &[usize], places: &[usize]) -> Result<Vec<usize>, AllocError>
    ensures { IfOk result (λ found. found.items ≡ spec.ranks_at ranks.now places.now) }
{
    let mut found = Vec::with_capacity(alloc, places.len())?;
    for place in places {
        if let Some(rank) = ranks.get(*place) {
            found.push(*rank)?;
        }
    }
    Ok(found)
}

/// What the recipe reads and calls.
fn reads_of<'src>(
    alloc: Global,
    resolver: &VariableResolver<'src>,
    recipe: &Recipe<'src, UnresolvedDependency<'src>>,
) -> Result<Vec<usize>, ReadFault<'src>>
    ensures ok { IfOk result (λ places. places_of resolver.now (references_of_recipe recipe.now) ≡ Ok places.items) }
    ensures err { IfErr result (λ fault. fault ≢ OutOfMemory → places_of resolver.now (references_of_recipe recipe.now) ≡ Err fault) }
{
    let references = recipe_references(alloc, recipe)?;
    resolver.resolve_references(alloc, &references)
}

/// The recipe with the ranks of these needs: the priors, then the subsequents. Refused where it reads a
/// name that stands for no variable, or calls no function or one that takes another number of
/// arguments; and where memory runs out.
pub fn resolved_recipe<'src>(
    alloc: Global,
    node: &RecipeNode<'src, '_>,
    resolver: &VariableResolver<'src>,
    ranks: &[usize],
    needs: &[usize],
) -> Result<ResolvedRecipe<'src>, ReadFault<'src>>
    ensures ok { IfOk result (λ recipe. resolved resolver.now ranks.now (view node.now) needs.now ≡ Ok (seen recipe)) }
    ensures err { IfErr result (λ fault. fault ≢ OutOfMemory → resolved resolver.now ranks.now (view node.now) needs.now ≡ Err fault) }
{
    let count = node.recipe.priors.len().min(needs.len());
    let (priors, subsequents) = needs.split_at(count);
    let priors = ranks_at(alloc, ranks, priors)?;
    let subsequents = ranks_at(alloc, ranks, subsequents)?;
    let reads = reads_of(alloc, resolver, node.recipe)?;
    Ok(ResolvedRecipe {
        name: node.recipe.name,
        module: node.module,
        place: node.place,
        priors,
        subsequents,
        reads,
    })
}
