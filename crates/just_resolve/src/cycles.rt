//! Orders, and the names of what stands in a cycle.
ghost use Rattle.std.specs.Prelude.{◌≡◌, ◌≢◌, IfErr, IfOk, List, OnOk, ℕ};
ghost use Rattle.resolve_order.specs.Needs.{IsCycle, rows};
ghost use Rattle.resolve_order.specs.Order.{IsOrder};
ghost use Rattle.just_resolve.specs.Cycles as spec;
ghost use Rattle.just_resolve.specs.Cycles.{IsCircularRecipe, IsCircularVariable, with_names};
ghost use Rattle.just_resolve.specs.Variables.{IsOrderOf};
ghost use Rattle.just_resolve.specs.declared.error.Error.TheVariants.{CircularRecipe, CircularVariable, OutOfMemory};

use crate::error::Error;
use evaluate_context::AssignmentRef;
use just_text::{Name, Sequence};
use resolve_analysis::{ModuleLists, ModuleReads, evaluation_order};
use resolve_order::{OrderFault, order};
use resolve_recipes::RecipeNode;
use std::alloc::{AllocError, Global};

/// The names of the recipes at these places.
fn recipe_names<'src>(
    alloc: Global,
    nodes: &[RecipeNode<'src, '_>],
    places: &[usize],
) -> Result<Sequence<Name<'src>>, AllocError>
    ensures { IfOk result (λ names. names ≡ spec.recipe_names nodes.now places.now) }
{
    let mut names = Sequence::new(alloc);
    for place in places {
        if let Some(node) = nodes.get(*place) {
            names.push(node.recipe.name)?;
        }
    }
    Ok(names)
}

/// The names of the variables at these places.
fn variable_names<'src>(
    alloc: Global,
    variables: &[AssignmentRef<'_, 'src>],
    places: &[usize],
) -> Result<Sequence<Name<'src>>, AllocError>
    ensures { IfOk result (λ names. names ≡ spec.variable_names variables.now places.now) }
{
    let mut names = Sequence::new(alloc);
    for place in places {
        if let Some(variable) = variables.get(*place) {
            names.push(variable.assignment.name)?;
        }
    }
    Ok(names)
}

/// That these recipes depend on each other.
fn circular_recipe<'src>(names: Result<Sequence<Name<'src>>, AllocError>) -> Error<'src>
    ensures { result ≡ with_names (λ told. CircularRecipe told) names.entry }
{
    match names {
        Ok(names) => Error::CircularRecipe(names),
        Err(_) => Error::OutOfMemory,
    }
}

/// That these variables read each other.
fn circular_variable<'src>(names: Result<Sequence<Name<'src>>, AllocError>) -> Error<'src>
    ensures { result ≡ with_names (λ told. CircularVariable told) names.entry }
{
    match names {
        Ok(names) => Error::CircularVariable(names),
        Err(_) => Error::OutOfMemory,
    }
}

/// The recipes' places, each after those of what it depends on. Refused where recipes depend on
/// each other in a cycle, and where memory runs out.
pub fn recipe_order<'src>(
    alloc: Global,
    nodes: &[RecipeNode<'src, '_>],
    needs: &[Vec<usize>],
) -> Result<Vec<usize>, Error<'src>>
    ensures order { IfOk result (λ places. IsOrder (rows needs.now) places.items) }
    ensures no_cycle { OnOk result ((places : List ℕ) → IsCycle (rows needs.now) places → ⊥) }
    ensures cycle { IfErr result (λ error. error ≢ OutOfMemory → IsCircularRecipe nodes.now (rows needs.now) error) }
{
    match order(alloc, needs) {
        Ok(places) => Ok(places),
        Err(OrderFault::Cycle(places)) => Err(circular_recipe(recipe_names(
            alloc,
            nodes,
            places.as_slice(),
        ))),
        Err(OrderFault::OutOfMemory) => Err(Error::OutOfMemory),
    }
}

/// The places of the module's variables, each after those that it reads directly or through
/// functions. Refused where they read each other in a cycle, and where memory runs out.
pub fn variables_in_order<'src>(
    alloc: Global,
    lists: &ModuleLists<'src, '_>,
    reads: &ModuleReads<'src>,
) -> Result<Vec<usize>, Error<'src>>
    ensures order { IfOk result (λ places. IsOrderOf lists.now reads.now places.items) }
    ensures cycle { IfErr result (λ error. error ≢ OutOfMemory → IsCircularVariable lists.now (rows reads.now.graph.items) error) }
{
    match evaluation_order(alloc, lists, reads) {
        Ok(places) => Ok(places),
        Err(OrderFault::Cycle(places)) => Err(circular_variable(variable_names(
            alloc,
            lists.assignments.as_slice(),
            places.as_slice(),
        ))),
        Err(OrderFault::OutOfMemory) => Err(Error::OutOfMemory),
    }
}
