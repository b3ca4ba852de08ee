//! Which variables lazy modules evaluate.
ghost use Rattle.std.specs.Prelude.{◌≡◌, IfOk};
ghost use Rattle.run_tasks.specs.Prepared.Wanted as spec;

use crate::Task;
use evaluate_context::Settings;
use just_text::Number;
use resolve_analysis::{ModuleVariables, ResolvedRecipe, collect_references};
use std::alloc::{AllocError, Global};
use std::collections::BTreeSet;

/// Whether a module evaluates only what is wanted.
fn is_lazy(settings: &[Settings]) -> bool
    ensures { result ≡ spec.is_lazy settings.now }
{
    settings.iter().any(|one| one.lazy)
}

/// The recipes that the task calls.
fn called(alloc: Global, task: &Task) -> Result<Vec<usize>, AllocError>
    ensures { IfOk result (λ recipes. recipes.items ≡ spec.called_by task.now) }
{
    let mut recipes = Vec::new(alloc);
    if let Task::Run(calls) = task {
        for call in calls {
            recipes.push(call.recipe)?;
        }
    }
    Ok(recipes)
}

/// The variables that lazy modules evaluate for the task; all where none are named.
pub(crate) fn wanted<'src>(
    alloc: Global,
    variables: &ModuleVariables<'src, '_>,
    recipes: &[ResolvedRecipe<'src>],
    settings: &[Settings],
    task: &Task,
    no_dependencies: bool,
) -> Result<Option<BTreeSet<Number>>, AllocError>
    ensures { IfOk result (spec.IsWanted variables.now recipes.now settings.now task.now no_dependencies) }
{
    if let Task::Evaluate(_) = task {
        return Ok(None);
    }
    if !is_lazy(settings) {
        return Ok(None);
    }
    let called = called(alloc, task)?;
    let numbers = collect_references(
        alloc,
        variables,
        recipes,
        settings,
        called.as_slice(),
        no_dependencies,
    )?;
    Ok(Some(numbers))
}
