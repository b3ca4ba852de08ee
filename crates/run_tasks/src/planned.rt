//! The recipes, with what they depend on.
ghost use Rattle.std.specs.Prelude.{IfOk};
ghost use Rattle.run_tasks.specs.Prepared.Planned.{ArePlanned};

use analyze_calls::Planned;
use modules_compilation::Compilation;
use resolve_analysis::ResolvedRecipe;
use std::alloc::{AllocError, Global};

/// The recipes with what they depend on, as far as one stands at each place.
pub(crate) fn plan<'a, 'src>(
    alloc: Global,
    compilation: &'a Compilation<'src>,
    recipes: &'a [ResolvedRecipe<'src>],
) -> Result<Vec<Planned<'a, 'src>>, AllocError>
    ensures { IfOk result (λ all. ArePlanned compilation.now recipes.now all.items) }
{
    let mut all = Vec::new(alloc);
    for resolved in recipes {
        let Some(recipe) = compilation.recipe(resolved.place) else {
            return Ok(all);
        };
        all.push(Planned {
            recipe,
            module: resolved.module,
            priors: resolved.priors.as_slice(),
            subsequents: resolved.subsequents.as_slice(),
        })?;
    }
    Ok(all)
}
