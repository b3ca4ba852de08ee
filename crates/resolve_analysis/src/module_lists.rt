//! The variables and functions that each module keeps, borrowed from the files.
ghost use Rattle.std.specs.Prelude.{◌≡◌, IfOk, map};
ghost use Rattle.resolve_analysis.specs.Lists.{functions_at, functions_in, kept_by, kept_in, variables_at, variables_in};

use evaluate_context::{AssignmentRef, FunctionRef};
use modules_compilation::{Compilation, ModuleNode, Place};
use std::alloc::{AllocError, Global};

/// The variables and functions that a module keeps, each in byte order of names.
#[derive(Drop)]
pub struct ModuleLists<'src, 'a> {
    pub assignments: Vec<AssignmentRef<'a, 'src>>,
    pub functions: Vec<FunctionRef<'a, 'src>>,
}

fn assignments<'a, 'src>(
    alloc: Global,
    compilation: &'a Compilation<'src>,
    places: &[Place],
) -> Result<Vec<AssignmentRef<'a, 'src>>, AllocError>
    ensures { IfOk result (λ list. variables_in list.items ≡ variables_at compilation.now places.now) }
{
    let mut list = Vec::new(alloc);
    for place in places {
        if let Some(assignment) = compilation.assignment(*place) {
            list.push(AssignmentRef { assignment })?;
        }
    }
    Ok(list)
}

fn functions<'a, 'src>(
    alloc: Global,
    compilation: &'a Compilation<'src>,
    places: &[Place],
) -> Result<Vec<FunctionRef<'a, 'src>>, AllocError>
    ensures { IfOk result (λ list. functions_in list.items ≡ functions_at compilation.now places.now) }
{
    let mut list = Vec::new(alloc);
    for place in places {
        if let Some(definition) = compilation.function(*place) {
            list.push(FunctionRef { definition })?;
        }
    }
    Ok(list)
}

fn lists_of<'a, 'src>(
    alloc: Global,
    compilation: &'a Compilation<'src>,
    node: &ModuleNode<'src>,
) -> Result<ModuleLists<'src, 'a>, AllocError>
    ensures { IfOk result (λ lists. kept_in lists ≡ kept_by compilation.now node.now) }
{
    let assignments = assignments(alloc, compilation, node.assignments.as_slice())?;
    let functions = functions(alloc, compilation, node.functions.as_slice())?;
    Ok(ModuleLists {
        assignments,
        functions,
    })
}

/// The variables and functions that each module keeps, by its place.
pub fn all_lists<'a, 'src>(
    alloc: Global,
    compilation: &'a Compilation<'src>,
) -> Result<Vec<ModuleLists<'src, 'a>>, AllocError>
    ensures { IfOk result (λ all. map kept_in all.items ≡ map (kept_by compilation.now) compilation.now.modules.items) }
{
    let mut all = Vec::new(alloc);
    for node in &compilation.modules {
        all.push(lists_of(alloc, compilation, node)?)?;
    }
    Ok(all)
}
