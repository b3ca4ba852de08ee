//! What evaluation sees of modules.
ghost use Rattle.std.specs.Prelude.{◌≡◌, IfOk, length, map, option_map};
ghost use Rattle.resolve_analysis.specs.Views.{seen, view_at, views_of};

use crate::known_values::KnownValues;
use crate::variables::ModuleVariables;
use evaluate_context::ModuleView;
use modules_compilation::ModuleNode;
use std::alloc::{AllocError, Global};

/// What evaluation sees of the module at the place, if all of it is known.
fn view_of<'l, 'a, 'src>(
    modules: &'l [ModuleNode<'src>],
    variables: &'l ModuleVariables<'src, 'a>,
    values: &'l KnownValues,
    module: usize,
) -> Option<ModuleView<'l, 'src>>
    ensures { option_map seen result ≡ view_at modules.now variables.now values.now «module» }
{
    let node = modules.get(module)?;
    let lists = variables.lists.get(module)?;
    let order = variables.orders.get(module)?;
    let settings = values.settings.get(module)?;
    let folder = values.folders.get(module)?;
    Some(ModuleView {
        assignments: lists.assignments.as_slice(),
        evaluation_order: order.as_slice(),
        functions: lists.functions.as_slice(),
        settings,
        source: node.source,
        modules,
        place: module,
        working_directory: folder.as_str(),
        unexports: node.unexports.as_slice(),
        is_submodule: node.parent.is_some(),
    })
}

/// What evaluation sees of each of the modules, of which this is known.
pub fn views<'l, 'a, 'src>(
    alloc: Global,
    modules: &'l [ModuleNode<'src>],
    variables: &'l ModuleVariables<'src, 'a>,
    values: &'l KnownValues,
) -> Result<Vec<ModuleView<'l, 'src>>, AllocError>
    ensures { IfOk result (λ views. map seen views.items ≡ views_of modules.now variables.now values.now (length modules.now)) }
{
    let mut views = Vec::new(alloc);
    for module in 0..modules.len() {
        if let Some(view) = view_of(modules, variables, values, module) {
            views.push(view)?;
        }
    }
    Ok(views)
}
