//! What paths of names lead to.
ghost use Rattle.std.specs.Prelude.{◌≡◌, Some, map, slice_get};
ghost use Rattle.modules_compilation.specs.Modulepaths.{pieces};
ghost use Rattle.resolve_recipes.specs.Named.{AllByName, submodule_in};
ghost use Rattle.resolve_recipes.specs.Leading.{module_from, named_in, name_texts, target_in, variable_from, variable_in};

use crate::search::{find, find_recipe, find_submodule};
use just_text::Name;
use modules_compilation::{Compilation, Place, Target};

/// The module's submodule of this name, if there is one.
fn submodule(compilation: &Compilation, module: usize, name: &str) -> Option<usize>
    ensures { AllByName compilation.now → result ≡ submodule_in compilation.now.modules.items «module» name.now }
{
    find_submodule(compilation.modules.as_slice(), module, name)
}

/// What the name leads to in a module: a recipe, a submodule, or neither. Aliases don't count.
fn step(compilation: &Compilation, module: usize, name: &str) -> Target
    ensures { AllByName compilation.now → result ≡ named_in compilation.now «module» name.now }
{
    let Some(node) = compilation.module(module) else {
        return Target::Nothing;
    };
    match find_recipe(compilation, node, name) {
        Some(place) => Target::Recipe { module, place },
        None => match submodule(compilation, module, name) {
            Some(module) => Target::Module(module),
            None => Target::Nothing,
        },
    }
}

/// What the path leads to from the module on: each name but the last is a submodule's, and the last
/// that of a recipe or of a submodule. Aliases don't count, nor do disabled recipes. Takes no memory.
pub fn target(compilation: &Compilation, module: usize, names: &[Name]) -> Target
    ensures { AllByName compilation.now → result ≡ target_in compilation.now «module» names.now }
{
    let mut target = Target::Module(module);
    for name in names {
        match target {
            Target::Module(module) => target = step(compilation, module, name.lexeme()),
            Target::Recipe { .. } | Target::Nothing => return Target::Nothing,
        }
    }
    target
}

/// The module to which the names of submodules lead from this one, if there is one. Takes no memory.
pub fn module_at(compilation: &Compilation, module: usize, names: &[Name]) -> Option<usize>
    ensures { AllByName compilation.now → result ≡ module_from compilation.now.modules.items (Some «module») (name_texts names.now) }
{
    let mut module = module;
    for name in names {
        module = submodule(compilation, module, name.lexeme())?;
    }
    Some(module)
}

/// Where the variable of this name stands that the module keeps, if it keeps one.
fn variable(compilation: &Compilation, module: usize, name: &str) -> Option<Place>
    ensures { AllByName compilation.now → result ≡ variable_in compilation.now (Some «module») name.now }
{
    match compilation.module(module) {
        Some(node) => find(compilation, node.assignments.as_slice(), name),
        None => None,
    }
}

/// Where the variable stands that is called so, if it is kept: by its name in the root, or after the
/// names of the modules that lead to it, with `::` between two. Takes no memory.
pub fn find_variable(compilation: &Compilation, path: &str) -> Option<Place>
    ensures { AllByName compilation.now → result ≡ variable_from compilation.now (Some 0) (pieces path.now) }
{
    let mut module = 0;
    let mut rest = path;
    while let Some((name, others)) = rest.split_once("::") {
        module = submodule(compilation, module, name)?;
        rest = others;
    }
    variable(compilation, module, rest)
}
