//! The lists of what a module keeps.
ghost use Rattle.std.specs.Prelude.{[], ◌∷◌, ◌≡◌, ◌++◌, OnOk};
ghost use Rattle.modules_definitions.specs.Lists.{Gains};

use crate::definition::{Definition, Kind};
use just_text::Name;
use modules_compilation::{ModuleNode, Place, RecipeName};
use std::alloc::AllocError;

/// Puts the place after the others.
fn add(list: &mut Vec<Place>, place: Place) -> Result<(), AllocError>
    ensures { OnOk result (list.new.items ≡ list.old.items ++ place ∷ []) }
{
    list.push(place)?;
    Ok(())
}

/// Notes the submodule after the others.
fn add_module(list: &mut Vec<usize>, module: usize) -> Result<(), AllocError>
    ensures { OnOk result (list.new.items ≡ list.old.items ++ «module» ∷ []) }
{
    list.push(module)?;
    Ok(())
}

/// Notes the name after the others.
fn add_name<'src>(list: &mut Vec<Name<'src>>, name: Name<'src>) -> Result<(), AllocError>
    ensures { OnOk result (list.new.items ≡ list.old.items ++ name.entry ∷ []) }
{
    list.push(name)?;
    Ok(())
}

/// Notes the recipe, and the front of its name, after the others.
fn add_recipe(
    recipes: &mut Vec<Place>,
    names: &mut Vec<RecipeName>,
    front: u64,
    place: Place,
) -> Result<(), AllocError>
    ensures places { OnOk result (recipes.new.items ≡ recipes.old.items ++ place ∷ []) }
    ensures fronts { OnOk result (names.new.items ≡ names.old.items ++ record { front = front; place = place } ∷ []) }
{
    recipes.push(place)?;
    names.push(RecipeName { front, place })?;
    Ok(())
}

/// Puts the definition into the module's list for its kind.
fn put<'src>(
    node: &mut ModuleNode<'src>,
    definition: &Definition<'src, '_>,
) -> Result<(), AllocError>
    ensures { OnOk result (Gains node.old.submodules.items node.old node.new (definition.now ∷ [])) }
{
    match definition.kind {
        Kind::Alias => add(&mut node.aliases, definition.place),
        Kind::Disabled => add(&mut node.disabled, definition.place),
        Kind::Function => add(&mut node.functions, definition.place),
        Kind::Module(module) => add_module(&mut node.submodules, module),
        Kind::Recipe => {
            let names = &mut node.recipe_names;
            add_recipe(&mut node.recipes, names, definition.front, definition.place)
        }
        Kind::Set => add(&mut node.sets, definition.place),
        Kind::Unexport => add_name(&mut node.unexports, *definition.name),
        Kind::Variable => add(&mut node.assignments, definition.place),
    }
}

/// Puts the definitions that are kept into the module's lists.
pub fn put_all<'src>(
    node: &mut ModuleNode<'src>,
    kept: &[Definition<'src, '_>],
) -> Result<(), AllocError>
    ensures { OnOk result (Gains [] node.old node.new kept.now) }
{
    node.submodules.clear();
    for definition in kept {
        put(node, definition)?;
    }
    Ok(())
}
