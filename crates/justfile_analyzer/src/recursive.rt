//! What modules offer with their submodules, and theirs: recipes and groups.
use crate::offered::{RecipeRef, module_attributes, public_modules, recipe_places, recipes_at};
use modules_compilation::{Compilation, Place};
use std::alloc::{AllocError, Global};
use tree_attributes::AttributeSet;

/// Puts the places there, the last first.
fn push_last_first(open: &mut Vec<usize>, places: &[usize]) -> Result<(), AllocError> {
    for place in places.iter().rev() {
        open.push(*place)?;
    }
    Ok(())
}

/// Finds the module whose turn it is, if there is one; then it is the turn of its submodules.
fn find_next(
    alloc: Global,
    compilation: &Compilation,
    open: &mut Vec<usize>,
    found: &mut Vec<usize>,
) -> Result<(), AllocError> {
    if let Some(module) = open.pop() {
        found.push(module)?;
        let modules = public_modules(alloc, compilation, module)?;
        push_last_first(open, modules.as_slice())?;
    }
    Ok(())
}

/// The place of the module, then those of its submodules that are not private, and theirs, parents
/// first, those of one parent by name.
pub(crate) fn modules_below(
    alloc: Global,
    compilation: &Compilation,
    module: usize,
) -> Result<Vec<usize>, AllocError> {
    let mut found = Vec::new(alloc);
    let mut open = Vec::new(alloc);
    open.push(module)?;
    for _ in 0..compilation.modules.len() {
        find_next(alloc, compilation, &mut open, &mut found)?;
    }
    Ok(found)
}

/// Puts the places after the others.
fn push_places(all: &mut Vec<Place>, places: &[Place]) -> Result<(), AllocError> {
    for place in places {
        all.push(*place)?;
    }
    Ok(())
}

/// The places of the recipes of these modules.
fn all_places(
    alloc: Global,
    compilation: &Compilation,
    modules: &[usize],
) -> Result<Vec<Place>, AllocError> {
    let mut all = Vec::new(alloc);
    for module in modules {
        push_places(&mut all, recipe_places(compilation, *module))?;
    }
    Ok(all)
}

/// The recipes of these modules that are not private.
pub(crate) fn recipes_of<'a, 'src>(
    alloc: Global,
    compilation: &'a Compilation<'src>,
    modules: &[usize],
) -> Result<Vec<RecipeRef<'a, 'src>>, AllocError> {
    let places = all_places(alloc, compilation, modules)?;
    recipes_at(alloc, compilation, places.as_slice())
}

/// Puts the places of the module's submodules that are not private after the others.
fn add_modules(
    alloc: Global,
    compilation: &Compilation,
    module: usize,
    all: &mut Vec<usize>,
) -> Result<(), AllocError> {
    for place in public_modules(alloc, compilation, module)? {
        all.push(place)?;
    }
    Ok(())
}

/// The places of the submodules of these modules that are not private.
fn all_modules(
    alloc: Global,
    compilation: &Compilation,
    modules: &[usize],
) -> Result<Vec<usize>, AllocError> {
    let mut all = Vec::new(alloc);
    for module in modules {
        add_modules(alloc, compilation, *module, &mut all)?;
    }
    Ok(all)
}

/// Puts the texts after the others.
fn push_texts<'a>(all: &mut Vec<&'a str>, texts: &[&'a str]) -> Result<(), AllocError> {
    for text in texts {
        all.push(*text)?;
    }
    Ok(())
}

/// Puts the groups that the attributes tell after the others.
fn add_groups_of<'a>(
    alloc: Global,
    groups: &mut Vec<&'a str>,
    attributes: &'a AttributeSet,
) -> Result<(), AllocError> {
    let texts = attributes.groups(alloc)?;
    push_texts(groups, texts.as_slice())
}

fn add_recipe_groups<'a>(
    alloc: Global,
    groups: &mut Vec<&'a str>,
    recipes: &[RecipeRef<'a, '_>],
) -> Result<(), AllocError> {
    for recipe in recipes {
        add_groups_of(alloc, groups, &recipe.recipe.attributes)?;
    }
    Ok(())
}

fn add_module_groups<'a, 'src>(
    alloc: Global,
    compilation: &'a Compilation<'src>,
    groups: &mut Vec<&'a str>,
    modules: &[usize],
) -> Result<(), AllocError> {
    for module in modules {
        if let Some(attributes) = module_attributes(compilation, *module) {
            add_groups_of(alloc, groups, attributes)?;
        }
    }
    Ok(())
}

/// The groups of the recipes and of the modules at these places, in byte order.
fn distinct_groups<'a, 'src>(
    alloc: Global,
    compilation: &'a Compilation<'src>,
    recipes: &[RecipeRef<'a, 'src>],
    modules: &[usize],
) -> Result<Vec<&'a str>, AllocError> {
    let mut groups = Vec::new(alloc);
    add_recipe_groups(alloc, &mut groups, recipes)?;
    add_module_groups(alloc, compilation, &mut groups, modules)?;
    groups.sort()?;
    groups.dedup();
    Ok(groups)
}

/// The groups of these recipes and of the submodules of these modules that are not private, in byte
/// order.
fn groups_among<'a, 'src>(
    alloc: Global,
    compilation: &'a Compilation<'src>,
    recipes: &[RecipeRef<'a, 'src>],
    modules: &[usize],
) -> Result<Vec<&'a str>, AllocError> {
    let below = all_modules(alloc, compilation, modules)?;
    distinct_groups(alloc, compilation, recipes, below.as_slice())
}

/// The distinct groups of the recipes and submodules of these modules that are not private, in byte
/// order.
pub(crate) fn groups_of<'a, 'src>(
    alloc: Global,
    compilation: &'a Compilation<'src>,
    modules: &[usize],
) -> Result<Vec<&'a str>, AllocError> {
    let recipes = recipes_of(alloc, compilation, modules)?;
    groups_among(alloc, compilation, recipes.as_slice(), modules)
}
