//! What has a name, among what stands in byte order of names.
ghost use Rattle.std.specs.Prelude.{◌≡◌, Some, slice_get};
ghost use Rattle.resolve_recipes.specs.Named.{AreByFront, AreByName, IsByName, first_named, key_cmp, module_text, recipe_of, row_key, submodule_in, text_at};

use modules_compilation::{Compilation, ModuleNode, Place, RecipeName, front};
use std::cmp::Ordering;

/// The name's text of the item at the place, empty where it has none.
fn text<'src>(compilation: &Compilation<'src>, place: Place) -> &'src str
    ensures { result.now ≡ text_at compilation.now place }
{
    match compilation.name(place) {
        Some(name) => name.lexeme(),
        None => "",
    }
}

/// The first of the places at which the name stands, if there is one; they are in byte order of names.
/// Takes no memory.
pub fn find(compilation: &Compilation, places: &[Place], name: &str) -> Option<Place>
    ensures found { AreByName (text_at compilation.now) places.now → result ≡ first_named (text_at compilation.now) places.now name.now }
{
    let mut found = None;
    let mut rest = places;
    while !rest.is_empty() {
        let (front, back) = rest.split_at(rest.len() / 2);
        let Some((middle, behind)) = back.split_first() else {
            return found;
        };
        match name.cmp(text(compilation, *middle)) {
            Ordering::Less => rest = front,
            Ordering::Equal => {
                found = Some(*middle);
                rest = front;
            }
            Ordering::Greater => rest = behind,
        }
    }
    found
}

/// The text of the module's own name, empty where it has none.
fn own_name<'src>(modules: &[ModuleNode<'src>], module: usize) -> &'src str
    ensures { result.now ≡ module_text modules.now «module» }
{
    match modules.get(module) {
        Some(node) => match &node.name {
            Some(name) => name.lexeme(),
            None => "",
        },
        None => "",
    }
}

/// The first of these submodules that has the name, if there is one; they are in byte order of names.
fn submodule(modules: &[ModuleNode], submodules: &[usize], name: &str) -> Option<usize>
    ensures found { AreByName (module_text modules.now) submodules.now → result ≡ first_named (module_text modules.now) submodules.now name.now }
{
    let mut found = None;
    let mut rest = submodules;
    while !rest.is_empty() {
        let (front, back) = rest.split_at(rest.len() / 2);
        let Some((middle, behind)) = back.split_first() else {
            return found;
        };
        match name.cmp(own_name(modules, *middle)) {
            Ordering::Less => rest = front,
            Ordering::Equal => {
                found = Some(*middle);
                rest = front;
            }
            Ordering::Greater => rest = behind,
        }
    }
    found
}

/// The submodule of this name that the module at the place has among these modules, if there is one.
/// Submodules are in byte order of names. Takes no memory.
pub fn find_submodule(modules: &[ModuleNode], module: usize, name: &str) -> Option<usize>
    ensures found { ((node : ModuleNode) → slice_get modules.now «module» ≡ Some node → AreByName (module_text modules.now) node.submodules.items) → result ≡ submodule_in modules.now «module» name.now }
{
    match modules.get(module) {
        Some(node) => submodule(modules, node.submodules.as_slice(), name),
        None => None,
    }
}

/// The name, which has this front, beside that of a recipe, whose text is read only where both have
/// one front.
fn compare(compilation: &Compilation, name: &str, front: u64, recipe: RecipeName) -> Ordering
    ensures { result ≡ key_cmp («front», name.now) (row_key compilation.now recipe) }
{
    match front.cmp(&recipe.front) {
        Ordering::Equal => name.cmp(text(compilation, recipe.place)),
        other => other,
    }
}

/// The first of these recipes that has the name, if there is one; they stand by the fronts of
/// their names and then by these.
fn recipe(compilation: &Compilation, recipes: &[RecipeName], name: &str) -> Option<RecipeName>
    ensures found { AreByFront compilation.now recipes.now → result ≡ first_named (λ row. text_at compilation.now row.place) recipes.now name.now }
{
    let wanted = front(name);
    let mut found = None;
    let mut rest = recipes;
    while !rest.is_empty() {
        let (front, back) = rest.split_at(rest.len() / 2);
        let Some((middle, behind)) = back.split_first() else {
            return found;
        };
        match compare(compilation, name, wanted, *middle) {
            Ordering::Less => rest = front,
            Ordering::Equal => {
                found = Some(*middle);
                rest = front;
            }
            Ordering::Greater => rest = behind,
        }
    }
    found
}

/// The recipe of this name that the module keeps, if there is one. Recipes stand by the
/// fronts of their names and then by these. Takes no memory.
pub fn find_recipe(compilation: &Compilation, node: &ModuleNode, name: &str) -> Option<Place>
    ensures found { IsByName compilation.now node.now → result ≡ recipe_of compilation.now (Some node.now) name.now }
{
    match recipe(compilation, node.recipe_names.as_slice(), name) {
        Some(row) => Some(row.place),
        None => None,
    }
}
