//! Files, and the modules that take them.
ghost use Rattle.std.specs.Prelude.{◌≡◌, option_map, slice_get};

use crate::place::Place;
use crate::recipe_name::RecipeName;
use just_text::Name;
use tree_items::{Ast, Item};

/// A file as a module takes it: one that two modules take stands here twice, with other numbers.
#[derive(Drop)]
pub struct File<'src> {
    pub key: &'src str,
    /// The module that takes it.
    pub module: usize,
    /// The least number of imports that lead to it from the module's file.
    pub depth: u32,
    pub ast: Ast<'src>,
}

impl<'src> File<'src> {
    /// The item at this place among the file's items, if there is one.
    pub fn item(&self, item: usize) -> Option<&Item<'src>>
        ensures { option_map (λ item. item.now) result ≡ slice_get self.now.ast.items.items item }
    {
        self.ast.items.get(item)
    }
}

/// A module. What it keeps is told by places, in byte order of names; disabled items are in none of
/// the lists but `disabled`.
#[derive(Drop)]
pub struct ModuleNode<'src> {
    /// The module that it is a submodule of; the root has none.
    pub parent: Option<usize>,
    /// The name of its `mod` item; the root has none.
    pub name: Option<Name<'src>>,
    /// Its `mod` item, in a file of the parent; the root has none.
    pub item: Option<Place>,
    /// The key of the module's file.
    pub source: &'src str,
    /// The place of the module's file among all files. Its imports follow it in reading order.
    pub first_file: usize,
    /// The place after the module's last file.
    pub end_file: usize,
    pub aliases: Vec<Place>,
    /// The variables that are kept.
    pub assignments: Vec<Place>,
    /// The recipes that an operating system disables, those of one name in reading order.
    pub disabled: Vec<Place>,
    pub functions: Vec<Place>,
    /// The recipes that are kept.
    pub recipes: Vec<Place>,
    /// The same with the fronts of their names, by which they are found.
    pub recipe_names: Vec<RecipeName>,
    pub sets: Vec<Place>,
    pub unexports: Vec<Name<'src>>,
    /// The submodules.
    pub submodules: Vec<usize>,
}
