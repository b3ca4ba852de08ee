//! Compiled justfiles.
ghost use Rattle.std.specs.Prelude.{[], ◌∷◌, ◌≡◌, ◌++◌, IfSome, OnOk, Some, is_some, option_map, slice_get};
ghost use Rattle.tree_items.specs.declared.ast.Item.TheVariants as items;
ghost use Rattle.modules_compilation.specs.Places as spec;

use crate::error::Error;
use crate::module_node::{File, ModuleNode};
use crate::place::Place;
use just_text::{Name, Namepath};
use std::alloc::{AllocError, Global};
use tree_items::{Alias, Assignment, FunctionDefinition, Item, Recipe, Set, UnresolvedDependency};

/// All files, and the modules that take them, of which each stands after its parent; the root is
/// the first. The files of a module follow one another in reading order.
#[derive(Drop)]
pub struct Compilation<'src> {
    pub files: Vec<File<'src>>,
    pub modules: Vec<ModuleNode<'src>>,
}

/// What a path of names leads to.
#[derive(Clone, Copy, Debug, PartialEq, Eq)]
pub enum Target {
    /// A recipe that is kept, and the module that keeps it.
    Recipe { module: usize, place: Place },
    /// A module.
    Module(usize),
    /// Neither.
    Nothing,
}

impl<'src> Compilation<'src> {
    /// No file and no module. Takes no memory.
    pub fn new(alloc: Global) -> Compilation<'src>
        ensures files { result.files.items ≡ [] }
        ensures modules { result.modules.items ≡ [] }
    {
        Compilation {
            files: Vec::new(alloc),
            modules: Vec::new(alloc),
        }
    }

    /// Puts the file after the others. Refused only where memory is, and the file is dropped then.
    pub fn add_file(&mut self, file: File<'src>) -> Result<(), AllocError>
        ensures files { OnOk result (self.new.files.items ≡ self.old.files.items ++ file.entry ∷ []) }
        ensures modules { OnOk result (self.new.modules.items ≡ self.old.modules.items) }
    {
        self.files.push(file)?;
        Ok(())
    }

    /// Puts the module after the others. Refused only where memory is, and the module is dropped
    /// then.
    pub fn add_module(&mut self, node: ModuleNode<'src>) -> Result<(), AllocError>
        ensures modules { OnOk result (self.new.modules.items ≡ self.old.modules.items ++ node.entry ∷ []) }
        ensures files { OnOk result (self.new.files.items ≡ self.old.files.items) }
    {
        self.modules.push(node)?;
        Ok(())
    }

    /// The compilation itself, where nothing was refused; otherwise the refusal, and the compilation
    /// is dropped.
    pub fn unless_refused(
        self,
        outcome: Result<(), Error<'src>>,
    ) -> Result<Compilation<'src>, Error<'src>>
        ensures { result ≡ spec.unless_refused self.entry outcome.entry }
    {
        match outcome {
            Ok(()) => Ok(self),
            Err(error) => Err(error),
        }
    }

    /// The module at this place, if there is one.
    pub fn module(&self, module: usize) -> Option<&ModuleNode<'src>>
        ensures { option_map (λ node. node.now) result ≡ slice_get self.now.modules.items «module» }
    {
        self.modules.get(module)
    }

    /// The item at the place, if there is one.
    pub fn item(&self, place: Place) -> Option<&Item<'src>>
        ensures { option_map (λ item. item.now) result ≡ spec.item_at self.now place }
    {
        if place.file >= self.files.len() {
            return None;
        }
        self.files[place.file].item(place.item)
    }

    /// The recipe at the place, if there is one.
    pub fn recipe(&self, place: Place) -> Option<&Recipe<'src, UnresolvedDependency<'src>>>
        ensures found { IfSome result (λ recipe. spec.item_at self.now place ≡ Some (items.Recipe recipe.now)) }
        ensures there { is_some result ≡ spec.is_recipe (spec.item_at self.now place) }
    {
        match self.item(place) {
            Some(Item::Recipe(recipe)) => Some(recipe),
            _ => None,
        }
    }

    /// The variable at the place, if there is one.
    pub fn assignment(&self, place: Place) -> Option<&Assignment<'src>>
        ensures found { IfSome result (λ assignment. spec.item_at self.now place ≡ Some (items.Assignment assignment.now)) }
        ensures there { is_some result ≡ spec.is_assignment (spec.item_at self.now place) }
    {
        match self.item(place) {
            Some(Item::Assignment(assignment)) => Some(assignment),
            _ => None,
        }
    }

    /// The function at the place, if there is one.
    pub fn function(&self, place: Place) -> Option<&FunctionDefinition<'src>>
        ensures found { IfSome result (λ function. spec.item_at self.now place ≡ Some (items.Function function.now)) }
        ensures there { is_some result ≡ spec.is_function (spec.item_at self.now place) }
    {
        match self.item(place) {
            Some(Item::Function(function)) => Some(function),
            _ => None,
        }
    }

    /// The setting at the place, if there is one.
    pub fn set(&self, place: Place) -> Option<&Set<'src>>
        ensures found { IfSome result (λ set. spec.item_at self.now place ≡ Some (items.Set set.now)) }
        ensures there { is_some result ≡ spec.is_set (spec.item_at self.now place) }
    {
        match self.item(place) {
            Some(Item::Set(set)) => Some(set),
            _ => None,
        }
    }

    /// The alias at the place, if there is one.
    pub fn alias(&self, place: Place) -> Option<&Alias<'src, Namepath<'src>>>
        ensures found { IfSome result (λ alias. spec.item_at self.now place ≡ Some (items.Alias alias.now)) }
        ensures there { is_some result ≡ spec.is_alias (spec.item_at self.now place) }
    {
        match self.item(place) {
            Some(Item::Alias(alias)) => Some(alias),
            _ => None,
        }
    }

    /// The name of the item at the place, if it has one.
    pub fn name(&self, place: Place) -> Option<Name<'src>>
        ensures { result ≡ spec.name_at self.now place }
    {
        match self.item(place) {
            Some(Item::Alias(alias)) => Some(alias.name),
            Some(Item::Assignment(assignment)) => Some(assignment.name),
            Some(Item::Function(function)) => Some(function.name),
            Some(Item::Module(module)) => Some(module.name),
            Some(Item::Recipe(recipe)) => Some(recipe.name),
            Some(Item::Set(set)) => Some(set.name),
            Some(Item::Unexport(unexport)) => Some(unexport.name),
            _ => None,
        }
    }
}
