//! A module with what it offers.
ghost use Rattle.std.specs.Prelude.{◌≡◌, IfOk, map};
ghost use Rattle.std.specs.String.{string_bytes};
ghost use Rattle.justfile_analyzer.specs.Justfiles.{place_of};
ghost use Rattle.justfile_analyzer.specs.Listings as listings;
ghost use Rattle.justfile_analyzer.specs.Offers as offers;

use crate::listing::listing_of;
use crate::offered::{RecipeRef, module_name, public_modules, public_recipes};
use crate::printed::print_node;
use crate::recursive::{groups_of, modules_below, recipes_of};
use modules_compilation::Compilation;
use std::alloc::{AllocError, Global};
use std::fmt;
use tree_items::Keyed;

/// A module of a resolved justfile, with its submodules.
#[derive(Clone, Copy)]
pub struct Justfile<'src, 'a> {
    compilation: &'a Compilation<'src>,
    module: usize,
}

/// The modules at these places.
fn all_at<'src, 'a>(
    alloc: Global,
    justfile: &Justfile<'src, 'a>,
    modules: &[usize],
) -> Result<Vec<Justfile<'src, 'a>>, AllocError>
    ensures { IfOk result (λ all. map place_of all.items ≡ modules.now) }
{
    let mut all = Vec::new(alloc);
    for module in modules {
        all.push(justfile.at(*module))?;
    }
    Ok(all)
}

impl<'src, 'a> Justfile<'src, 'a> {
    /// The root module.
    pub fn from_resolved(compilation: &'a Compilation<'src>) -> Justfile<'src, 'a>
        ensures root { place_of result ≡ 0 }
        ensures same { result.compilation.now ≡ compilation.now }
    {
        Justfile {
            compilation,
            module: 0,
        }
    }

    /// The place of the module.
    pub fn module(&self) -> usize
        ensures { result ≡ place_of self.now }
    {
        self.module
    }

    /// The module at this place.
    pub fn at(&self, module: usize) -> Justfile<'src, 'a>
        ensures place { place_of result ≡ «module» }
        ensures same { result.compilation ≡ self.now.compilation }
    {
        Justfile {
            compilation: self.compilation,
            module,
        }
    }

    /// The recipes that are not private, by name.
    pub fn public_recipes(&self, alloc: Global) -> Result<Vec<RecipeRef<'a, 'src>>, AllocError>
        ensures { IfOk result (λ recipes. map offers.lent recipes.items ≡ offers.offered_recipes self.now.compilation.now (place_of self.now)) }
    {
        public_recipes(alloc, self.compilation, self.module)
    }

    /// The submodules that are not private, by name.
    pub fn public_modules(&self, alloc: Global) -> Result<Vec<Justfile<'src, 'a>>, AllocError>
        ensures { IfOk result (λ modules. map place_of modules.items ≡ offers.offered_modules self.now.compilation.now (place_of self.now)) }
    {
        let modules = public_modules(alloc, self.compilation, self.module)?;
        all_at(alloc, self, modules.as_slice())
    }

    /// The module itself, then its submodules that are not private, and theirs, parents first, those
    /// of one parent by name.
    pub fn public_modules_recursive(
        &self,
        alloc: Global,
    ) -> Result<Vec<Justfile<'src, 'a>>, AllocError> {
        let modules = modules_below(alloc, self.compilation, self.module)?;
        all_at(alloc, self, modules.as_slice())
    }

    /// The recipes of the module and of its submodules, theirs too, that are not private. Refused
    /// only where memory runs out.
    pub fn public_recipes_recursive(
        &self,
        alloc: Global,
    ) -> Result<Vec<RecipeRef<'a, 'src>>, AllocError> {
        let modules = modules_below(alloc, self.compilation, self.module)?;
        recipes_of(alloc, self.compilation, modules.as_slice())
    }

    /// The distinct groups of the recipes and submodules that are not private, in byte order.
    pub fn public_groups(&self, alloc: Global) -> Result<Vec<&'a str>, AllocError> {
        groups_of(alloc, self.compilation, &[self.module])
    }

    /// The same with the groups of the submodules that are not private, and theirs. Refused only
    /// where memory runs out.
    pub fn public_groups_recursive(&self, alloc: Global) -> Result<Vec<&'a str>, AllocError> {
        let modules = modules_below(alloc, self.compilation, self.module)?;
        groups_of(alloc, self.compilation, modules.as_slice())
    }

    /// The list of the module's recipes that are not private, each with what is said of it, and of
    /// its submodules that are not private.
    pub fn listing(&self, alloc: Global) -> Result<String, AllocError>
        ensures { IfOk result (λ text. string_bytes text ≡ listings.listing self.now.compilation.now (place_of self.now)) }
    {
        listing_of(alloc, self.compilation, self.module)
    }
}

/// By the module's name, which is empty for the root.
impl Keyed for Justfile<'_, '_> {
    ghost key_text = { λ justfile. offers.module_name justfile.compilation.now (place_of justfile) };

    fn key(&self) -> &str {
        module_name(self.compilation, self.module)
    }
}

/// The module's variables, aliases and recipes, each kind by name, with an empty line between two.
impl fmt::Display for Justfile<'_, '_> {
    ghost use Rattle.std.specs.Prelude.{Some};
    ghost use Rattle.justfile_analyzer.specs.Printed.{module_text};

    ghost output = { λ justfile. Some (module_text justfile.compilation.now (place_of justfile)) };

    fn fmt<W: fmt::Write>(&self, f: &mut fmt::Formatter<W>) -> fmt::Result {
        match self.compilation.module(self.module) {
            Some(node) => print_node(self.compilation, f, node),
            None => Ok(()),
        }
    }
}
