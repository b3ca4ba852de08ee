//! The recipes that dependencies and aliases name.
ghost use Rattle.std.specs.Prelude.{◌≡◌, ◌≢◌, IfErr, Ok, Err, OnOk, Some, length, option_map};
ghost use Rattle.std.specs.Result.{result_err};
ghost use Rattle.std.specs.Option.{option_and_then};
ghost use Rattle.resolve_recipes.specs.Named.{AllByName};
ghost use Rattle.resolve_recipes.specs.Disabled as disabled_spec;
ghost use Rattle.resolve_recipes.specs.Disabled.{first_refusal};
ghost use Rattle.resolve_recipes.specs.Refusals.{out_of_memory, refused, told};
ghost use Rattle.resolve_recipes.specs.Resolving as spec;
ghost use Rattle.resolve_recipes.specs.Resolving.{named_in, needs_of, places_before, recipe_or_nothing, takes_at};
ghost use Rattle.resolve_recipes.specs.Standing.{place_in};

use crate::fault::DependencyFault;
use crate::item_places::ItemPlaces;
use crate::paths::{module_at, target};
use crate::recipe_node::ValueCount;
use crate::search::find;
use just_text::{Name, Namepath};
use modules_compilation::{Compilation, Place, Target};
use std::alloc::AllocError;
use tree_items::UnresolvedDependency;

/// How many values each recipe that is kept takes, and the places of all by where they stand.
#[derive(Clone, Copy)]
pub struct RecipeResolver<'n> {
    pub counts: &'n [ValueCount],
    pub places: &'n ItemPlaces,
}

/// What a path names.
#[derive(Clone, Copy)]
pub enum Named {
    /// The recipe at this place.
    Recipe(usize),
    Module,
    Nothing,
}

/// Why a dependency stands for no recipe, without its names.
#[derive(Clone, Copy)]
enum Reason {
    ArgumentCount(usize),
    ModuleAsRecipe,
    Unknown,
}

/// The refusal of the recipe's dependency.
fn refusal<'a, 'src>(
    reason: Reason,
    recipe: Name<'src>,
    dependency: &'a Namepath<'src>,
) -> DependencyFault<'a, 'src>
    ensures { told result ≡ refused reason recipe.entry dependency.now }
{
    match reason {
        Reason::ArgumentCount(found) => DependencyFault::ArgumentCount {
            recipe,
            dependency,
            found,
        },
        Reason::ModuleAsRecipe => DependencyFault::ModuleAsRecipe(dependency),
        Reason::Unknown => DependencyFault::UnknownDependency { recipe, dependency },
    }
}

impl RecipeResolver<'_> {
    /// The place of the recipe that stands there, if it is kept.
    fn kept(&self, item: Place) -> Named
        ensures { result ≡ recipe_or_nothing (place_in self.now.places.now item) }
    {
        match self.places.get(item) {
            Some(place) => Named::Recipe(place),
            None => Named::Nothing,
        }
    }

    fn takes(&self, place: usize, found: usize) -> bool
        ensures { result ≡ takes_at self.now.counts.now place found }
    {
        match self.counts.get(place) {
            Some(count) => count.takes(found),
            None => false,
        }
    }
}

/// What the path names in the module; no alias. Takes no memory.
pub(crate) fn target_of<'src>(
    compilation: &Compilation<'src>,
    resolver: &RecipeResolver,
    module: usize,
    path: &Namepath<'src>,
) -> Named
    ensures { AllByName compilation.now → result ≡ named_in compilation.now resolver.now.places.now «module» path.now }
{
    match target(compilation, module, path.names()) {
        Target::Recipe { place, .. } => resolver.kept(place),
        Target::Module(_) => Named::Module,
        Target::Nothing => Named::Nothing,
    }
}

/// The place of the dependency's recipe.
fn place_of<'src>(
    compilation: &Compilation<'src>,
    resolver: &RecipeResolver,
    module: usize,
    dependency: &UnresolvedDependency<'src>,
) -> Result<usize, Reason>
    ensures { AllByName compilation.now → result ≡ spec.place_of compilation.now resolver.now «module» dependency.now }
{
    let found = dependency.arguments.len();
    match target_of(compilation, resolver, module, &dependency.recipe) {
        Named::Recipe(place) if resolver.takes(place, found) => Ok(place),
        Named::Recipe(_) => Err(Reason::ArgumentCount(found)),
        Named::Module => Err(Reason::ModuleAsRecipe),
        Named::Nothing => Err(Reason::Unknown),
    }
}

/// Adds the places of the dependencies' recipes. Refused where a dependency of the recipe names no
/// recipe, a module, or a recipe that takes another number of values; and where memory runs out.
pub(crate) fn add_places<'d, 'src>(
    compilation: &Compilation<'src>,
    resolver: &RecipeResolver,
    places: &mut Vec<usize>,
    module: usize,
    recipe: Name<'src>,
    dependencies: &'d [UnresolvedDependency<'src>],
) -> Result<(), DependencyFault<'d, 'src>>
    ensures ok { OnOk result (AllByName compilation.now → places_before places.old.items (needs_of compilation.now resolver.now «module» recipe.entry dependencies.now) ≡ Ok places.new.items) }
    ensures err { IfErr result (λ fault. told fault ≢ out_of_memory → AllByName compilation.now → needs_of compilation.now resolver.now «module» recipe.entry dependencies.now ≡ Err (told fault)) }
{
    for dependency in dependencies {
        match place_of(compilation, resolver, module, dependency) {
            Ok(place) => places.push(place)?,
            Err(reason) => return Err(refusal(reason, recipe, &dependency.recipe)),
        }
    }
    Ok(())
}

/// How many values the recipe at the place takes, if there is one.
fn value_count(compilation: &Compilation, place: Place) -> Option<ValueCount>
    ensures { result ≡ disabled_spec.count_at compilation.now place }
{
    match compilation.recipe(place) {
        Some(recipe) => Some(ValueCount::of(recipe.parameters.as_slice())),
        None => None,
    }
}

/// Where the disabled recipe of this name stands in the module, if there is one: the first in reading
/// order.
fn disabled_place(compilation: &Compilation, module: usize, name: &str) -> Option<Place>
    ensures { AllByName compilation.now → result ≡ disabled_spec.disabled_in compilation.now (Some «module») name.now }
{
    match compilation.module(module) {
        Some(node) => find(compilation, node.disabled.as_slice(), name),
        None => None,
    }
}

/// Where the disabled recipe stands that the path names, if there is one: the first in reading order.
fn disabled_at(compilation: &Compilation, module: usize, path: &[Name]) -> Option<Place>
    ensures { AllByName compilation.now → result ≡ disabled_spec.disabled_from compilation.now (Some «module») path.now }
{
    let (last, modules) = path.split_last()?;
    let module = module_at(compilation, module, modules)?;
    disabled_place(compilation, module, last.lexeme())
}

/// How many values the disabled recipe takes that the path names, if there is one.
fn disabled(compilation: &Compilation, module: usize, path: &[Name]) -> Option<ValueCount>
    ensures { AllByName compilation.now → result ≡ option_and_then (disabled_spec.count_at compilation.now) (disabled_spec.disabled_from compilation.now (Some «module») path.now) }
{
    let place = disabled_at(compilation, module, path)?;
    value_count(compilation, place)
}

/// Why a disabled recipe that takes this, if there is one, doesn't take so many values.
fn reason_of_count(found: usize, taken: Option<ValueCount>) -> Option<Reason>
    ensures { result ≡ disabled_spec.reason_of_count found taken }
{
    match taken {
        Some(count) if count.takes(found) => None,
        Some(_) => Some(Reason::ArgumentCount(found)),
        None => Some(Reason::Unknown),
    }
}

/// Why the disabled recipe's dependency names no recipe, disabled or not, that takes its values, if
/// it names none. Disabled recipes count only where nothing that is kept has the name.
fn reason_of<'src>(
    compilation: &Compilation<'src>,
    resolver: &RecipeResolver,
    module: usize,
    dependency: &UnresolvedDependency<'src>,
) -> Option<Reason>
    ensures { AllByName compilation.now → result ≡ disabled_spec.reason_of compilation.now resolver.now «module» dependency.now }
{
    match place_of(compilation, resolver, module, dependency) {
        Ok(_) => None,
        Err(Reason::ArgumentCount(found)) => Some(Reason::ArgumentCount(found)),
        Err(Reason::ModuleAsRecipe) => Some(Reason::ModuleAsRecipe),
        Err(Reason::Unknown) => reason_of_count(
            dependency.arguments.len(),
            disabled(compilation, module, dependency.recipe.names()),
        ),
    }
}

/// Whether each of a disabled recipe's dependencies names a recipe, disabled or not, that takes
/// its values. Refused where one names a module, nothing, or recipes that take another number of
/// values. Takes no memory.
pub fn check_dependencies<'d, 'src>(
    compilation: &Compilation<'src>,
    resolver: &RecipeResolver,
    module: usize,
    recipe: Name<'src>,
    dependencies: &'d [UnresolvedDependency<'src>],
) -> Result<(), DependencyFault<'d, 'src>>
    ensures { AllByName compilation.now → option_map told (result_err result) ≡ first_refusal compilation.now resolver.now «module» recipe.entry dependencies.now }
{
    for dependency in dependencies {
        if let Some(reason) = reason_of(compilation, resolver, module, dependency) {
            return Err(refusal(reason, recipe, &dependency.recipe));
        }
    }
    Ok(())
}
