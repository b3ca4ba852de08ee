//! The recipes of all modules in their order, and what aliases stand for.
use just_text::Name;
use modules_compilation::Place;
use resolve_recipes::{ItemPlaces, ResolvedAlias};

/// A recipe, and the places of what it depends on and reads.
#[derive(Drop)]
pub struct ResolvedRecipe<'src> {
    pub name: Name<'src>,
    pub module: usize,
    /// Where it stands.
    pub place: Place,
    /// The recipes that run before its body, in order, all at lower places.
    pub priors: Vec<usize>,
    /// The recipes that run after its body, in order, all at lower places.
    pub subsequents: Vec<usize>,
    /// What it reads and calls among the module's variables and functions.
    pub reads: Vec<usize>,
}

/// The recipes of all modules, and what aliases stand for.
#[derive(Drop)]
pub struct RecipeTable<'src> {
    /// The recipes of all modules, each after those that it depends on.
    pub recipes: Vec<ResolvedRecipe<'src>>,
    /// The place of each recipe by where it stands.
    pub places: ItemPlaces,
    /// The aliases of each module.
    pub aliases: Vec<Vec<ResolvedAlias<'src>>>,
}
