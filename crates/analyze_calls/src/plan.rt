//! What is run: recipes in an order, and what they rest on.
use justfile_evaluator::ExecutionContext;
use tree_items::{Recipe, UnresolvedDependency};

/// A recipe, with the places of its module and of what it depends on.
#[derive(Clone, Copy)]
pub struct Planned<'m, 'src> {
    pub recipe: &'m Recipe<'src, UnresolvedDependency<'src>>,
    /// The place of its module.
    pub module: usize,
    /// The places of the recipes that run before its body, one for each dependency.
    pub priors: &'m [usize],
    /// The places of the recipes that run after its body, one for each dependency.
    pub subsequents: &'m [usize],
}

/// Recipes, each after those that it depends on, and what each module's recipes rest on.
#[derive(Clone, Copy)]
pub struct Runner<'m, 'src> {
    pub recipes: &'m [Planned<'m, 'src>],
    pub contexts: &'m [ExecutionContext<'m, 'src>],
}

/// A recipe with what it rests on.
#[derive(Clone, Copy)]
pub struct Placed<'m, 'src> {
    pub planned: &'m Planned<'m, 'src>,
    pub context: &'m ExecutionContext<'m, 'src>,
}
