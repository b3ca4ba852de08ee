//! The recipes that modules keep, and those that dependencies, aliases and defaults name.
#![tactic(auto)]

pub mod aliases;
pub mod fault;
pub mod item_places;
mod names;
pub mod needs;
pub mod paths;
pub mod recipe_node;
pub mod recipe_resolver;
pub mod search;

pub use aliases::{ResolvedAlias, resolved_aliases};
pub use fault::DependencyFault;
pub use item_places::ItemPlaces;
pub use names::default_recipe;
pub use needs::{all_needs, ranks};
pub use paths::{find_variable, module_at, target};
pub use recipe_node::{RecipeNode, ValueCount, recipe_nodes, recipe_places, value_counts};
pub use recipe_resolver::{RecipeResolver, check_dependencies};
pub use search::{find_recipe, find_submodule};
