//! Recipes of justfiles, read from tokens.
#![tactic(auto)]

pub mod body;
mod dependency;
mod numbering;
mod parameter;
mod parameter_names;
mod path;
pub mod recipe;
pub mod recipe_law;
mod shrinking;

pub use body::BodyRead;
pub use dependency::{dependencies, subsequents};
pub use numbering::{next_binding, next_recipe};
pub use parameter::parameters;
pub use path::namepath;
pub use recipe::RecipeRead;
