//! Names, orders and constants: from the modules of a justfile to what is known of it.
#![tactic(auto)]

pub mod analyzer;
pub mod cycles;
pub mod error;
mod error_text;
pub mod known_values;
pub mod module_variables;
pub mod overrides;
pub mod recipe_table;
pub mod recipes;
pub mod settled;

pub use analyzer::Analyzer;
pub use error::Error;
pub use resolve_analysis::{
    Analysis, KnownValues, ModuleLists, ModuleVariables, RecipeTable, ResolvedRecipe,
    collect_references, number_variables, views,
};
pub use resolve_recipes::{ResolvedAlias, default_recipe};
