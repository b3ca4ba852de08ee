//! What modules read, and what is known of a resolved justfile.
#![tactic(auto)]

mod analysis;
mod known_values;
mod marked;
pub mod module_lists;
pub mod module_reads;
mod module_views;
pub mod numbers;
mod opening;
mod recipes;
mod variables;

pub use analysis::Analysis;
pub use known_values::KnownValues;
pub use marked::add_marked;
pub use module_lists::{ModuleLists, all_lists};
pub use module_reads::{ModuleReads, evaluation_order, reads_of};
pub use module_views::views;
pub use numbers::number_variables;
pub use opening::collect_references;
pub use recipes::{RecipeTable, ResolvedRecipe};
pub use variables::ModuleVariables;
