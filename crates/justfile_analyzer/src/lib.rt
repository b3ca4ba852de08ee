//! What a resolved justfile offers: its modules, recipes and groups, what words may name, the list of
//! recipes, and the texts of variables.
#![tactic(auto)]

mod calls;
mod justfile;
mod listing;
mod names;
mod offered;
mod padding;
mod printed;
mod recursive;
mod steady;
mod target;
mod variables;

pub use justfile::Justfile;
pub use names::menus;
pub use offered::RecipeRef;
pub use steady::is_steady;
pub use target::{EvaluationTarget, evaluation_target};
pub use tree_items::RecipeSignature;
pub use variables::variables_text;
