//! Loading files into modules: which files imports and submodules reach.
#![tactic(auto)]

mod imports;
mod items;
mod load;
mod nodes;
mod queue;
mod submodules;

pub use items::items_of;
pub use load::{Parsed, load_modules, load_root};
