//! Items of justfiles after their attributes, read from tokens: attributes fit their item, and `arg`s give parameters
//! their options.
#![tactic(auto)]

mod bare;
mod carriers;
mod defaults;
mod fit;
pub mod item;
pub mod law;
mod names;
mod options;
mod parameters;
mod places;
mod rules;
mod split;
mod trees;

pub use bare::ItemRead;
pub use item::attributed_item;
pub use parameters::with_options;
