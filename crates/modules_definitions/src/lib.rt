//! What the files of modules define, and which definitions modules keep.
#![tactic(auto)]

mod definition;
mod file_range;
mod found;
mod keep;
mod lists;

pub use definition::{Definition, Kind, Space};
pub use file_range::FileRange;
pub use found::definitions;
pub use keep::{Allowed, kept};
pub use lists::put_all;
